//! What a path leads to.

ghost use Rattle.std.specs.Prelude.{◌≡◌, IfOk, IfSome, option_map, fold, Some};
ghost use Rattle.pst_ndb.specs.Views.{image_of_node, table_of_node, nid_of, roots_of};
ghost use Rattle.pst_intact.specs.View.{image_of_intact, table_of_intact, nodes_of_intact};
ghost use Rattle.pst_verify.specs.pst_msg.View.{node_of_attachment, node_of_message};
ghost use Rattle.pst_props.specs.Found.{node_of_reached, place_of_reached, node_of_found, place_of_found};
ghost use Rattle.pst_ndb.specs.NodeIndexes.{AreNodeIndexes};
ghost use Rattle.pst_props.specs.Path.{message, attachment, place_of_shown, attachment_with, embedded_with, first_place, found_at, place_at, step, step_from};
ghost use Rattle.pst_props.specs.Told.{told_or_fault};

use crate::fault::DocFault;
use crate::lent::new_indexes;
use pst_intact::Intact;
use pst_ndb::{Node as NodeView, NodeIndexes};
use pst_value_json::{Pc, check_pc};
use pst_verify::{Attachment, Message, is_message};
use std::alloc::{AllocError, Global};

// What a path has reached.
#[derive(Clone, Copy)]
enum Reached<'a> {
    // A message.
    Message(Message<'a>),
    // An attachment of a message.
    Attachment(Attachment<'a>),
    // A node that is no message.
    Node(NodeView<'a>),
}

/// What has properties.
#[derive(Clone, Copy)]
pub(crate) enum Found<'a> {
    /// A message.
    Message(Message<'a>),
    /// An attachment of a message.
    Attachment(Attachment<'a>),
    /// Another property context.
    Pc(Pc<'a>),
}

// The node with which a path begins.
#[tactic(auto, unfolding(crate::specs::Found::node_of_kind))]
fn first<'a>(intact: &Intact<'a>, nid: u32) -> Option<Reached<'a>>
    ensures place { let nodes = nodes_of_intact intact.now in
        option_map place_of_reached result ≡ first_place nodes nid }
    ensures table { let t = table_of_intact intact.now in
        IfSome result (λ r. table_of_node (node_of_reached r) ≡ t) }
    ensures image { let file = image_of_intact intact.now in
        IfSome result (λ r. image_of_node (node_of_reached r) ≡ file) }
{
    if is_message(nid) {
        return match intact.message(nid) {
            Some(message) => Some(Reached::Message(message)),
            None => None,
        };
    }
    match intact.node(nid) {
        Some(node) => Some(Reached::Node(node)),
        None => None,
    }
}

// The attachment of a message with an identifier.
fn attachment_in(message: Message<'_>, nid: u32) -> Option<Reached<'_>>
    ensures place { let node = node_of_message message.entry in
        let there = attachment_with (table_of_node node) (roots_of node) nid in
        option_map place_of_reached result ≡ place_of_shown attachment there }
    ensures table { let t = table_of_node (node_of_message message.entry) in
        IfSome result (λ r. table_of_node (node_of_reached r) ≡ t) }
    ensures image { let file = image_of_node (node_of_message message.entry) in
        IfSome result (λ r. image_of_node (node_of_reached r) ≡ file) }
{
    match message.attachment(nid) {
        Some(attachment) => Some(Reached::Attachment(attachment)),
        None => None,
    }
}

// The message that an attachment embeds, where it has an identifier.
fn embedded_in(holder: Attachment<'_>, nid: u32) -> Option<Reached<'_>>
    ensures place { let node = node_of_attachment holder.entry in
        let there = embedded_with (table_of_node node) (roots_of node) nid in
        option_map place_of_reached result ≡ place_of_shown message there }
    ensures table { let t = table_of_node (node_of_attachment holder.entry) in
        IfSome result (λ r. table_of_node (node_of_reached r) ≡ t) }
    ensures image { let file = image_of_node (node_of_attachment holder.entry) in
        IfSome result (λ r. image_of_node (node_of_reached r) ≡ file) }
{
    match holder.embedded() {
        Some(message) if message.nid() == nid => Some(Reached::Message(message)),
        _ => None,
    }
}

// One step.
fn next(from: Reached<'_>, nid: u32) -> Option<Reached<'_>>
    ensures place { let t = table_of_node (node_of_reached from.entry) in
        option_map place_of_reached result ≡ step_from t (place_of_reached from.entry) nid }
    ensures table { let t = table_of_node (node_of_reached from.entry) in
        IfSome result (λ r. table_of_node (node_of_reached r) ≡ t) }
    ensures image { let file = image_of_node (node_of_reached from.entry) in
        IfSome result (λ r. image_of_node (node_of_reached r) ≡ file) }
{
    match from {
        Reached::Message(message) => attachment_in(message, nid),
        Reached::Attachment(attachment) => embedded_in(attachment, nid),
        Reached::Node(_) => None,
    }
}

// One step after another.
#[tactic(auto, using(crate::proofs::PathLemmas::step_on, crate::proofs::PathLemmas::steps_end))]
fn walk<'a>(from: Reached<'a>, steps: &[u32]) -> Option<Reached<'a>>
    ensures place { let t = table_of_node (node_of_reached from.entry) in
        option_map place_of_reached result ≡ fold (step t) (Some (place_of_reached from.entry)) steps.now }
    ensures table { let t = table_of_node (node_of_reached from.entry) in
        IfSome result (λ r. table_of_node (node_of_reached r) ≡ t) }
    ensures image { let file = image_of_node (node_of_reached from.entry) in
        IfSome result (λ r. image_of_node (node_of_reached r) ≡ file) }
{
    let mut at = from;
    for nid in steps {
        match next(at, *nid) {
            Some(reached) => at = reached,
            None => return None,
        }
    }
    Some(at)
}

// Steps from a node on.
fn walk_from<'a>(intact: &Intact<'a>, nid: u32, steps: &[u32]) -> Option<Reached<'a>>
    ensures place { let t = table_of_intact intact.now in
        let nodes = nodes_of_intact intact.now in
        option_map place_of_reached result ≡ fold (step t) (first_place nodes nid) steps.now }
    ensures table { let t = table_of_intact intact.now in
        IfSome result (λ r. table_of_node (node_of_reached r) ≡ t) }
    ensures image { let file = image_of_intact intact.now in
        IfSome result (λ r. image_of_node (node_of_reached r) ≡ file) }
{
    match first(intact, nid) {
        Some(reached) => walk(reached, steps),
        None => None,
    }
}

// What a path leads to.
#[tactic(auto, unfolding(crate::specs::Path::place_at))]
fn reached_by<'a>(intact: &Intact<'a>, path: &[u32]) -> Option<Reached<'a>>
    ensures place { let i = intact.now in
        option_map place_of_reached result ≡ place_at (table_of_intact i) (nodes_of_intact i) path.now }
    ensures table { let t = table_of_intact intact.now in
        IfSome result (λ r. table_of_node (node_of_reached r) ≡ t) }
    ensures image { let file = image_of_intact intact.now in
        IfSome result (λ r. image_of_node (node_of_reached r) ≡ file) }
{
    let (nid, steps) = path.split_first()?;
    walk_from(intact, *nid, steps)
}

impl<'a> Found<'a> {
    ghost use Rattle.std.specs.Prelude.{◌≡◌};
    ghost use Rattle.pst_value_json.specs.pst_pc.View.{node_of_pc};
    ghost use Rattle.pst_props.specs.Found.{node_of_found};

    /// Its properties.
    pub(crate) fn pc(&self) -> Pc<'a>
        ensures { node_of_pc result ≡ node_of_found self.now }
    {
        match self {
            Found::Message(message) => message.pc(),
            Found::Attachment(attachment) => attachment.pc(),
            Found::Pc(pc) => *pc,
        }
    }
}

/// The indexes of what a path leads to, where that is a node that is no message. Of all else none is made.
pub(crate) fn index_at(
    alloc: Global,
    intact: &Intact,
    path: &[u32],
) -> Result<NodeIndexes, AllocError>
    ensures { IfOk result (AreNodeIndexes (table_of_intact intact.now)) }
{
    match reached_by(intact, path) {
        Some(Reached::Node(node)) => NodeIndexes::of(alloc, node),
        _ => Ok(new_indexes(alloc)),
    }
}

// A node, which is lent these indexes, where there are any.
fn lent<'a>(node: NodeView<'a>, index: Option<&'a NodeIndexes>) -> NodeView<'a>
    requires { IfSome index (λ i. AreNodeIndexes (table_of_node node) i.now) }
    ensures roots { roots_of result ≡ roots_of node.entry }
    ensures image { image_of_node result ≡ image_of_node node.entry }
    ensures table { table_of_node result ≡ table_of_node node.entry }
    ensures nid { nid_of result ≡ nid_of node.entry }
{
    match index {
        Some(index) => index.lend(node),
        None => node,
    }
}

/// What a path leads to that has properties, or why there is none. A node that is no message is lent its indexes, if they are given.
#[tactic(auto, unfolding(crate::specs::Path::found_at))]
pub(crate) fn found_in<'a>(
    intact: &Intact<'a>,
    path: &[u32],
    index: Option<&'a NodeIndexes>,
) -> Result<Found<'a>, DocFault>
    requires { IfSome index (λ x. AreNodeIndexes (table_of_intact intact.now) x.now) }
    ensures place { let i = intact.now in
        told_or_fault place_of_found result ≡ found_at (table_of_intact i) (nodes_of_intact i) path.now }
    ensures table { let t = table_of_intact intact.now in
        IfOk result (λ f. table_of_node (node_of_found f) ≡ t) }
    ensures image { let file = image_of_intact intact.now in
        IfOk result (λ f. image_of_node (node_of_found f) ≡ file) }
{
    match reached_by(intact, path) {
        Some(Reached::Message(message)) => Ok(Found::Message(message)),
        Some(Reached::Attachment(attachment)) => Ok(Found::Attachment(attachment)),
        Some(Reached::Node(node)) => match check_pc(lent(node, index)) {
            Ok(pc) => Ok(Found::Pc(pc)),
            Err(fault) => Err(DocFault::Bad(fault)),
        },
        None => Err(DocFault::NoNode),
    }
}
