//! The check of a store's messaging.

ghost use Rattle.std.specs.Prelude.{◌≡◌, ◌≤◌, Some, OnOk, IfErr};
ghost use Rattle.std.specs.List.{Contains};
ghost use Rattle.pst_fault.specs.Each.{first_of, if_there};
ghost use Rattle.pst_fault.specs.Fault.{no_memory};
ghost use Rattle.pst_fault.specs.First.{Tells};
ghost use Rattle.pst_ndb.specs.Roots.{Roots, node_in, all_roots};
ghost use Rattle.pst_ndb.specs.Views.{table_of_node, table_of_ndb, nodes_of, roots_of};
ghost use Rattle.pst_names.specs.declared.name_map.TheConstants.{NAME_MAP};
ghost use Rattle.pst_remembered.specs.declared.role.Role.TheVariants.{Properties};
ghost use Rattle.pst_msg.specs.Counts.{Names, IsRaised};
ghost use Rattle.pst_mail.specs.Fault.{required_fault, name_map_fault, typed_node_fault, messaging_fault};
ghost use Rattle.pst_mail.specs.Grammar.{Contents};
ghost use Rattle.pst_msg.specs.Growth.{Grows, PropertiesIn, NodeIn, AllIn};
ghost use Rattle.pst_msg.specs.Known.{ContextIn, ListingsAreTrue, IsTrueOf};

use crate::context::once;
use crate::folder::check_folder;
use crate::known::KnownParts;
use crate::message::check_message;
use pst_fault::{Fault, Kind};
use pst_mail::{FOLDER, ROOT, SEARCH_FOLDER, STORE, is_message, is_type, named};
use pst_names::{NAME_MAP, check_names};
use pst_ndb::{Ndb, Node, Work};
use pst_pc::known_pc;
use pst_remembered::{NodeSet, Role};
use std::alloc::Global;

// A node that every store has.
#[tactic(auto, unfolding(pst_mail::specs::Fault::required_fault))]
fn check_required(ndb: &Ndb, nid: u32, known: &mut KnownParts) -> Result<(), Fault>
    requires { IsTrueOf (table_of_ndb ndb.now) known.old }
    ensures known { IsTrueOf (table_of_ndb ndb.now) known.new }
    ensures grows { let t = table_of_ndb ndb.now in let N = nodes_of ndb.now in
        Grows t (λ nodes. (nodes ≡ N)
        × ((r : Roots) → node_in nodes nid ≡ Some r → Names t nodes Properties r))
        known.old known.new }
    ensures there { OnOk result (PropertiesIn (nodes_of ndb.now) known.new nid) }
    ensures exact { Tells result (required_fault (table_of_ndb ndb.now) (nodes_of ndb.now) nid) tt }
{
    match ndb.node(nid) {
        Some(node) => {
            once(known, Role::Properties, node)?;
            Ok(())
        }
        None => Err(named(Kind::NodeMissing, 0, 0, nid)),
    }
}

/// Checks the name map of a node: its properties, then what they say.
#[tactic(auto, unfolding(pst_mail::specs::Fault::name_map_fault))]
pub(crate) fn check_map(node: Node, known: &mut KnownParts) -> Result<(), Fault>
    requires { IsTrueOf (table_of_node node) known.old }
    ensures known { IsTrueOf (table_of_node node.entry) known.new }
    ensures grows { let t = table_of_node node.entry in
        Grows t (λ nodes. Names t nodes Properties (roots_of node.entry)) known.old known.new }
    ensures there { OnOk result (ContextIn known.new Properties (roots_of node.entry)) }
    ensures exact { let t = table_of_node node.entry in
        Tells result (name_map_fault t (roots_of node.entry)) tt }
{
    once(known, Role::Properties, node)?;
    check_names(known.alloc, &known_pc(known.index.lend(node)))?;
    Ok(())
}

// The name map, where its node is there.
fn check_name_map(ndb: &Ndb, known: &mut KnownParts) -> Result<(), Fault>
    requires { IsTrueOf (table_of_ndb ndb.now) known.old }
    ensures known { IsTrueOf (table_of_ndb ndb.now) known.new }
    ensures grows { let t = table_of_ndb ndb.now in let N = nodes_of ndb.now in
        Grows t (λ nodes. (nodes ≡ N)
        × ((r : Roots) → node_in nodes NAME_MAP ≡ Some r → Names t nodes Properties r))
        known.old known.new }
    ensures there { OnOk result (PropertiesIn (nodes_of ndb.now) known.new NAME_MAP) }
    ensures exact { let t = table_of_ndb ndb.now in
        Tells result (if_there (name_map_fault t) (node_in (nodes_of ndb.now) NAME_MAP)) tt }
{
    match ndb.node(NAME_MAP) {
        Some(node) => check_map(node, known),
        None => Ok(()),
    }
}

// A node, by its type.
#[tactic(auto, unfolding(pst_mail::specs::Fault::typed_node_fault))]
fn check_node(
    ndb: &Ndb,
    node: Node,
    known: &mut KnownParts,
    listings: &mut NodeSet,
) -> Result<(), Fault>
    requires table { table_of_node node ≡ table_of_ndb ndb.now }
    requires known { IsTrueOf (table_of_ndb ndb.now) known.old }
    requires listings { ListingsAreTrue (table_of_ndb ndb.now) (nodes_of ndb.now) listings.old }
    ensures known { IsTrueOf (table_of_ndb ndb.now) known.new }
    ensures listings { ListingsAreTrue (table_of_ndb ndb.now) (nodes_of ndb.now) listings.new }
    ensures grows { let N = nodes_of ndb.now in let r = roots_of node.entry in
        Grows (table_of_ndb ndb.now) (λ nodes. (nodes ≡ N) × Contains (all_roots nodes) r)
        known.old known.new }
    ensures there { OnOk result (NodeIn (nodes_of ndb.now) known.new (roots_of node.entry)) }
    ensures exact { let t = table_of_ndb ndb.now in
        Tells result (typed_node_fault t (nodes_of ndb.now) (roots_of node.entry)) tt }
{
    let nid = node.top();
    if is_type(FOLDER, nid) {
        return check_folder(ndb, node, known, listings);
    }
    if is_type(SEARCH_FOLDER, nid) {
        once(known, Role::Properties, node)?;
        return Ok(());
    }
    if is_message(nid) {
        return check_message(node, known);
    }
    Ok(())
}

// All nodes, in order.
fn check_nodes(ndb: &Ndb, known: &mut KnownParts, listings: &mut NodeSet) -> Result<(), Fault>
    requires known { IsTrueOf (table_of_ndb ndb.now) known.old }
    requires listings { ListingsAreTrue (table_of_ndb ndb.now) (nodes_of ndb.now) listings.old }
    ensures known { IsTrueOf (table_of_ndb ndb.now) known.new }
    ensures listings { ListingsAreTrue (table_of_ndb ndb.now) (nodes_of ndb.now) listings.new }
    ensures grows { let N = nodes_of ndb.now in
        Grows (table_of_ndb ndb.now) (λ nodes. nodes ≡ N) known.old known.new }
    ensures there { let N = nodes_of ndb.now in
        OnOk result ((r : Roots) → Contains (all_roots N) r → NodeIn N known.new r) }
    ensures exact { let t = table_of_ndb ndb.now in let N = nodes_of ndb.now in
        Tells result (first_of (typed_node_fault t N) (all_roots N)) tt }
{
    for node in ndb.nodes() {
        check_node(ndb, node, known, listings)?;
    }
    Ok(())
}

// The check, with the fault that it gives.
#[tactic(auto, unfolding(pst_mail::specs::Fault::messaging_fault))]
fn check_all(ndb: &Ndb, known: &mut KnownParts, listings: &mut NodeSet) -> Result<(), Fault>
    requires known { IsTrueOf (table_of_ndb ndb.now) known.old }
    requires listings { ListingsAreTrue (table_of_ndb ndb.now) (nodes_of ndb.now) listings.old }
    ensures known { IsTrueOf (table_of_ndb ndb.now) known.new }
    ensures listings { ListingsAreTrue (table_of_ndb ndb.now) (nodes_of ndb.now) listings.new }
    ensures grows { let N = nodes_of ndb.now in
        Grows (table_of_ndb ndb.now) (λ nodes. nodes ≡ N) known.old known.new }
    ensures there { OnOk result (AllIn (nodes_of ndb.now) known.new) }
    ensures exact { Tells result (messaging_fault (table_of_ndb ndb.now) (nodes_of ndb.now)) tt }
{
    check_required(ndb, STORE, known)?;
    check_required(ndb, ROOT, known)?;
    check_name_map(ndb, known)?;
    check_nodes(ndb, known, listings)
}

/// Checks the messaging of a node database ([MS-PST] 2.4), and answers its first fault, in this order:
///
/// - the node of the store, which has to be there, NodeMissing, and to have properties, as `check_pc` answers; and that of the
///   root folder likewise;
/// - then the name map, where its node is there: its properties, and of these what `check_names` answers;
/// - then the nodes in order of their identifiers:
///   - a folder: its properties; then its tables of subfolders, of messages and of associated messages, where they are there,
///     each as `check_tc` answers, and right after each its rows in order of their identifiers: NodeMissing at the record of the
///     row index, where there is no node of that identifier; NodeKind there, where that is of another type;
///   - a search folder: its properties;
///   - a message: its properties; its table of recipients and its table of attachments, where they are there, as `check_tc`
///     answers; and for each row of the latter, in order of their identifiers, NodeMissing at the record of the row index, where
///     the message has no subnode of that identifier; NodeKind there, where that is not of the type of attachments; and the
///     attachment, whole: its properties; and where it embeds a message, NodeMissing at the value that names it, where the
///     attachment has no such subnode, and that message, whole, by the same rules.
///
/// What is found without fault is remembered, by the blocks of its data and of its subnodes, and passed over where it is met again:
/// contexts in each role, messages, attachments; the rows of folders' tables by the data alone, and of a message all that its list of
/// subnodes holds, by that list alone. The messages that are being gone through stand on a stack in memory, so they may nest as deep
/// as lists of subnodes do. NoMemory where memory is refused.
pub fn check_messaging(alloc: Global, ndb: &Ndb, work: &mut Work) -> Result<(), Fault>
    // Which fault it is, and that there is none where it answers so.
    ensures exact { Tells result (messaging_fault (table_of_ndb ndb.now) (nodes_of ndb.now)) tt }

    // What passes is messaging as the format says; and what is so passes, unless memory ran out.
    ensures found { OnOk result (Contents (table_of_ndb ndb.now) (nodes_of ndb.now)) }
    ensures only { Contents (table_of_ndb ndb.now) (nodes_of ndb.now) →
        IfErr result (λ f. f ≡ no_memory) }

    // At a yes the count of contexts is raised by the number of those that are named; at no outcome has it fallen, and the
    // other counts stay.
    ensures raised { let t = table_of_ndb ndb.now in
        OnOk result (IsRaised t (nodes_of ndb.now) work.old.contexts work.new.contexts) }
    ensures risen { work.old.contexts ≤ work.new.contexts }
    ensures pages { work.new.pages ≡ work.old.pages }
    ensures sums { work.new.sums ≡ work.old.sums }
    ensures expansions { work.new.expansions ≡ work.old.expansions }
    ensures walked { work.new.walked ≡ work.old.walked }
{
    let mut known = KnownParts::new(alloc, work.contexts);
    let mut listings = NodeSet::new(alloc);
    let answer = check_all(ndb, &mut known, &mut listings);
    known.contexts.are_sorted();
    ndb.is_sound();
    work.contexts = known.count;
    answer
}
