//! What is found in a message, up to one that it embeds and that has to be gone through first.

ghost use Rattle.std.specs.Prelude.{◌≡◌, None, Some, IfOk, IfErr};
ghost use Rattle.pst_fault.specs.Fault.{no_memory};
ghost use Rattle.pst_subnode.specs.Tree.{sub_fault};
ghost use Rattle.pst_ndb.specs.Views.{table_of_node, sub_bid_of, roots_of};
ghost use Rattle.pst_tc.specs.Fault.{tc_fault};
ghost use Rattle.pst_tc.specs.Values.{tc_rows};
ghost use Rattle.pst_remembered.specs.declared.role.Role.TheVariants.{Properties};
ghost use Rattle.pst_msg.specs.Counts.{HasMessage, HasAttachment};
ghost use Rattle.pst_mail.specs.Fault.{attachment_row_fault, held_fault, message_at, embedded_fault, attachment_at, below_message, below_attachment};
ghost use Rattle.pst_msg.specs.Frames.{IsOpening, IsMessageOpened, EmbedsKnown, IsObjectOpened, AttachmentKnown, IsAttachmentOpened, IsRowKnown, IsRowOpened, HoldsAttachment, row_named};
ghost use Rattle.pst_msg.specs.Growth.{Grows};
ghost use Rattle.pst_msg.specs.Known.{ContextIn, WholeIn, IsTrueOf};
ghost use Rattle.pst_msg.specs.Rest.{rows_of_table_left, table_of_rest};
ghost use Rattle.pst_mail.specs.Values.{embedded_of};

use crate::context::once;
use crate::frame::Frame;
use crate::known::KnownParts;
use crate::recipients::check_recipients;
use crate::remember::{refuse_held, remember_attachment, remember_held, remember_message};
use crate::rest::{CountedRows, NumberedRows, Rest};
use pst_fault::{Fault, Kind};
use pst_mail::{ATTACHMENT, ATTACHMENTS, Object, embedded, is_type, named};
use pst_ndb::Node;
use pst_pc::known_pc;
use pst_remembered::{Role, RowName, key_of, key_of_list, part_of_list, retold};
use pst_tc::known_tc;

// The rows of an attachment table without fault.
fn rows_of<'a>(table: Node<'a>, known: &mut KnownParts) -> Result<Rest<'a>, Fault>
    requires sound { tc_fault (table_of_node table) (roots_of table) ≡ None }
    requires known { IsTrueOf (table_of_node table) known.old }
    ensures known { IsTrueOf (table_of_node table.entry) known.new }
    ensures grows { Grows (table_of_node table.entry) (λ nodes. Unit {0}) known.old known.new }
    ensures left { let t = table_of_node table.entry in
        IfOk result (λ rest. rows_of_table_left rest ≡ tc_rows t (roots_of table.entry)) }
    ensures table { IfOk result (λ rest. table_of_rest rest ≡ table_of_node table.entry) }
    ensures memory { IfErr result (λ f. f ≡ no_memory) }
{
    if let Some(count) = known.row_names.count(known.index.lend(table))? {
        return Ok(Rest::Numbered(NumberedRows::of(table, count)));
    }
    let most = known.row_counts.of(table)?;
    Ok(Rest::Rows(CountedRows::of(known_tc(table).rows(), most)))
}

// What a message holds in its list of subnodes, up to the rows of its attachment table; where it has none, the message is
// remembered. A fault is known from then on.
#[tactic(auto, unfolding(pst_mail::specs::Fault::held_fault, pst_mail::specs::Fault::attachments_fault))]
fn open_held<'a>(
    node: Node<'a>,
    limit: u32,
    holder: Option<Node<'a>>,
    known: &mut KnownParts,
) -> Result<Option<Frame<'a>>, Fault>
    requires sound { sub_fault (table_of_node node) limit (sub_bid_of node) ≡ None }
    requires known { IsTrueOf (table_of_node node) known.old }
    requires properties { ContextIn known.old Properties (roots_of node) }
    ensures opening { let t = table_of_node node.entry in let r = roots_of node.entry in
        IsOpening t known.old known.new (λ nodes. HasMessage t nodes r)
        (held_fault t (below_message t limit) r) (WholeIn known.new.messages r)
        (IsMessageOpened t known.new r limit holder.entry) result }
{
    if let Err(fault) = check_recipients(node, known) {
        return Err(refuse_held(node, limit, fault, known));
    }
    match known.index.subnode(node, ATTACHMENTS) {
        Some(table) => {
            if let Err(fault) = once(known, Role::Attachments, table) {
                return Err(refuse_held(node, limit, fault, known));
            }
            let rest = rows_of(table, known)?;
            Ok(Some(Frame {
                holder,
                node,
                bid: table.bid_data(),
                rest,
                limit,
            }))
        }
        None => {
            remember_held(node, known)?;
            Ok(None)
        }
    }
}

// What a message holds in its list of subnodes, unless that is known to have a fault.
fn open_list<'a>(
    node: Node<'a>,
    limit: u32,
    holder: Option<Node<'a>>,
    known: &mut KnownParts,
) -> Result<Option<Frame<'a>>, Fault>
    requires sound { sub_fault (table_of_node node) limit (sub_bid_of node) ≡ None }
    requires known { IsTrueOf (table_of_node node) known.old }
    requires properties { ContextIn known.old Properties (roots_of node) }
    ensures opening { let t = table_of_node node.entry in let r = roots_of node.entry in
        IsOpening t known.old known.new (λ nodes. HasMessage t nodes r)
        (held_fault t (below_message t limit) r) (WholeIn known.new.messages r)
        (IsMessageOpened t known.new r limit holder.entry) result }
{
    if let Some(fault) = known.broken_lists.get(part_of_list(node)) {
        return Err(retold(fault, node.top()));
    }
    open_held(node, limit, holder, known)
}

/// A message, which this attachment embeds if one does, unless it is remembered: up to the rows of its attachment table.
pub(crate) fn open_message<'a>(
    node: Node<'a>,
    limit: u32,
    holder: Option<Node<'a>>,
    known: &mut KnownParts,
) -> Result<Option<Frame<'a>>, Fault>
    requires sound { sub_fault (table_of_node node) limit (sub_bid_of node) ≡ None }
    requires known { IsTrueOf (table_of_node node) known.old }
    ensures opening { let t = table_of_node node.entry in let r = roots_of node.entry in
        IsOpening t known.old known.new (λ nodes. HasMessage t nodes r) (message_at t limit r)
        (WholeIn known.new.messages r) (IsMessageOpened t known.new r limit holder.entry) result }
{
    if known.messages.has(key_of(0, node)) {
        return Ok(None);
    }
    once(known, Role::Properties, node)?;
    if known.lists.has(key_of_list(node)) {
        remember_message(node, known)?;
        return Ok(None);
    }
    open_list(node, limit, holder, known)
}

// The message that an attachment embeds.
#[tactic(auto, unfolding(pst_mail::specs::Fault::embedded_fault))]
fn open_embedded<'a>(
    node: Node<'a>,
    object: Object,
    limit: u32,
    known: &mut KnownParts,
) -> Result<Option<Frame<'a>>, Fault>
    requires sound { sub_fault (table_of_node node) limit (sub_bid_of node) ≡ None }
    requires known { IsTrueOf (table_of_node node) known.old }
    ensures opening { let t = table_of_node node.entry in let r = roots_of node.entry in
        IsOpening t known.old known.new
        (λ nodes. HasAttachment t nodes r × (embedded_of t r ≡ Some object))
        (embedded_fault t (below_attachment t limit) r object)
        (EmbedsKnown t known.new r object)
        (IsObjectOpened t known.new node.entry limit object) result }
{
    match known.index.subnode(node, object.nid) {
        Some(sub) => open_message(sub, limit - 1, Some(node), known),
        None => Err(named(Kind::NodeMissing, object.at, node.bid_data(), object.nid)),
    }
}

// An attachment that is not remembered.
fn open_part<'a>(
    node: Node<'a>,
    limit: u32,
    known: &mut KnownParts,
) -> Result<Option<Frame<'a>>, Fault>
    requires sound { sub_fault (table_of_node node) limit (sub_bid_of node) ≡ None }
    requires known { IsTrueOf (table_of_node node) known.old }
    ensures opening { let t = table_of_node node.entry in let r = roots_of node.entry in
        IsOpening t known.old known.new (λ nodes. HasAttachment t nodes r) (attachment_at t limit r)
        (AttachmentKnown t known.new r) (IsAttachmentOpened t known.new node.entry limit) result }
{
    once(known, Role::Properties, node)?;
    match embedded(&known_pc(known.index.lend(node))) {
        Some(object) => open_embedded(node, object, limit, known),
        None => Ok(None),
    }
}

// An attachment, unless it is remembered: up to a message that it embeds.
fn open_attachment<'a>(
    node: Node<'a>,
    limit: u32,
    known: &mut KnownParts,
) -> Result<Option<Frame<'a>>, Fault>
    requires sound { sub_fault (table_of_node node) limit (sub_bid_of node) ≡ None }
    requires known { IsTrueOf (table_of_node node) known.old }
    ensures opening { let t = table_of_node node.entry in let r = roots_of node.entry in
        IsOpening t known.old known.new (λ nodes. HasAttachment t nodes r) (attachment_at t limit r)
        (WholeIn known.new.attachments r) (IsAttachmentOpened t known.new node.entry limit) result }
{
    if known.attachments.has(key_of(0, node)) {
        return Ok(None);
    }
    if let Some(frame) = open_part(node, limit, known)? {
        return Ok(Some(frame));
    }
    remember_attachment(node, known)?;
    Ok(None)
}

/// A row of the attachment table of a message: the attachment that it names, up to a message that this embeds.
#[tactic(auto, unfolding(pst_mail::specs::Fault::attachment_row_fault))]
pub(crate) fn open_row<'a>(
    node: Node<'a>,
    bid: u64,
    row: RowName,
    limit: u32,
    known: &mut KnownParts,
) -> Result<Option<Frame<'a>>, Fault>
    requires sound { sub_fault (table_of_node node) limit (sub_bid_of node) ≡ None }
    requires known { IsTrueOf (table_of_node node) known.old }
    ensures opening { let t = table_of_node node.entry in let r = roots_of node.entry in
        IsOpening t known.old known.new (λ nodes. HoldsAttachment t nodes r row.id)
        (attachment_row_fault t (below_message t limit) r bid (row_named row))
        (IsRowKnown t known.new r limit bid (row_named row))
        (IsRowOpened t known.new r limit bid (row_named row)) result }
{
    match known.indexes.subnode(node, row.id) {
        Some(sub) => {
            if !is_type(ATTACHMENT, row.id) {
                return Err(named(Kind::NodeKind, row.at, bid, row.id));
            }
            open_attachment(sub, limit - 1, known)
        }
        None => Err(named(Kind::NodeMissing, row.at, bid, row.id)),
    }
}
