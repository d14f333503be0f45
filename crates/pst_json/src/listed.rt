//! What the rows of a contents table name.

ghost use Rattle.std.specs.Prelude.{◌≡◌, IfOk, IfSome, OnOk, option_map};
ghost use Rattle.pst_block.specs.Table.{Table};
ghost use Rattle.pst_ndb.specs.Views.{table_of_node, roots_of};
ghost use Rattle.pst_intact.specs.View.{table_of_intact, nodes_of_intact};
ghost use Rattle.pst_whole.specs.View.{lost_in};
ghost use Rattle.pst_value_json.specs.pst_pc.View.{node_of_pc};
ghost use Rattle.pst_value_json.specs.pst_tc.View.{row_parts};
ghost use Rattle.pst_verify.specs.pst_msg.Values.{is_message};
ghost use Rattle.pst_verify.specs.pst_msg.View.{node_of_message, message_roots};
ghost use Rattle.pst_verify.specs.pst_store.Kind.{node_of_kind};
ghost use Rattle.pst_json.specs.Contents.{text_there, listed_message_data, told_data, listed_row_data};
ghost use Rattle.pst_ndb.specs.NodeIndexes.{AreNodeIndexes};

use pst_damage_json::write_fault;
use pst_fault::Fault;
use pst_intact::Intact;
use pst_ndb::NodeIndexes;
use pst_props::{CLASS, SENDER, SUBJECT, lend_message, write_text_property};
use pst_value_json::{Leaf, Pc, Pen, Row};
use pst_verify::Message;
use pst_whole::Lost;
use std::alloc::{AllocError, Global};

// How many texts of a message are looked up, each of which may be a subnode.
const TEXTS: u64 = 3;

// The message that a row names, where that is there. The index turns to its list.
fn message_in<'a>(
    alloc: Global,
    intact: &Intact<'a>,
    nid: u32,
    index: &mut NodeIndexes,
) -> Result<Option<Message<'a>>, AllocError>
    requires { AreNodeIndexes (table_of_intact intact.now) index.old }
    ensures known { AreNodeIndexes (table_of_intact intact.now) index.new }
    ensures roots { let nodes = nodes_of_intact intact.now in
        IfOk result (λ m. option_map message_roots m ≡ node_of_kind is_message nodes nid) }
    ensures table { let t = table_of_intact intact.now in
        IfOk result (λ m. IfSome m (λ x. table_of_node (node_of_message x) ≡ t)) }
{
    match intact.message(nid) {
        Some(message) => {
            index.turn(alloc, message.node(), TEXTS)?;
            Ok(Some(message))
        }
        None => Ok(None),
    }
}

// The properties of a message, where that is there, which is lent its indexes.
fn properties_of<'a>(message: Option<Message<'a>>, index: &'a NodeIndexes) -> Option<Pc<'a>>
    requires { IfSome message (λ m. AreNodeIndexes (table_of_node (node_of_message m)) index.now) }
    ensures roots { option_map (λ p. roots_of (node_of_pc p)) result ≡
        option_map message_roots message.entry }
    ensures table { (t : Table) → IfSome message.entry (λ m. table_of_node (node_of_message m) ≡ t)
        → IfSome result (λ p. table_of_node (node_of_pc p) ≡ t) }
{
    match message {
        Some(message) => { Some(lend_message(index, message).pc()) }
        None => None,
    }
}

// Writes the text of one of these properties; null where there are none.
fn write_text_of<P: Pen>(
    alloc: Global,
    pc: &Option<Pc>,
    id: u16,
    pen: &mut P,
) -> Result<(), AllocError>
    ensures put { (t : Table) → IfSome pc.now (λ p. table_of_node (node_of_pc p) ≡ t)
        → OnOk result (P.Puts pen.old pen.new
        (text_there t (option_map (λ p. roots_of (node_of_pc p)) pc.now) id)) }
    ensures kept { (base : P) → P.Keeps base pen.old → P.Keeps base pen.new }
{
    match pc {
        Some(pc) => write_text_property(alloc, pc, id, pen),
        None => pen.leaf(alloc, &Leaf::Null),
    }
}

// Writes the message that a row names, as an object.
#[tactic(auto, unfolding(crate::specs::Contents::listed_message_data))]
fn write_listed<P: Pen>(
    alloc: Global,
    intact: &Intact,
    row: Row,
    index: &mut NodeIndexes,
    pen: &mut P,
) -> Result<(), AllocError>
    requires { AreNodeIndexes (table_of_intact intact.now) index.old }
    ensures known { AreNodeIndexes (table_of_intact intact.now) index.new }
    ensures put { let t = table_of_intact intact.now in
        let shown = listed_message_data t (nodes_of_intact intact.now) (row_parts row.entry) in
        OnOk result (P.Puts pen.old pen.new shown) }
    ensures kept { (base : P) → P.Keeps base pen.old → P.Keeps base pen.new }
{
    let message = message_in(alloc, intact, row.id(), index)?;
    let pc = properties_of(message, index);
    pen.first(alloc, "class", b"{\"class\":")?;
    write_text_of(alloc, &pc, CLASS, pen)?;
    pen.next(alloc, "nid", b",\"nid\":")?;
    pen.leaf(alloc, &Leaf::Nid(Some(row.id())))?;
    pen.next(alloc, "sender", b",\"sender\":")?;
    write_text_of(alloc, &pc, SENDER, pen)?;
    pen.next(alloc, "subject", b",\"subject\":")?;
    write_text_of(alloc, &pc, SUBJECT, pen)?;
    pen.close(alloc)
}

// Writes a fault, in place of the message with an identifier, as an object.
#[tactic(auto, unfolding(crate::specs::Contents::told_data))]
fn write_told<P: Pen>(alloc: Global, fault: &Fault, nid: u32, pen: &mut P) -> Result<(), AllocError>
    ensures put { OnOk result (P.Puts pen.old pen.new (told_data fault.now nid)) }
    ensures kept { (base : P) → P.Keeps base pen.old → P.Keeps base pen.new }
{
    pen.first(alloc, "fault", b"{\"fault\":")?;
    write_fault(alloc, fault, pen)?;
    pen.next(alloc, "nid", b",\"nid\":")?;
    pen.leaf(alloc, &Leaf::Nid(Some(nid)))?;
    pen.close(alloc)
}

/// Writes what a row names, as an object: the message, or what is told of it.
#[tactic(auto, unfolding(crate::specs::Contents::listed_row_data))]
pub(crate) fn write_listed_row<P: Pen>(
    alloc: Global,
    intact: &Intact,
    lost: &Lost,
    row: Row,
    index: &mut NodeIndexes,
    pen: &mut P,
) -> Result<(), AllocError>
    requires { AreNodeIndexes (table_of_intact intact.now) index.old }
    ensures known { AreNodeIndexes (table_of_intact intact.now) index.new }
    ensures put { let t = table_of_intact intact.now in
        let shown = listed_row_data t (nodes_of_intact intact.now) (lost_in lost.now) (row_parts row.entry) in
        OnOk result (P.Puts pen.old pen.new shown) }
    ensures kept { (base : P) → P.Keeps base pen.old → P.Keeps base pen.new }
{
    match lost.told(row.id()) {
        Some(fault) => write_told(alloc, &fault, row.id(), pen),
        None => write_listed(alloc, intact, row, index, pen),
    }
}
