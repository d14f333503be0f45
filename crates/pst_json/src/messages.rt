//! All messages of a store, a line for each.

ghost use Rattle.std.specs.Prelude.{◌≡◌, ◌++◌, IfOk, OnOk};
ghost use Rattle.serde_json.specs.Written.{compact_text};
ghost use Rattle.pst_ndb.specs.Views.{table_of_node, roots_of, nid_of, top_of};
ghost use Rattle.pst_intact.specs.View.{table_of_intact, nodes_of_intact};
ghost use Rattle.pst_value_json.specs.pst_pc.View.{node_of_pc};
ghost use Rattle.pst_verify.specs.pst_msg.View.{node_of_message, message_roots};
ghost use Rattle.pst_value_json.specs.pst_text.Line.{data_line};
ghost use Rattle.pst_ndb.specs.NodeIndexes.{AreNodeIndexes};
ghost use Rattle.pst_json.specs.Listings.{folders_listing};
ghost use Rattle.pst_json.specs.Messages.{time_property, number_property, summary_data, messages_text as text_of_messages};
ghost use Rattle.pst_json.specs.RowCounts.{AreCountsTrue, IsHeld};

use crate::listings::{Listings, listings_of};
use crate::nid_lists::write_nids;
use crate::row_counts::{Held, RowCounts};
use pst_intact::Intact;
use pst_ndb::NodeIndexes;
use pst_props::{CLASS, SENDER, SUBJECT, lend_message, new_indexes, write_text_property};
use pst_value_json::{
    Pc, PropType, put_i32_or_null, put_natural, put_nid, put_null, put_time_or_null,
};
use pst_verify::{MESSAGE, Message, is_type};
use std::alloc::{AllocError, Global};

/// When a message was received (PidTagMessageDeliveryTime).
pub(crate) const RECEIVED: u16 = 0x0E06;

/// When a message was sent (PidTagClientSubmitTime).
pub(crate) const SENT: u16 = 0x0039;

/// How many bytes a message takes (PidTagMessageSize).
pub(crate) const SIZE: u16 = 0x0E08;

// The types of times (PtypTime) and of numbers of 4 bytes (PtypInteger32).
const TIME: PropType = PropType(0x0040);

const NUMBER: PropType = PropType(0x0003);

// Puts the time of the property with an identifier behind a text; null where there is none, or it has another type.
#[tactic(auto, unfolding(crate::specs::Messages::time_property))]
fn put_time_property(pc: &Pc, id: u16, text: &mut Vec<u8>) -> Result<(), AllocError>
    ensures { let node = node_of_pc pc.now in
        let shown = time_property (table_of_node node) (roots_of node) id in
        OnOk result (text.new.items ≡ text.old.items ++ compact_text shown) }
{
    match pc.get(id) {
        Some(prop) if prop.kind == TIME => put_time_or_null(&prop.value, text),
        _ => put_null(text),
    }
}

// Puts the number of the property with an identifier behind a text; null where there is none, or it has another type.
#[tactic(auto, unfolding(crate::specs::Messages::number_property))]
fn put_number_property(pc: &Pc, id: u16, text: &mut Vec<u8>) -> Result<(), AllocError>
    ensures { let node = node_of_pc pc.now in
        let shown = number_property (table_of_node node) (roots_of node) id in
        OnOk result (text.new.items ≡ text.old.items ++ compact_text shown) }
{
    match pc.get(id) {
        Some(prop) if prop.kind == NUMBER => put_i32_or_null(&prop.value, text),
        _ => put_null(text),
    }
}

// Puts a message in short behind a text, as an object.
#[tactic(auto, unfolding(crate::specs::Messages::summary_data))]
fn put_shown(
    alloc: Global,
    message: Message,
    held: Held,
    folders: &[u32],
    text: &mut Vec<u8>,
) -> Result<(), AllocError>
    requires nid { nid_of (node_of_message message) ≡ top_of (node_of_message message) }
    requires held { IsHeld (table_of_node (node_of_message message)) (message_roots message) held }
    ensures { let t = table_of_node (node_of_message message.entry) in
        let shown = summary_data t (message_roots message.entry) folders.now in
        OnOk result (text.new.items ≡ text.old.items ++ compact_text shown) }
{
    let pc = message.pc();
    text.extend_from_slice(b"{\"attachments\":")?;
    put_natural(held.attachments, text)?;
    text.extend_from_slice(b",\"class\":")?;
    write_text_property(alloc, &pc, CLASS, text)?;
    text.extend_from_slice(b",\"folders\":")?;
    write_nids(alloc, folders, text)?;
    text.extend_from_slice(b",\"nid\":")?;
    put_nid(message.nid(), text)?;
    text.extend_from_slice(b",\"received\":")?;
    put_time_property(&pc, RECEIVED, text)?;
    text.extend_from_slice(b",\"recipients\":")?;
    put_natural(held.recipients, text)?;
    text.extend_from_slice(b",\"sender\":")?;
    write_text_property(alloc, &pc, SENDER, text)?;
    text.extend_from_slice(b",\"sent\":")?;
    put_time_property(&pc, SENT, text)?;
    text.extend_from_slice(b",\"size\":")?;
    put_number_property(&pc, SIZE, text)?;
    text.extend_from_slice(b",\"subject\":")?;
    write_text_property(alloc, &pc, SUBJECT, text)?;
    text.push(b'}')?;
    Ok(())
}

// How many properties of a message are looked up, each of which may be a subnode.
const VALUES: u64 = 6;

// Puts the line of a message behind a text.
#[tactic(auto, unfolding(pst_text::specs::Line::data_line))]
fn put_summary(
    alloc: Global,
    message: Message,
    listings: &Listings,
    counts: &mut RowCounts,
    index: &mut NodeIndexes,
    text: &mut Vec<u8>,
) -> Result<(), AllocError>
    requires nid { nid_of (node_of_message message) ≡ top_of (node_of_message message) }
    requires known { AreCountsTrue (table_of_node (node_of_message message)) counts.old }
    requires index { AreNodeIndexes (table_of_node (node_of_message message)) index.old }
    ensures known { AreCountsTrue (table_of_node (node_of_message message.entry)) counts.new }
    ensures index { AreNodeIndexes (table_of_node (node_of_message message.entry)) index.new }
    ensures put { let t = table_of_node (node_of_message message.entry) in
        let r = message_roots message.entry in
        OnOk result (text.new.items ≡ text.old.items
        ++ data_line (summary_data t r (folders_listing listings.now r.top))) }
{
    let held = counts.held_by(message)?;
    index.turn(alloc, message.node(), VALUES)?;
    let lent = lend_message(index, message);
    put_shown(alloc, lent, held, listings.of(message.nid()), text)?;
    text.push(b'\n')?;
    Ok(())
}

/// The lines of all messages of a store, of the nodes of type 04 in the order of their identifiers: of each an object with how
/// many attachments and recipients it has, its class, the folders that list it, its identifier, when it was received and sent,
/// who sent it, its size, and its subject. A message that no folder lists is there, too. Beside the text, memory is taken for
/// one message at a time; some 100 bytes for each message that folders list, and up to 8 for each folder that lists it; 20 for
/// each table that folders have, and 4 for each message that is there in one that several have; some 60 for each list of
/// subnodes, and 40 for each table of more than 2,048 bytes, that messages name; and for indexes of lists.
#[tactic(auto, using(crate::proofs::MessageLemmas::all_there, crate::proofs::MessageLemmas::lines_are, crate::proofs::MessageLemmas::line_put, crate::proofs::MessageLemmas::line_passed, crate::proofs::MessageLemmas::lines_end))]
pub fn messages_text(alloc: Global, intact: &Intact) -> Result<Vec<u8>, AllocError>
    ensures { let i = intact.now in
        IfOk result (λ t. t.items ≡ text_of_messages (table_of_intact i) (nodes_of_intact i)) }
{
    let listings = listings_of(alloc, intact)?;
    let mut counts = RowCounts::new(alloc);
    let mut index = new_indexes(alloc);
    let mut text = Vec::new(alloc);
    for message in intact.messages() {
        if is_type(MESSAGE, message.nid()) {
            put_summary(
                alloc,
                message,
                &listings,
                &mut counts,
                &mut index,
                &mut text,
            )?;
        }
    }
    Ok(text)
}
