//! What a message holds, and what its attachments embed.

ghost use Rattle.std.specs.Prelude.{◌≡◌};
ghost use Rattle.pst_ndb.specs.NodeIndexes.{AreNodeIndexes};
ghost use Rattle.pst_ndb.specs.Views.{table_of_node};
ghost use Rattle.pst_msg.specs.View.{holder_left};

use super::bodies::{EMBEDS, NAMES_NOTHING};
use super::{Store, image, store_of};
use crate::told::{MEMORY, holds, is};
use pst_msg::{Attachments, Message};
use pst_ndb::NodeIndexes;
use std::alloc::Global;
use std::process::Abort;

fn put_recipient<R: Abort>(rt: &R, alloc: Global, line: &mut String, id: u32) {
    let text = format!(in alloc; "{id:x} ").expect(rt, MEMORY);
    line.push_str(&text).expect(rt, MEMORY);
}

// An attachment, found by its identifier, whether it has a method, and the message that it embeds.
fn attached(message: Message, nid: u32) -> Option<(u32, bool, u32)> {
    let again = message.attachment(nid)?;
    let method = again.pc().get(0x3705).is_some();
    let embedded = match again.embedded() {
        Some(inner) => inner.nid(),
        None => 0,
    };
    Some((again.nid(), method, embedded))
}

fn put_attachment<R: Abort>(rt: &R, alloc: Global, line: &mut String, message: Message, nid: u32) {
    let Some((nid, method, embedded)) = attached(message, nid) else {
        rt.panic("not found");
    };
    let text = format!(in alloc; "[{nid:x} {method} {embedded:x}] ").expect(rt, MEMORY);
    line.push_str(&text).expect(rt, MEMORY);
}

// A message: its recipients, and its attachments, each with the message that it embeds.
fn message_line<R: Abort>(rt: &R, alloc: Global, message: Message) -> String {
    let mut line = String::new(alloc);
    if let Some(tc) = message.recipients() {
        for row in tc.rows() {
            put_recipient(rt, alloc, &mut line, row.id());
        }
    }
    for attachment in message.attachments() {
        put_attachment(rt, alloc, &mut line, message, attachment.nid());
    }
    line
}

// The next attachment of a message, and the message that it embeds, found by the indexes of nodes.
fn attached_by(rest: &mut Attachments, indexes: &NodeIndexes) -> Option<(u32, u32)>
    requires { AreNodeIndexes (table_of_node (holder_left rest.old)) indexes.now }
    ensures { holder_left rest.new ≡ holder_left rest.old }
{
    let attachment = rest.next_by(indexes)?;
    let embedded = match attachment.embedded_by(indexes) {
        Some(inner) => inner.nid(),
        None => 0,
    };
    Some((attachment.nid(), embedded))
}

const ATTACHMENTS: [(&[u8], &str); 2] = [
    (&EMBEDS, "200024 200044 [8025 false 0] [8045 true 200024] "),
    (
        &NAMES_NOTHING,
        "200024 200044 [8025 false 0] [8045 true 0] ",
    ),
];

fn is_shown<R: Abort + AllocGlobal>(rt: &R, message: Message, line: &str) {
    let told = message_line(rt, rt.alloc(), message);
    is(rt, told.as_str(), line);
}

// The same by an index of its subnodes.
fn is_shown_by_index<R: Abort + AllocGlobal>(rt: &R, message: Message, line: &str) {
    let Ok(index) = message.node().index(rt.alloc()) else {
        rt.panic("no memory");
    };
    is_shown(rt, message.indexed(&index), line);
}

fn message_in<'a, R: Abort>(rt: &R, store: &Store<'a>, nid: u32) -> Message<'a> {
    store.message(nid).expect(rt, "no message")
}

fn are_found<R: Abort + AllocGlobal>(rt: &R, attachment: &[u8], line: &str) {
    let image = image(rt, rt.alloc(), attachment);
    let store = store_of(rt, rt.alloc(), &image);
    let message = message_in(rt, &store, 0x20_0024);
    is_shown(rt, message, line);
    is_shown_by_index(rt, message, line);
    holds(rt, message.attachment(0x8065).is_none());
    let other = message_in(rt, &store, 0x20_0044);
    is_shown(rt, other, "");
    holds(rt, other.attachment(0x8025).is_none());
}

#[test]
fn attachments_are_found(rt: HostRuntime) {
    for (attachment, line) in &ATTACHMENTS {
        are_found(&rt, attachment, line);
    }
}

#[test]
fn attachments_by_the_indexes_of_nodes(rt: HostRuntime) {
    let image = image(&rt, rt.alloc(), &EMBEDS);
    let store = store_of(&rt, rt.alloc(), &image);
    let message = message_in(&rt, &store, 0x20_0024);
    let indexes = NodeIndexes::of(rt.alloc(), message.node()).expect(&rt, MEMORY);
    let mut rest = message.attachments_by(&indexes);
    is(&rt, attached_by(&mut rest, &indexes), Some((0x8025, 0)));
    is(
        &rt,
        attached_by(&mut rest, &indexes),
        Some((0x8045, 0x20_0024)),
    );
    is(&rt, attached_by(&mut rest, &indexes), None);
    let rows = match message.attachment_table_by(&indexes) {
        Some(table) => table.row_count(),
        None => 0,
    };
    is(&rt, rows, 2);
}

#[test]
fn an_embedded_message_is_one(rt: HostRuntime) {
    let image = image(&rt, rt.alloc(), &EMBEDS);
    let store = store_of(&rt, rt.alloc(), &image);
    let message = message_in(&rt, &store, 0x20_0024);
    let attachment = message.attachment(0x8045).expect(&rt, "no attachment");
    let inner = attachment.embedded().expect(&rt, "no message");
    is(&rt, inner.nid(), 0x20_0024);
    is(&rt, inner.node().bid_data(), 16);
    is(&rt, inner.node().bid_sub(), 0);
    holds(&rt, inner.recipients().is_none());
    holds(&rt, inner.pc().get(0x0037).is_none());
    is_shown(&rt, inner, "");
}
