//! `messages`: all messages of a store, and the folders that list them.

use super::check_cases::Answer::{No, Yes};
use super::check_cases::{Asked, Body, Store, are_asked};
use super::heaps::Held;
use super::messages::MESSAGES;
use pst_make::Change::Flip;
use std::test::Fail;

// Times, the lowest byte first: 132,000,000,000,000,000 steps of 100 nanoseconds, which is 17 April 2019, 18:40, and one more;
// 2,650,467,743,999,999,999 of them, the last of the year 9999, and one more.
const SENT: [u8; 8] = [0x00, 0x00, 0x5a, 0xf6, 0x4c, 0xf5, 0xd4, 0x01];

const RECEIVED: [u8; 8] = [0x01, 0x00, 0x5a, 0xf6, 0x4c, 0xf5, 0xd4, 0x01];

const LAST: [u8; 8] = [0xff, 0x3f, 0xc0, 0xd1, 0x5e, 0x5a, 0xc8, 0x24];

const BEHIND: [u8; 8] = [0x00, 0x40, 0xc0, 0xd1, 0x5e, 0x5a, 0xc8, 0x24];

// Five messages, with texts of other types, times of other types and behind the year 9999, and sizes of other types. Folders 0x142
// and 0x162 list them; the last is in no folder. Search folder 0x163 has no contents table, though there is a node that would be
// it by its number (0x16e, which is that of 0x162); message 0x200008 belongs to a folder itself.
const LISTED: Store<'static> = Store::Wider(
    &[
        (
            12,
            Body::Properties(&[
                (0x001A, 0x001F, Held::Item(b"I\0P\0M\0.\0N\0o\0t\0e\0")),
                (0x0037, 0x001F, Held::Item(b"f\0i\0r\0s\0t\0")),
                (0x0039, 0x0040, Held::Item(&SENT)),
                (0x0E06, 0x0040, Held::Item(&RECEIVED)),
                (0x0E08, 0x0003, Held::Here([0, 0x10, 0, 0])),
            ]),
        ),
        (
            16,
            Body::Properties(&[
                (0x001A, 0x001F, Held::Item(b"I\0P\0M\0.\0N\0o\0t\0e\0")),
                (0x0037, 0x001E, Held::Item(b"eight bits")),
                (0x0E06, 0x0040, Held::Item(&[0; 8])),
                (0x0E08, 0x0003, Held::Here([0xff; 4])),
            ]),
        ),
        (
            20,
            Body::Properties(&[
                (0x0037, 0x001F, Held::Item(b"A\0\x00\xd8")),
                (0x0039, 0x0040, Held::Item(&BEHIND)),
                (0x0E06, 0x0040, Held::Item(&LAST)),
                (0x0E08, 0x0014, Held::Item(&[7, 0, 0, 0, 0, 0, 0, 0])),
            ]),
        ),
        (24, Body::Properties(&[(0x0E06, 0x0014, Held::Item(&SENT))])),
        (
            28,
            Body::Properties(&[
                (
                    0x0037,
                    0x001F,
                    Held::Item(b"i\0n\0 \0n\0o\0 \0f\0o\0l\0d\0e\0r\0"),
                ),
                (0x0E06, 0x0040, Held::Item(&[0xff; 8])),
            ]),
        ),
        (32, Body::Rows(&[0x200004, 0x200024])),
        (36, Body::Rows(&[0x200024, 0x200044, 0x200064])),
    ],
    &[
        (0x142, 8, 0),
        (0x14e, 32, 0),
        (0x162, 8, 0),
        (0x163, 8, 0),
        (0x16e, 36, 0),
        (0x200004, 12, 0),
        (0x200008, 8, 0),
        (0x200024, 16, 0),
        (0x200044, 20, 0),
        (0x200064, 24, 0),
        (0x200084, 28, 0),
    ],
);

// Their lines are those of another program, of a store with the same messages and folders.
const LISTED_LINES: &str = concat!(
    "{\"attachments\":0,\"class\":\"IPM.Note\",\"folders\":[\"0x142\"],\"nid\":\"0x200004\",\"received\":\"2019-04-17T18:40:00.0000001Z\",\"recipients\":0,\"sender\":null,\"sent\":\"2019-04-17T18:40:00.0000000Z\",\"size\":4096,\"subject\":\"first\"}\n",
    "{\"attachments\":0,\"class\":\"IPM.Note\",\"folders\":[\"0x142\",\"0x162\"],\"nid\":\"0x200024\",\"received\":\"1601-01-01T00:00:00.0000000Z\",\"recipients\":0,\"sender\":null,\"sent\":null,\"size\":-1,\"subject\":null}\n",
    "{\"attachments\":0,\"class\":null,\"folders\":[\"0x162\"],\"nid\":\"0x200044\",\"received\":\"9999-12-31T23:59:59.9999999Z\",\"recipients\":0,\"sender\":null,\"sent\":null,\"size\":null,\"subject\":\"A�\"}\n",
    "{\"attachments\":0,\"class\":null,\"folders\":[\"0x162\"],\"nid\":\"0x200064\",\"received\":null,\"recipients\":0,\"sender\":null,\"sent\":null,\"size\":null,\"subject\":null}\n",
    "{\"attachments\":0,\"class\":null,\"folders\":[],\"nid\":\"0x200084\",\"received\":null,\"recipients\":0,\"sender\":null,\"sent\":null,\"size\":null,\"subject\":\"in no folder\"}\n",
);

// A message with attachments and recipients, which no folder lists; the message that it embeds is no node, and has no line.
const HELD_LINE: &str =
    "{\"attachments\":2,\"class\":null,\"folders\":[],\"nid\":\"0x200044\",\"received\":null,\"recipients\":2,\"sender\":null,\"sent\":null,\"size\":null,\"subject\":null}\n";

// The words, and what is answered to them.
const fn lines(text: &str) -> [Asked<'_>; 1] {
    [(&["messages", "store.pst"], Yes(text))]
}

#[test]
fn all_messages_are_listed(rt: HostRuntime) -> Result<(), Fail> {
    are_asked(&rt, LISTED, &[], &lines(LISTED_LINES))?;
    are_asked(&rt, MESSAGES, &[], &lines(HELD_LINE))
}

#[test]
fn a_store_without_messages_has_no_lines(rt: HostRuntime) -> Result<(), Fail> {
    for store in [Store::M0, Store::M1, Store::M2] {
        are_asked(&rt, store, &[], &lines(""))?;
    }
    Ok(())
}

#[test]
fn a_damaged_file_has_none(rt: HostRuntime) -> Result<(), Fail> {
    let rows: [Asked<'_>; 1] = [(
        &["messages", "store.pst"],
        No("no: 14 BlockTrailer at 0x4c40 bid 0x8 nid 0x0\n"),
    )];
    are_asked(&rt, Store::M0, &[Flip(0x4c74)], &rows)
}
