//! `check` over stores whose messages and attachments belong together or do not.

use super::check_cases::Answer::{No, Yes};
use super::check_cases::{Body, Case, LIST_OF_ONE, LIST_OF_TWO, Store, are_answered};
use pst_make::Change::{Block, Set};
use std::test::Fail;

// An attachment table of one row, 0x8025.
const ATTACHMENTS: [u8; 78] = [
    // The header of the heap, whose page map is at 64 and whose root is item 0x20.
    64, 0, 0xec, 0x7c, 0x20, 0, 0, 0, 0, 0, 0, 0, //
    // Item 0x20, TCINFO: one column, of 4 bytes; the byte that says whether it is there is at 4.
    0x7c, 1, 4, 0, 4, 0, 4, 0, 5, 0, //
    0x40, 0, 0, 0, 0x80, 0, 0, 0, 0, 0, 0, 0, //
    3, 0, 0xf2, 0x67, 0, 0, 4, 0, //
    // Item 0x40, the row index, and item 0x60, its record at 50.
    0xb5, 4, 4, 0, 0x60, 0, 0, 0, //
    0x25, 0x80, 0, 0, 0, 0, 0, 0, //
    // Item 0x80, the row at 58, and a byte that is not used.
    0x25, 0x80, 0, 0, 0x80, 0, //
    // The page map.
    4, 0, 0, 0, 12, 0, 42, 0, 50, 0, 58, 0, 63, 0,
];

// The properties of an attachment that is a message.
const ATTACHMENT: [u8; 56] = [
    // The header of the heap, whose page map is at 44 and whose root is item 0x20.
    44, 0, 0xec, 0xbc, 0x20, 0, 0, 0, 0, 0, 0, 0, //
    // Item 0x20, the BTH, and item 0x40, its records: 3701, an object in item 0x60, and 3705, the method 5.
    0xb5, 2, 6, 0, 0x40, 0, 0, 0, //
    0x01, 0x37, 0x0d, 0, 0x60, 0, 0, 0, //
    0x05, 0x37, 0x03, 0, 5, 0, 0, 0, //
    // Item 0x60 at 36, the object: subnode 0x200024, of 100 bytes.
    0x24, 0, 0x20, 0, 100, 0, 0, 0, //
    // The page map.
    3, 0, 0, 0, 12, 0, 20, 0, 36, 0, 44, 0,
];

// Message 0x200044 with one attachment, 0x8025, which is message 0x200024. Both have the root folder's properties. The table
// stands at 0x4c80, the attachment at 0x4d00, its list of subnodes at 0x4d80, and the message's list at 0x4dc0.
const EMBEDDED: Store<'static> = Store::Wider(
    &[
        (12, Body::Bytes(&ATTACHMENTS)),
        (16, Body::Bytes(&ATTACHMENT)),
        (22, Body::Names(LIST_OF_ONE, &[0x200024, 8, 0])),
        (
            26,
            Body::Names(LIST_OF_TWO, &[0x671, 12, 0, 0x8025, 16, 22]),
        ),
    ],
    &[(0x200044, 8, 26)],
);

/// Bad messages.
pub(super) const MESSAGES: [Case<'static>; 6] = [
    Case {
        what: "an attachment without the message that it is",
        store: EMBEDDED,
        changes: &[Set(0x4d88, &[0x44]), Block(0x4d80, 32)],
        answer: No("no: 26 NodeMissing at 0x4d24 bid 0x10 nid 0x200024\n"),
    },
    Case {
        what: "an attachment that is a message without properties",
        store: EMBEDDED,
        changes: &[Set(0x4d90, &[12]), Block(0x4d80, 32)],
        answer: No("no: 21 Heap at 0x4c80 bid 0xc nid 0x200044\n"),
    },
    Case {
        what: "a row without its attachment",
        store: EMBEDDED,
        changes: &[Set(0x4de0, &[0x45]), Block(0x4dc0, 56)],
        answer: No("no: 26 NodeMissing at 0x4cb2 bid 0xc nid 0x8025\n"),
    },
    Case {
        what: "a row of no attachment",
        store: EMBEDDED,
        changes: &[
            Set(0x4cb2, &[0x24]),
            Set(0x4cba, &[0x24]),
            Block(0x4c80, 78),
            Set(0x4de0, &[0x24]),
            Block(0x4dc0, 56),
        ],
        answer: No("no: 27 NodeKind at 0x4cb2 bid 0xc nid 0x8024\n"),
    },
    Case {
        what: "an attachment without properties",
        store: EMBEDDED,
        changes: &[Set(0x4de8, &[12]), Block(0x4dc0, 56)],
        answer: No("no: 21 Heap at 0x4c80 bid 0xc nid 0x200044\n"),
    },
    Case {
        what: "recipients that are no table",
        store: EMBEDDED,
        changes: &[Set(0x4dc8, &[0x92]), Set(0x4dd0, &[8]), Block(0x4dc0, 56)],
        answer: No("no: 21 Heap at 0x4c40 bid 0x8 nid 0x200044\n"),
    },
];

const WITH_ONE_MESSAGE: &str =
    "{\"blocks\":6,\"folders\":1,\"lost\":[],\"messages\":1,\"nodes\":3,\"order\":\"high\",\"pages\":2,\"verdict\":\"yes\"}\n";

const GOOD: [Case<'static>; 3] = [
    Case {
        what: "an attachment that is a message",
        store: EMBEDDED,
        changes: &[],
        answer: Yes(WITH_ONE_MESSAGE),
    },
    Case {
        what: "an attachment without an object",
        store: EMBEDDED,
        changes: &[Set(0x4d14, &[0x02]), Block(0x4d00, 56)],
        answer: Yes(WITH_ONE_MESSAGE),
    },
    Case {
        what: "an object of an attachment of another method",
        store: EMBEDDED,
        changes: &[
            Set(0x4d20, &[1]),
            Block(0x4d00, 56),
            Set(0x4d88, &[0x44]),
            Block(0x4d80, 32),
        ],
        answer: Yes(WITH_ONE_MESSAGE),
    },
];

#[test]
fn bad_messages_are_refused(rt: HostRuntime) -> Result<(), Fail> {
    are_answered(&rt, &MESSAGES)
}

#[test]
fn embedded_messages_are_followed(rt: HostRuntime) -> Result<(), Fail> {
    are_answered(&rt, &GOOD)
}
