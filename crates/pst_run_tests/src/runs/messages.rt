//! `props` of messages, of their attachments, and of what these embed.

use super::check_cases::Answer::{No, Yes};
use super::check_cases::{Asked, Body, LIST_OF_ONE, Store, are_asked};
use super::heaps::{Held, TABLE};
use std::test::Fail;

// The first bytes of a subnode list of four entries.
const LIST_OF_FOUR: [u8; 8] = [2, 0, 4, 0, 0, 0, 0, 0];

// A table of two recipients, 1 and 2. The second has no time, no truth value, and an empty name.
const RECIPIENTS: [&[u8]; 5] = [
    // Item 0x20, TCINFO: four columns; cells of 4 and 8 bytes end at 16, of 1 byte at 17, a row at 18.
    &[
        0x7c, 4, 16, 0, 16, 0, 17, 0, 18, 0, //
        0x40, 0, 0, 0, 0x80, 0, 0, 0, 0, 0, 0, 0, //
        0x1f, 0, 0x01, 0x30, 4, 0, 4, 1, // 3001, a text, at 4, bit 1
        0x40, 0, 0x07, 0x30, 8, 0, 8, 2, // 3007, a time, at 8, bit 2
        0x0b, 0, 0x40, 0x3a, 16, 0, 1, 3, // 3A40, a truth value, at 16, bit 3
        0x03, 0, 0xf2, 0x67, 0, 0, 4, 0, // 67F2, the identifier of the row, at 0, bit 0
    ],
    // Item 0x40, the row index, and item 0x60, its records.
    &[0xb5, 4, 4, 0, 0x60, 0, 0, 0],
    &[1, 0, 0, 0, 0, 0, 0, 0, 2, 0, 0, 0, 1, 0, 0, 0],
    // Item 0x80, the rows. The time is 132,000,000,000,000,000.
    &[
        1, 0, 0, 0, 0xa0, 0, 0, 0, 0x00, 0x00, 0x5a, 0xf6, 0x4c, 0xf5, 0xd4, 0x01, 1, 0xf0, //
        2, 0, 0, 0, 0, 0, 0, 0, 9, 9, 9, 9, 9, 9, 9, 9, 9, 0xc0,
    ],
    // Item 0xA0.
    b"A\0n\0n\0",
];

/// Message 0x200044 has two recipients and two attachments, of which the first, 0x8025, is message 0x200024. Message 0x200068, which
/// belongs to a folder itself, has none.
pub(super) const MESSAGES: Store<'static> = Store::Wider(
    &[
        (12, Body::Rows(&[0x8025, 0x8045])),
        (
            16,
            Body::Properties(&[
                (
                    0x3701,
                    0x000D,
                    Held::Item(&[0x24, 0, 0x20, 0, 100, 0, 0, 0]),
                ),
                (0x3705, 0x0003, Held::Here([5, 0, 0, 0])),
            ]),
        ),
        (
            20,
            Body::Properties(&[
                (0x3701, 0x0102, Held::Item(&[0xab, 0xcd])),
                (0x3705, 0x0003, Held::Here([1, 0, 0, 0])),
            ]),
        ),
        (24, Body::Heap(TABLE, &RECIPIENTS)),
        (30, Body::Names(LIST_OF_ONE, &[0x200024, 8, 0])),
        (
            34,
            Body::Names(
                LIST_OF_FOUR,
                &[0x671, 12, 0, 0x692, 24, 0, 0x8025, 16, 30, 0x8045, 20, 0],
            ),
        ),
    ],
    &[(0x200044, 8, 34), (0x200068, 8, 0)],
);

const ROWS: [Asked<'static>; 16] = [
    (
        &["props", "store.pst", "0x200044"],
        Yes(
            "{\"attachments\":[{\"embedded\":\"0x200024\",\"nid\":\"0x8025\",\"props\":[{\"id\":\"3701\",\"type\":\"000D\",\"value\":{\"nid\":\"0x200024\",\"size\":100}},{\"id\":\"3705\",\"type\":\"0003\",\"value\":5}]},{\"embedded\":null,\"nid\":\"0x8045\",\"props\":[{\"id\":\"3701\",\"type\":\"0102\",\"value\":\"abcd\"},{\"id\":\"3705\",\"type\":\"0003\",\"value\":1}]}],\"nid\":\"0x200044\",\"props\":[{\"id\":\"3602\",\"type\":\"0003\",\"value\":5}],\"recipients\":[{\"cells\":[{\"tag\":\"3001001F\",\"value\":\"Ann\"},{\"tag\":\"30070040\",\"value\":132000000000000000},{\"tag\":\"3A40000B\",\"value\":true},{\"tag\":\"67F20003\",\"value\":1}],\"row\":\"0x1\"},{\"cells\":[{\"tag\":\"3001001F\",\"value\":\"\"},{\"tag\":\"67F20003\",\"value\":2}],\"row\":\"0x2\"}]}\n",
        ),
    ),
    (
        &["props", "store.pst", "0x200068"],
        Yes(
            "{\"attachments\":[],\"nid\":\"0x200068\",\"props\":[{\"id\":\"3602\",\"type\":\"0003\",\"value\":5}],\"recipients\":[]}\n",
        ),
    ),
    (
        &["props", "store.pst", "0x200024"],
        No("no node 0x200024\n"),
    ),
    (&["props", "store.pst", "0x8025"], No("no node 0x8025\n")),
    (&["props", "store.pst", "0x4"], No("no node 0x4\n")),
    (
        &["props", "store.pst", "0x200044/0x8025"],
        Yes(
            "{\"embedded\":\"0x200024\",\"nid\":\"0x8025\",\"props\":[{\"id\":\"3701\",\"type\":\"000D\",\"value\":{\"nid\":\"0x200024\",\"size\":100}},{\"id\":\"3705\",\"type\":\"0003\",\"value\":5}]}\n",
        ),
    ),
    // A path of two lines: an attachment that embeds nothing, and the message that the other embeds, which has no attachments.
    (
        &[
            "props",
            "store.pst",
            "0x200044/0x8045",
            "0x200044/0x8025/0x0200024",
        ],
        Yes(
            "{\"embedded\":null,\"nid\":\"0x8045\",\"props\":[{\"id\":\"3701\",\"type\":\"0102\",\"value\":\"abcd\"},{\"id\":\"3705\",\"type\":\"0003\",\"value\":1}]}\n{\"attachments\":[],\"nid\":\"0x200024\",\"props\":[{\"id\":\"3602\",\"type\":\"0003\",\"value\":5}],\"recipients\":[]}\n",
        ),
    ),
    // The embedded message of the other attachment, the table of attachments, a subnode of no row, and a message that has none.
    (
        &["props", "store.pst", "0x200044/0x8045/0x200024"],
        No("no node 0x200044/0x8045/0x200024\n"),
    ),
    (
        &["props", "store.pst", "0x200044/0x671"],
        No("no node 0x200044/0x671\n"),
    ),
    (
        &["props", "store.pst", "0x200044/0x692"],
        No("no node 0x200044/0x692\n"),
    ),
    (
        &["props", "store.pst", "0x200044/0x0"],
        No("no node 0x200044/0x0\n"),
    ),
    (
        &["props", "store.pst", "0x200044/0x200024"],
        No("no node 0x200044/0x200024\n"),
    ),
    (
        &["props", "store.pst", "0x200068/0x8025"],
        No("no node 0x200068/0x8025\n"),
    ),
    (
        &["props", "store.pst", "0x200044/0x8025/0x200024/0x8025"],
        No("no node 0x200044/0x8025/0x200024/0x8025\n"),
    ),
    // From a node that is no message there is no step, be it a property context or not.
    (
        &["props", "store.pst", "0x200044", "0x21/0x8025", "0x999"],
        No("no node 0x21/0x8025\n"),
    ),
    (
        &["props", "store.pst", "0x999/0x8025/0x1/0x000A"],
        No("no node 0x999/0x8025/0x1/0xa\n"),
    ),
];

#[test]
fn attachments_and_recipients_are_shown(rt: HostRuntime) -> Result<(), Fail> {
    are_asked(&rt, MESSAGES, &[], &ROWS)
}
