//! `props` of nodes with properties of each type: how their values are shown.

use super::check_cases::{Body, LIST_OF_ONE, Store, ends_with, store_of};
use super::heaps::Held::{Here, Item, Subnode};
use super::heaps::Numbered;
use std::alloc::Global;
use std::process::Abort;
use std::test::Fail;

type Row = Numbered<'static>;

// Single values. Those of 4 bytes and less stand in the record itself, with bytes behind them that say nothing.
const SINGLE: [Row; 20] = [
    (0x0002, Here([0xfe, 0xff, 1, 1]), "-2"),
    (0x0003, Here([0xff, 0xff, 0xff, 0xff]), "-1"),
    (0x0004, Here([0, 0, 0x80, 0x3f]), "\"0000803f\""),
    (0x000A, Here([0xff, 0xff, 0xff, 0xff]), "4294967295"),
    (0x000B, Here([2, 0, 0, 0]), "true"),
    (0x000B, Here([0, 1, 1, 1]), "false"),
    (0x0000, Here([1, 2, 3, 4]), "\"01020304\""),
    (0x2003, Here([0, 0, 0, 0]), "\"00000000\""),
    (
        0x0005,
        Item(&[0, 0, 0, 0, 0, 0, 0xf0, 0x3f]),
        "\"000000000000f03f\"",
    ),
    (
        0x0006,
        Item(&[0xfe, 0xff, 0xff, 0xff, 0xff, 0xff, 0xff, 0xff]),
        "-2",
    ),
    (
        0x0007,
        Item(&[0, 0, 0, 0, 0, 0, 0xf0, 0xbf]),
        "\"000000000000f0bf\"",
    ),
    (
        0x0014,
        Item(&[0, 0, 0, 0, 0, 0, 0, 0x80]),
        "-9223372036854775808",
    ),
    (
        0x0040,
        Item(&[0xff, 0xff, 0xff, 0xff, 0xff, 0xff, 0xff, 0xff]),
        "18446744073709551615",
    ),
    (
        0x0048,
        Item(&[0x28, 3, 2, 0, 4, 0, 5, 0, 0xc0, 0, 0, 0, 0, 0, 0, 0x46]),
        "\"00020328-0004-0005-c000-000000000046\"",
    ),
    (
        0x000D,
        Item(&[0x24, 0, 0x20, 0, 7, 0, 0, 0, 9]),
        "{\"nid\":\"0x200024\",\"size\":7}",
    ),
    (0x001E, Item(b"M0"), "\"4d30\""),
    (0x001F, Item(b"M\x000\0"), "\"M0\""),
    (0x00FD, Item(&[0x0a]), "\"0a\""),
    (0x0102, Item(&[0xab, 0xcd, 0xef]), "\"abcdef\""),
    (0x1000, Here([0xfe, 0, 0, 0]), "\"fe000000\""),
];

// Values of no bytes.
const EMPTY: [Row; 16] = [
    (0x0005, Here([0, 0, 0, 0]), "null"),
    (0x0006, Here([0, 0, 0, 0]), "null"),
    (0x0007, Here([0, 0, 0, 0]), "null"),
    (0x000D, Here([0, 0, 0, 0]), "null"),
    (0x0014, Here([0, 0, 0, 0]), "null"),
    (0x0040, Here([0, 0, 0, 0]), "null"),
    (0x0048, Here([0, 0, 0, 0]), "null"),
    (0x001E, Here([0, 0, 0, 0]), "\"\""),
    (0x001F, Here([0, 0, 0, 0]), "\"\""),
    (0x001F, Item(&[]), "\"\""),
    (0x0102, Here([0, 0, 0, 0]), "\"\""),
    (0x0102, Subnode(0x41), "\"\""),
    (0x1002, Here([0, 0, 0, 0]), "[]"),
    (0x1048, Here([0, 0, 0, 0]), "[]"),
    (0x101F, Here([0, 0, 0, 0]), "[]"),
    (0x1102, Here([0, 0, 0, 0]), "[]"),
];

// Several values in one: without a count, and with a count and the place of each.
const MULTIPLE: [Row; 14] = [
    (0x1002, Item(&[1, 0, 0xfe, 0xff]), "[1,-2]"),
    (
        0x1003,
        Item(&[1, 0, 0, 0, 0xfe, 0xff, 0xff, 0xff]),
        "[1,-2]",
    ),
    (0x1004, Item(&[0, 0, 0x80, 0x3f]), "[\"0000803f\"]"),
    (
        0x1005,
        Item(&[0, 0, 0, 0, 0, 0, 0xf0, 0x3f]),
        "[\"000000000000f03f\"]",
    ),
    (
        0x1014,
        Item(&[0xff, 0xff, 0xff, 0xff, 0xff, 0xff, 0xff, 0xff]),
        "[-1]",
    ),
    (
        0x1040,
        Item(&[1, 0, 0, 0, 0, 0, 0, 0x80]),
        "[9223372036854775809]",
    ),
    (
        0x1048,
        Item(&[0x28, 3, 2, 0, 4, 0, 5, 0, 0xc0, 0, 0, 0, 0, 0, 0, 0x46]),
        "[\"00020328-0004-0005-c000-000000000046\"]",
    ),
    (0x101E, Item(&[1, 0, 0, 0, 8, 0, 0, 0, 0x4d]), "[\"4d\"]"),
    (
        0x101F,
        Item(&[
            2, 0, 0, 0, 12, 0, 0, 0, 14, 0, 0, 0, 0x41, 0, 0x42, 0, 0x43, 0,
        ]),
        "[\"A\",\"BC\"]",
    ),
    (0x101F, Item(&[0, 0, 0, 0]), "[]"),
    (
        0x1102,
        Item(&[2, 0, 0, 0, 12, 0, 0, 0, 12, 0, 0, 0, 0xab]),
        "[\"\",\"ab\"]",
    ),
    // What is not as it should be is shown whole: a half number, a place behind the end, and more places than there are.
    (0x1003, Item(&[1, 0, 0, 0, 2, 0]), "\"010000000200\""),
    (
        0x1102,
        Item(&[1, 0, 0, 0, 9, 0, 0, 0]),
        "\"0100000009000000\"",
    ),
    (
        0x101F,
        Item(&[2, 0, 0, 0, 8, 0, 0, 0]),
        "\"0200000008000000\"",
    ),
];

// Texts: surrogates alone and in pairs, half a unit at the end, and characters that JSON escapes.
const TEXTS: [Row; 8] = [
    (0x001F, Item(&[0x41, 0, 0x00, 0xd8]), "\"A\u{FFFD}\""),
    (0x001F, Item(&[0x00, 0xdc, 0x41, 0]), "\"\u{FFFD}A\""),
    (0x001F, Item(&[0x00, 0xd8, 0x41, 0]), "\"\u{FFFD}A\""),
    (
        0x001F,
        Item(&[0x00, 0xde, 0x3d, 0xd8]),
        "\"\u{FFFD}\u{FFFD}\"",
    ),
    (0x001F, Item(&[0x3d, 0xd8, 0x00, 0xde]), "\"\u{1F600}\""),
    (0x001F, Item(&[0x41, 0, 0x42]), "\"A\""),
    (0x001F, Item(b"\"\0\\\0/\0\n\0\t\0"), "\"\\\"\\\\/\\n\\t\""),
    (
        0x001F,
        Item(&[0, 0, 1, 0, 0x1f, 0, 0x7f, 0, 0xe9, 0]),
        "\"\\u0000\\u0001\\u001f\u{7f}\u{e9}\"",
    ),
];

// The line that shows node 0x201 where its properties, numbered from 1 on, are these.
fn line_of(alloc: Global, rows: &[Row]) -> Result<String, Fail> {
    let mut line = String::from_str(alloc, "{\"nid\":\"0x201\",\"props\":[")?;
    let mut id: u16 = 1;
    for (kind, _, shown) in rows {
        if id > 1 {
            line.push_str(",")?;
        }
        let property = format!(in alloc;
            "{{\"id\":\"{id:04X}\",\"type\":\"{kind:04X}\",\"value\":{shown}}}"
        )?;
        line.push_str(&property)?;
        id = id.saturating_add(1);
    }
    line.push_str("]}\n")?;
    Ok(line)
}

// Shows node 0x201 of a store, which has these properties.
fn are_shown<R: Abort + AllocGlobal>(
    rt: &R,
    store: Store,
    rows: &[Row],
    what: &str,
) -> Result<(), Fail> {
    let alloc = rt.alloc();
    let image = store_of(alloc, store)?;
    let line = line_of(alloc, rows)?;
    let words = ["props", "store.pst", "0x201"];
    ends_with(rt, &words, &image, (0, &line, ""), what)
}

const SINGLE_STORE: Store<'static> = Store::Wider(
    &[(12, Body::Numbered(&SINGLE))],
    &[(0x201, 12, 0)],
);

// Subnode 0x41 has no data.
const EMPTY_STORE: Store<'static> = Store::Wider(
    &[
        (12, Body::Numbered(&EMPTY)),
        (18, Body::Names(LIST_OF_ONE, &[0x41, 0, 0])),
    ],
    &[(0x201, 12, 18)],
);

const MULTIPLE_STORE: Store<'static> = Store::Wider(
    &[(12, Body::Numbered(&MULTIPLE))],
    &[(0x201, 12, 0)],
);

const TEXT_STORE: Store<'static> = Store::Wider(&[(12, Body::Numbered(&TEXTS))], &[(0x201, 12, 0)]);

#[test]
fn single_values_are_shown(rt: HostRuntime) -> Result<(), Fail> {
    are_shown(&rt, SINGLE_STORE, &SINGLE, "single values")
}

#[test]
fn values_of_no_bytes_are_shown(rt: HostRuntime) -> Result<(), Fail> {
    are_shown(&rt, EMPTY_STORE, &EMPTY, "values of no bytes")
}

#[test]
fn several_values_are_shown(rt: HostRuntime) -> Result<(), Fail> {
    are_shown(&rt, MULTIPLE_STORE, &MULTIPLE, "several values")
}

#[test]
fn texts_are_shown(rt: HostRuntime) -> Result<(), Fail> {
    are_shown(&rt, TEXT_STORE, &TEXTS, "texts")
}

const IN_PIECES: [Row; 5] = [
    (0x001F, Subnode(0x41), "\"A\u{1F600}B\""),
    (0x0102, Subnode(0x61), "\"01000000feffffff\""),
    (0x0006, Subnode(0x61), "-8589934591"),
    (0x1003, Subnode(0x61), "[1,-2]"),
    (0x1102, Subnode(0x81), "[\"ab\",\"cd\"]"),
];

// Values in two blocks, 16 and 20, 28 and 32, 40 and 44: a pair of surrogates, numbers and places are cut.
const PIECES: Store<'static> = Store::Wider(
    &[
        (12, Body::Numbered(&IN_PIECES)),
        (16, Body::Bytes(&[0x41, 0, 0x3d, 0xd8, 0x00])),
        (20, Body::Bytes(&[0xde, 0x42, 0])),
        (26, Body::Names([1, 1, 2, 0, 8, 0, 0, 0], &[16, 20])),
        (28, Body::Bytes(&[1, 0, 0, 0, 0xfe])),
        (32, Body::Bytes(&[0xff, 0xff, 0xff])),
        (38, Body::Names([1, 1, 2, 0, 8, 0, 0, 0], &[28, 32])),
        (40, Body::Bytes(&[2, 0, 0, 0, 12, 0])),
        (44, Body::Bytes(&[0, 0, 13, 0, 0, 0, 0xab, 0xcd])),
        (50, Body::Names([1, 1, 2, 0, 14, 0, 0, 0], &[40, 44])),
        (
            54,
            Body::Names(
                [2, 0, 3, 0, 0, 0, 0, 0],
                &[0x41, 26, 0, 0x61, 38, 0, 0x81, 50, 0],
            ),
        ),
    ],
    &[(0x201, 12, 54)],
);

#[test]
fn values_in_pieces_are_shown(rt: HostRuntime) -> Result<(), Fail> {
    are_shown(&rt, PIECES, &IN_PIECES, "values in pieces")
}
