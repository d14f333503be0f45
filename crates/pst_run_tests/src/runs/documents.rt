//! `folders`, `contents` and `props` over small stores: their documents, and each refusal.

use super::check_cases::Answer::{No, Yes};
use super::check_cases::{Asked, Body, Store, are_asked};
use super::heaps::{Held, PROPERTIES};
use pst_make::Change::{Block, Flip, Set};
use std::test::Fail;

// The lines of M0 and M1 are those of another program.
const M0: [Asked<'static>; 12] = [
    (
        &["folders", "store.pst"],
        Yes(
            "{\"folders\":[{\"associated\":0,\"messages\":0,\"name\":null,\"nid\":\"0x122\",\"path\":[\"0x122\"],\"subfolders\":[]}]}\n",
        ),
    ),
    (&["contents", "store.pst", "0x21"], No("no folder 0x21\n")),
    (
        &["props", "store.pst", "0x21"],
        Yes(
            "{\"nid\":\"0x21\",\"props\":[{\"id\":\"3001\",\"type\":\"001F\",\"value\":\"M0\"}]}\n",
        ),
    ),
    (
        &["contents", "store.pst", "0x122"],
        Yes("{\"folder\":\"0x122\",\"messages\":[]}\n"),
    ),
    (
        &["props", "store.pst", "0x122"],
        Yes("{\"nid\":\"0x122\",\"props\":[{\"id\":\"3602\",\"type\":\"0003\",\"value\":5}]}\n"),
    ),
    (&["contents", "store.pst", "0x12D"], No("no folder 0x12d\n")),
    (&["props", "store.pst", "0x12D"], No("no node 0x12d\n")),
    (&["contents", "store.pst", "0x999"], No("no folder 0x999\n")),
    (&["props", "store.pst", "0x999"], No("no node 0x999\n")),
    (
        &["props", "store.pst", "0x21", "0x122"],
        Yes(
            "{\"nid\":\"0x21\",\"props\":[{\"id\":\"3001\",\"type\":\"001F\",\"value\":\"M0\"}]}\n{\"nid\":\"0x122\",\"props\":[{\"id\":\"3602\",\"type\":\"0003\",\"value\":5}]}\n",
        ),
    ),
    (
        &["props", "store.pst", "0x122", "0x21", "0x122"],
        Yes(
            "{\"nid\":\"0x122\",\"props\":[{\"id\":\"3602\",\"type\":\"0003\",\"value\":5}]}\n{\"nid\":\"0x21\",\"props\":[{\"id\":\"3001\",\"type\":\"001F\",\"value\":\"M0\"}]}\n{\"nid\":\"0x122\",\"props\":[{\"id\":\"3602\",\"type\":\"0003\",\"value\":5}]}\n",
        ),
    ),
    (
        &["props", "store.pst", "0x21", "0x999", "0x998"],
        No("no node 0x999\n"),
    ),
];

const M1: [Asked<'static>; 10] = [
    (
        &["folders", "store.pst"],
        Yes(
            "{\"folders\":[{\"associated\":0,\"messages\":0,\"name\":null,\"nid\":\"0x122\",\"path\":[\"0x122\"],\"subfolders\":[\"0x142\"]},{\"associated\":0,\"messages\":0,\"name\":null,\"nid\":\"0x142\",\"path\":[\"0x122\",\"0x142\"],\"subfolders\":[]}]}\n",
        ),
    ),
    (&["contents", "store.pst", "0x21"], No("no folder 0x21\n")),
    (
        &["props", "store.pst", "0x21"],
        Yes(
            "{\"nid\":\"0x21\",\"props\":[{\"id\":\"3001\",\"type\":\"001F\",\"value\":\"M0\"}]}\n",
        ),
    ),
    (
        &["contents", "store.pst", "0x122"],
        Yes("{\"folder\":\"0x122\",\"messages\":[]}\n"),
    ),
    (
        &["props", "store.pst", "0x122"],
        Yes("{\"nid\":\"0x122\",\"props\":[{\"id\":\"3602\",\"type\":\"0003\",\"value\":5}]}\n"),
    ),
    (&["contents", "store.pst", "0x12D"], No("no folder 0x12d\n")),
    (
        &["props", "store.pst", "0x12D"],
        No("no: 21 Heap at 0x4c80 bid 0xc nid 0x12d\n"),
    ),
    (&["contents", "store.pst", "0x999"], No("no folder 0x999\n")),
    (&["props", "store.pst", "0x999"], No("no node 0x999\n")),
    (
        &["props", "store.pst", "0x21", "0x12D", "0x999"],
        No("no: 21 Heap at 0x4c80 bid 0xc nid 0x12d\n"),
    ),
];

const M2: [Asked<'static>; 4] = [
    (
        &["check", "store.pst"],
        Yes(
            "{\"blocks\":3,\"folders\":1,\"lost\":[],\"messages\":0,\"nodes\":3,\"order\":\"high\",\"pages\":2,\"verdict\":\"yes\"}\n",
        ),
    ),
    (
        &["folders", "store.pst"],
        Yes(
            "{\"folders\":[{\"associated\":0,\"messages\":0,\"name\":null,\"nid\":\"0x122\",\"path\":[\"0x122\"],\"subfolders\":[]}]}\n",
        ),
    ),
    (
        &["props", "store.pst", "0x61"],
        Yes(
            "{\"nid\":\"0x61\",\"props\":[{\"id\":\"0002\",\"type\":\"0102\",\"value\":\"00112233445566778899aabbccddeeff\"},{\"id\":\"0003\",\"type\":\"0102\",\"value\":\"00000000070000000185000004000100\"},{\"id\":\"0004\",\"type\":\"0102\",\"value\":\"0400000048006900\"}]}\n",
        ),
    ),
    (
        &["props", "store.pst", "0x122"],
        Yes(
            "{\"nid\":\"0x122\",\"props\":[{\"id\":\"8000\",\"name\":\"Hi\",\"set\":\"33221100-5544-7766-8899-aabbccddeeff\",\"type\":\"0003\",\"value\":5}]}\n",
        ),
    ),
];

// The root folder of M0 without properties: no item has the records of its BTH.
const WITHOUT_PROPERTIES: [Asked<'static>; 2] = [
    (
        &["folders", "store.pst"],
        Yes(
            "{\"folders\":[{\"associated\":0,\"messages\":0,\"name\":null,\"nid\":\"0x122\",\"path\":[\"0x122\"],\"subfolders\":[]}]}\n",
        ),
    ),
    (
        &["props", "store.pst", "0x122"],
        Yes("{\"nid\":\"0x122\",\"props\":[]}\n"),
    ),
];

// A file that is refused is so whatever it is asked for.
const DAMAGED: [Asked<'static>; 6] = [
    (
        &["check", "store.pst"],
        No("no: 14 BlockTrailer at 0x4c40 bid 0x8 nid 0x0\n"),
    ),
    (
        &["folders", "store.pst"],
        No("no: 14 BlockTrailer at 0x4c40 bid 0x8 nid 0x0\n"),
    ),
    (
        &["contents", "store.pst", "0x122"],
        No("no: 14 BlockTrailer at 0x4c40 bid 0x8 nid 0x0\n"),
    ),
    (
        &["contents", "store.pst", "0x21"],
        No("no: 14 BlockTrailer at 0x4c40 bid 0x8 nid 0x0\n"),
    ),
    (
        &["props", "store.pst", "0x21"],
        No("no: 14 BlockTrailer at 0x4c40 bid 0x8 nid 0x0\n"),
    ),
    (
        &["props", "store.pst", "0x999"],
        No("no: 14 BlockTrailer at 0x4c40 bid 0x8 nid 0x0\n"),
    ),
];

// Nodes that are no property contexts, and need be none. The blocks are at 0x4c80, 0x4d00, 0x4d40, 0x4d80 and 0x4dc0; the BTH of
// each is at 12 in it, its one record at 20, the value of that at 24.
const OTHER_NODES: Store<'static> = Store::Wider(
    &[
        (12, Body::Rows(&[0x142])),
        // A text in an item that is not there, one in a subnode that is not, a time of 7 bytes, and a BTH of another type.
        (
            16,
            Body::Properties(&[(0x3001, 0x001F, Held::Here([0x00, 0x10, 0, 0]))]),
        ),
        (
            20,
            Body::Properties(&[(0x3001, 0x001F, Held::Subnode(0x41))]),
        ),
        (
            24,
            Body::Properties(&[(0x3007, 0x0040, Held::Item(&[1, 2, 3, 4, 5, 6, 7]))]),
        ),
        (28, Body::Heap(PROPERTIES, &[&[0xb4, 2, 6, 0, 0, 0, 0, 0]])),
    ],
    &[
        (0x201, 0, 0),
        (0x221, 12, 0),
        (0x241, 16, 0),
        (0x261, 20, 0),
        (0x281, 24, 0),
        (0x2a1, 28, 0),
    ],
);

const OTHERS: [Asked<'static>; 7] = [
    (
        &["check", "store.pst"],
        Yes(
            "{\"blocks\":7,\"folders\":1,\"lost\":[],\"messages\":0,\"nodes\":8,\"order\":\"high\",\"pages\":2,\"verdict\":\"yes\"}\n",
        ),
    ),
    (
        &["props", "store.pst", "0x201"],
        No("no: 21 Heap at 0x0 bid 0x0 nid 0x201\n"),
    ),
    (
        &["props", "store.pst", "0x221"],
        No("no: 21 Heap at 0x4c80 bid 0xc nid 0x221\n"),
    ),
    (
        &["props", "store.pst", "0x241"],
        No("no: 22 HeapId at 0x4d18 bid 0x10 nid 0x241\n"),
    ),
    (
        &["props", "store.pst", "0x261"],
        No("no: 17 Subnode at 0x4d58 bid 0x14 nid 0x261\n"),
    ),
    (
        &["props", "store.pst", "0x281"],
        No("no: 24 Property at 0x4d94 bid 0x18 nid 0x281\n"),
    ),
    (
        &["props", "store.pst", "0x2a1"],
        No("no: 23 Bth at 0x4dcc bid 0x1c nid 0x2a1\n"),
    ),
];

// A folder that no row names, and one whose table names itself; the lines are those of another program.
const LOST_FOLDER: Store<'static> = Store::Wider(
    &[(12, Body::Rows(&[0x142]))],
    &[(0x12d, 12, 0), (0x142, 8, 0), (0x162, 8, 0)],
);

const LOST: [Asked<'static>; 2] = [
    (
        &["check", "--strict", "store.pst"],
        Yes(
            "{\"blocks\":3,\"folders\":3,\"lost\":[],\"messages\":0,\"nodes\":5,\"order\":\"high\",\"pages\":2,\"verdict\":\"yes\"}\n",
        ),
    ),
    (
        &["folders", "store.pst"],
        Yes(
            "{\"folders\":[{\"associated\":0,\"messages\":0,\"name\":null,\"nid\":\"0x122\",\"path\":[\"0x122\"],\"subfolders\":[\"0x142\"]},{\"associated\":0,\"messages\":0,\"name\":null,\"nid\":\"0x142\",\"path\":[\"0x122\",\"0x142\"],\"subfolders\":[]},{\"associated\":0,\"messages\":0,\"name\":null,\"nid\":\"0x162\",\"path\":null,\"subfolders\":[]}]}\n",
        ),
    ),
];

const CIRCLE: Store<'static> = Store::Wider(
    &[(12, Body::Rows(&[0x142]))],
    &[(0x12d, 12, 0), (0x142, 8, 0), (0x14d, 12, 0)],
);

const CIRCLING: [Asked<'static>; 1] = [(
    &["folders", "store.pst"],
    Yes(
        "{\"folders\":[{\"associated\":0,\"messages\":0,\"name\":null,\"nid\":\"0x122\",\"path\":[\"0x122\"],\"subfolders\":[\"0x142\"]},{\"associated\":0,\"messages\":0,\"name\":null,\"nid\":\"0x142\",\"path\":[\"0x122\",\"0x142\"],\"subfolders\":[\"0x142\"]}]}\n",
    ),
)];

#[test]
fn folders_that_are_lost_come_last(rt: HostRuntime) -> Result<(), Fail> {
    are_asked(&rt, LOST_FOLDER, &[], &LOST)?;
    are_asked(&rt, CIRCLE, &[], &CIRCLING)
}

#[test]
fn small_stores_are_shown(rt: HostRuntime) -> Result<(), Fail> {
    are_asked(&rt, Store::M0, &[], &M0)?;
    are_asked(&rt, Store::M1, &[], &M1)?;
    are_asked(&rt, Store::M2, &[], &M2)?;
    let changes = [Set(0x4c50, &[0]), Block(0x4c40, 38)];
    are_asked(&rt, Store::M0, &changes, &WITHOUT_PROPERTIES)
}

#[test]
fn what_is_no_document_is_refused(rt: HostRuntime) -> Result<(), Fail> {
    are_asked(&rt, Store::M0, &[Flip(0x4c74)], &DAMAGED)?;
    are_asked(&rt, OTHER_NODES, &[], &OTHERS)
}
