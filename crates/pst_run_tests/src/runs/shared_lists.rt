//! Documents of nodes that share a table, or a list whose identifiers fall: what is remembered of these is what each has.

use super::check_cases::Answer::Yes;
use super::check_cases::{Asked, Body, LIST_OF_ONE, LIST_OF_TWO, Store, are_asked};
use super::heaps::Held;
use std::test::Fail;

// An SIBLOCK of two SLBLOCKs.
const TWO_LISTS: [u8; 8] = [2, 1, 2, 0, 0, 0, 0, 0];

// Folders 0x142, 0x162 and 0x182 share a table of ten messages, 194 bytes behind an XBLOCK, one of a message that belongs to a folder
// itself, 78 bytes, and one of the folder below them, 0x1c2. The ten messages, the attachment 0x8025 of message 0x344, and node 0x13f have texts in one list: subnodes 0x61,
// 0x41 and 0x21, in this order, in two SLBLOCKs.
const SHARED: Store<'static> = Store::Wider(
    &[
        (12, Body::Rows(&[0x142, 0x162, 0x182])),
        (
            16,
            Body::Rows(&[
                0x204, 0x224, 0x244, 0x264, 0x284, 0x2a4, 0x2c4, 0x2e4, 0x304, 0x324,
            ]),
        ),
        (22, Body::Names([1, 1, 1, 0, 194, 0, 0, 0], &[16])),
        (24, Body::Rows(&[0x248])),
        (30, Body::Names([1, 1, 1, 0, 78, 0, 0, 0], &[24])),
        (
            32,
            Body::Properties(&[
                (0x001A, 0x001F, Held::Subnode(0x41)),
                (0x0037, 0x001F, Held::Subnode(0x21)),
                (0x0C1A, 0x001F, Held::Subnode(0x61)),
            ]),
        ),
        (36, Body::Bytes(b"N\0")),
        (40, Body::Bytes(b"A\0n\0n\0")),
        (44, Body::Bytes(b"H\0i\0")),
        (50, Body::Names(LIST_OF_TWO, &[0x61, 40, 0, 0x41, 36, 0])),
        (54, Body::Names(LIST_OF_ONE, &[0x21, 44, 0])),
        (58, Body::Names(TWO_LISTS, &[0x61, 50, 0x21, 54])),
        (
            60,
            Body::Properties(&[
                (0x0001, 0x0102, Held::Item(&[0xab; 200])),
                (0x3001, 0x001F, Held::Subnode(0x21)),
            ]),
        ),
        (
            64,
            Body::Properties(&[
                (0x0001, 0x0102, Held::Item(&[0xab; 200])),
                (0x3001, 0x001F, Held::Subnode(0x21)),
                (0x3705, 0x0003, Held::Here([1, 0, 0, 0])),
            ]),
        ),
        (68, Body::Rows(&[0x8025])),
        (
            74,
            Body::Names(LIST_OF_TWO, &[0x671, 68, 0, 0x8025, 64, 58]),
        ),
        (76, Body::Rows(&[0x1c2])),
    ],
    &[
        (0x12d, 12, 0),
        (0x13f, 60, 58),
        (0x142, 8, 0),
        (0x14d, 76, 0),
        (0x14e, 22, 0),
        (0x14f, 30, 0),
        (0x162, 8, 0),
        (0x16d, 76, 0),
        (0x16e, 22, 0),
        (0x16f, 30, 0),
        (0x182, 8, 0),
        (0x18d, 76, 0),
        (0x18e, 22, 0),
        (0x18f, 30, 0),
        (0x1c2, 8, 0),
        (0x204, 32, 58),
        (0x224, 32, 58),
        (0x244, 32, 58),
        (0x248, 8, 0),
        (0x264, 32, 58),
        (0x284, 32, 58),
        (0x2a4, 32, 58),
        (0x2c4, 32, 58),
        (0x2e4, 32, 58),
        (0x304, 32, 58),
        (0x324, 32, 58),
        (0x344, 8, 74),
    ],
);

const ROWS: [Asked<'static>; 6] = [
    (
        &["folders", "store.pst"],
        Yes(
            "{\"folders\":[{\"associated\":0,\"messages\":0,\"name\":null,\"nid\":\"0x122\",\"path\":[\"0x122\"],\"subfolders\":[\"0x142\",\"0x162\",\"0x182\"]},{\"associated\":1,\"messages\":10,\"name\":null,\"nid\":\"0x142\",\"path\":[\"0x122\",\"0x142\"],\"subfolders\":[\"0x1c2\"]},{\"associated\":1,\"messages\":10,\"name\":null,\"nid\":\"0x162\",\"path\":[\"0x122\",\"0x162\"],\"subfolders\":[\"0x1c2\"]},{\"associated\":1,\"messages\":10,\"name\":null,\"nid\":\"0x182\",\"path\":[\"0x122\",\"0x182\"],\"subfolders\":[\"0x1c2\"]},{\"associated\":0,\"messages\":0,\"name\":null,\"nid\":\"0x1c2\",\"path\":[\"0x122\",\"0x142\",\"0x1c2\"],\"subfolders\":[]}]}\n",
        ),
    ),
    (
        &["contents", "store.pst", "0x162"],
        Yes(
            "{\"folder\":\"0x162\",\"messages\":[{\"class\":\"N\",\"nid\":\"0x204\",\"sender\":\"Ann\",\"subject\":\"Hi\"},{\"class\":\"N\",\"nid\":\"0x224\",\"sender\":\"Ann\",\"subject\":\"Hi\"},{\"class\":\"N\",\"nid\":\"0x244\",\"sender\":\"Ann\",\"subject\":\"Hi\"},{\"class\":\"N\",\"nid\":\"0x264\",\"sender\":\"Ann\",\"subject\":\"Hi\"},{\"class\":\"N\",\"nid\":\"0x284\",\"sender\":\"Ann\",\"subject\":\"Hi\"},{\"class\":\"N\",\"nid\":\"0x2a4\",\"sender\":\"Ann\",\"subject\":\"Hi\"},{\"class\":\"N\",\"nid\":\"0x2c4\",\"sender\":\"Ann\",\"subject\":\"Hi\"},{\"class\":\"N\",\"nid\":\"0x2e4\",\"sender\":\"Ann\",\"subject\":\"Hi\"},{\"class\":\"N\",\"nid\":\"0x304\",\"sender\":\"Ann\",\"subject\":\"Hi\"},{\"class\":\"N\",\"nid\":\"0x324\",\"sender\":\"Ann\",\"subject\":\"Hi\"}]}\n",
        ),
    ),
    (
        &["messages", "store.pst"],
        Yes(
            "{\"attachments\":0,\"class\":\"N\",\"folders\":[\"0x142\",\"0x162\",\"0x182\"],\"nid\":\"0x204\",\"received\":null,\"recipients\":0,\"sender\":\"Ann\",\"sent\":null,\"size\":null,\"subject\":\"Hi\"}\n{\"attachments\":0,\"class\":\"N\",\"folders\":[\"0x142\",\"0x162\",\"0x182\"],\"nid\":\"0x224\",\"received\":null,\"recipients\":0,\"sender\":\"Ann\",\"sent\":null,\"size\":null,\"subject\":\"Hi\"}\n{\"attachments\":0,\"class\":\"N\",\"folders\":[\"0x142\",\"0x162\",\"0x182\"],\"nid\":\"0x244\",\"received\":null,\"recipients\":0,\"sender\":\"Ann\",\"sent\":null,\"size\":null,\"subject\":\"Hi\"}\n{\"attachments\":0,\"class\":\"N\",\"folders\":[\"0x142\",\"0x162\",\"0x182\"],\"nid\":\"0x264\",\"received\":null,\"recipients\":0,\"sender\":\"Ann\",\"sent\":null,\"size\":null,\"subject\":\"Hi\"}\n{\"attachments\":0,\"class\":\"N\",\"folders\":[\"0x142\",\"0x162\",\"0x182\"],\"nid\":\"0x284\",\"received\":null,\"recipients\":0,\"sender\":\"Ann\",\"sent\":null,\"size\":null,\"subject\":\"Hi\"}\n{\"attachments\":0,\"class\":\"N\",\"folders\":[\"0x142\",\"0x162\",\"0x182\"],\"nid\":\"0x2a4\",\"received\":null,\"recipients\":0,\"sender\":\"Ann\",\"sent\":null,\"size\":null,\"subject\":\"Hi\"}\n{\"attachments\":0,\"class\":\"N\",\"folders\":[\"0x142\",\"0x162\",\"0x182\"],\"nid\":\"0x2c4\",\"received\":null,\"recipients\":0,\"sender\":\"Ann\",\"sent\":null,\"size\":null,\"subject\":\"Hi\"}\n{\"attachments\":0,\"class\":\"N\",\"folders\":[\"0x142\",\"0x162\",\"0x182\"],\"nid\":\"0x2e4\",\"received\":null,\"recipients\":0,\"sender\":\"Ann\",\"sent\":null,\"size\":null,\"subject\":\"Hi\"}\n{\"attachments\":0,\"class\":\"N\",\"folders\":[\"0x142\",\"0x162\",\"0x182\"],\"nid\":\"0x304\",\"received\":null,\"recipients\":0,\"sender\":\"Ann\",\"sent\":null,\"size\":null,\"subject\":\"Hi\"}\n{\"attachments\":0,\"class\":\"N\",\"folders\":[\"0x142\",\"0x162\",\"0x182\"],\"nid\":\"0x324\",\"received\":null,\"recipients\":0,\"sender\":\"Ann\",\"sent\":null,\"size\":null,\"subject\":\"Hi\"}\n{\"attachments\":1,\"class\":null,\"folders\":[],\"nid\":\"0x344\",\"received\":null,\"recipients\":0,\"sender\":null,\"sent\":null,\"size\":null,\"subject\":null}\n",
        ),
    ),
    (
        &["props", "store.pst", "0x344"],
        Yes(
            "{\"attachments\":[{\"embedded\":null,\"nid\":\"0x8025\",\"props\":[{\"id\":\"0001\",\"type\":\"0102\",\"value\":\"abababababababababababababababababababababababababababababababababababababababababababababababababababababababababababababababababababababababababababababababababababababababababababababababababababababababababababababababababababababababababababababababababababababababababababababababababababababababababababababababababababababababababababababababababababababababababababababababababababababababab\"},{\"id\":\"3001\",\"type\":\"001F\",\"value\":\"Hi\"},{\"id\":\"3705\",\"type\":\"0003\",\"value\":1}]}],\"nid\":\"0x344\",\"props\":[{\"id\":\"3602\",\"type\":\"0003\",\"value\":5}],\"recipients\":[]}\n",
        ),
    ),
    (
        &["props", "store.pst", "0x344/0x8025"],
        Yes(
            "{\"embedded\":null,\"nid\":\"0x8025\",\"props\":[{\"id\":\"0001\",\"type\":\"0102\",\"value\":\"abababababababababababababababababababababababababababababababababababababababababababababababababababababababababababababababababababababababababababababababababababababababababababababababababababababababababababababababababababababababababababababababababababababababababababababababababababababababababababababababababababababababababababababababababababababababababababababababababababababababab\"},{\"id\":\"3001\",\"type\":\"001F\",\"value\":\"Hi\"},{\"id\":\"3705\",\"type\":\"0003\",\"value\":1}]}\n",
        ),
    ),
    (
        &["props", "store.pst", "0x13f"],
        Yes(
            "{\"nid\":\"0x13f\",\"props\":[{\"id\":\"0001\",\"type\":\"0102\",\"value\":\"abababababababababababababababababababababababababababababababababababababababababababababababababababababababababababababababababababababababababababababababababababababababababababababababababababababababababababababababababababababababababababababababababababababababababababababababababababababababababababababababababababababababababababababababababababababababababababababababababababababababab\"},{\"id\":\"3001\",\"type\":\"001F\",\"value\":\"Hi\"}]}\n",
        ),
    ),
];

#[test]
fn what_is_shared_is_shown_of_each(rt: HostRuntime) -> Result<(), Fail> {
    are_asked(&rt, SHARED, &[], &ROWS)
}
