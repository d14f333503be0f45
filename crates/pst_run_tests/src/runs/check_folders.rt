//! `check` over stores whose folders and tables belong together or do not.

use super::check_cases::Answer::{No, Yes};
use super::check_cases::{Case, Store, are_answered};
use super::check_good::M1_YES;
use pst_make::Change::{Block, Page, Set};
use std::test::Fail;

/// Nodes that are named or wanted, and missing or of another kind. The entries of M1's node B-tree stand from 0x4800, the fourth at
/// 0x4860; its hierarchy table stands at 0x4c80, the record of its row at 58, the row at 66.
pub(super) const FOLDERS: [Case<'static>; 8] = [
    Case {
        what: "no message store",
        store: Store::M0,
        changes: &[Set(0x4800, &[0x20]), Page(0x4800)],
        answer: No("no: 26 NodeMissing at 0x0 bid 0x0 nid 0x21\n"),
    },
    Case {
        what: "no root folder",
        store: Store::M0,
        changes: &[Set(0x4820, &[0x23]), Page(0x4800)],
        answer: No("no: 26 NodeMissing at 0x0 bid 0x0 nid 0x122\n"),
    },
    Case {
        what: "a row without its folder's node",
        store: Store::M1,
        changes: &[Set(0x49e8, &[3]), Page(0x4800)],
        answer: No("no: 26 NodeMissing at 0x4cba bid 0xc nid 0x142\n"),
    },
    Case {
        what: "a row of a message among the folders",
        store: Store::M1,
        changes: &[
            Set(0x4860, &[0x44]),
            Page(0x4800),
            Set(0x4cba, &[0x44]),
            Set(0x4cc2, &[0x44]),
            Block(0x4c80, 90),
        ],
        answer: No("no: 27 NodeKind at 0x4cba bid 0xc nid 0x144\n"),
    },
    Case {
        what: "a row of a folder among the messages",
        store: Store::M1,
        changes: &[Set(0x4840, &[0x2e]), Page(0x4800)],
        answer: No("no: 27 NodeKind at 0x4cba bid 0xc nid 0x142\n"),
    },
    Case {
        what: "a row of a folder among the associated messages",
        store: Store::M1,
        changes: &[Set(0x4840, &[0x2f]), Page(0x4800)],
        answer: No("no: 27 NodeKind at 0x4cba bid 0xc nid 0x142\n"),
    },
    Case {
        what: "a bad message store, and no root folder",
        store: Store::M0,
        changes: &[
            Set(0x4820, &[0x23]),
            Page(0x4800),
            Set(0x4c03, &[0xbb]),
            Block(0x4c00, 44),
        ],
        answer: No("no: 21 Heap at 0x4c00 bid 0x4 nid 0x21\n"),
    },
    // The entries are those of nodes 0x21, 0x24, 0x122 and 0x12d: the message has the table as its properties, and folder 0x142
    // is missing.
    Case {
        what: "a bad message, and a bad table of the root folder",
        store: Store::M1,
        changes: &[
            Set(0x4820, &[0x24, 0, 0, 0, 0, 0, 0, 0, 12]),
            Set(0x4840, &[0x22, 1, 0, 0, 0, 0, 0, 0, 8]),
            Set(0x4860, &[0x2d, 1, 0, 0, 0, 0, 0, 0, 12]),
            Page(0x4800),
        ],
        answer: No("no: 21 Heap at 0x4c80 bid 0xc nid 0x24\n"),
    },
];

const WITH_ONE_MESSAGE: &str =
    "{\"blocks\":3,\"folders\":1,\"lost\":[],\"messages\":1,\"nodes\":4,\"order\":\"high\",\"pages\":2,\"verdict\":\"yes\"}\n";

const GOOD: [Case<'static>; 3] = [
    Case {
        what: "a row of a search folder",
        store: Store::M1,
        changes: &[
            Set(0x4860, &[0x43]),
            Page(0x4800),
            Set(0x4cba, &[0x43]),
            Set(0x4cc2, &[0x43]),
            Block(0x4c80, 90),
        ],
        answer: Yes(M1_YES),
    },
    Case {
        what: "a row of a message",
        store: Store::M1,
        changes: &[
            Set(0x4840, &[0x2e]),
            Set(0x4860, &[0x44]),
            Page(0x4800),
            Set(0x4cba, &[0x44]),
            Set(0x4cc2, &[0x44]),
            Block(0x4c80, 90),
        ],
        answer: Yes(WITH_ONE_MESSAGE),
    },
    Case {
        what: "a row of an associated message",
        store: Store::M1,
        changes: &[
            Set(0x4840, &[0x2f]),
            Set(0x4860, &[0x48]),
            Page(0x4800),
            Set(0x4cba, &[0x48]),
            Set(0x4cc2, &[0x48]),
            Block(0x4c80, 90),
        ],
        answer: Yes(WITH_ONE_MESSAGE),
    },
];

#[test]
fn bad_folders_are_refused(rt: HostRuntime) -> Result<(), Fail> {
    are_answered(&rt, &FOLDERS)
}

#[test]
fn rows_name_nodes_of_their_kind(rt: HostRuntime) -> Result<(), Fail> {
    are_answered(&rt, &GOOD)
}
