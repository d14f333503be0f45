//! `check` over files that are good, with lost runs and without.

use super::check_cases::Answer::Yes;
use super::check_cases::{Case, Store, are_answered, ends_with, store_of};
use pst_make::Change::{Block, Flip, Grow, Header, Page, Set};
use pst_make::change_all;
use std::test::Fail;

/// What is answered of M0.
pub(super) const M0_YES: &str =
    "{\"blocks\":2,\"folders\":1,\"lost\":[],\"messages\":0,\"nodes\":2,\"order\":\"high\",\"pages\":2,\"verdict\":\"yes\"}\n";

/// What is answered of M1.
pub(super) const M1_YES: &str =
    "{\"blocks\":3,\"folders\":2,\"lost\":[],\"messages\":0,\"nodes\":4,\"order\":\"high\",\"pages\":2,\"verdict\":\"yes\"}\n";

const LOST: &str =
    "{\"blocks\":2,\"folders\":1,\"lost\":[{\"at\":19584,\"len\":64}],\"messages\":0,\"nodes\":2,\"order\":\"high\",\"pages\":2,\"verdict\":\"yes\"}\n";

const LOW: &str =
    "{\"blocks\":2,\"folders\":1,\"lost\":[],\"messages\":0,\"nodes\":2,\"order\":\"low\",\"pages\":2,\"verdict\":\"yes\"}\n";

const OLD_LOST: &str =
    "{\"blocks\":2,\"folders\":1,\"lost\":[{\"at\":272448,\"len\":448}],\"messages\":0,\"nodes\":2,\"order\":\"high\",\"pages\":2,\"verdict\":\"yes\"}\n";

const GOOD: [Case<'static>; 11] = [
    Case {
        what: "a small store",
        store: Store::M0,
        changes: &[],
        answer: Yes(M0_YES),
    },
    Case {
        what: "a store with a hierarchy table",
        store: Store::M1,
        changes: &[],
        answer: Yes(M1_YES),
    },
    Case {
        what: "bytes behind the end",
        store: Store::M0,
        changes: &[Grow(64)],
        answer: Yes(M0_YES),
    },
    Case {
        what: "a unit that is marked and lost",
        store: Store::M0,
        changes: &[Set(0x4404, &[0xe0]), Page(0x4400)],
        answer: Yes(LOST),
    },
    Case {
        what: "a unit that is marked and ends behind the file's end",
        store: Store::M0,
        changes: &[
            Set(184, &[0x90, 0x4c, 0x00]),
            Header,
            Set(0x4404, &[0xe0]),
            Page(0x4400),
        ],
        answer: Yes(M0_YES),
    },
    Case {
        what: "a map in the other order of bits",
        store: Store::M0,
        changes: &[Set(0x4404, &[0x03]), Page(0x4400)],
        answer: Yes(LOW),
    },
    Case {
        what: "an old map page",
        store: Store::TwoRegions,
        changes: &[],
        answer: Yes(M0_YES),
    },
    Case {
        what: "an old map page that is not marked",
        store: Store::TwoRegions,
        changes: &[Set(271_362, &[0x00]), Page(271_360)],
        answer: Yes(M0_YES),
    },
    Case {
        what: "an old map page without its first mark",
        store: Store::TwoRegions,
        changes: &[Set(271_362, &[0x7f]), Page(271_360)],
        answer: Yes(OLD_LOST),
    },
    Case {
        what: "bit 0 in the trailer of a block",
        store: Store::M1,
        changes: &[Flip(0x4cf8), Block(0x4c80, 90)],
        answer: Yes(M1_YES),
    },
    Case {
        what: "a tree of four pages",
        store: Store::Nested(40),
        changes: &[],
        answer: Yes(
            "{\"blocks\":42,\"folders\":1,\"lost\":[],\"messages\":0,\"nodes\":3,\"order\":\"high\",\"pages\":5,\"verdict\":\"yes\"}\n",
        ),
    },
];

#[test]
fn good_files_are_counted(rt: HostRuntime) -> Result<(), Fail> {
    are_answered(&rt, &GOOD)
}

// The document is written all the same.
#[test]
fn lost_runs_give_a_status_where_one_is_strict(rt: HostRuntime) -> Result<(), Fail> {
    for (marks, status, document) in [(0xc0, 0, M0_YES), (0xe0, 1, LOST), (0x03, 0, LOW)] {
        let mut image = store_of(rt.alloc(), Store::M0)?;
        let changes = [Set(0x4404, &[marks]), Page(0x4400)];
        change_all(&mut image, &changes)?;
        for words in [
            ["check", "--strict", "store.pst"],
            ["check", "store.pst", "--strict"],
        ] {
            ends_with(&rt, &words, &image, (status, document, ""), "strict")?;
        }
    }
    Ok(())
}
