//! `check` over stores whose nodes have larger data and subnodes, good and bad.

use super::check_cases::Answer::{No, Yes};
use super::check_cases::{Body, Case, LIST_OF_ONE, LIST_OF_TWO, Store, are_answered};
use pst_make::Change::{Block, Page, Set};
use std::test::Fail;

// Node 0x201 of 8,177 bytes: block 26 at 0x6d00 is an XBLOCK of two data blocks, 12 and 16. Block 20 is empty.
const TWO_PIECES: Store<'static> = Store::Wider(
    &[
        (12, Body::Zeros(8176)),
        (16, Body::Bytes(&[9])),
        (20, Body::Bytes(&[])),
        (26, Body::Names([1, 1, 2, 0, 0xf1, 0x1f, 0, 0], &[12, 16])),
    ],
    &[(0x201, 26, 0)],
);

// Node 0x201 of 1,021 bytes: an XXBLOCK names one XBLOCK 1,021 times, which names one block of one byte.
const NAMED_OFTEN: Store<'static> = Store::Wider(
    &[
        (12, Body::Bytes(&[5])),
        (18, Body::Names([1, 1, 1, 0, 1, 0, 0, 0], &[12])),
        (22, Body::Names([1, 2, 0xfd, 3, 0xfd, 3, 0, 0], &[18; 1021])),
    ],
    &[(0x201, 22, 0)],
);

// Node 0x201 whose list of one subnode lies below itself.
const BELOW_ITSELF: Store<'static> = Store::Wider(
    &[(14, Body::Names(LIST_OF_ONE, &[0x41, 0, 14]))],
    &[(0x201, 0, 14)],
);

// Node 0x201 with two subnodes: the data of the first is missing, and below the second lies the list that it stands in.
const MISSING_FIRST: Store<'static> = Store::Wider(
    &[(14, Body::Names(LIST_OF_TWO, &[0x61, 16, 0, 0x81, 0, 14]))],
    &[(0x201, 0, 14)],
);

// The same two, in the other order.
const CIRCLE_FIRST: Store<'static> = Store::Wider(
    &[(14, Body::Names(LIST_OF_TWO, &[0x61, 0, 14, 0x81, 16, 0]))],
    &[(0x201, 0, 14)],
);

/// Bad data trees and lists of subnodes.
pub(super) const NODES: [Case<'static>; 11] = [
    Case {
        what: "a node without its data",
        store: Store::M0,
        changes: &[Set(0x4828, &[0x0c]), Page(0x4800)],
        answer: No("no: 15 BlockMissing at 0x0 bid 0xc nid 0x122\n"),
    },
    Case {
        what: "an XBLOCK of a block that is not there",
        store: TWO_PIECES,
        changes: &[Set(0x6d10, &[0x1c]), Block(0x6d00, 24)],
        answer: No("no: 15 BlockMissing at 0x0 bid 0x1c nid 0x201\n"),
    },
    Case {
        what: "an XBLOCK with another total",
        store: TWO_PIECES,
        changes: &[Set(0x6d04, &[0xf0]), Block(0x6d00, 24)],
        answer: No("no: 16 DataTree at 0x6d00 bid 0x1a nid 0x201\n"),
    },
    Case {
        what: "a list of subnodes that is a data block",
        store: Store::M0,
        changes: &[Set(0x4830, &[4]), Page(0x4800)],
        answer: No("no: 17 Subnode at 0x4c00 bid 0x4 nid 0x122\n"),
    },
    Case {
        what: "lists that nest 257 deep",
        store: Store::Nested(257),
        changes: &[],
        answer: No("no: 18 Nesting at 0x0 bid 0xe nid 0x201\n"),
    },
    Case {
        what: "a missing list where none may be, 257 deep",
        store: Store::Nested(256),
        changes: &[Set(0xa658, &[0x02, 0x40]), Block(0xa640, 32)],
        answer: No("no: 18 Nesting at 0x0 bid 0xe nid 0x201\n"),
    },
    Case {
        what: "a list below itself",
        store: BELOW_ITSELF,
        changes: &[],
        answer: No("no: 18 Nesting at 0x0 bid 0xe nid 0x201\n"),
    },
    Case {
        what: "missing data before a list below itself",
        store: MISSING_FIRST,
        changes: &[],
        answer: No("no: 15 BlockMissing at 0x0 bid 0x10 nid 0x201\n"),
    },
    Case {
        what: "a list below itself before missing data",
        store: CIRCLE_FIRST,
        changes: &[],
        answer: No("no: 18 Nesting at 0x0 bid 0xe nid 0x201\n"),
    },
    Case {
        what: "an XBLOCK of an XBLOCK",
        store: TWO_PIECES,
        changes: &[Set(0x6d10, &[0x1a]), Block(0x6d00, 24)],
        answer: No("no: 16 DataTree at 0x6d00 bid 0x1a nid 0x201\n"),
    },
    Case {
        what: "two subnodes of one identifier",
        store: MISSING_FIRST,
        changes: &[Set(0x4ca0, &[0x61]), Block(0x4c80, 56)],
        answer: No("no: 17 Subnode at 0x4c80 bid 0xe nid 0x201\n"),
    },
];

const WITH_SIX_BLOCKS: &str =
    "{\"blocks\":6,\"folders\":1,\"lost\":[],\"messages\":0,\"nodes\":3,\"order\":\"high\",\"pages\":2,\"verdict\":\"yes\"}\n";

const GOOD: [Case<'static>; 4] = [
    Case {
        what: "a node of two data blocks",
        store: TWO_PIECES,
        changes: &[],
        answer: Yes(WITH_SIX_BLOCKS),
    },
    Case {
        what: "a node of a data block and an empty one",
        store: TWO_PIECES,
        changes: &[Set(0x6d04, &[0xf0]), Set(0x6d10, &[20]), Block(0x6d00, 24)],
        answer: Yes(WITH_SIX_BLOCKS),
    },
    Case {
        what: "a block that is named 1,021 times",
        store: NAMED_OFTEN,
        changes: &[],
        answer: Yes(
            "{\"blocks\":5,\"folders\":1,\"lost\":[],\"messages\":0,\"nodes\":3,\"order\":\"high\",\"pages\":2,\"verdict\":\"yes\"}\n",
        ),
    },
    Case {
        what: "lists that nest 256 deep",
        store: Store::Nested(256),
        changes: &[],
        answer: Yes(
            "{\"blocks\":258,\"folders\":1,\"lost\":[],\"messages\":0,\"nodes\":3,\"order\":\"high\",\"pages\":15,\"verdict\":\"yes\"}\n",
        ),
    },
];

#[test]
fn bad_data_and_subnodes_are_refused(rt: HostRuntime) -> Result<(), Fail> {
    are_answered(&rt, &NODES)
}

#[test]
fn large_data_and_deep_subnodes_are_good(rt: HostRuntime) -> Result<(), Fail> {
    are_answered(&rt, &GOOD)
}
