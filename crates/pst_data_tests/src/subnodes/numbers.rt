//! SLBLOCKs under several SIBLOCKs: what is told of one of these doesn't change with the SLBLOCKs that were met before it.

use super::*;
use crate::told::is;

// SIBLOCKs of two SLBLOCKs each; SLBLOCKs, each with the identifiers of its entries; and which SIBLOCKs are asked for, in this
// order, and whether each is a list. Of one that is none Subnode is told.
#[derive(Clone, Copy)]
struct Case<'a> {
    siblocks: &'a [(u64, u64, u64)],
    slblocks: &'a [(u64, &'a [u64])],
    asked: &'a [(u64, bool)],
}

// An SLBLOCK of entries with these identifiers.
fn slblock_of<R: Abort>(rt: &R, alloc: Global, nids: &[u64]) -> Vec<u8> {
    let mut entries = Vec::new(alloc);
    for nid in nids {
        entries.extend_from_slice(&[*nid, 0, 0]).expect(rt, MEMORY);
    }
    let count = u8::try_from(nids.len()).expect(rt, "too many");
    list(rt, alloc, 0, count, &entries)
}

fn blocks_of<R: Abort>(rt: &R, alloc: Global, case: &Case) -> Vec<BlockPlan> {
    let mut plan = Vec::new(alloc);
    for (bid, first, second) in case.siblocks {
        let body = list(rt, alloc, 1, 2, &[0x21, *first, 0x41, *second]);
        add(rt, &mut plan, *bid, body);
    }
    for (bid, nids) in case.slblocks {
        add(rt, &mut plan, *bid, slblock_of(rt, alloc, nids));
    }
    plan
}

fn are_told<R: Abort>(rt: &R, alloc: Global, case: &Case) {
    let bytes = image_of(rt, alloc, blocks_of(rt, alloc, case));
    let mut known = Known::read(rt, alloc, Image::new(&bytes));
    for (top, is_list) in case.asked {
        let told = known.check(alloc, *top);
        let place = FIRST.saturating_add(top.saturating_sub(6).saturating_mul(16));
        let answer = if *is_list {
            Ok(1)
        } else {
            Err(fault_of(Kind::Subnode, place, *top))
        };
        is(rt, told, answer);
    }
}

// Their identifiers fall. Each identifier stands once; or one stands in two SLBLOCKs, in one that is named twice, or twice in one.
#[test]
fn falling_slblocks_are_shared(rt: HostRuntime) {
    let case = Case {
        siblocks: &[
            (6, 102, 106),
            (10, 102, 107),
            (14, 106, 102),
            (18, 106, 110),
            (22, 102, 110),
            (26, 110, 106),
            (30, 102, 102),
            (34, 102, 114),
            (38, 118, 102),
        ],
        slblocks: &[
            (102, &[0x61, 0x21]),
            (106, &[0xc1, 0xa1]),
            (110, &[0xa1, 0x81]),
            (114, &[0x41, 0x41]),
            (118, &[0x101, 0x121]),
        ],
        asked: &[
            (6, true),
            (10, true),
            (14, true),
            (18, false),
            (22, true),
            (26, false),
            (30, false),
            (34, false),
            (38, true),
            (18, false),
        ],
    };
    are_told(&rt, rt.alloc(), &case);
}

// SLBLOCKs that many SIBLOCKs name, one after another: a subnode that stands twice is told of the SIBLOCK, whatever order
// its SLBLOCKs stand in and whatever is known of them; identifiers that fall, or lie between those of another, are no
// fault.
#[test]
fn a_subnode_twice_in_shared_slblocks(rt: HostRuntime) {
    let case = Case {
        siblocks: &[
            (6, 102, 106),
            (10, 102, 110),
            (14, 110, 102),
            (18, 102, 114),
            (22, 106, 102),
            (26, 102, 102),
            (30, 118, 106),
            (34, 122, 106),
            (38, 106, 118),
        ],
        slblocks: &[
            (102, &[0x21, 0x61]),
            (106, &[0xa1, 0xc1]),
            (110, &[0x61, 0xe1]),
            (114, &[0x41, 0x81]),
            (118, &[]),
            (122, &[0xe1, 0x101]),
        ],
        asked: &[
            (10, false),
            (6, true),
            (14, false),
            (18, true),
            (22, true),
            (26, false),
            (30, true),
            (34, true),
            (38, true),
            (10, false),
        ],
    };
    are_told(&rt, rt.alloc(), &case);
}
