//! Entries that were gathered.

use crate::told::is;
use pst_btree::*;

const BLOCKS: [BlockEntry; 3] = [
    BlockEntry {
        bid: 4,
        ib: 0x4c00,
        cb: 44,
    },
    BlockEntry {
        bid: 9,
        ib: 0x4c40,
        cb: 38,
    },
    BlockEntry {
        bid: 12,
        ib: 0x4c80,
        cb: 1,
    },
];

const NODES: [NodeEntry; 2] = [
    NodeEntry {
        nid: 0x21,
        bid_data: 4,
        bid_sub: 0,
        parent: 0,
    },
    NodeEntry {
        nid: 0x122,
        bid_data: 8,
        bid_sub: 0,
        parent: 0x122,
    },
];

// Bit 0 of an identifier of a block says nothing, in the entry and in what is asked ([MS-PST] 2.2.2.2).
#[test]
#[tactic(auto, unfolding(pst_page::specs::Entry::key_of))]
fn blocks_that_were_gathered_are_found(rt: HostRuntime) {
    let list = BlockList::of(&BLOCKS);
    is(&rt, list.find(4), BLOCKS.first().copied());
    is(&rt, list.find(5), BLOCKS.first().copied());
    is(&rt, list.find(8), BLOCKS.get(1).copied());
    is(&rt, list.find(13), BLOCKS.get(2).copied());
    is(&rt, list.find(0), None);
    is(&rt, list.find(6), None);
    is(&rt, list.find(14), None);
    is(&rt, BlockList::of(&[]).find(4), None);
}

#[test]
fn nodes_that_were_gathered_are_found(rt: HostRuntime) {
    let list = NodeList::of(&NODES);
    is(&rt, list.find(0x21), NODES.first().copied());
    is(&rt, list.find(0x122), NODES.get(1).copied());
    is(&rt, list.find(0), None);
    is(&rt, list.find(0x61), None);
    is(&rt, list.find(u32::MAX), None);
    is(&rt, list.entries(), &NODES);
}
