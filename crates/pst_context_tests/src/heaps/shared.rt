//! Heaps that share spans, checked by one who remembers page maps.

ghost use Rattle.pst_ndb.specs.Views.{table_of_ndb};
ghost use Rattle.pst_heap.specs.PageMaps.{AreMapsTrue};

use super::{SPAN, list_of};
use crate::made::{MEMORY, add_block, add_node, image_of, plan_of};
use crate::opened::{line_of_fault, ndb_in};
use crate::told::is;
use pst_heap::{PageMaps, check_heap_with};
use pst_ndb::Ndb;
use std::alloc::Global;
use std::process::Abort;

// A file, and what is known of its page maps.
#[derive(Drop)]
struct Known<'a> {
    ndb: Ndb<'a>,
    maps: PageMaps,
    ghost known: { AreMapsTrue (table_of_ndb ndb) maps },
}

// What a node's data is answered with as a heap, by what is known.
fn line_of<R: Abort>(rt: &R, alloc: Global, known: &mut Known, nid: u32) -> String {
    let Some(node) = known.ndb.node(nid) else {
        rt.panic("no node");
    };
    match check_heap_with(node, &mut known.maps) {
        Ok(heap) => {
            let client = heap.client();
            format!(in alloc; "yes: {client:x}").expect(rt, MEMORY)
        }
        Err(fault) => line_of_fault(rt, alloc, fault),
    }
}

// The span of SPAN, with another signature.
const OTHER: [u8; 18] = [12, 0, 0xed, 0xbc, 0, 0, 0, 0, 0, 0, 0, 0, 0, 0, 0, 0, 12, 0];

// The blocks at 0x4c00, 0x4c40, 0x4c80 and 0x4cc0; the third has no page map.
const BLOCKS: [(u64, &[u8]); 4] = [
    (4, &SPAN),
    (8, &[2, 0, 0, 0, 0, 0, 0, 0]),
    (12, &[2]),
    (16, &OTHER),
];

// The lists of them: each its identifier and level, the block that it names, how often it does so, how many bytes all blocks
// have, and the block that it names then.
const LISTS: [(u64, u8, u32, u32, u32, Option<u32>); 7] = [
    (22, 1, 4, 1, 18, None),
    (26, 1, 8, 20, 160, None),
    (30, 1, 8, 20, 161, Some(12)),
    (34, 1, 16, 1, 18, None),
    (38, 2, 22, 1, 178, Some(26)),
    (42, 2, 22, 1, 179, Some(30)),
    (46, 2, 34, 1, 178, Some(26)),
];

// Nodes 0x21 and 0x61 have the first and 20 times the second, node 0x41 all three, and node 0x81 one with another signature
// before those.
const NODES: [(u32, u64); 4] = [(0x21, 38), (0x41, 42), (0x61, 38), (0x81, 46)];

fn store<R: Abort>(rt: &R, alloc: Global) -> Vec<u8> {
    let mut plan = plan_of(rt, alloc, &BLOCKS);
    for (bid, level, named, times, total, other) in LISTS {
        let body = list_of(rt, alloc, level, named, times, total, other);
        add_block(rt, &mut plan, bid, body);
    }
    for (nid, bid_data) in NODES {
        add_node(rt, &mut plan, nid, bid_data, 0);
    }
    image_of(rt, alloc, &plan)
}

const BAD_MAP: &str = "no: 21 Heap at 0x4c80 bid 0x2a nid 0x41";

// What is answered of nodes, one after another: a fault is told of each afresh, whatever is known.
const ROWS: [(u32, &str); 5] = [
    (0x21, "yes: bc"),
    (0x41, BAD_MAP),
    (0x61, "yes: bc"),
    (0x41, BAD_MAP),
    (0x81, "no: 21 Heap at 0x4cc0 bid 0x2e nid 0x81"),
];

#[test]
fn shared_spans(rt: HostRuntime) {
    let alloc = rt.alloc();
    let image = store(&rt, alloc);
    let mut known = Known {
        ndb: ndb_in(&rt, alloc, &image),
        maps: PageMaps::new(alloc),
    };
    for (nid, line) in ROWS {
        let told = line_of(&rt, alloc, &mut known, nid);
        is(&rt, told.as_str(), line);
    }
}
