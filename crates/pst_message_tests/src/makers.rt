//! Bodies of blocks: heaps, property contexts, table contexts and lists of subnodes; and plans of such blocks.

use crate::told::MEMORY;
use pst_make::{BlockPlan, NodePlan, Plan, m0_plan};
use std::alloc::Global;
use std::process::Abort;

/// An identifier, and the blocks of its data and of its subnodes: of a node, or of a subnode.
pub(crate) type Entry = (u32, u64, u64);

/// A property: its identifier, its type and four bytes.
pub(crate) type Record = (u16, u16, u32);

/// The bytes of a block.
#[derive(Clone, Copy)]
pub(crate) enum Body<'a> {
    /// These.
    Bytes(&'a [u8]),
    /// Those of a property context of records, and of an item of its heap with a value, 0x60 ([MS-PST] 2.3.3). The records
    /// begin at 20 and have 8 bytes each; the value stands behind them.
    Properties(&'a [Record], &'a [u8]),
    /// Those of a table context with the column of row identifiers alone, and rows with these ([MS-PST] 2.3.4). The first
    /// record of the row index is at 50 and 5 for each row; each has 8 bytes.
    Table(&'a [u32]),
    /// Those of one whose row matrix is subnode 0x41.
    Apart(&'a [u32]),
    /// Those of a list of subnodes ([MS-PST] 2.2.2.8.3.3.1).
    List(&'a [Entry]),
}

/// Blocks by their identifiers.
pub(crate) type Blocks<'a> = &'a [(u64, Body<'a>)];

// A length in two bytes.
fn put_len<R: Abort>(rt: &R, body: &mut Vec<u8>, len: usize) {
    let Ok(short) = u16::try_from(len) else {
        rt.panic("too long");
    };
    body.extend_from_slice(&short.to_le_bytes())
        .expect(rt, MEMORY);
}

fn put_items<R: Abort>(rt: &R, body: &mut Vec<u8>, items: &[&[u8]]) {
    for item in items {
        body.extend_from_slice(item).expect(rt, MEMORY);
    }
}

// Where the items end: each behind the one before, and the first behind the header of the heap.
fn put_ends<R: Abort>(rt: &R, body: &mut Vec<u8>, items: &[&[u8]]) {
    let mut end: usize = 12;
    put_len(rt, body, end);
    for item in items {
        end = end.saturating_add(item.len());
        put_len(rt, body, end);
    }
}

// How many bytes items have, and the header of the heap.
fn end_of(items: &[&[u8]]) -> usize {
    let mut end: usize = 12;
    for item in items {
        end = end.saturating_add(item.len());
    }
    end
}

// A heap of items, the first of which is the user root ([MS-PST] 2.3.1).
fn put_heap<R: Abort>(rt: &R, body: &mut Vec<u8>, client: u8, items: &[&[u8]]) {
    put_len(rt, body, end_of(items));
    body.extend_from_slice(&[0xec, client, 0x20, 0, 0, 0, 0, 0, 0, 0])
        .expect(rt, MEMORY);
    put_items(rt, body, items);
    put_len(rt, body, items.len());
    body.extend_from_slice(&[0; 2]).expect(rt, MEMORY);
    put_ends(rt, body, items);
}

// The item with these bytes, or none where there are none.
fn item_of(bytes: &[u8], item: u8) -> u8 {
    if bytes.is_empty() { 0 } else { item }
}

fn put_records<R: Abort>(rt: &R, joined: &mut Vec<u8>, records: &[Record]) {
    for (id, kind, raw) in records {
        joined
            .extend_from_slice(&id.to_le_bytes())
            .expect(rt, MEMORY);
        joined
            .extend_from_slice(&kind.to_le_bytes())
            .expect(rt, MEMORY);
        joined
            .extend_from_slice(&raw.to_le_bytes())
            .expect(rt, MEMORY);
    }
}

fn put_properties<R: Abort>(
    rt: &R,
    alloc: Global,
    body: &mut Vec<u8>,
    records: &[Record],
    value: &[u8],
) {
    let mut joined = Vec::new(alloc);
    put_records(rt, &mut joined, records);
    let header = [0xb5, 2, 6, 0, item_of(&joined, 0x40), 0, 0, 0];
    put_heap(rt, body, 0xbc, &[&header, &joined, value]);
}

// The row matrix, and the row index: rows by their numbers.
fn put_rows<R: Abort>(rt: &R, rows: &mut Vec<u8>, ids: &[u32]) {
    for id in ids {
        rows.extend_from_slice(&id.to_le_bytes()).expect(rt, MEMORY);
        rows.extend_from_slice(&[0x80]).expect(rt, MEMORY);
    }
}

fn put_index<R: Abort>(rt: &R, records: &mut Vec<u8>, ids: &[u32]) {
    let mut number = 0_u32;
    for id in ids {
        records
            .extend_from_slice(&id.to_le_bytes())
            .expect(rt, MEMORY);
        records
            .extend_from_slice(&number.to_le_bytes())
            .expect(rt, MEMORY);
        number = number.saturating_add(1);
    }
}

// A table whose row matrix is this: 0x60, an item of its heap, or a subnode.
fn put_table<R: Abort>(rt: &R, alloc: Global, body: &mut Vec<u8>, matrix: u8, ids: &[u32]) {
    let (mut rows, mut records) = (Vec::new(alloc), Vec::new(alloc));
    put_rows(rt, &mut rows, ids);
    put_index(rt, &mut records, ids);
    let info = [
        0x7c, 1, 4, 0, 4, 0, 4, 0, 5, 0, 0x40, 0, 0, 0, matrix, 0, 0, 0, 0, 0, 0, 0, 3, 0, 0xf2,
        0x67, 0, 0, 4, 0,
    ];
    let header = [0xb5, 4, 4, 0, item_of(&records, 0x80), 0, 0, 0];
    put_heap(rt, body, 0x7c, &[&info, &header, &rows, &records]);
}

fn put_list<R: Abort>(rt: &R, body: &mut Vec<u8>, entries: &[Entry]) {
    body.extend_from_slice(&[2, 0]).expect(rt, MEMORY);
    put_len(rt, body, entries.len());
    body.extend_from_slice(&[0; 4]).expect(rt, MEMORY);
    for (nid, bid_data, bid_sub) in entries {
        body.extend_from_slice(&u64::from(*nid).to_le_bytes())
            .expect(rt, MEMORY);
        body.extend_from_slice(&bid_data.to_le_bytes())
            .expect(rt, MEMORY);
        body.extend_from_slice(&bid_sub.to_le_bytes())
            .expect(rt, MEMORY);
    }
}

fn put_body<R: Abort>(rt: &R, alloc: Global, bytes: &mut Vec<u8>, body: Body) {
    match body {
        Body::Bytes(these) => put_items(rt, bytes, &[these]),
        Body::Properties(records, value) => put_properties(rt, alloc, bytes, records, value),
        Body::Table(ids) => put_table(rt, alloc, bytes, 0x60, ids),
        Body::Apart(ids) => put_table(rt, alloc, bytes, 0x41, ids),
        Body::List(entries) => put_list(rt, bytes, entries),
    }
}

/// One more block.
pub(crate) fn add_block<R: Abort>(rt: &R, alloc: Global, plan: &mut Plan, bid: u64, body: Body) {
    let mut bytes = Vec::new(alloc);
    put_body(rt, alloc, &mut bytes, body);
    plan.blocks
        .push(BlockPlan { bid, body: bytes })
        .expect(rt, MEMORY);
}

/// More blocks.
pub(crate) fn add_blocks<R: Abort>(rt: &R, alloc: Global, plan: &mut Plan, blocks: Blocks) {
    for (bid, body) in blocks {
        add_block(rt, alloc, plan, *bid, *body);
    }
}

/// A node without a parent.
pub(crate) fn node_of(nid: u32, bid_data: u64, bid_sub: u64) -> NodePlan {
    NodePlan {
        nid,
        bid_data,
        bid_sub,
        parent: 0,
    }
}

/// More nodes.
pub(crate) fn add_nodes<R: Abort>(rt: &R, plan: &mut Plan, nodes: &[Entry]) {
    for (nid, bid_data, bid_sub) in nodes {
        plan.nodes
            .push(node_of(*nid, *bid_data, *bid_sub))
            .expect(rt, MEMORY);
    }
}

/// The small store with these blocks and nodes.
pub(crate) fn plan_of<R: Abort>(rt: &R, alloc: Global, blocks: Blocks, nodes: &[Entry]) -> Plan {
    let mut plan = m0_plan(alloc).expect(rt, MEMORY);
    add_blocks(rt, alloc, &mut plan, blocks);
    add_nodes(rt, &mut plan, nodes);
    plan
}
