//! Tables whose row matrix is the data of a subnode: no row lies in two blocks.

mod asked;
mod rows;

use super::is_answered;
use crate::made::{MEMORY, add_block, add_blocks, add_node, changed, image_of, plan_of};
use pst_make::{Change, Plan, change_all};
use rows::{IN_TWO_BLOCKS, OF_ALL_LENGTHS};
use std::alloc::Global;
use std::process::Abort;

// A table of three rows, 1 to 3, with one column: the header of a heap; TCINFO at 12, which names subnode 0x41 as the matrix; the
// header of the row index at 42; its records at 50, 58 and 66, each with the number of a row; and the page map.
const TABLE: [u8; 86] = [
    74, 0, 0xec, 0x7c, 0x20, 0, 0, 0, 0, 0, 0, 0, //
    0x7c, 1, 4, 0, 4, 0, 4, 0, 4, 0, 0x40, 0, 0, 0, 0x41, 0, 0, 0, 0, 0, 0, 0, //
    3, 0, 0xf2, 0x67, 0, 0, 4, 0, //
    0xb5, 4, 4, 0, 0x60, 0, 0, 0, //
    1, 0, 0, 0, 0, 0, 0, 0, //
    2, 0, 0, 0, 1, 0, 0, 0, //
    3, 0, 0, 0, 2, 0, 0, 0, //
    3, 0, 0, 0, 12, 0, 42, 0, 50, 0, 74, 0,
];

// A block of the matrix: its identifier, how long it is, and its bytes that are not 0.
#[derive(Clone, Copy)]
struct Block<'a> {
    bid: u64,
    len: usize,
    changes: &'a [Change<'a>],
}

// A store of such a table, and what is answered of it.
#[derive(Clone, Copy)]
struct Row<'a> {
    // What is changed in the table.
    changes: &'a [Change<'a>],
    // The blocks of its rows.
    blocks: &'a [Block<'a>],
    // The lists of these blocks, by their identifiers.
    lists: &'a [(u64, &'a [u8])],
    // The identifier of the subnode's data.
    data: u8,
    line: &'a str,
}

// The list of the subnodes, their identifiers falling: two SLBLOCKs, each of a subnode with its data, and the SIBLOCK of both.
fn slblock(nid: u8, data: u8) -> [u8; 32] {
    [
        2, 0, 1, 0, 0, 0, 0, 0, nid, 0, 0, 0, 0, 0, 0, 0, data, 0, 0, 0, 0, 0, 0, 0, 0, 0, 0, 0, 0,
        0, 0, 0,
    ]
}

const SIBLOCK: [u8; 40] = [
    2, 1, 2, 0, 0, 0, 0, 0, 0x61, 0, 0, 0, 0, 0, 0, 0, 34, 0, 0, 0, 0, 0, 0, 0, 0x41, 0, 0, 0, 0,
    0, 0, 0, 38, 0, 0, 0, 0, 0, 0, 0,
];

// Adds the blocks of the rows to a plan.
fn add_rows<R: Abort>(rt: &R, alloc: Global, plan: &mut Plan, blocks: &[Block]) {
    for block in blocks {
        let mut body = (vec![in alloc; 0u8; block.len]).expect(rt, MEMORY);
        change_all(&mut body, block.changes).expect(rt, MEMORY);
        add_block(rt, plan, block.bid, body);
    }
}

fn store<R: Abort>(rt: &R, alloc: Global, row: Row) -> Vec<u8> {
    let table = changed(rt, alloc, &TABLE, row.changes);
    let mut plan = plan_of(rt, alloc, &[(4, &table)]);
    add_rows(rt, alloc, &mut plan, row.blocks);
    add_blocks(rt, alloc, &mut plan, row.lists);
    let (none, data) = (slblock(0x61, 0), slblock(0x41, row.data));
    let subnodes: [(u64, &[u8]); 3] = [(30, &SIBLOCK), (34, &none), (38, &data)];
    add_blocks(rt, alloc, &mut plan, &subnodes);
    add_node(rt, &mut plan, 0x21, 4, 30);
    image_of(rt, alloc, &plan)
}

// Whether each store is answered with its line.
fn are_answered<R: Abort>(rt: &R, alloc: Global, rows: &[Row]) {
    for row in rows {
        let image = store(rt, alloc, *row);
        is_answered(rt, alloc, &image, 0x21, row.line);
    }
}

#[test]
fn tables_in_subnodes(rt: HostRuntime) {
    are_answered(&rt, rt.alloc(), &IN_TWO_BLOCKS);
    are_answered(&rt, rt.alloc(), &OF_ALL_LENGTHS);
}

#[test]
fn lists_are_asked(rt: HostRuntime) {
    asked::lists(&rt, rt.alloc());
}
