//! Table contexts of small stores, with bytes changed, and what their check and their look-ups answer.

ghost use Rattle.pst_ndb.specs.Views.{IsIndexedBy};

mod in_heap;
mod in_subnode;

use crate::made::{MEMORY, m1_with};
use crate::opened::{line_of_fault, node_in};
use crate::told::{holds_at, is, is_line};
use pst_datatree::Value;
use pst_fault::Fault;
use pst_heap::PageMaps;
use pst_ndb::{Node, SubIndex};
use pst_tc::*;
use std::alloc::Global;
use std::process::Abort;

// A cell that is there: its tag, its length, where it lies, and its first byte.
fn line_of_cell<R: Abort>(rt: &R, alloc: Global, tag: u32, value: Value) -> String {
    let (len, at, byte) = (value.len(), value.at(), value.byte(0).unwrap_or(0));
    let line = format!(in alloc; " {tag:x} {len} {at:x} {byte:x}").expect(rt, MEMORY);
    line
}

// The cells of a row that are there.
fn cells_of<R: Abort>(rt: &R, alloc: Global, tc: Tc, row: Row) -> String {
    let mut line = String::new(alloc);
    for column in tc.columns() {
        let tag = column.tag;
        if let Some(value) = row.cell(tag) {
            let text = line_of_cell(rt, alloc, tag, value);
            line.push_str(&text).expect(rt, MEMORY);
        }
    }
    line
}

// A row, found by its identifier: that, the place of its record, and its cells.
fn line_of_row<R: Abort>(rt: &R, alloc: Global, tc: Tc, id: u32, at: u64) -> String {
    let Some(row) = tc.row(id) else {
        rt.panic("not found");
    };
    if row.at() != at {
        rt.panic("another one");
    }
    let mut line = format!(in alloc; ", {id:x} {at:x}").expect(rt, MEMORY);
    let cells = cells_of(rt, alloc, tc, row);
    line.push_str(&cells).expect(rt, MEMORY);
    line
}

// The rows of a table context.
fn line_of_tc<R: Abort>(rt: &R, alloc: Global, tc: Tc) -> String {
    let mut line = format!(in alloc; "yes").expect(rt, MEMORY);
    for row in tc.rows() {
        let text = line_of_row(rt, alloc, tc, row.id(), row.at());
        line.push_str(&text).expect(rt, MEMORY);
    }
    line
}

// The rows that a check answers, or the line of the first fault.
fn line_of<R: Abort>(rt: &R, alloc: Global, answer: Result<Tc, Fault>) -> String {
    match answer {
        Ok(tc) => line_of_tc(rt, alloc, tc),
        Err(fault) => line_of_fault(rt, alloc, fault),
    }
}

// What is answered of the table of a node, with no index of its subnodes.
fn line_alone<R: Abort>(rt: &R, alloc: Global, node: Node) -> String {
    line_of(rt, alloc, check_tc(node))
}

// With one that is lent to the node.
fn line_indexed<R: Abort>(rt: &R, alloc: Global, node: Node, index: &SubIndex) -> String
    requires { IsIndexedBy node index.now }
{
    line_of(rt, alloc, check_tc(node.indexed(index)))
}

// With one that is lent to what was found.
fn line_lent<R: Abort>(rt: &R, alloc: Global, node: Node, index: &SubIndex) -> String
    requires { IsIndexedBy node index.now }
{
    match check_tc(node) {
        Ok(tc) => line_of_tc(rt, alloc, tc.indexed(index)),
        Err(fault) => line_of_fault(rt, alloc, fault),
    }
}

// With one, by who remembers page maps.
fn line_with<R: Abort>(rt: &R, alloc: Global, node: Node, index: &SubIndex) -> String
    requires { IsIndexedBy node index.now }
{
    let mut maps = PageMaps::new(alloc);
    line_of(rt, alloc, check_tc_with(node.indexed(index), &mut maps))
}

// Whether the table context of a node is answered with a line, with an index of its subnodes and with none, and by one
// who remembers page maps.
fn is_answered<R: Abort>(rt: &R, alloc: Global, image: &[u8], nid: u32, line: &str) {
    let node = node_in(rt, alloc, image, nid);
    is_line(rt, line_alone(rt, alloc, node), line);
    let Ok(index) = node.index(alloc) else {
        rt.panic("no memory");
    };
    is_line(rt, line_indexed(rt, alloc, node, &index), line);
    is_line(rt, line_lent(rt, alloc, node, &index), line);
    is_line(rt, line_with(rt, alloc, node, &index), line);
}

// The columns of a table: two, each with its tag, and where its cells and their bits lie.
fn columns_are_lent<R: Abort>(rt: &R, tc: Tc) {
    tc.is_sound();
    let mut columns = known_tc(tc.node()).columns();
    let first = columns.next().expect(rt, "no column");
    is(
        rt,
        (first.tag, first.at, first.width, first.bit),
        (0x67f2_0003, 0, 4, 0),
    );
    let next = columns.next().expect(rt, "no column");
    is(
        rt,
        (next.tag, next.at, next.width, next.bit),
        (0x3602_0003, 4, 4, 1),
    );
    is(rt, columns.next(), None);
}

// The cells of a row: there are none with other tags, and one has four bytes.
fn row_is_lent<R: Abort>(rt: &R, row: Row) {
    for tag in [0, 0x3602_0002, 0x3602_001f, 0x3601_0003] {
        holds_at(rt, tag, row.cell(tag).is_none());
    }
    let Some(Value::Whole(at, bytes)) = row.cell(0x3602_0003) else {
        rt.panic("in pieces");
    };
    is(rt, at, 0x4c80 + 70);
    is(rt, bytes, [7, 0, 0, 0].as_slice());
}

#[test]
fn cells_are_lent(rt: HostRuntime) {
    let alloc = rt.alloc();
    let image = m1_with(&rt, alloc, 2, &[]);
    let Ok(tc) = check_tc(node_in(&rt, alloc, &image, 0x12d)) else {
        rt.panic("no table");
    };
    columns_are_lent(&rt, tc);
    for id in [0, 0x141, 0x143, 0xffff_ffff] {
        holds_at(&rt, id, tc.row(id).is_none());
    }
    is(&rt, tc.row_count(), 1);
    let row = tc.row(0x142).expect(&rt, "no row");
    row_is_lent(&rt, row);
}
