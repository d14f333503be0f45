//! Property contexts of small stores, with bytes changed, and what their check and their look-ups answer.

ghost use Rattle.pst_ndb.specs.Views.{IsIndexedBy};

mod asked;
mod lent;
mod small;

use crate::made::{MEMORY, changed, m0_with, put, store_of};
use crate::opened::{line_of_fault, node_in};
use crate::told::is_line;
use pst_fault::Fault;
use pst_make::Change;
use pst_make::Change::Set;
use pst_ndb::{Node, SubIndex};
use pst_pc::*;
use pst_value::bytes_from;
use small::{FOLDER_ROWS, STORE_ROWS};
use std::alloc::Global;
use std::process::Abort;

// Whether a property context has a property by its identifier.
fn is_found(pc: &Pc, prop: Prop) -> bool {
    match pc.get(prop.id) {
        Some(again) => again.kind == prop.kind && again.at == prop.at,
        None => false,
    }
}

// A property: its identifier, type, place and bytes.
fn line_of_prop<R: Abort>(rt: &R, alloc: Global, prop: Prop) -> String {
    let (id, kind, at) = (prop.id, prop.kind.0, prop.at);
    let mut line = format!(in alloc; ", {id:x} {kind:x} {at:x}:").expect(rt, MEMORY);
    for byte in bytes_from(prop.value) {
        let digits = format!(in alloc; "{byte:02x}").expect(rt, MEMORY);
        line.push_str(&digits).expect(rt, MEMORY);
    }
    line
}

// The properties of a property context.
fn line_of_pc<R: Abort>(rt: &R, alloc: Global, pc: Pc) -> String {
    let mut line = format!(in alloc; "yes").expect(rt, MEMORY);
    for prop in pc.props() {
        if !is_found(&pc, prop) {
            rt.panic("another one");
        }
        let text = line_of_prop(rt, alloc, prop);
        line.push_str(&text).expect(rt, MEMORY);
    }
    line
}

// The properties that a check answers, or the line of the first fault.
fn line_of<R: Abort>(rt: &R, alloc: Global, answer: Result<Pc, Fault>) -> String {
    match answer {
        Ok(pc) => line_of_pc(rt, alloc, pc),
        Err(fault) => line_of_fault(rt, alloc, fault),
    }
}

// What is answered of the properties of a node, with no index of its subnodes.
fn line_alone<R: Abort>(rt: &R, alloc: Global, node: Node) -> String {
    line_of(rt, alloc, check_pc(node))
}

// With one that is lent to the node.
fn line_indexed<R: Abort>(rt: &R, alloc: Global, node: Node, index: &SubIndex) -> String
    requires { IsIndexedBy node index.now }
{
    line_of(rt, alloc, check_pc(node.indexed(index)))
}

// With one that is lent to what was found.
fn line_lent<R: Abort>(rt: &R, alloc: Global, node: Node, index: &SubIndex) -> String
    requires { IsIndexedBy node index.now }
{
    match check_pc(node) {
        Ok(pc) => line_of_pc(rt, alloc, pc.indexed(index)),
        Err(fault) => line_of_fault(rt, alloc, fault),
    }
}

// With one, by who remembers page maps.
fn line_with<R: Abort>(rt: &R, alloc: Global, node: Node, index: &SubIndex) -> String
    requires { IsIndexedBy node index.now }
{
    let mut maps = PageMaps::new(alloc);
    line_of(rt, alloc, check_pc_with(node.indexed(index), &mut maps))
}

// Whether the property context of a node is answered with a line, with no index of its subnodes, with one, and with one lent.
fn is_answered<R: Abort>(rt: &R, alloc: Global, image: &[u8], nid: u32, line: &str) {
    let node = node_in(rt, alloc, image, nid);
    is_line(rt, line_alone(rt, alloc, node), line);
    let Ok(index) = node.index(alloc) else {
        rt.panic("no memory");
    };
    is_line(rt, line_indexed(rt, alloc, node, &index), line);
    is_line(rt, line_lent(rt, alloc, node, &index), line);
    is_line(rt, line_with(rt, alloc, node, &index), line);
}

// Whether a node of the small store is answered with each line, a block changed.
fn are_answered<R: Abort>(rt: &R, alloc: Global, block: usize, nid: u32, rows: &[(Change, &str)]) {
    for (change, line) in rows {
        let image = m0_with(rt, alloc, block, &[*change]);
        is_answered(rt, alloc, &image, nid, line);
    }
}

#[test]
fn small_stores(rt: HostRuntime) {
    are_answered(&rt, rt.alloc(), 0, 0x21, &STORE_ROWS);
    are_answered(&rt, rt.alloc(), 1, 0x122, &FOLDER_ROWS);
}

// A property context: the header of a heap, of a BTH, four records, items of 7, 16 and 4 bytes, and the page map.
const PROPERTIES: [u8; 95] = [
    79, 0, 0xec, 0xbc, 0x20, 0, 0, 0, 0, 0, 0, 0, //
    0xb5, 2, 6, 0, 0x40, 0, 0, 0, //
    0x37, 0, 0x1f, 0, 0xa0, 0, 0, 0, //
    0, 0x10, 0x1f, 0, 0x41, 0, 0, 0, //
    7, 0x30, 0x40, 0, 0, 0, 0, 0, //
    1, 0x37, 0x48, 0, 0x80, 0, 0, 0, //
    1, 2, 3, 4, 5, 6, 7, //
    0x28, 3, 2, 0, 0, 0, 0, 0, 0xc0, 0, 0, 0, 0, 0, 0, 0x46, //
    0x41, 0, 0, 0xd8, //
    5, 0, 0, 0, 12, 0, 20, 0, 52, 0, 59, 0, 75, 0, 79, 0,
];

// An XBLOCK of two blocks, and a list of one subnode, 0x41, with it as its data.
const XBLOCK: [u8; 24] = [
    1, 1, 2, 0, 5, 0, 0, 0, 8, 0, 0, 0, 0, 0, 0, 0, 12, 0, 0, 0, 0, 0, 0, 0,
];

const SUBNODES: [u8; 32] = [
    2, 0, 1, 0, 0, 0, 0, 0, 0x41, 0, 0, 0, 0, 0, 0, 0, 18, 0, 0, 0, 0, 0, 0, 0, 0, 0, 0, 0, 0, 0,
    0, 0,
];

// A store of one node, 0x21, with this property context, whose bytes are changed; bit 0 of its block identifiers is set.
fn store<R: Abort>(rt: &R, alloc: Global, changes: &[Change]) -> Vec<u8> {
    let properties = changed(rt, alloc, &PROPERTIES, changes);
    let blocks: [(u64, &[u8]); 5] = [
        (4, &properties),
        (8, &[b'P', 0, b'S']),
        (12, &[0, b'T']),
        (18, &XBLOCK),
        (22, &SUBNODES),
    ];
    store_of(rt, alloc, &blocks, 5, 23)
}

// Changes to that property context, and what is answered of it.
const FAULT_ROWS: [(&[Change<'static>], &str); 4] = [
    (
        &[],
        "yes, 37 1f 4c4b:410000d8, 1000 1f 4c80:5000530054, 3007 40 0:, 3701 48 4c3b:2803020000000000c000000000000046",
    ),
    (
        &[Set(40, &[0x60])],
        "no: 24 Property at 0x4c24 bid 0x5 nid 0x21",
    ),
    (
        &[Set(40, &[0x60]), Set(32, &[0x61])],
        "no: 17 Subnode at 0x4c20 bid 0x5 nid 0x21",
    ),
    (
        &[Set(40, &[0x60]), Set(32, &[0x61]), Set(36, &[0, 0])],
        "no: 23 Bth at 0x4c24 bid 0x5 nid 0x21",
    ),
];

#[test]
fn first_faults(rt: HostRuntime) {
    let alloc = rt.alloc();
    for (changes, line) in FAULT_ROWS {
        let image = store(&rt, alloc, changes);
        is_answered(&rt, alloc, &image, 0x21, line);
    }
}

// A property context of three values in subnodes: the header of a heap, of a BTH, three records, and the page map.
const IN_SUBNODES: [u8; 54] = [
    44, 0, 0xec, 0xbc, 0x20, 0, 0, 0, 0, 0, 0, 0, //
    0xb5, 2, 6, 0, 0x40, 0, 0, 0, //
    1, 0, 2, 1, 0x81, 0, 0, 0, //
    2, 0, 2, 1, 0x41, 0, 0, 0, //
    3, 0, 2, 1, 0x61, 0, 0, 0, //
    2, 0, 0, 0, 12, 0, 20, 0, 44, 0,
];

// The body of a list: its level, how many entries, and their numbers of 8 bytes.
fn list<R: Abort>(rt: &R, alloc: Global, level: u8, count: u8, numbers: &[u64]) -> Vec<u8> {
    let mut body = Vec::from_slice(alloc, &[2, level, count, 0, 0, 0, 0, 0]).expect(rt, MEMORY);
    for number in numbers {
        put(rt, &mut body, *number, 8);
    }
    body
}

// A store of one node, 0x21, with these properties and four subnodes in two SLBLOCKs, their identifiers falling; the last of
// them has this one.
fn falling<R: Abort>(rt: &R, alloc: Global, last: u64) -> Vec<u8> {
    let whole = list(rt, alloc, 1, 2, &[0x81, 26, 0x41, 30]);
    let first = list(rt, alloc, 0, 2, &[0xa1, 0, 0, 0x81, 8, 0]);
    let next = list(rt, alloc, 0, 2, &[0x61, 12, 0, last, 16, 0]);
    let blocks: [(u64, &[u8]); 7] = [
        (4, &IN_SUBNODES),
        (8, b"81"),
        (12, b"61"),
        (16, b"41"),
        (22, &whole),
        (26, &first),
        (30, &next),
    ];
    store_of(rt, alloc, &blocks, 4, 22)
}

// The identifier of the last subnode, and what is answered.
const FALLING_ROWS: [(u64, &str); 2] = [
    (
        0x41,
        "yes, 1 102 4c80:3831, 2 102 4d00:3431, 3 102 4cc0:3631",
    ),
    (0x42, "no: 17 Subnode at 0x4c20 bid 0x4 nid 0x21"),
];

#[test]
fn values_in_a_list_that_falls(rt: HostRuntime) {
    let alloc = rt.alloc();
    for (last, line) in FALLING_ROWS {
        let image = falling(&rt, alloc, last);
        is_answered(&rt, alloc, &image, 0x21, line);
    }
}

#[test]
fn values_are_lent(rt: HostRuntime) {
    let alloc = rt.alloc();
    let image = store(&rt, alloc, &[]);
    let Ok(pc) = check_pc(node_in(&rt, alloc, &image, 0x21)) else {
        rt.panic("no properties");
    };
    lent::absent(&rt, &pc);
    lent::subject(&rt, &pc);
    lent::guid(&rt, alloc, &pc);
    lent::body(&rt, &pc);
}

#[test]
fn lists_are_asked(rt: HostRuntime) {
    asked::lists(&rt, rt.alloc());
}
