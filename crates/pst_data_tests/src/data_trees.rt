//! Data trees of made stores: what their check answers, and their values.

mod breaches;
mod large;
mod leaves;
mod parts;
mod sharing;
mod shown;
mod tree;

use self::shown::*;
use self::tree::{Known, Tree};
use crate::made::{MEMORY, add, add_numbers, blocks_in, image_of};
use crate::told::{holds, is};
use pst_block::Blocks;
use pst_bytes::{Image, Span};
use pst_datatree::*;
use pst_fault::{Fault, Kind, Place};
use pst_make::BlockPlan;
use std::alloc::Global;
use std::process::Abort;

// The node that faults are told of.
const NODE: u32 = 0x122;

// The body of an XBLOCK (level 1) or XXBLOCK (level 2) that names blocks.
fn list_of<R: Abort>(rt: &R, alloc: Global, level: u8, total: u32, bids: &[u64]) -> Vec<u8> {
    let count = u16::try_from(bids.len()).unwrap_or(0);
    let mut body = Vec::from_slice(alloc, &[1, level]).expect(rt, MEMORY);
    body.extend_from_slice(&count.to_le_bytes())
        .expect(rt, MEMORY);
    body.extend_from_slice(&total.to_le_bytes())
        .expect(rt, MEMORY);
    add_numbers(rt, &mut body, bids);
    body
}

// Data blocks: their identifiers, the byte that they hold, and how often.
type Bodies<'a> = &'a [(u64, u8, usize)];

// Identifiers, each so many times in a row.
type Named<'a> = &'a [(u64, usize)];

// Internal blocks: their identifiers, levels and totals, and the blocks that they name.
type Lists<'a> = &'a [(u64, u8, u32, Named<'a>)];

fn bids_of<R: Abort>(rt: &R, alloc: Global, named: Named) -> Vec<u64> {
    let mut bids = Vec::new(alloc);
    for (bid, times) in named {
        for _ in 0..*times {
            bids.push(*bid).expect(rt, MEMORY);
        }
    }
    bids
}

// A body of one byte, so many times.
fn body_of<R: Abort>(rt: &R, alloc: Global, byte: u8, len: usize) -> Vec<u8> {
    (vec![in alloc; byte; len]).expect(rt, MEMORY)
}

// A plan of data blocks and internal blocks, whose identifiers rise.
fn plan_of<R: Abort>(rt: &R, alloc: Global, bodies: Bodies, lists: Lists) -> Vec<BlockPlan> {
    let mut plan = Vec::new(alloc);
    for (bid, byte, len) in bodies {
        add(rt, &mut plan, *bid, body_of(rt, alloc, *byte, *len));
    }
    for (bid, level, total, named) in lists {
        let bids = bids_of(rt, alloc, named);
        add(
            rt,
            &mut plan,
            *bid,
            list_of(rt, alloc, *level, *total, &bids),
        );
    }
    plan
}

fn store<R: Abort>(rt: &R, alloc: Global, bodies: Bodies, lists: Lists) -> Vec<u8> {
    image_of(rt, alloc, plan_of(rt, alloc, bodies, lists))
}

// What the check of a data tree answers, and how many internal blocks it expands.
fn checked<R: Abort>(rt: &R, alloc: Global, image: &[u8], bid: u64) -> (Option<Fault>, u64) {
    let blocks = blocks_in(rt, alloc, Image::new(image));
    let mut seen = Seen::new(alloc);
    let fault = check_data(alloc, &blocks, bid, NODE, &mut seen).err();
    (fault, seen.expansions())
}

fn fault_of(kind: Kind, at: u64, bid: u64) -> Option<Fault> {
    let place = Place { at, bid, nid: NODE };
    Some(Fault { kind, place })
}

// Where the body of a block lies.
fn span_of<R: Abort>(rt: &R, alloc: Global, image: &[u8], bid: u64) -> Span {
    blocks_in(rt, alloc, Image::new(image))
        .span(bid)
        .expect(rt, "no block")
}

fn place_of<R: Abort>(rt: &R, alloc: Global, image: &[u8], bid: u64) -> u64 {
    span_of(rt, alloc, image, bid).at
}

// A body of 8,176 bytes and one of 1 byte; and an XBLOCK of both, with their length or one byte less.
const TWO_BODIES: Bodies<'static> = &[(4, 0x61, 8176), (8, 0x62, 1)];

const OF_BOTH: Lists<'static> = &[(0x0e, 1, 0x1ff1, &[(4, 1), (8, 1)])];

const OF_LESS: Lists<'static> = &[(0x0e, 1, 0x1ff0, &[(4, 1), (8, 1)])];

// Where the two bodies lie: the first behind the two pages of trees, the second behind it.
const FIRST: Span = Span {
    at: 0x4c00,
    len: 8176,
};

const SECOND: Span = Span { at: 0x6c00, len: 1 };

fn lie_there<R: Abort>(rt: &R, alloc: Global, image: &[u8]) {
    is(rt, span_of(rt, alloc, image, 4), FIRST);
    is(rt, span_of(rt, alloc, image, 8), SECOND);
}

#[test]
fn a_value_in_two_pieces(rt: HostRuntime) {
    let alloc = rt.alloc();
    let image = store(&rt, alloc, TWO_BODIES, OF_BOTH);
    is(&rt, checked(&rt, alloc, &image, 0x0e), (None, 1));
    lie_there(&rt, alloc, &image);
    let tree = Tree::read(&rt, alloc, Image::new(&image), 0x0e);
    has_spans(&rt, &tree, &[FIRST, SECOND]);
    is_in_two_pieces(&rt, tree.value());
    is_advanced(&rt, tree.spans());
}

fn is_in_two_pieces<R: Abort>(rt: &R, whole: Value) {
    is(rt, (whole.len(), whole.at()), (8177, FIRST.at));
    holds(rt, !whole.is_empty());
    has_bytes(rt, &whole, &ENDS);
    let Value::Pieces(mut pieces) = whole else {
        rt.panic("one slice");
    };
    is(rt, next_len(&mut pieces), Some(8176));
    is(rt, next_len(&mut pieces), Some(1));
    is(rt, next_len(&mut pieces), None);
}

// Advanced, the same pieces are fewer bytes.
fn is_advanced<R: Abort>(rt: &R, pieces: Pieces) {
    let mut rest = pieces;
    let _first = rest.next();
    let late = Value::Pieces(rest);
    is(rt, (late.len(), late.at()), (1, SECOND.at));
    is(rt, late.byte(0), Some(0x62));
}

// The last byte of the first body, and the only one of the second.
const ENDS: [(u64, Option<u8>); 3] = [(8175, Some(0x61)), (8176, Some(0x62)), (8177, None)];

#[test]
fn parts_of_a_value(rt: HostRuntime) {
    let alloc = rt.alloc();
    let image = store(&rt, alloc, TWO_BODIES, OF_BOTH);
    lie_there(&rt, alloc, &image);
    let whole = Tree::read(&rt, alloc, Image::new(&image), 0x0e).value();
    for (from, to, part) in PARTS {
        is(&rt, shown_part(&whole, from, to), part);
    }
    holds(&rt, part_of(&rt, &whole, 8177, 8177).is_empty());
    has_parts_of_parts(&rt, &whole);
}

// A part of a part counts from its first byte.
fn has_parts_of_parts<R: Abort>(rt: &R, whole: &Value) {
    let within = shown_part(&part_of(rt, whole, 1, 8176), 2, 5);
    is(rt, within, Some((true, 3, 0x4c03, [Some(0x61); 2])));
    let inner = shown_part(&part_of(rt, whole, 8170, 8177), 5, 7);
    is(
        rt,
        inner,
        Some((false, 2, 0x6bef, [Some(0x61), Some(0x62)])),
    );
}

// Parts of a value, from one number to another. Bytes of one body are one slice, and those of both are two. No bytes are an
// empty slice at no place; bytes past the end are none.
const PARTS: [(u64, u64, Option<Shown>); 6] = [
    (1, 8176, Some((true, 8175, 0x4c01, [Some(0x61); 2]))),
    (8176, 8177, Some((true, 1, 0x6c00, [Some(0x62), None]))),
    (8170, 8177, Some((false, 7, 0x6bea, [Some(0x61); 2]))),
    (8177, 8177, Some((true, 0, 0, [None; 2]))),
    (0, 8178, None),
    (2, 1, None),
];

// An XXBLOCK that names one XBLOCK 1,021 times, which names one body.
const OFTEN_BODIES: Bodies<'static> = &[(4, 0x63, 1)];

const OFTEN: Lists<'static> = &[(0x0a, 1, 1, &[(4, 1)]), (0x0e, 2, 1021, &[(0x0a, 1021)])];

#[test]
fn a_body_named_often(rt: HostRuntime) {
    let alloc = rt.alloc();
    let image = store(&rt, alloc, OFTEN_BODIES, OFTEN);
    is(&rt, checked(&rt, alloc, &image, 0x0e), (None, 2));
    let tree = Tree::read(&rt, alloc, Image::new(&image), 0x0e);
    is(&rt, tree.leaf_count(), 1021);
    let body = span_of(&rt, alloc, &image, 4);
    is(&rt, tree.leaf(1020), Some(body));
    let Value::Pieces(pieces) = tree.value() else {
        rt.panic("one slice");
    };
    is(&rt, count_of(&rt, pieces, 0x63), 1021);
}

#[test]
fn one_body_with_bytes(rt: HostRuntime) {
    let alloc = rt.alloc();
    let image = store(&rt, alloc, ONE_AND_NONE, LISTS_OF_ONE);
    is(&rt, place_of(&rt, alloc, &image, 4), 0x4c00);
    let mut known = Known::read(&rt, alloc, Image::new(&image));
    for (bid, told) in ONE_BODY {
        let tree = known.tree(&rt, alloc, bid);
        is(&rt, told_of(&tree), told);
    }
}

// A body of three bytes and an empty one.
const ONE_AND_NONE: Bodies<'static> = &[(4, 0x64, 3), (8, 0, 0)];

const LISTS_OF_ONE: Lists<'static> = &[
    (0x0a, 1, 0, &[]),
    (0x0e, 1, 3, &[(8, 1), (4, 1), (8, 1)]),
    (0x12, 2, 6, &[(0x0a, 1), (0x0e, 1), (0x0a, 1), (0x0e, 1)]),
];

// Identifiers, and what is told of their trees.
const ONE_BODY: [(u64, Told); 8] = [
    (0, (true, 0, 0, 0, 0)),
    (1, (true, 0, 0, 0, 0)),
    (4, (true, 3, 0x4c00, 1, 1)),
    (5, (true, 3, 0x4c00, 1, 1)),
    (8, (true, 0, 0, 1, 1)),
    (0x0a, (true, 0, 0, 0, 0)),
    (0x0e, (true, 3, 0x4c00, 3, 3)),
    (0x12, (false, 6, 0x4c00, 6, 6)),
];
