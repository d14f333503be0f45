//! Blocks of small stores, with bytes changed.

mod claims;
mod many;
mod steps;

use crate::made::{MEMORY, changed, small};
use crate::told::{is, is_at};
use pst_block::*;
use pst_btree::walk_blocks;
use pst_bytes::{Image, Span};
use pst_fault::{Fault, Kind, Place};
use pst_header::{Header, read_header};
use pst_make::{BlockPlan, Change, Plan, build};
use pst_space::Claims;
use std::alloc::Global;
use std::process::Abort;

// The two blocks of a small store whose mapped part ends where the file does, after 271,360 bytes. Each takes 64 bytes.
const FIRST: BlockEntry = BlockEntry {
    bid: 4,
    ib: 0x4c00,
    cb: 44,
};

const SECOND: BlockEntry = BlockEntry {
    bid: 8,
    ib: 0x4c40,
    cb: 38,
};

// Where the trailer of the second block begins, and the second entry of the page of its block B-tree: bid, ib, cb.
const TRAILER: usize = 0x4c70;

const ENTRY: usize = 0x4a18;

const ENTRY_IB: usize = ENTRY + 8;

const ENTRY_CB: usize = ENTRY + 16;

fn fault_of(kind: Kind, entry: BlockEntry) -> Fault {
    let place = Place {
        at: entry.ib,
        bid: entry.bid,
        nid: 0,
    };
    Fault { kind, place }
}

// All blocks of a file, or the first fault.
fn blocks_in<'a>(alloc: Global, image: Image<'a>) -> Result<Blocks<'a>, Fault> {
    let header = read_header(image)?;
    let mut claims = Claims::new(alloc, &header)?;
    let (tree, entries) = walk_blocks(alloc, image, &header, &mut claims)?;
    check_blocks(tree, &header, &entries, &mut claims)
}

// The fault of a store, changed.
fn fault_in<R: Abort>(rt: &R, alloc: Global, changes: &[Change]) -> Option<Fault> {
    let image = changed(rt, alloc, changes);
    blocks_in(alloc, Image::new(&image)).err()
}

// Stops the test where the fault of a block is another one.
fn is_refused<R: Abort + AllocGlobal>(rt: &R, changes: &[Change], kind: Kind, entry: BlockEntry) {
    let fault = fault_in(rt, rt.alloc(), changes);
    is(rt, fault, Some(fault_of(kind, entry)));
}

fn is_good<R: Abort + AllocGlobal>(rt: &R, changes: &[Change]) {
    is(rt, fault_in(rt, rt.alloc(), changes), None);
}

// The block of an entry, or its fault.
fn block_in<'a>(image: &'a [u8], entry: BlockEntry) -> Result<Block<'a>, Fault> {
    let image = Image::new(image);
    let header = read_header(image)?;
    read_block(image, &header, entry)
}

#[test]
fn a_block_is_read(rt: HostRuntime) {
    let bytes = small(&rt, rt.alloc());
    let block = block_in(&bytes, SECOND).expect(&rt, "no block");
    is(&rt, block.entry, SECOND);
    is(&rt, Some(block.body), bytes.get(0x4c40..0x4c66));
    // Bit 0 of the entry's identifier says nothing.
    let odd = BlockEntry { bid: 9, ..SECOND };
    is(&rt, block_in(&bytes, odd).err(), None);
}

// An empty body takes 64 bytes, and the largest 8,192.
const SIZES: [(u16, u64); 5] = [(0, 64), (48, 64), (49, 128), (112, 128), (8176, 8192)];

#[test]
fn blocks_take_whole_units(rt: HostRuntime) {
    for (cb, size) in &SIZES {
        is(&rt, block_size(*cb), *size);
    }
}

// Where a block lies, how many bytes its body has, and its fault.
const PLACES: [(u64, u16, Kind); 10] = [
    (0x4c40, 8177, Kind::BlockPlace),
    (0x4c48, 38, Kind::BlockPlace),
    (0x43c0, 38, Kind::BlockPlace),
    (0, 38, Kind::BlockPlace),
    (271_360, 38, Kind::BlockPlace),
    (271_296, 49, Kind::BlockPlace),
    (0xffff_ffff_ffff_ffc0, 38, Kind::BlockPlace),
    // In these places a block may lie, and there is none.
    (0x4400, 38, Kind::BlockTrailer),
    (271_296, 48, Kind::BlockTrailer),
    (0x8000, 8176, Kind::BlockTrailer),
];

// The file goes on after the end of the mapped part.
#[test]
fn places_where_no_block_may_lie(rt: HostRuntime) {
    let bytes = changed(&rt, rt.alloc(), &[Change::Grow(64)]);
    for (ib, cb, kind) in &PLACES {
        let entry = BlockEntry {
            bid: 8,
            ib: *ib,
            cb: *cb,
        };
        let fault = block_in(&bytes, entry).err();
        is_at(&rt, *ib, fault, Some(fault_of(*kind, entry)));
    }
}

// The body of a block, by its entry and by its span.
fn body_of<'a>(blocks: &Blocks<'a>, bid: u64) -> Option<&'a [u8]> {
    match blocks.entry(bid) {
        Some(entry) => Some(blocks.body_at(entry)),
        None => None,
    }
}

fn lent_of<'a>(blocks: &Blocks<'a>, bid: u64) -> Option<&'a [u8]> {
    match blocks.span(bid) {
        Some(span) => Some(blocks.lend(span)),
        None => None,
    }
}

fn are_small<'x, R: Abort>(rt: &R, blocks: &Blocks<'x>, bytes: &'x [u8]) {
    is(rt, blocks.entry(4), Some(FIRST));
    is(rt, blocks.entry(9), Some(SECOND));
    is(rt, blocks.entry(6), None);
    let span = Span {
        at: 0x4c00,
        len: 44,
    };
    is(rt, blocks.span(5), Some(span));
    is(rt, blocks.span(0), None);
    is(rt, blocks.body(4), bytes.get(0x4c00..0x4c2c));
    is(rt, blocks.body(8), bytes.get(0x4c40..0x4c66));
    is(rt, blocks.body(12), None);
    is(rt, body_of(blocks, 8), bytes.get(0x4c40..0x4c66));
    is(rt, lent_of(blocks, 8), bytes.get(0x4c40..0x4c66));
    is(rt, blocks.image().len(), 271_360);
}

#[test]
fn the_blocks_of_a_small_store(rt: HostRuntime) {
    let bytes = small(&rt, rt.alloc());
    let blocks = blocks_in(rt.alloc(), Image::new(&bytes)).expect(&rt, "no blocks");
    are_small(&rt, &blocks, &bytes);
}

#[test]
fn a_block_on_another_block(rt: HostRuntime) {
    let changes = [Change::Set(ENTRY_IB, &[0x00, 0x4c]), Change::Page(0x4a00)];
    is_refused(
        &rt,
        &changes,
        Kind::Overlap,
        BlockEntry {
            ib: 0x4c00,
            ..SECOND
        },
    );
}

#[test]
fn a_block_on_a_map_page(rt: HostRuntime) {
    let changes = [Change::Set(ENTRY_IB, &[0x00, 0x46]), Change::Page(0x4a00)];
    is_refused(
        &rt,
        &changes,
        Kind::Overlap,
        BlockEntry {
            ib: 0x4600,
            ..SECOND
        },
    );
}

#[test]
fn a_block_on_a_page_of_a_tree(rt: HostRuntime) {
    let changes = [Change::Set(ENTRY_IB, &[0xc0, 0x4b]), Change::Page(0x4a00)];
    is_refused(
        &rt,
        &changes,
        Kind::Overlap,
        BlockEntry {
            ib: 0x4bc0,
            ..SECOND
        },
    );
}

// Of 0x1FF1 bytes, which are 8,177.
#[test]
fn a_body_that_is_too_large(rt: HostRuntime) {
    let changes = [Change::Set(ENTRY_CB, &[0xf1, 0x1f]), Change::Page(0x4a00)];
    is_refused(
        &rt,
        &changes,
        Kind::BlockPlace,
        BlockEntry { cb: 8177, ..SECOND },
    );
}

#[test]
fn the_first_of_two_bad_blocks_is_told(rt: HostRuntime) {
    let changes = [Change::Flip(0x4c34), Change::Flip(0x4c74)];
    is_refused(&rt, &changes, Kind::BlockTrailer, FIRST);
}

const TRAILER_BID: usize = TRAILER + 8;

// cb, wSig, dwCRC and bid, and a byte of the body.
const FIELDS: [usize; 5] = [TRAILER, TRAILER + 2, TRAILER + 4, TRAILER_BID, 0x4c65];

#[test]
fn each_field_of_a_trailer_counts(rt: HostRuntime) {
    for at in &FIELDS {
        is_refused(&rt, &[Change::Flip(*at)], Kind::BlockTrailer, SECOND);
    }
}

#[test]
fn padding_is_free(rt: HostRuntime) {
    let padding = [1, 2, 3, 4, 5, 6, 7, 8, 9, 10];
    is_good(&rt, &[Change::Set(0x4c66, &padding)]);
}

#[test]
fn a_trailer_may_have_bit_0_of_its_bid(rt: HostRuntime) {
    is_good(&rt, &[Change::Flip(TRAILER_BID), Change::Block(0x4c40, 38)]);
}
