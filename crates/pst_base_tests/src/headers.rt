//! Headers: the small store's, with bytes changed.

use crate::stores::{changed, small};
use crate::told::{holds, is, is_at};
use pst_bytes::Image;
use pst_fault::{Fault, Kind, Place};
use pst_header::*;
use pst_make::Change;
use std::alloc::Global;
use std::process::Abort;

fn refused(kind: Kind, at: u64) -> Fault {
    let place = Place { at, bid: 0, nid: 0 };
    Fault { kind, place }
}

fn answer_of(image: &[u8]) -> Result<Header, Fault> {
    read_header(Image::new(image))
}

fn fault_of(image: &[u8]) -> Option<Fault> {
    answer_of(image).err()
}

const SMALL: Header = Header {
    eof: 271_360,
    last_amap: 17_408,
    free: 251_776,
    nbt: Bref { bid: 4, ib: 0x4800 },
    bbt: Bref { bid: 8, ib: 0x4a00 },
    maps_valid: 2,
    next_page: 12,
    next_block: 12,
    version: 23,
};

#[test]
fn a_good_header_is_read(rt: HostRuntime) {
    let image = small(&rt, rt.alloc());
    is(&rt, image.len(), 271_360);
    is(&rt, answer_of(&image), Ok(SMALL));
    is(&rt, SMALL.end(), 271_360);
    is(&rt, SMALL.amap_count(), 1);
}

// The mapped part ends where the last map's part ends, or where the file ends: both, its end, and how many maps it has.
const ENDS: [(u64, u64, u64, u64); 5] = [
    (271_360, 17_408, 271_360, 1),
    (300_000, 17_408, 271_360, 1),
    (18_432, 17_408, 18_432, 1),
    (2_303_000, 2_048_000 + 17_408 - 16_384, 2_302_976, 9),
    (u64::MAX, u64::MAX, u64::MAX, 72_638_703_667_266),
];

#[test]
fn the_mapped_part_ends(rt: HostRuntime) {
    for (eof, last_amap, end, maps) in &ENDS {
        let header = Header {
            eof: *eof,
            last_amap: *last_amap,
            ..SMALL
        };
        is_at(
            &rt,
            *eof,
            (header.end(), header.amap_count()),
            (*end, *maps),
        );
    }
}

// What is changed in the store, and its fault. A row that fails is told by its number, from 0 on.
type Row = (&'static [Change<'static>], Option<(Kind, u64)>);

fn is_told<R: Abort + AllocGlobal>(rt: &R, number: usize, row: &Row) {
    let (changes, fault) = *row;
    let image = changed(rt, rt.alloc(), changes);
    let wanted = match fault {
        Some((kind, at)) => Some(refused(kind, at)),
        None => None,
    };
    is_at(rt, number, fault_of(&image), wanted);
}

fn are_told<R: Abort + AllocGlobal>(rt: &R, rows: &[Row]) {
    for (number, row) in rows.iter().enumerate() {
        is_told(rt, number, row);
    }
}

// One field is changed, and the check values are made right again.
const SEALED: [Row; 13] = [
    (
        &[Change::Set(0, &[0]), Change::Header],
        Some((Kind::Magic, 0)),
    ),
    (
        &[Change::Set(8, &[0]), Change::Header],
        Some((Kind::Magic, 8)),
    ),
    (
        &[Change::Set(10, &[15]), Change::Header],
        Some((Kind::Version(15), 10)),
    ),
    (
        &[Change::Set(10, &[36, 1]), Change::Header],
        Some((Kind::Version(292), 10)),
    ),
    (
        &[Change::Set(513, &[1]), Change::Header],
        Some((Kind::Encoded(1), 513)),
    ),
    (
        &[Change::Set(184, &[0x01]), Change::Header],
        Some((Kind::Root, 184)),
    ),
    (
        &[Change::Set(184, &[0xff, 0x45, 0x00]), Change::Header],
        Some((Kind::Root, 192)),
    ),
    (
        &[Change::Set(192, &[0x00, 0x40]), Change::Header],
        Some((Kind::Root, 192)),
    ),
    (
        &[Change::Set(192, &[0x00, 0x46]), Change::Header],
        Some((Kind::Root, 192)),
    ),
    (
        &[Change::Set(192, &[0x00, 0x24, 0x04]), Change::Header],
        Some((Kind::Root, 192)),
    ),
    (
        &[Change::Set(192, &[0xff; 8]), Change::Header],
        Some((Kind::Root, 192)),
    ),
    (
        &[Change::Set(248, &[0]), Change::Header],
        Some((Kind::MapsInvalid, 248)),
    ),
    (
        &[Change::Set(248, &[3]), Change::Header],
        Some((Kind::MapsInvalid, 248)),
    ),
];

#[test]
fn the_first_fault_of_a_sealed_header(rt: HostRuntime) {
    are_told(&rt, &SEALED);
}

const FLIPPED: [Row; 4] = [
    (&[Change::Flip(300)], Some((Kind::HeaderCheck, 4))),
    (&[Change::Flip(520)], Some((Kind::HeaderCheck, 524))),
    (&[Change::Flip(4)], Some((Kind::HeaderCheck, 4))),
    (&[Change::Flip(524)], Some((Kind::HeaderCheck, 524))),
];

#[test]
fn a_flipped_bit_breaks_a_check_value(rt: HostRuntime) {
    are_told(&rt, &FLIPPED);
}

// What the fields of a header say, whatever stands before them.
fn fields_of(image: &[u8]) -> Option<Header> {
    if image.len() < 564 {
        return None;
    }
    Some(read_fields(Image::new(image)))
}

// Whether they fit, once the store is changed.
fn fault_of_fields<R: Abort>(rt: &R, alloc: Global, changes: &[Change]) -> Option<Fault> {
    let image = changed(rt, alloc, changes);
    if image.len() < 564 {
        rt.panic("no header");
    }
    check_fields(Image::new(&image)).err()
}

// No magic number, and with this no good maps.
const NO_MAGIC: [Change<'static>; 2] = [Change::Set(0, &[0]), Change::Header];

const NO_MAPS: [Change<'static>; 3] = [
    Change::Set(0, &[0]),
    Change::Set(248, &[0]),
    Change::Header,
];

#[test]
fn the_fields_of_a_header_alone(rt: HostRuntime) {
    let image = changed(&rt, rt.alloc(), &NO_MAGIC);
    is(&rt, fields_of(&image), Some(SMALL));
    is(&rt, fault_of_fields(&rt, rt.alloc(), &NO_MAGIC), None);
    holds(&rt, is_amap_place(SMALL.last_amap));
    holds(&rt, is_last_amap(SMALL.last_amap, SMALL.eof));
    holds(&rt, !is_last_amap(SMALL.last_amap, 18_431));
    let fault = refused(Kind::MapsInvalid, 248);
    is(&rt, fault_of_fields(&rt, rt.alloc(), &NO_MAPS), Some(fault));
}

// An earlier rule is told before a later one, and a file's length matters.
const LENGTHS: [Row; 6] = [
    (&[Change::Cut(564)], Some((Kind::Root, 184))),
    (&[Change::Cut(271_359)], Some((Kind::Root, 184))),
    (&[Change::Cut(0)], Some((Kind::Short, 0))),
    (&[Change::Cut(1)], Some((Kind::Short, 0))),
    (&[Change::Cut(563)], Some((Kind::Short, 0))),
    (&[Change::Grow(64)], None),
];

#[test]
fn lengths_of_a_file(rt: HostRuntime) {
    are_told(&rt, &LENGTHS);
}

// Behind the ninth map stands a page map, so the file may end neither in the map nor in the page map. Behind the eighth,
// at 1,795,072, there is none; the ninth is at 2,049,024.
const BEHIND: [Row; 6] = [
    (
        &[
            Change::Grow(1_778_688),
            Change::Set(184, &[0xff, 0x65, 0x1b]),
            Change::Set(192, &[0x00, 0x64, 0x1b]),
            Change::Header,
        ],
        Some((Kind::Root, 192)),
    ),
    (
        &[
            Change::Grow(1_778_688),
            Change::Set(184, &[0x00, 0x66, 0x1b]),
            Change::Set(192, &[0x00, 0x64, 0x1b]),
            Change::Header,
        ],
        None,
    ),
    (
        &[
            Change::Grow(1_778_688),
            Change::Set(184, &[0xff, 0x45, 0x1f]),
            Change::Set(192, &[0x00, 0x44, 0x1f]),
            Change::Header,
        ],
        Some((Kind::Root, 192)),
    ),
    (
        &[
            Change::Grow(1_778_688),
            Change::Set(184, &[0x00, 0x46, 0x1f]),
            Change::Set(192, &[0x00, 0x44, 0x1f]),
            Change::Header,
        ],
        Some((Kind::Root, 192)),
    ),
    (
        &[
            Change::Grow(1_778_688),
            Change::Set(184, &[0xff, 0x47, 0x1f]),
            Change::Set(192, &[0x00, 0x44, 0x1f]),
            Change::Header,
        ],
        Some((Kind::Root, 192)),
    ),
    (
        &[
            Change::Grow(1_778_688),
            Change::Set(184, &[0x00, 0x48, 0x1f]),
            Change::Set(192, &[0x00, 0x44, 0x1f]),
            Change::Header,
        ],
        None,
    ),
];

#[test]
fn the_page_map_behind_a_map(rt: HostRuntime) {
    are_told(&rt, &BEHIND);
}
