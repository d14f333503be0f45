//! Allocation maps of made stores, and what is claimed.

ghost use Rattle.std.specs.Prelude.{◌≡◌, length};

use crate::made::{change, changed};
use crate::told::{holds_at, is_at};
use pst_amap::*;
use pst_bytes::{Image, Span};
use pst_fault::{Fault, Kind};
use pst_header::{Header, read_header};
use pst_make::Change;
use pst_space::Claims;
use std::alloc::Global;
use std::process::Abort;

fn claim<R: Abort>(rt: &R, claims: &mut Claims, at: u64, len: u64)
    ensures { length claims.new ≡ length claims.old }
{
    let whole = at >= 17408 && at.is_multiple_of(64) && len.is_multiple_of(64) && len > 0;
    if !whole
        || at > 1_000_000
        || len > 1_000_000
        || (at - 17408) / 64 + len / 64 > claims.units()
    {
        rt.panic("no whole units");
    }
    if claims.claim(Span { at, len }).is_err() {
        rt.panic("on another");
    }
}

// What the comparison answers of an image, after these spans are claimed; and whether a unit is claimed then.
fn compared<R: Abort>(
    rt: &R,
    alloc: Global,
    image: &[u8],
    spans: &[(u64, u64)],
    unit: u64,
) -> (Result<MapReport, Fault>, bool) {
    let image = Image::new(image);
    let Ok(header) = read_header(image) else {
        rt.panic("no header");
    };
    let Ok(mut claims) = Claims::new(alloc, &header) else {
        rt.panic("no memory");
    };
    for (at, len) in spans {
        claim(rt, &mut claims, *at, *len);
    }
    let report = compare(alloc, image, &header, &mut claims);
    (report, claims.is_claimed(unit))
}

// The pages and blocks of the small store.
const SMALL: [(u64, u64); 4] = [(0x4800, 512), (0x4a00, 512), (0x4c00, 64), (0x4c40, 64)];

// The small store with other bytes in its map, from the fifth on.
fn small_store<R: Abort>(rt: &R, alloc: Global, marks: &[u8]) -> Vec<u8> {
    changed(
        rt,
        alloc,
        &[Change::Set(0x4404, marks), Change::Page(0x4400)],
    )
}

// The fault, where a comparison ends with one.
fn fault_of<R: Abort>(rt: &R, alloc: Global, image: &[u8], spans: &[(u64, u64)]) -> Option<Fault> {
    let (report, _) = compared(rt, alloc, image, spans, 0);
    report.err()
}

// What a comparison reports, in plain values: the order of bits, how many old maps there are, what is lost, and whether a unit is
// claimed then.
#[derive(Drop)]
struct Told {
    order: BitOrder,
    old_maps: u64,
    lost: Vec<Span>,
    claimed: bool,
}

fn told_of<R: Abort>(rt: &R, alloc: Global, image: &[u8], spans: &[(u64, u64)], unit: u64) -> Told {
    let (report, claimed) = compared(rt, alloc, image, spans, unit);
    let report = report.expect(rt, "refused");
    Told {
        order: report.order,
        old_maps: report.old_maps,
        lost: report.lost,
        claimed,
    }
}

// The fifth byte of the map, the order of bits, and what is lost.
const MARKED: [(u8, BitOrder, &[Span]); 5] = [
    (0xc0, BitOrder::High, &[]),
    (0xe0, BitOrder::High, &[Span { at: 19584, len: 64 }]),
    (
        0xf8,
        BitOrder::High,
        &[Span {
            at: 19584,
            len: 192,
        }],
    ),
    (0x03, BitOrder::Low, &[]),
    (0x83, BitOrder::Low, &[Span { at: 19904, len: 64 }]),
];

fn is_marked<R: Abort + AllocGlobal>(rt: &R, byte: u8, order: BitOrder, lost: &[Span]) {
    let image = small_store(rt, rt.alloc(), &[byte]);
    let told = told_of(rt, rt.alloc(), &image, &SMALL, 33);
    is_at(rt, byte, (told.order, told.old_maps), (order, 0));
    is_at(rt, byte, told.lost.as_slice(), lost);
    holds_at(rt, byte, told.claimed);
}

#[test]
fn what_is_claimed_is_marked(rt: HostRuntime) {
    for (byte, order, lost) in &MARKED {
        is_marked(&rt, *byte, *order, lost);
    }
}

// Neither order fits. The fault is told most significant bit first: with 0x01 that is the first block, though the other
// order lacks the second alone.
const MISSING: [(u8, u64); 5] = [
    (0x80, 0x4c40),
    (0x00, 0x4c00),
    (0x40, 0x4c00),
    (0x02, 0x4c00),
    (0x01, 0x4c00),
];

fn is_missing<R: Abort + AllocGlobal>(rt: &R, byte: u8, at: u64) {
    let image = small_store(rt, rt.alloc(), &[byte]);
    let fault = fault_of(rt, rt.alloc(), &image, &SMALL);
    is_at(rt, byte, fault, Some(Fault::at(Kind::MapMissing, at)));
}

#[test]
fn what_is_missing_is_told(rt: HostRuntime) {
    for (byte, at) in &MISSING {
        is_missing(&rt, *byte, *at);
    }
}

// The blocks take units 32 to 40, so their marks lie in the fifth byte of the map and the first bit of the sixth.
const BLOCKS: [(u64, u64); 3] = [(0x4800, 512), (0x4a00, 512), (0x4c00, 576)];

// A breach is told at its own unit whatever the bytes beside it say: three bytes of the map, and the unit.
const BREACHES: [([u8; 3], u64); 3] = [
    ([0xff, 0x00, 0xff], 0x4e00),
    ([0xfe, 0x80, 0xff], 0x4dc0),
    ([0x7f, 0xff, 0xff], 0x4c00),
];

// And a run that is lost goes on from byte to byte.
const RUNS: [([u8; 3], &[Span]); 4] = [
    ([0xff, 0x80, 0x00], &[]),
    (
        [0xff, 0xff, 0xff],
        &[Span {
            at: 0x4e40,
            len: 64 * 15,
        }],
    ),
    (
        [0xff, 0x81, 0xfe],
        &[Span {
            at: 0x4fc0,
            len: 64 * 8,
        }],
    ),
    (
        [0xff, 0x80, 0x01],
        &[Span {
            at: 0x51c0,
            len: 64,
        }],
    ),
];

fn is_breached<R: Abort + AllocGlobal>(rt: &R, marks: [u8; 3], at: u64) {
    let image = small_store(rt, rt.alloc(), &marks);
    let fault = fault_of(rt, rt.alloc(), &image, &BLOCKS);
    is_at(rt, marks, fault, Some(Fault::at(Kind::MapMissing, at)));
}

fn is_lost<R: Abort + AllocGlobal>(rt: &R, marks: [u8; 3], lost: &[Span]) {
    let image = small_store(rt, rt.alloc(), &marks);
    let told = told_of(rt, rt.alloc(), &image, &BLOCKS, 0);
    is_at(rt, marks, told.lost.as_slice(), lost);
}

#[test]
fn bytes_are_seen_as_eight_units(rt: HostRuntime) {
    for (marks, at) in &BREACHES {
        is_breached(&rt, *marks, *at);
    }
    for (marks, lost) in &RUNS {
        is_lost(&rt, *marks, lost);
    }
}

// What is changed in a map page: the check value, the type twice, the signature, the identifier, and the page's own units.
const BAD: [&[Change<'static>]; 6] = [
    &[Change::Set(0x4400 + 500, &[0])],
    &[Change::Set(0x4400 + 496, &[0x83]), Change::Page(0x4400)],
    &[Change::Set(0x4400 + 497, &[0x83]), Change::Page(0x4400)],
    &[Change::Set(0x4400 + 498, &[1])],
    &[Change::Set(0x4400 + 504, &[1]), Change::Page(0x4400)],
    &[Change::Set(0x4400, &[0x7f]), Change::Page(0x4400)],
];

fn is_bad<R: Abort + AllocGlobal>(rt: &R, number: usize, changes: &[Change]) {
    let image = changed(rt, rt.alloc(), changes);
    let fault = fault_of(rt, rt.alloc(), &image, &SMALL);
    is_at(rt, number, fault, Some(Fault::at(Kind::MapPage, 0x4400)));
}

#[test]
fn a_map_page_has_to_be_good(rt: HostRuntime) {
    for (number, changes) in BAD.iter().enumerate() {
        is_bad(&rt, number, changes);
    }
}

// What makes the small store one of two regions with no tree: its second allocation map is at 271,360.
const TWO_REGIONS: [Change<'static>; 9] = [
    Change::Cut(564),
    Change::Grow(524_748),
    Change::Set(184, &[0x00, 0x04, 0x08]),
    Change::Set(192, &[0x00, 0x24, 0x04]),
    Change::Header,
    Change::Set(0x4400, &[0xff, 0xff]),
    Change::Set(0x4400 + 496, &[0x84, 0x84, 0, 0, 0, 0, 0, 0, 0x00, 0x44]),
    Change::Page(0x4400),
    Change::Set(
        271_360 + 496,
        &[0x84, 0x84, 0, 0, 0, 0, 0, 0, 0x00, 0x24, 0x04],
    ),
];

// Puts a page of two types at one of the two places of the second region, whose units are marked by these bytes.
fn put_second<R: Abort>(rt: &R, image: &mut Vec<u8>, at: u64, kinds: [u8; 2], marks: [u8; 2]) {
    let page = usize::try_from(at).expect(rt, "no such place");
    let changes = [
        Change::Set(271_360, &[0xff, 0x00, marks[0], marks[1]]),
        Change::Page(271_360),
        Change::Set(page.saturating_add(496), &kinds),
        Change::Set(page.saturating_add(504), &at.to_le_bytes()),
        Change::Page(at),
    ];
    change(rt, image, &changes);
}

// Two regions with no tree, and such a page.
fn two_regions<R: Abort>(
    rt: &R,
    alloc: Global,
    at: u64,
    kinds: [u8; 2],
    marks: [u8; 2],
) -> Vec<u8> {
    let mut image = changed(rt, alloc, &TWO_REGIONS);
    put_second(rt, &mut image, at, kinds, marks);
    image
}

// Both places, the first unit of a page there, and the bytes that mark its units.
const OLD_PLACES: [(u64, u64, [u8; 2]); 2] = [
    (272_384, 3_984, [0xff, 0x00]),
    (272_896, 3_992, [0x00, 0xff]),
];

// The two types of a page, and whether it is an old map page.
const TYPES: [([u8; 2], bool); 5] = [
    ([0x82, 0x82], true),
    ([0x85, 0x85], true),
    ([0x82, 0x85], false),
    ([0x85, 0x82], false),
    ([0x83, 0x83], false),
];

fn is_old<R: Abort + AllocGlobal>(
    rt: &R,
    place: (u64, u64, [u8; 2]),
    kinds: [u8; 2],
    is_old: bool,
) {
    let (at, unit, marks) = place;
    let image = two_regions(rt, rt.alloc(), at, kinds, marks);
    let told = told_of(rt, rt.alloc(), &image, &[], unit);
    let page = [Span { at, len: 512 }];
    let lost: &[Span] = if is_old { &[] } else { &page };
    is_at(rt, (kinds, at), told.lost.as_slice(), lost);
    is_at(
        rt,
        (kinds, at),
        (told.old_maps, told.claimed),
        (u64::from(is_old), is_old),
    );
}

#[test]
fn old_map_pages_are_claimed(rt: HostRuntime) {
    for place in &OLD_PLACES {
        for (kinds, old) in &TYPES {
            is_old(&rt, *place, *kinds, *old);
        }
    }
}

// The first unit behind the map pages is claimed, so that its mark in the first map says the order of bits. A page whose
// units are not all marked is no old map page; what is lost is read in the same order.
type Order = (u8, BitOrder, u8, u8, u64, &'static [Span]);

const ORDERS: [Order; 7] = [
    (0x80, BitOrder::High, 0x82, 0xff, 1, &[]),
    (0x80, BitOrder::High, 0x82, 0x00, 0, &[]),
    (
        0x80,
        BitOrder::High,
        0x82,
        0xfe,
        0,
        &[Span {
            at: 272_384,
            len: 448,
        }],
    ),
    (0x01, BitOrder::Low, 0x82, 0xff, 1, &[]),
    (
        0x01,
        BitOrder::Low,
        0x85,
        0xff,
        0,
        &[Span {
            at: 272_384,
            len: 512,
        }],
    ),
    (
        0x01,
        BitOrder::Low,
        0x82,
        0x7f,
        0,
        &[Span {
            at: 272_384,
            len: 448,
        }],
    ),
    (
        0x01,
        BitOrder::Low,
        0x82,
        0xfe,
        0,
        &[Span {
            at: 272_448,
            len: 448,
        }],
    ),
];

fn is_in_order<R: Abort + AllocGlobal>(rt: &R, row: &Order) {
    let (mark, order, kind, marks, old_maps, lost) = *row;
    let mut image = two_regions(rt, rt.alloc(), 272_384, [0x82, kind], [marks, 0]);
    change(
        rt,
        &mut image,
        &[Change::Set(0x4402, &[mark]), Change::Page(0x4400)],
    );
    let told = told_of(rt, rt.alloc(), &image, &[(0x4800, 64)], 0);
    is_at(rt, marks, (told.order, told.old_maps), (order, old_maps));
    is_at(rt, marks, told.lost.as_slice(), lost);
}

#[test]
fn one_order_is_read_everywhere(rt: HostRuntime) {
    for row in &ORDERS {
        is_in_order(&rt, row);
    }
}
