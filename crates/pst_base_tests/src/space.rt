//! What is claimed, unit by unit.

ghost use Rattle.std.specs.Prelude.{◌<◌};
ghost use Rattle.pst_header.specs.Head.{IsLastMap};

use crate::stores::MEMORY;
use crate::told::{holds, is, is_at};
use pst_bytes::Span;
use pst_fault::{Fault, Kind};
use pst_header::{Bref, Header};
use pst_space::*;
use std::alloc::Global;
use std::process::Abort;

// A header of so many regions of 253,952 bytes ([MS-PST] 2.2.2.7.2).
fn header_of(regions: u64) -> Header
    requires { (0 < regions) × (regions < 1000) }
    ensures { IsLastMap result.last_amap result.eof }
{
    let root = Bref { bid: 0, ib: 0 };
    Header {
        eof: 17408 + 253952 * regions,
        last_amap: 17408 + 253952 * (regions - 1),
        free: 0,
        nbt: root,
        bbt: root,
        maps_valid: 2,
        next_page: 0,
        next_block: 0,
        version: 23,
    }
}

// Nothing is claimed of a store of one region but its map pages.
fn one_region<R: Abort>(rt: &R, alloc: Global) -> Claims {
    Claims::new(alloc, &header_of(1)).expect(rt, MEMORY)
}

// What claiming a span answers, where the span is whole units of the mapped part.
fn claim<R: Abort>(rt: &R, claims: &mut Claims, at: u64, len: u64) -> Result<(), Fault> {
    let whole = at >= 17408 && at.is_multiple_of(64) && len.is_multiple_of(64) && len > 0;
    if !whole
        || at > 1_000_000
        || len > 1_000_000
        || (at - 17408) / 64 + len / 64 > claims.units()
    {
        rt.panic("no whole units");
    }
    let free = claims.is_free(Span { at, len });
    let answer = claims.claim(Span { at, len });
    if free != answer.is_ok() {
        rt.panic("free, and refused, or not free, and claimed");
    }
    answer
}

// Allocation maps take the first 8 of every 3,968 units, and a page map the next 8 in every eighth region.
#[test]
fn map_pages_are_claimed(rt: HostRuntime) {
    let claims = Claims::new(rt.alloc(), &header_of(9)).expect(&rt, MEMORY);
    for unit in 0..9 * 3968 + 100 {
        let region = unit / 3968;
        let place = unit % 3968;
        let maps = if region == 0 || region == 8 { 16 } else { 8 };
        let claimed = region < 9 && place < maps;
        is_at(&rt, unit, claims.is_claimed(unit), claimed);
    }
    holds(&rt, !claims.is_claimed(u64::MAX));
}

fn overlap(at: u64) -> Result<(), Fault> {
    Err(Fault::at(Kind::Overlap, at))
}

#[test]
fn a_span_is_claimed_once(rt: HostRuntime) {
    let mut claims = one_region(&rt, rt.alloc());
    is(&rt, claims.units(), 3968);
    is(&rt, claim(&rt, &mut claims, 0x4800, 512), Ok(()));
    is(&rt, claim(&rt, &mut claims, 0x4800, 512), overlap(0x4800));
    is(&rt, claim(&rt, &mut claims, 0x49c0, 128), overlap(0x49c0));
    holds(&rt, !claims.is_claimed(24));
    is(&rt, claim(&rt, &mut claims, 0x4a00, 64), Ok(()));
    holds(&rt, claims.is_claimed(24));
    holds(&rt, !claims.is_claimed(25));
    is(&rt, claim(&rt, &mut claims, 0x4600, 512), overlap(0x4600));
    is(&rt, claim(&rt, &mut claims, 271_296, 64), Ok(()));
    holds(&rt, claims.is_claimed(3967));
}

// Units: where a span begins, and how many it has. They begin and end at each side of the edges of words.
const SPANS: [(u64, u64); 9] = [
    (64, 64),
    (65, 63),
    (100, 28),
    (100, 29),
    (127, 2),
    (128, 128),
    (100, 300),
    (127, 130),
    (3904, 64),
];

// What claiming so many units from one on answers, and where they begin.
fn claim_units<R: Abort>(
    rt: &R,
    claims: &mut Claims,
    first: u64,
    count: u64,
) -> (Result<(), Fault>, u64) {
    let at = first.saturating_mul(64).saturating_add(17408);
    let answer = claim(rt, claims, at, count.saturating_mul(64));
    (answer, at)
}

fn is_free<R: Abort>(rt: &R, claims: &mut Claims, first: u64, count: u64) {
    let (answer, _) = claim_units(rt, claims, first, count);
    is_at(rt, (first, count), answer, Ok(()));
}

fn is_taken<R: Abort>(rt: &R, claims: &mut Claims, first: u64, count: u64) {
    let (answer, at) = claim_units(rt, claims, first, count);
    is_at(
        rt,
        (first, count),
        answer,
        Err(Fault::at(Kind::Overlap, at)),
    );
}

// Behind the map pages just these units are claimed.
fn are_claimed<R: Abort>(rt: &R, claims: &Claims, first: u64, count: u64) {
    for unit in 16..3968 {
        let within = first <= unit && unit - first < count;
        is_at(rt, (unit, first, count), claims.is_claimed(unit), within);
    }
}

// A span is claimed, and one more unit at either end is refused.
fn is_whole<R: Abort + AllocGlobal>(rt: &R, first: u64, count: u64) {
    let mut claims = one_region(rt, rt.alloc());
    let last = first.saturating_add(count).saturating_sub(1);
    let before = first.saturating_sub(48);
    is_free(rt, &mut claims, first, count);
    are_claimed(rt, &claims, first, count);
    is_taken(rt, &mut claims, first, 1);
    is_taken(rt, &mut claims, last, 1);
    is_taken(rt, &mut claims, before, 49);
    is_free(rt, &mut claims, before, 48);
}

#[test]
fn spans_go_from_word_to_word(rt: HostRuntime) {
    for (first, count) in &SPANS {
        is_whole(&rt, *first, *count);
    }
}

// Units, and the byte of the flags of eight from there on: the first unit is its least significant bit.
const EIGHTS: [(u64, u8); 7] = [
    (0, 0xff),
    (8, 0xff),
    (16, 0x02),
    (24, 0x00),
    (56, 0xf0),
    (64, 0x3f),
    (3960, 0x00),
];

fn eight_from(claims: &Claims, unit: u64) -> Option<u8> {
    if !unit.is_multiple_of(8) || unit > 4000 || claims.units() < unit + 8 {
        return None;
    }
    Some(claims.eight(unit))
}

#[test]
fn eight_units_are_a_byte(rt: HostRuntime) {
    let mut claims = one_region(&rt, rt.alloc());
    is(&rt, claim(&rt, &mut claims, 17408 + 64 * 17, 64), Ok(()));
    is(
        &rt,
        claim(&rt, &mut claims, 17408 + 64 * 60, 64 * 10),
        Ok(()),
    );
    for (unit, byte) in &EIGHTS {
        is_at(&rt, *unit, eight_from(&claims, *unit), Some(*byte));
    }
}
