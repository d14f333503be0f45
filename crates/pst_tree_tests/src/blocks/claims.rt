//! What a refused check leaves claimed, and fronts of a file.

use super::*;
use crate::told::{holds, is, is_at};

// Whether the units of the two blocks, and the one after them, are claimed once blocks are refused.
fn claimed_after<R: Abort>(rt: &R, alloc: Global, image: &[u8], wanted: [bool; 3]) {
    let image = Image::new(image);
    let Ok(header) = read_header(image) else {
        rt.panic("no header");
    };
    let Ok(mut claims) = Claims::new(alloc, &header) else {
        rt.panic("no memory");
    };
    let Ok((tree, entries)) = walk_blocks(alloc, image, &header, &mut claims) else {
        rt.panic("no tree");
    };
    holds(
        rt,
        check_blocks(tree, &header, &entries, &mut claims).is_err(),
    );
    is(rt, claimed_of(&claims), wanted);
}

fn claimed_of(claims: &Claims) -> [bool; 3] {
    [
        claims.is_claimed(32),
        claims.is_claimed(33),
        claims.is_claimed(34),
    ]
}

fn are_kept<R: Abort + AllocGlobal>(rt: &R, changes: &[Change], wanted: [bool; 3]) {
    let image = changed(rt, rt.alloc(), changes);
    claimed_after(rt, rt.alloc(), &image, wanted);
}

// The second block's trailer; that and its length, which is 8,177; these and the first block's trailer.
#[test]
fn a_refusal_keeps_the_claims_before_it(rt: HostRuntime) {
    let second = Change::Flip(0x4c74);
    let length = Change::Set(ENTRY_CB, &[0xf1, 0x1f]);
    let page = Change::Page(0x4a00);
    let first = Change::Flip(0x4c34);
    are_kept(&rt, &[second], [true, true, false]);
    are_kept(&rt, &[second, length, page], [true, false, false]);
    are_kept(&rt, &[second, length, page, first], [true, false, false]);
}

// Fronts of the file, with an end of file that says so: the first block that does not lie in what is left is told. How long each
// is, and the same in three bytes.
const FRONTS: [(usize, [u8; 3], Option<BlockEntry>); 4] = [
    (19_456, [0x00, 0x4c, 0x00], Some(FIRST)),
    (19_520, [0x40, 0x4c, 0x00], Some(SECOND)),
    (19_584, [0x80, 0x4c, 0x00], None),
    (271_296, [0xc0, 0x23, 0x04], None),
];

fn is_cut<R: Abort + AllocGlobal>(rt: &R, row: &(usize, [u8; 3], Option<BlockEntry>)) {
    let (len, end, cut) = *row;
    let changes = [Change::Cut(len), Change::Set(184, &end), Change::Header];
    let fault = fault_in(rt, rt.alloc(), &changes);
    let wanted = match cut {
        Some(entry) => Some(fault_of(Kind::BlockPlace, entry)),
        None => None,
    };
    is_at(rt, len, fault, wanted);
}

#[test]
fn fronts_that_cut_the_blocks(rt: HostRuntime) {
    for row in &FRONTS {
        is_cut(&rt, row);
    }
}
