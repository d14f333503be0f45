//! Encoded stores that are damaged, their blocks decoded.

use super::*;
use crate::told::holds_at;
use pst_make::Change::{Flip, Header, Page, Set};
use pst_make::{MakeFault, Method, Plan, build, encode, m0_plan};
use pst_plain::method_of;
use pst_remains::find_decoded_remains;

// The store of a plan, encoded by a method.
fn encoded_store(alloc: Global, plan: &Plan, method: Method) -> Result<Vec<u8>, MakeFault> {
    let mut image = build(alloc, plan)?;
    encode(alloc, &mut image, plan, method)?;
    Ok(image)
}

// The small store, encoded by a method, with changes.
fn encoded<R: Abort>(rt: &R, alloc: Global, method: Method, changes: &[Change]) -> Vec<u8> {
    let mut image = encoded_store(alloc, &m0_plan(alloc).expect(rt, MEMORY), method).expect(
        rt, MEMORY,
    );
    change_all(&mut image, changes).expect(rt, "past the end");
    image
}

// What remains of an encoded file, its blocks decoded.
fn decoded<'a, R: Abort>(rt: &R, alloc: Global, image: &'a mut [u8]) -> Remains<'a> {
    let Some(method) = method_of(Image::new(image)) else {
        rt.panic("not encoded");
    };
    match find_decoded_remains(alloc, method, image) {
        Ok(remains) => remains,
        Err(_) => rt.panic("refused"),
    }
}

// Nothing changed; a byte of the body of each block, and one of the bytes behind a body, which say nothing; a byte of the page
// of each tree, of a check value of the header, and of the allocation map; and the second block on the first, which has a fault
// there. What is told is what another program tells of the same changes to the file before it is encoded.
const ROWS: [Row<'static>; 9] = [
    (&[], "left 2 blocks 2 nodes"),
    (
        &[Flip(0x4c00)],
        "block BlockTrailer 0x4c00 0x4, left 1 blocks 2 nodes",
    ),
    (
        &[Flip(0x4c40)],
        "block BlockTrailer 0x4c40 0x8, left 1 blocks 2 nodes",
    ),
    (&[Flip(0x4c2f)], "left 2 blocks 2 nodes"),
    (
        &[Flip(0x4bf4)],
        "page PageTrailer 0x4a00 0x8, left 2 blocks 2 nodes",
    ),
    (
        &[Flip(0x49f4)],
        "page PageTrailer 0x4800 0x4, left 2 blocks 0 nodes",
    ),
    (
        &[Set(524, &[0xbb])],
        "header HeaderCheck 0x20c 0x0, left 2 blocks 2 nodes",
    ),
    (
        &[Set(248, &[0]), Header],
        "header MapsInvalid 0xf8 0x0, left 2 blocks 2 nodes",
    ),
    (
        &[Set(0x4a20, &[0x00]), Page(0x4a00)],
        "block Overlap 0x4c00 0x8, left 1 blocks 2 nodes",
    ),
];

#[test]
fn what_is_told_of_an_encoded_store(rt: HostRuntime) {
    for (case, (changes, wanted)) in ROWS.iter().enumerate() {
        for method in [Method::Permute, Method::Cyclic] {
            let mut image = encoded(&rt, rt.alloc(), method, changes);
            let remains = decoded(&rt, rt.alloc(), &mut image);
            let line = line_of(&rt, rt.alloc(), &remains);
            is_at(&rt, case, line.as_str(), *wanted);
        }
    }
}

// Whether the blocks that are left have this body by an identifier, or none.
fn has_body(remains: &Remains, bid: u64, wanted: Option<&[u8]>) -> bool {
    remains.good_blocks().body(bid) == wanted
}

// Whether the second block, which has a fault, is not left, and the first is, decoded.
fn is_first_left<R: Abort>(rt: &R, alloc: Global, image: &mut [u8], store: &[u8]) -> bool {
    let remains = decoded(rt, alloc, image);
    let first = has_body(&remains, 4, store.get(0x4c00..0x4c2c));
    first && has_body(&remains, 8, None)
}

// A block without fault is decoded; one with a fault stays as it is stored.
#[test]
fn blocks_without_fault_are_decoded(rt: HostRuntime) {
    let store = m0(rt.alloc()).expect(&rt, MEMORY);
    for method in [Method::Permute, Method::Cyclic] {
        let stored = encoded(&rt, rt.alloc(), method, &[Flip(0x4c40)]);
        let mut image = encoded(&rt, rt.alloc(), method, &[Flip(0x4c40)]);
        holds_at(
            &rt,
            method,
            is_first_left(&rt, rt.alloc(), &mut image, &store),
        );
        holds_at(
            &rt,
            method,
            image.get(0x4c40..0x4c80) == stored.get(0x4c40..0x4c80),
        );
    }
}
