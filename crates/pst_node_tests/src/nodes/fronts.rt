//! Fronts of a file, and what lies behind its end.

use super::*;
use crate::told::is_at;
use pst_fault::{Fault, Kind, Place};

#[test]
fn what_lies_behind_the_end_says_nothing(rt: HostRuntime) {
    let behind = [Change::Grow(64), Change::Set(271_360, &[0xff; 64])];
    is_answered_with(&rt, rt.alloc(), &behind, GOOD);
}

fn fault(kind: Kind, at: u64, bid: u64) -> Option<Fault> {
    let place = Place { at, bid, nid: 0 };
    Some(Fault { kind, place })
}

// The fronts of the small store, as they are: the header says where the file ends.
#[test]
fn a_file_that_was_cut(rt: HostRuntime) {
    let image = small(&rt, rt.alloc());
    for n in 0..4240_usize {
        let front = image.get(..64 * n).expect(&rt, "too short");
        let answer = fault_in(rt.alloc(), front);
        let wanted = if n <= 8 {
            fault(Kind::Short, 0, 0)
        } else {
            fault(Kind::Root, 0xb8, 0)
        };
        is_at(&rt, n, answer, wanted);
    }
}

// Lets the header say where the file ends.
fn put_end<R: Abort>(rt: &R, image: &mut Vec<u8>, len: u64) {
    change(
        rt,
        image,
        &[Change::Set(184, &len.to_le_bytes()), Change::Header],
    );
}

// The fronts of the small store, where the header says that the file ends there.
#[test]
fn a_file_that_ends_early(rt: HostRuntime) {
    let mut image = small(&rt, rt.alloc());
    for n in 0..=4240_usize {
        let len = 64 * n;
        if len >= 576 {
            put_end(&rt, &mut image, len as u64);
        }
        let front = image.get(..len).expect(&rt, "too short");
        let answer = fault_in(rt.alloc(), front);
        is_at(&rt, len, answer, fault_by(len));
    }
}

// The fault of a file that ends there.
fn fault_by(len: usize) -> Option<Fault> {
    match len {
        0..=512 => fault(Kind::Short, 0, 0),
        513..=18_368 => fault(Kind::Root, 0xc0, 0),
        18_369..=19_392 => fault(Kind::PagePlace, 0x4a00, 8),
        19_393..=19_456 => fault(Kind::BlockPlace, 0x4c00, 4),
        19_457..=19_520 => fault(Kind::BlockPlace, 0x4c40, 8),
        _ => None,
    }
}
