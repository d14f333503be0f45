//! Numbers and slices of the first bytes of a store.

use crate::told::{holds, holds_at, is};
use pst_bytes::*;

// The first bytes of a store, as [MS-PST] 2.2.2.6 shows them: the magic number `!BDN` stands first.
const FRONT: [u8; 12] = [
    0x21, 0x42, 0x44, 0x4e, 0x24, 0x6d, 0x4c, 0xff, 0x53, 0x4d, 0x17, 0x00,
];

#[test]
fn numbers_are_little_endian(rt: HostRuntime) {
    let image = Image::new(&FRONT);
    is(&rt, image.len(), 12);
    holds(&rt, !image.is_empty());
    holds(&rt, Image::new(&[]).is_empty());
    is(&rt, image.u8_at(3), Some(0x4e));
    is(&rt, image.u16_at(8), Some(0x4d53));
    is(&rt, image.u32_at(0), Some(0x4e44_4221));
    is(&rt, image.u64_at(4), Some(0x0017_4d53_ff4c_6d24));
    is(&rt, image.number8(10), 23);
    is(&rt, image.number16(10), 23);
    is(&rt, image.number32(4), 0xff4c_6d24);
    is(&rt, image.number64(0), 0xff4c_6d24_4e44_4221);
}

#[test]
fn nothing_past_the_end(rt: HostRuntime) {
    let image = Image::new(&FRONT);
    is(&rt, image.u8_at(12), None);
    is(&rt, image.u16_at(11), None);
    is(&rt, image.u32_at(9), None);
    is(&rt, image.u64_at(5), None);
    is(&rt, image.u64_at(u64::MAX), None);
    is(&rt, image.u8_at(u64::MAX), None);
    for (at, len) in [(13, 0), (12, 1), (0, 13), (u64::MAX, 1), (1, u64::MAX)] {
        holds_at(&rt, at, image.lend(Span { at, len }).is_none());
    }
}

#[test]
fn spans_are_lent(rt: HostRuntime) {
    let image = Image::new(&FRONT);
    is(
        &rt,
        image.lend(Span { at: 0, len: 4 }),
        Some(b"!BDN".as_slice()),
    );
    is(
        &rt,
        image.lend(Span { at: 12, len: 0 }),
        Some(b"".as_slice()),
    );
    is(&rt, image.slice(Span { at: 8, len: 2 }), b"SM".as_slice());
}
