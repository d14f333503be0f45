//! Check values and signatures, beside another program's and beside the definition.

use crate::stores::MEMORY;
use crate::told::{is, is_at};
use pst_crc::*;
use std::alloc::Global;
use std::process::Abort;

// The check value bit by bit, as [MS-PST] 5.3 defines it.
fn by_bits(bytes: &[u8]) -> u32 {
    let mut register = 0u32;
    for byte in bytes {
        register ^= u32::from(*byte);
        for _ in 0..8 {
            let polynomial = if register & 1 == 1 { 0xedb8_8320 } else { 0 };
            register = (register >> 1) ^ polynomial;
        }
    }
    register
}

// Bytes that differ: 3, and then each time five times the last one and 3 more, modulo 256.
fn uneven_bytes<R: Abort>(rt: &R, alloc: Global, len: u32) -> Vec<u8> {
    let mut bytes = Vec::new(alloc);
    let mut byte = 3u8;
    for _ in 0..len {
        bytes.push(byte).expect(rt, MEMORY);
        byte = byte.wrapping_mul(5).wrapping_add(3);
    }
    bytes
}

// Bytes, and their check values.
const BYTES: [(u8, u32); 3] = [(0x01, 0x77073096), (0x80, 0xedb88320), (0xff, 0x2d02ef8d)];

// What is checked of an allocation map of a small store.
fn map_check() -> u32 {
    let mut marks = [0; 496];
    marks[..5].copy_from_slice(&[0xff, 0xff, 0xff, 0xff, 0xc0]);
    check(&marks)
}

// What is checked of a page map of a small store and of the map, as another program has it.
#[test]
fn bytes_and_signatures(rt: HostRuntime) {
    for (byte, want) in &BYTES {
        is_at(&rt, *byte, check(&[*byte]), *want);
    }
    is(&rt, check(&[0; 512]), 0);
    is(&rt, check(&[0xff; 496]), 0xa1aae76e);
    is(&rt, map_check(), 0xf36c3497);
    is(&rt, signature(0x4800, 4), 0x4804);
    is(&rt, signature(0x12345678, 0), 0x444c);
}

// How many of the bytes, and their check value. The values are zlib's, with its inversions at both ends undone.
const VALUES: [(usize, u32); 18] = [
    (1, 0x990951ba),
    (15, 0xe173e44f),
    (16, 0x6051fd31),
    (17, 0xd5001019),
    (31, 0xc4af0aeb),
    (47, 0xdf2387bc),
    (64, 0xb7ea2822),
    (383, 0x36c2c927),
    (384, 0x4884f482),
    (385, 0x774fb462),
    (496, 0xb997953c),
    (768, 0xb2b1338d),
    (2999, 0x426f6e41),
    (3000, 0x6429c7ae),
    (3003, 0x930d4902),
    (8176, 0x2db1b624),
    (8195, 0x4931ef15),
    (11_195, 0xf184dfd8),
];

#[test]
fn values_of_another_program(rt: HostRuntime) {
    let bytes = uneven_bytes(&rt, rt.alloc(), 11_195);
    for (len, want) in &VALUES {
        let front = bytes.get(..*len).expect(&rt, "too short");
        is_at(&rt, *len, check(front), *want);
    }
}

// The piece of this length from there on has the check value that it has bit by bit.
fn is_by_bits<R: Abort>(rt: &R, bytes: &[u8], start: usize, len: usize) {
    let behind = bytes.get(start..).expect(rt, "too short");
    let piece = behind.get(..len).expect(rt, "too short");
    is_at(rt, (start, len), check(piece), by_bits(piece));
}

#[test]
fn many_at_a_time_as_one_by_one(rt: HostRuntime) {
    let bytes = uneven_bytes(&rt, rt.alloc(), 8192);
    for start in 0..16 {
        for (first, end) in [(0, 65), (378, 400), (2996, 3006), (8176, 8177)] {
            for len in first..end {
                is_by_bits(&rt, &bytes, start, len);
            }
        }
    }
}
