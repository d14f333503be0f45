//! Three streams of bytes side by side: a processor goes on with one while it waits for the tables of the others.
#![tactic(auto)]

ghost use Rattle.std.specs.Prelude.{◌≡◌, ◌+◌, ◌*◌, ◌%◌, ◌<◌, length, fold};
ghost use Rattle.pst_crc.specs.Crc.{after_byte, shifted_by};

use crate::after_sixteen;
use crate::far_table::leaving_far;

// What the lowest byte of a register adds, where 124 + k bytes stand above it.
fn lowest_far(k: usize, register: u32) -> u32
    requires { k < 4 }
    ensures { result ≡ shifted_by (8 * (k + 125)) (register % 256) }
{
    leaving_far(k, (register & 0xff) as u8)
}

/// The register after 128 bytes of 0.
pub(crate) fn past_stream(register: u32) -> u32
    ensures { result ≡ shifted_by 1024 register }
{
    let register1 = register >> 8;
    let register2 = register1 >> 8;
    let register3 = register2 >> 8;
    lowest_far(0, register3)
        ^ lowest_far(1, register2)
        ^ lowest_far(2, register1)
        ^ lowest_far(3, register)
}

/// The register after 384 more bytes, a third of them in each stream: what a third makes of the register goes past the next
/// one, and what that makes of 0 is added.
pub(crate) fn after_streams(register: u32, bytes: &[u8]) -> u32
    requires { length bytes.now ≡ 384 }
    ensures { result ≡ fold after_byte register bytes.now }
{
    let (mut front, others) = bytes.split_at(128);
    let (mut middle, mut back) = others.split_at(128);
    let mut first = register;
    let mut second = 0;
    let mut third = 0;
    while front.len() >= 16 {
        let (of_front, front_rest) = front.split_at(16);
        let (of_middle, middle_rest) = middle.split_at(16);
        let (of_back, back_rest) = back.split_at(16);
        first = after_sixteen(first, of_front);
        second = after_sixteen(second, of_middle);
        third = after_sixteen(third, of_back);
        front = front_rest;
        middle = middle_rest;
        back = back_rest;
    }
    past_stream(past_stream(first) ^ second) ^ third
}
