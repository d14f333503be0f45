//! The check value of a piece of a file ([MS-PST] 5.3), and the signature of a place (5.5).
//!
//! Begin with `check`, which gives the check value of bytes, and with `signature`, which gives the signature of a page
//! or block by its offset in the file and its identifier. Neither can fail:
//!
//! ```text
//! let value = pst_crc::check(image.slice(Span { at, len: 496 }));
//! let wanted = pst_crc::signature(at, bid);
//! ```
#![tactic(auto)]

ghost use Rattle.std.specs.Prelude.{◌≡◌, ◌+◌, ◌*◌, ◌%◌, ◌<◌, length, fold, bit_xor};
ghost use Rattle.pst_crc.specs.Crc.{after_byte, crc, shifted_by, signature_of};

mod far_table;
mod left_out;
mod streams;
mod table;

use byteorder::{ByteOrder, LittleEndian};
use left_out::{LONG, MOST, after_long};
use streams::after_streams;
use table::leaving;

// The register after one more byte, by the first row of the tables.
#[tactic(auto, using(crate::proofs::Rule::after_byte_is))]
fn after(register: u32, byte: u8) -> u32
    ensures { result ≡ after_byte register byte }
{
    let low = ((register ^ u32::from(byte)) & 0xff) as u8;
    (register >> 8) ^ leaving(0, low)
}

// What the lowest byte of a word adds, where k bytes stand above it.
fn lowest(k: usize, word: u64) -> u32
    requires { k < 16 }
    ensures { result ≡ shifted_by (8 * (k + 1)) (word % 256) }
{
    leaving(k, (word & 0xff) as u8)
}

// What the 8 bytes of a word add, where nothing stands above them.
fn of_last(word: u64) -> u32
    ensures { result ≡ shifted_by 64 word }
{
    let word1 = word >> 8;
    let word2 = word1 >> 8;
    let word3 = word2 >> 8;
    let word4 = word3 >> 8;
    let word5 = word4 >> 8;
    let word6 = word5 >> 8;
    let word7 = word6 >> 8;
    lowest(0, word7)
        ^ lowest(1, word6)
        ^ lowest(2, word5)
        ^ lowest(3, word4)
        ^ lowest(4, word3)
        ^ lowest(5, word2)
        ^ lowest(6, word1)
        ^ lowest(7, word)
}

// What the 8 bytes of a word add, where 8 bytes stand above them.
fn of_first(word: u64) -> u32
    ensures { result ≡ shifted_by 128 word }
{
    let word1 = word >> 8;
    let word2 = word1 >> 8;
    let word3 = word2 >> 8;
    let word4 = word3 >> 8;
    let word5 = word4 >> 8;
    let word6 = word5 >> 8;
    let word7 = word6 >> 8;
    lowest(8, word7)
        ^ lowest(9, word6)
        ^ lowest(10, word5)
        ^ lowest(11, word4)
        ^ lowest(12, word3)
        ^ lowest(13, word2)
        ^ lowest(14, word1)
        ^ lowest(15, word)
}

// The register after sixteen more bytes, given as two numbers, the lowest byte first.
fn after_words(register: u32, low: u64, high: u64) -> u32
    ensures { result ≡ shifted_by 64 (bit_xor (shifted_by 64 (bit_xor register low)) high) }
{
    of_first(u64::from(register) ^ low) ^ of_last(high)
}

// The register after sixteen more bytes.
fn after_sixteen(register: u32, bytes: &[u8]) -> u32
    requires { length bytes.now ≡ 16 }
    ensures { result ≡ fold after_byte register bytes.now }
{
    let (low, high) = bytes.split_at(8);
    after_words(
        register,
        LittleEndian::read_u64(low),
        LittleEndian::read_u64(high),
    )
}

/// The check value of bytes ([MS-PST] 5.3): the reflected CRC with the polynomial 0xEDB88320, a register that starts at 0,
/// and no final inversion. Of long pieces most words are left out, since four words behind each make up for it. Else sixteen
/// bytes are taken at a time, by sixteen tables of 256 words, and of each 384 bytes the three thirds side by side.
#[tactic(auto, unfolding(crate::specs::Crc::crc))]
pub fn check(bytes: &[u8]) -> u32
    ensures { result ≡ crc bytes.now }
{
    let mut register = 0;
    let mut long = bytes;
    while long.len() >= LONG {
        let (piece, others) = long.split_at(long.len().min(MOST) / 4 * 4);
        register = after_long(register, piece);
        long = others;
    }
    let mut middle = long;
    while middle.len() >= 384 {
        let (streams, others) = middle.split_at(384);
        register = after_streams(register, streams);
        middle = others;
    }
    let mut rest = middle;
    while rest.len() >= 16 {
        let (sixteen, others) = rest.split_at(16);
        register = after_sixteen(register, sixteen);
        rest = others;
    }
    rest.iter()
        .fold(register, |register, byte| after(register, *byte))
}

/// The signature of a page or block ([MS-PST] 5.5), from its offset in the file and its identifier.
#[tactic(auto, unfolding(crate::specs::Crc::signature_of))]
pub fn signature(ib: u64, bid: u64) -> u16
    ensures { result ≡ signature_of ib bid }
{
    let x = ib ^ bid;
    let high = (x >> 16) & 0xffff;
    let low = x & 0xffff;
    (high ^ low) as u16
}
