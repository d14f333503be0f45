//! Long pieces of bytes, of which most words are left out. The polynomial divides x^300 + x^155 + x^117 + x^89 + 1, and
//! so, since squares of sums are sums of squares, the same in x^32: what a word of 32 bits makes of the register is what it
//! makes of it 145, 183, 211 and 300 words behind its place, all four added. A word that is added to the words there
//! need not go through the tables, and a processor adds several words at once. The last 300 words go through them, in three
//! chains side by side.

ghost use Rattle.std.specs.Prelude.{◌≡◌, ℕ, ◌+◌, ◌*◌, ◌%◌, ◌^◌, ◌<◌, ◌≤◌, length, slice_index, fold, bit_xor};
ghost use Rattle.pst_crc.specs.Crc.{after_byte};
ghost use Rattle.pst_crc.specs.LeftOut.{word_in, added_in, whole_in, fed_words};

use crate::of_last;
use crate::streams::past_stream;
use byteorder::{ByteOrder, LittleEndian};

// How many bytes the last words have, which are not left out.
const KEPT: usize = 1200;

// How many words these are.
const KEPT_WORDS: usize = KEPT / 4;

// How many words a chain takes at a time: as many as `past_stream` goes past.
const CHAIN: usize = 32;

// How many words the three chains take at a time.
const CHAINS: usize = 3 * CHAIN;

/// How many bytes a piece has at least where that pays.
pub(crate) const LONG: usize = 3000;

/// How many bytes a piece has at most.
pub(crate) const MOST: usize = 8192;

// Room for the words of a piece, behind 300 others.
const ROOM: usize = 2348;

// The word with a number.
fn word(bytes: &[u8], i: usize) -> u32
    requires { 4 * i + 4 ≤ length bytes.now }
    ensures { result ≡ word_in bytes.now i }
{
    LittleEndian::read_u32(&bytes[4 * i..])
}

// What is added to the word with a number.
fn added(words: &[u32; ROOM], i: usize) -> u32
    requires { i < 2048 }
    ensures { result ≡ added_in words.now i }
{
    words[i + 155] ^ (words[i + 117] ^ (words[i + 89] ^ words[i]))
}

// The word with a number, and what is added to it.
fn whole(bytes: &[u8], words: &[u32; ROOM], i: usize) -> u32
    requires inside { 4 * i + 4 ≤ length bytes.now }
    requires below { i < 2048 }
    ensures { result ≡ whole_in bytes.now words.now i }
{
    word(bytes, i) ^ added(words, i)
}

// The words before any is left out: the register, which is added to the first word, and 0.
fn begun(register: u32) -> [u32; ROOM]
    ensures first { slice_index result 0 ≡ register }
    ensures others { (j : ℕ) → 1 ≤ j → slice_index result j ≡ 0 }
    ensures room { length result ≡ ROOM }
{
    let mut words = [0; ROOM];
    words[0] = register;
    words
}

// The words that are kept, each with what is added to it, in their own places.
fn make_whole(bytes: &[u8], words: &mut [u32; ROOM], from: usize)
    requires inside { 4 * (from + KEPT_WORDS) ≤ length bytes.now }
    requires below { from + KEPT_WORDS ≤ 2048 }
    ensures made { (j : ℕ) → from ≤ j → j < from + KEPT_WORDS
        → slice_index words.new j ≡ whole_in bytes.now words.old j }
{
    for i in from..from + KEPT_WORDS {
        words[i] = whole(bytes, words, i);
    }
}

// Two words as one number, the lower one first.
fn pair(words: &[u32; ROOM], i: usize) -> u64
    requires { i + 2 ≤ ROOM }
    ensures { result ≡ bit_xor (slice_index words.now i)
        (slice_index words.now (i + 1) * 2 ^ 32) }
{
    u64::from(words[i]) ^ (u64::from(words[i + 1]) << 32)
}

// The register after two words.
fn after_two(register: u32, words: &[u32; ROOM], i: usize) -> u32
    requires { i + 2 ≤ ROOM }
    ensures { result ≡ fed_words register (slice_index words.now) i 2 }
{
    of_last(u64::from(register) ^ pair(words, i))
}

// The register after as many words as the three chains take, side by side.
fn after_chains(register: u32, words: &[u32; ROOM], i: usize) -> u32
    requires { i + CHAINS ≤ ROOM }
    ensures { result ≡ fed_words register (slice_index words.now) i CHAINS }
{
    let mut first = register;
    let mut second = 0;
    let mut third = 0;
    for k in 0..CHAIN / 2 {
        let at = i + 2 * k;
        first = after_two(first, words, at);
        second = after_two(second, words, at + CHAIN);
        third = after_two(third, words, at + 2 * CHAIN);
    }
    past_stream(past_stream(first) ^ second) ^ third
}

// The register after the words that are kept: by the three chains as long as there are enough of them.
fn after_kept(words: &[u32; ROOM], from: usize) -> u32
    requires { from + KEPT_WORDS ≤ ROOM }
    ensures { result ≡ fed_words 0 (slice_index words.now) from KEPT_WORDS }
{
    let turns = KEPT_WORDS / CHAINS;
    let mut register = 0;
    for k in 0..turns {
        register = after_chains(register, words, from + CHAINS * k);
    }
    let rest = from + CHAINS * turns;
    for j in 0..KEPT_WORDS % CHAINS / 2 {
        register = after_two(register, words, rest + 2 * j);
    }
    register
}

/// The register after a long piece of whole words: all but the last 300 are left out.
pub(crate) fn after_long(register: u32, bytes: &[u8]) -> u32
    requires words { length bytes.now % 4 ≡ 0 }
    requires long { KEPT < length bytes.now }
    requires fits { length bytes.now ≤ MOST }
    ensures { result ≡ fold after_byte register bytes.now }
{
    let mut words = begun(register);
    let count = (bytes.len() - KEPT) / 4;
    for i in 0..count {
        words[KEPT_WORDS + i] = whole(bytes, &words, i);
    }
    make_whole(bytes, &mut words, count);
    after_kept(&words, count)
}
