//! Permutation ([MS-PST] 5.1) undone two bytes at a time.

ghost use Rattle.std.specs.Prelude.{◌≡◌, ◌+◌, ◌*◌, ◌/◌, ◌%◌, map, length, IfOk};
ghost use Rattle.pst_encoding.specs.Permute.{unpermuted};
ghost use Rattle.pst_encoding.specs.Tables.{i_of as i_entry};
ghost use Rattle.pst_encoding.specs.Pairs.{pairs_of};

use crate::permute::unpermute;
use crate::tables::i_of;
use std::alloc::{AllocError, Global};

// How many pairs of bytes there are.
const PAIRS: usize = 65_536;

// What decoding makes of a pair of bytes.
fn decoded_pair(low: u8, high: u8) -> u16
    ensures { result ≡ i_entry low + 256 * i_entry high }
{
    u16::from(i_of(low)) + 256 * u16::from(i_of(high))
}

// What decoding makes of each pair of bytes, one after another. AllocError where memory is refused.
#[tactic(auto, using(crate::proofs::PairLemmas::pairs_none, crate::proofs::PairLemmas::pairs_more))]
fn all_pairs(alloc: Global) -> Result<Vec<u16>, AllocError>
    ensures { IfOk result (λ v. v.items ≡ pairs_of 65536) }
{
    let mut pairs = Vec::with_capacity(alloc, PAIRS)?;
    for n in 0..PAIRS {
        let low = (n % 256) as u8;
        let high = (n / 256) as u8;
        pairs.push(decoded_pair(low, high))?;
    }
    Ok(pairs)
}

// What decoding makes of a pair of bytes, by the table.
fn entry(pairs: &[u16], low: u8, high: u8) -> u16
    requires { pairs.now ≡ pairs_of 65536 }
    ensures low { result % 256 ≡ i_entry low }
    ensures high { result / 256 ≡ i_entry high }
{
    pairs[usize::from(low) + 256 * usize::from(high)]
}

// Decodes two bytes.
fn decode_two(pairs: &[u16], bytes: &mut [u8])
    requires table { pairs.now ≡ pairs_of 65536 }
    requires two { length bytes.old ≡ 2 }
    ensures { bytes.new ≡ map i_entry bytes.old }
{
    let pair = entry(pairs, bytes[0], bytes[1]);
    bytes[0] = (pair % 256) as u8;
    bytes[1] = (pair / 256) as u8;
}

// Decodes bytes, two at a time, and the last one alone where their number is odd.
fn decode_pairs(pairs: &[u16], bytes: &mut [u8])
    requires { pairs.now ≡ pairs_of 65536 }
    ensures { bytes.new ≡ unpermuted bytes.old }
{
    let mut at = 0;
    while at + 2 <= bytes.len() {
        decode_two(pairs, &mut bytes[at..at + 2]);
        at += 2;
    }
    unpermute(&mut bytes[at..]);
}

/// What decoding by permutation ([MS-PST] 5.1) makes of each pair of bytes, put together once: 131,072 bytes.
#[derive(Drop)]
pub struct Pairs {
    table: Vec<u16>,
    ghost made: { table.items ≡ pairs_of 65536 },
}

impl Pairs {
    ghost use Rattle.std.specs.Prelude.{◌≡◌};
    ghost use Rattle.pst_encoding.specs.Permute.{unpermuted};

    /// Puts them together. AllocError where memory is refused.
    pub fn new(alloc: Global) -> Result<Pairs, AllocError> {
        let table = all_pairs(alloc)?;
        Ok(Pairs { table })
    }

    /// Decodes bytes.
    pub fn decode(&self, bytes: &mut [u8])
        ensures { bytes.new ≡ unpermuted bytes.old }
    {
        decode_pairs(&self.table, bytes);
    }
}
