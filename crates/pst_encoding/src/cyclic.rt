//! The cyclic algorithm ([MS-PST] 5.2), which undoes itself.

ghost use Rattle.std.specs.Prelude.{◌≡◌, map, IfOk};
ghost use Rattle.pst_encoding.specs.Cyclic.{cyclic_key as key_of, cycled as cycled_under, turned as turned_by, with_low_added, turned_each, lowered, turns_of};

use crate::tables::{i_of, r_of, s_of};
use std::alloc::{AllocError, Global};

// How many keys have different high bytes, times how many bytes there are.
const TURNS: usize = 65_536;

/// The key at the first byte of the block with an identifier: of its low 32 bits, the lower half exclusive or the upper one.
pub(crate) fn cyclic_key(bid: u64) -> u16
    ensures { result ≡ key_of bid }
{
    let low = bid & 0xffff;
    let high = (bid >> 16) & 0xffff;
    (low ^ high) as u16
}

// What the inner steps make of a byte under a high byte of a key.
#[tactic(auto, unfolding(crate::specs::Cyclic::turned))]
fn turned(high: u8, byte: u8) -> u8
    ensures { result ≡ turned_by high byte }
{
    let first = r_of(byte);
    let second = s_of(first.wrapping_add(high));
    i_of(second.wrapping_sub(high))
}

/// What the inner steps make of each byte under each high byte of a key, one after another. AllocError where memory is refused.
#[tactic(auto, using(crate::proofs::TurnLemmas::turns_none, crate::proofs::TurnLemmas::turns_more))]
pub(crate) fn all_turns(alloc: Global) -> Result<Vec<u8>, AllocError>
    ensures { IfOk result (λ v. v.items ≡ turns_of 65536) }
{
    let mut turns = Vec::new(alloc);
    for n in 0..TURNS {
        let high = (n / 256) as u8;
        let byte = (n % 256) as u8;
        turns.push(turned(high, byte))?;
    }
    Ok(turns)
}

// Adds the low byte of each byte's key, which is one more with each byte.
fn raise(low: u8, bytes: &mut [u8])
    ensures { bytes.new ≡ with_low_added low bytes.old }
{
    let mut next = low;
    for byte in bytes.iter_mut() {
        *byte = byte.wrapping_add(next);
        next = next.wrapping_add(1);
    }
}

// What the inner steps make of a byte under a high byte of a key, by the table.
fn entry(turns: &[u8], high: u8, byte: u8) -> u8
    requires { turns.now ≡ turns_of 65536 }
    ensures { result ≡ turned_by high byte }
{
    turns[usize::from(high) * 256 + usize::from(byte)]
}

// Does the inner steps, under one high byte of a key.
fn turn(turns: &[u8], high: u8, bytes: &mut [u8])
    requires { turns.now ≡ turns_of 65536 }
    ensures { bytes.new ≡ map (turned_by high) bytes.old }
{
    for byte in bytes.iter_mut() {
        *byte = entry(turns, high, *byte);
    }
}

// Does the inner steps, under the high byte of each byte's key.
fn turn_each(turns: &[u8], key: u16, bytes: &mut [u8])
    requires { turns.now ≡ turns_of 65536 }
    ensures { bytes.new ≡ turned_each key bytes.old }
{
    let mut next = key;
    let mut at = 0;
    while at < bytes.len() {
        let run = (256 - usize::from(next % 256)).min(bytes.len() - at);
        turn(turns, (next / 256) as u8, &mut bytes[at..at + run]);
        next = next.wrapping_add(run as u16);
        at += run;
    }
}

// Subtracts the low byte of each byte's key.
fn lower(low: u8, bytes: &mut [u8])
    ensures { bytes.new ≡ lowered low bytes.old }
{
    let mut next = low;
    for byte in bytes.iter_mut() {
        *byte = byte.wrapping_sub(next);
        next = next.wrapping_add(1);
    }
}

/// Encodes bytes under a key, or decodes them. A pass for each step is faster than all steps for each byte: a processor adds
/// many bytes at once, and the inner steps of 256 bytes have one high byte.
pub(crate) fn cycle(turns: &[u8], key: u16, bytes: &mut [u8])
    requires { turns.now ≡ turns_of 65536 }
    ensures { bytes.new ≡ cycled_under key bytes.old }
{
    let low = (key % 256) as u8;
    raise(low, bytes);
    turn_each(turns, key, bytes);
    lower(low, bytes);
}
