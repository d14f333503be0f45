//! Texts as a store has them: 16-bit units, little-endian.

use crate::chance::Chance;
use std::alloc::{AllocError, Global};

/// Units of these words.
pub(crate) fn units_of(alloc: Global, words: &str) -> Result<Vec<u8>, AllocError> {
    let mut units = Vec::with_capacity(alloc, words.len().saturating_mul(2))?;
    for byte in words.as_bytes() {
        units.push(*byte)?;
        units.push(0)?;
    }
    Ok(units)
}

// A letter, or one time in six a space; of a foreign text letters that are not ASCII.
fn unit(chance: &mut Chance, foreign: bool) -> u16 {
    let drawn = chance.below(32);
    if drawn < 5 {
        0x20
    } else if foreign {
        0x00c0_u16.saturating_add((drawn & 0x3f) as u16)
    } else {
        0x0060_u16
            .saturating_add((drawn.saturating_sub(5) & 0x1f) as u16)
            .saturating_add(1)
    }
}

/// A text of so many characters, one time in eight in another script than the Latin letters of ASCII.
pub(crate) fn text(alloc: Global, chance: &mut Chance, length: u32) -> Result<Vec<u8>, AllocError> {
    let foreign = chance.below(8) == 0;
    let mut units = Vec::new(alloc);
    for _ in 0..length {
        units.extend_from_slice(&unit(chance, foreign).to_le_bytes())?;
    }
    Ok(units)
}
