//! Phrases in several scripts, of which long texts are made.

use crate::chance::Chance;
use crate::texts::units_of;
use std::alloc::{AllocError, Global};

// How many phrases of each script there are.
const PHRASES: u32 = 256;

// What texts are written in.
#[derive(Clone, Copy)]
enum Script {
    // The letters of ASCII.
    Plain,
    // The same, and some with accents.
    Accented,
    Cyrillic,
    Japanese,
    // The letters of ASCII, and faces between the words.
    Faces,
}

const SCRIPTS: [Script; 5] = [
    Script::Plain,
    Script::Accented,
    Script::Cyrillic,
    Script::Japanese,
    Script::Faces,
];

// The unit of a letter.
fn letter(chance: &mut Chance, script: Script) -> u16 {
    let drawn = chance.below(0x1000);
    let unit = match script {
        Script::Accented if drawn % 6 == 0 => 0xe0_u32.saturating_add(drawn % 23),
        Script::Cyrillic => 0x430_u32.saturating_add(drawn % 32),
        Script::Japanese if drawn % 2 == 0 => 0x4e00_u32.saturating_add(drawn),
        Script::Japanese => 0x3042_u32.saturating_add(drawn % 80),
        _ => 0x61_u32.saturating_add(drawn % 26),
    };
    u16::try_from(unit).unwrap_or(0x20)
}

// Puts what stands between two words: mostly a space, at times a face of two units, in Japanese nothing.
fn put_between(units: &mut Vec<u8>, chance: &mut Chance, script: Script) -> Result<(), AllocError> {
    match script {
        Script::Japanese => Ok(()),
        Script::Faces if chance.below(3) == 0 => {
            let face = u16::try_from(chance.below(64)).unwrap_or(0);
            units.extend_from_slice(&0xd83d_u16.to_le_bytes())?;
            units.extend_from_slice(&0xde00_u16.saturating_add(face).to_le_bytes())
        }
        _ => units.extend_from_slice(&[0x20, 0]),
    }
}

// Four to eleven words, and what stands behind them.
fn phrase(alloc: Global, chance: &mut Chance, script: Script) -> Result<Vec<u8>, AllocError> {
    let mut units = Vec::new(alloc);
    for _ in 0..chance.below(8).saturating_add(4) {
        for _ in 0..chance.below(9).saturating_add(2) {
            units.extend_from_slice(&letter(chance, script).to_le_bytes())?;
        }
        put_between(&mut units, chance, script)?;
    }
    let end = match chance.below(4) {
        0 => ", ",
        1 => ". ",
        2 => "\" ",
        _ => ".\r\n",
    };
    units.extend_from_slice(&units_of(alloc, end)?)?;
    Ok(units)
}

// A phrase of ASCII as a paragraph of HTML, a byte a letter.
fn paragraph(alloc: Global, phrase: &[u8]) -> Result<Vec<u8>, AllocError> {
    let mut made = Vec::from_slice(alloc, b"<p class=\"MsoNormal\">")?;
    for unit in phrase.chunks(2) {
        made.extend_from_slice(unit.get(..1).unwrap_or(&[]))?;
    }
    made.extend_from_slice(b"</p>\r\n")?;
    Ok(made)
}

// Drawn ones of these phrases from the first of a script on, one behind another until there are so many bytes.
fn joined(
    alloc: Global,
    chance: &mut Chance,
    phrases: &[Vec<u8>],
    first: u32,
    length: u32,
) -> Result<Vec<u8>, AllocError> {
    let length = length as usize;
    let mut made = Vec::with_capacity(alloc, length.saturating_add(300))?;
    for _ in 0..length {
        if made.len() >= length {
            break;
        }
        let drawn = first.saturating_add(chance.below(PHRASES)) as usize;
        if let Some(phrase) = phrases.get(drawn) {
            made.extend_from_slice(phrase)?;
        }
    }
    Ok(made)
}

/// Phrases of each script, and those of ASCII as paragraphs of HTML.
#[derive(Drop)]
pub(crate) struct Phrases {
    alloc: Global,
    units: Vec<Vec<u8>>,
    paragraphs: Vec<Vec<u8>>,
}

impl Phrases {
    /// Phrases that chance makes.
    pub(crate) fn new(alloc: Global, chance: &mut Chance) -> Result<Phrases, AllocError> {
        let (mut units, mut paragraphs) = (Vec::new(alloc), Vec::new(alloc));
        for script in SCRIPTS {
            for _ in 0..PHRASES {
                units.push(phrase(alloc, chance, script)?)?;
            }
        }
        for phrase in units.iter().take(PHRASES as usize) {
            paragraphs.push(paragraph(alloc, phrase)?)?;
        }
        Ok(Phrases {
            alloc,
            units,
            paragraphs,
        })
    }

    /// A text of so many bytes and part of a phrase, half of all in ASCII, the others in one of four other scripts.
    pub(crate) fn text(&self, chance: &mut Chance, length: u32) -> Result<Vec<u8>, AllocError> {
        let script = chance.below(8).saturating_sub(3);
        let first = script.saturating_mul(PHRASES);
        joined(self.alloc, chance, &self.units, first, length)
    }

    /// The same in ASCII.
    pub(crate) fn plain(&self, chance: &mut Chance, length: u32) -> Result<Vec<u8>, AllocError> {
        joined(self.alloc, chance, &self.units, 0, length)
    }

    /// HTML of so many bytes and part of a paragraph.
    pub(crate) fn html(&self, chance: &mut Chance, length: u32) -> Result<Vec<u8>, AllocError> {
        joined(self.alloc, chance, &self.paragraphs, 0, length)
    }
}
