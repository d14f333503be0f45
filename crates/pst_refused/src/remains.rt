//! What remains of a damaged file, and all that is broken of it.

ghost use Rattle.std.specs.Prelude.{IfOk};
ghost use Rattle.pst_remains.specs.View.{IsOver};

use crate::refused::{Refused, holds};
use pst_bytes::Image;
use pst_damage::damage_beside;
use pst_damage_json::damage_line;
use pst_header::read_header;
use pst_make::flip;
use pst_plain::{Method, method_of, set_method};
use pst_remains::{Found, Remains, find_decoded, find_remains};
use std::alloc::Global;

// What remains of a file.
pub(crate) fn remains_of<'a>(alloc: Global, bytes: &'a [u8]) -> Result<Remains<'a>, Refused> {
    let image = Image::new(bytes);
    if image.len() < 564 {
        return Err(Refused::Otherwise);
    }
    Ok(find_remains(alloc, image)?)
}

// How many faults are told of a file's header and maps, of its pages, and of its blocks.
fn told(remains: &Remains) -> (bool, usize, usize) {
    let is_told = remains.header.is_some() || remains.maps.is_some();
    (is_told, remains.pages.len(), remains.blocks.len())
}

// Flips a bit of the byte at an offset.
fn flip_at(bytes: &mut [u8], at: u64) -> Result<(), Refused> {
    match usize::try_from(at) {
        Ok(at) => holds(flip(bytes, at).is_ok()),
        Err(_) => Err(Refused::Otherwise),
    }
}

// The file with a byte changed of the check value of its node B-tree's root, and one of the first block's body.
pub(crate) fn damaged(alloc: Global, bytes: &[u8]) -> Result<Vec<u8>, Refused> {
    let root = read_header(Image::new(bytes))?.nbt;
    let remains = remains_of(alloc, bytes)?;
    holds(told(&remains) == (false, 0, 0))?;
    let Some(block) = remains.good.first() else {
        return Err(Refused::Otherwise);
    };
    let mut damaged = Vec::from_slice(alloc, bytes)?;
    flip_at(&mut damaged, root.ib.saturating_add(500))?;
    flip_at(&mut damaged, block.ib)?;
    Ok(damaged)
}

// A file that says that its blocks are encoded by permutation.
fn encoded(alloc: Global, bytes: &[u8]) -> Result<Vec<u8>, Refused> {
    let mut stored = Vec::from_slice(alloc, bytes)?;
    if stored.len() < 564 {
        return Err(Refused::Otherwise);
    }
    set_method(Method::Permute.number(), &mut stored);
    Ok(stored)
}

// What is found of such a file, its blocks decoded; where that is refused memory, the bytes are looked at: they have to be as they
// were.
fn decoded(alloc: Global, stored: &mut [u8]) -> Result<Found, Refused>
    ensures { IfOk result (IsOver stored.new) }
{
    let before = Vec::from_slice(alloc, stored)?;
    let Some(method) = method_of(Image::new(stored)) else {
        return Err(Refused::Otherwise);
    };
    match find_decoded(alloc, method, stored) {
        Ok(found) => Ok(found),
        Err(_) => {
            holds(*stored == *before.as_slice())?;
            Err(Refused::Memory)
        }
    }
}

/// `find_decoded` of a file with two bytes changed, of which a page and a block are told; and all that is broken of it, its blocks
/// decoded, among it contexts that are none by then.
pub(crate) fn decoded_remains(alloc: Global, bytes: &[u8]) -> Result<(), Refused> {
    let mut stored = encoded(alloc, &damaged(alloc, bytes)?)?;
    let found = decoded(alloc, &mut stored)?;
    holds(found.pages.len() == 1 && found.blocks.len() == 1)?;
    let broken = damage_beside(alloc, found.over(Image::new(&stored)))?;
    holds(broken.pages.len() == 1 && broken.blocks.len() == 1)
}

/// `find_remains` of a store, of which nothing is told, and of the same with two bytes changed, of which a page and a block are;
/// and all that is broken of the latter, as a line.
pub(crate) fn remains(alloc: Global, bytes: &[u8]) -> Result<(), Refused> {
    let damaged = damaged(alloc, bytes)?;
    let remains = remains_of(alloc, &damaged)?;
    holds(told(&remains) == (false, 1, 1))?;
    let found = damage_beside(alloc, remains)?;
    let _line = damage_line(alloc, &found, None)?;
    holds(found.pages.len() == 1 && found.blocks.len() == 1)
}
