//! Changes to the bytes of an image, and the seals that make its check values right again.

ghost use Rattle.std.specs.Prelude.{◌≡◌, ◌+◌, ◌≤◌, ◌<◌, ◌↔◌, true, length, OnOk, OnErr, IfErr, IsOk};
ghost use Rattle.pst_make.specs.Change.{AreChanged, StopsAt, flipped};
ghost use Rattle.pst_make.specs.Elsewhere.{overwritten};
ghost use Rattle.pst_make.specs.Sealed.{sealed_size};

use crate::number::put_bytes;
use crate::seal::{block_size, seal_block, seal_header, seal_page};
use thiserror::Error;

/// Why an image is not changed.
#[derive(Clone, Copy, Debug, PartialEq, Eq, Error)]
pub enum ChangeFault {
    /// What is to be changed lies past the end of the image.
    #[error("past the end of the image")]
    PastEnd,
    /// Memory was refused.
    #[error("out of memory")]
    Memory,
}

/// What is done to an image. Offsets and lengths are in bytes.
#[derive(Clone, Copy, Debug)]
pub enum Change<'a> {
    /// Sets bytes from an offset on.
    Set(usize, &'a [u8]),
    /// Flips the lowest bit of a byte.
    Flip(usize),
    /// Keeps so many bytes from the start.
    Cut(usize),
    /// Adds so many zero bytes at the end.
    Grow(usize),
    /// Makes the check values of the header right.
    Header,
    /// Makes those of the page at an offset right.
    Page(u64),
    /// Makes those of the block at an offset right, whose body has so many bytes.
    Block(u64, u16),
}

// Whether so many bytes stand from an offset on.
fn has_bytes(image: &[u8], at: u64, len: u64) -> bool
    ensures { result ≡ true ↔ at + len ≤ length image.now }
{
    let all = image.len() as u64;
    len <= all && at <= all - len
}

/// Sets bytes of an image from an offset on. PastEnd, and nothing is set, exactly where some of them lie past its end.
pub fn set(image: &mut [u8], at: usize, bytes: &[u8]) -> Result<(), ChangeFault>
    ensures done { OnOk result (image.new ≡ overwritten image.old at bytes.now) }
    ensures fits { IsOk result ↔ at + length bytes.now ≤ length image.old }
    ensures past { IfErr result (λ f. f ≡ ChangeFault.PastEnd) }
    ensures same { OnErr result (image.new ≡ image.old) }
{
    let all = image.len();
    if bytes.len() > all || at > all - bytes.len() {
        return Err(ChangeFault::PastEnd);
    }
    put_bytes(image, at as u64, bytes);
    Ok(())
}

/// Flips the lowest bit of a byte of an image. PastEnd, and nothing is flipped, exactly where the byte lies past its end.
pub fn flip(image: &mut [u8], at: usize) -> Result<(), ChangeFault>
    ensures done { OnOk result (image.new ≡ flipped image.old at) }
    ensures fits { IsOk result ↔ at < length image.old }
    ensures past { IfErr result (λ f. f ≡ ChangeFault.PastEnd) }
    ensures same { OnErr result (image.new ≡ image.old) }
{
    if at >= image.len() {
        return Err(ChangeFault::PastEnd);
    }
    image[at] ^= 1;
    Ok(())
}

impl Change<'_> {
    ghost use Rattle.std.specs.Prelude.{◌≡◌, ◌≤◌, length, OnOk, OnErr, IfErr};
    ghost use Rattle.pst_make.specs.Change.{FailsWith, IsChanged, reach_of};

    /// Changes an image. PastEnd where the image has not all bytes that are to be changed, or whose check values are to be made
    /// right; Memory where it can't grow. Nothing is changed then.
    #[tactic(auto, unfolding(crate::specs::Change::IsChanged, crate::specs::Change::FailsWith))]
    pub fn apply(self, image: &mut Vec<u8>) -> Result<(), ChangeFault>
        ensures done { OnOk result (IsChanged self.entry image.old.items image.new.items) }
        ensures fits { OnOk result (reach_of self.entry ≤ length image.old.items) }
        ensures refused { IfErr result (FailsWith self.entry image.old.items) }
        ensures same { OnErr result (image.new.items ≡ image.old.items) }
    {
        match self {
            Change::Set(at, bytes) => set(image, at, bytes),
            Change::Flip(at) => flip(image, at),
            Change::Cut(len) => {
                image.truncate(len);
                Ok(())
            }
            Change::Grow(more) => {
                let len = image.len().checked_add(more).ok_or(ChangeFault::Memory)?;
                image.resize(len, 0).map_err(|_| ChangeFault::Memory)
            }
            Change::Header => {
                if !has_bytes(image, 0, 564) {
                    return Err(ChangeFault::PastEnd);
                }
                seal_header(image);
                Ok(())
            }
            Change::Page(at) => {
                if !has_bytes(image, at, 512) {
                    return Err(ChangeFault::PastEnd);
                }
                seal_page(image, at);
                Ok(())
            }
            Change::Block(at, cb) => {
                if !has_bytes(image, at, block_size(cb)) {
                    return Err(ChangeFault::PastEnd);
                }
                seal_block(image, at, cb);
                Ok(())
            }
        }
    }
}

/// Changes an image, one after another. The first that can't be done ends it, with its fault: what was changed before stays so.
pub fn change_all(image: &mut Vec<u8>, changes: &[Change]) -> Result<(), ChangeFault>
    ensures done { OnOk result (AreChanged changes.now image.old.items image.new.items) }
    ensures stops { IfErr result (StopsAt changes.now image.old.items image.new.items) }
{
    for one in changes {
        one.apply(image)?;
    }
    Ok(())
}
