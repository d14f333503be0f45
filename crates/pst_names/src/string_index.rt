//! The string stream, with an index of its pieces.

ghost use Rattle.std.specs.List.{All};
ghost use Rattle.pst_datatree.specs.Shown.{bytes_in};
ghost use Rattle.pst_names.specs.Stretch.{IsStretchOf};

use crate::rest::Rest;
use crate::streams::{STRINGS, stream};
use crate::stretch::Stretch;
use byteorder::{ByteOrder, LittleEndian};
use pst_datatree::Value;
use pst_fault::Fault;
use pst_pc::Pc;
use std::alloc::Global;

/// The string stream ([MS-PST] 2.4.7.4) with an index of its pieces: of n pieces the one that has a byte is found in about log n
/// steps. What the index says is true; what it does not say, the stream itself is asked.
#[derive(Drop)]
pub(crate) struct StringIndex<'a> {
    value: Value<'a>,
    // The pieces that have bytes, in order.
    stretches: Vec<Stretch<'a>>,
    ghost are: { All (λ s. IsStretchOf (bytes_in value) s) stretches.items },
}

impl<'a> StringIndex<'a> {
    ghost use Rattle.std.specs.Prelude.{◌≡◌, ◌+◌, ◌≤◌, ◌↔◌, length, slice_get, IsSome, IfSome, IfOk, IfErr};
    ghost use Rattle.pst_bytes.specs.Image.{num};
    ghost use Rattle.pst_fault.specs.Fault.{no_memory};
    ghost use Rattle.pst_ndb.specs.Views.{table_of_node, roots_of};
    ghost use Rattle.pst_pc.specs.View.{node_of_pc};
    ghost use Rattle.pst_names.specs.Fault.{has_text, strings_of};
    ghost use Rattle.pst_names.specs.Stretch.{IsStretchOf};
    ghost use Rattle.pst_names.specs.Strings.{strings_in};

    /// That of a map; or memory is refused.
    pub(crate) fn of(alloc: Global, pc: &Pc<'a>) -> Result<StringIndex<'a>, Fault>
        ensures strings { let node = node_of_pc pc.now in
            IfOk result (λ s. strings_in s ≡ strings_of (table_of_node node) (roots_of node)) }
        ensures memory { IfErr result (λ f. f ≡ no_memory) }
    {
        let value = stream(pc, STRINGS);
        let len = value.len();
        let mut stretches = Vec::new(alloc);
        let mut rest = Rest::of(pc, STRINGS);
        let mut start = 0;
        while start < len {
            let here = rest.settled();
            let bytes = here.front();
            stretches.push(Stretch { start, bytes })?;
            rest = here.skip(bytes.len() as u64);
            start += bytes.len() as u64;
        }
        Ok(StringIndex { value, stretches })
    }

    // The last stretch that begins at a byte or before it.
    fn stretch_at(&self, at: u64) -> Option<Stretch<'a>>
        ensures begun { IfSome result (λ s. s.start ≤ at) }
        ensures own { IfSome result (IsStretchOf (strings_in self.now)) }
    {
        let mut low = 0;
        let mut high = self.stretches.len();
        while low < high {
            let middle = low + (high - low) / 2;
            if self.stretches[middle].start <= at {
                low = middle + 1;
            } else {
                high = middle;
            }
        }
        if low == 0 {
            return None;
        }
        let last = self.stretches[low - 1];
        if last.start <= at { Some(last) } else { None }
    }

    // The byte with a number; None exactly past the end.
    #[tactic(auto, using(crate::proofs::StretchLemmas::stretch_get))]
    fn byte(&self, at: u64) -> Option<u8>
        ensures { result ≡ slice_get (strings_in self.now) at }
    {
        if let Some(stretch) = self.stretch_at(at) {
            if let Some(byte) = stretch.bytes.get((at - stretch.start) as usize) {
                return Some(*byte);
            }
        }
        self.value.byte(at)
    }

    // The number in 4 bytes, which may lie in several pieces; None exactly where some of them are past the end.
    fn number_across(&self, at: u32) -> Option<u32>
        ensures there { IsSome result ↔ (at + 4 ≤ length (strings_in self.now)) }
        ensures value { IfSome result (λ n. n ≡ num (strings_in self.now) at 4) }
    {
        let at = u64::from(at);
        let bytes = [
            self.byte(at)?,
            self.byte(at + 1)?,
            self.byte(at + 2)?,
            self.byte(at + 3)?,
        ];
        Some(LittleEndian::read_u32(&bytes))
    }

    // The number in 4 bytes; None exactly where some of them are past the end.
    fn number(&self, at: u32) -> Option<u32>
        ensures there { IsSome result ↔ (at + 4 ≤ length (strings_in self.now)) }
        ensures value { IfSome result (λ n. n ≡ num (strings_in self.now) at 4) }
    {
        if let Some(stretch) = self.stretch_at(u64::from(at)) {
            let from = (u64::from(at) - stretch.start) as usize;
            if from < stretch.bytes.len() && stretch.bytes.len() - from >= 4 {
                return Some(LittleEndian::read_u32(&stretch.bytes[from..from + 4]));
            }
        }
        self.number_across(at)
    }

    /// Whether a string stands at an offset: its length, and as many bytes.
    #[tactic(auto, unfolding(crate::specs::Fault::has_text))]
    pub(crate) fn has_text(&self, at: u32) -> bool
        ensures { result ≡ has_text (strings_in self.now) at }
    {
        let Some(len) = self.number(at) else {
            return false;
        };
        u64::from(at) + 4 + u64::from(len) <= self.value.len()
    }
}
