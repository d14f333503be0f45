//! The claims of a file.

ghost use Rattle.std.specs.Prelude.{◌≡◌, ℕ, ◌+◌, ◌-◌, ◌*◌, ◌/◌, ◌%◌, ◌^◌, ◌<◌, ◌≤◌, length, replicate, nat_eq, Bool, true, false, IfOk, Some};
ghost use Rattle.std.specs.Int.{bit_at};
ghost use Rattle.pst_header.specs.Head.{IsLastMap};
ghost use Rattle.pst_header.specs.Header.{amap_place};
ghost use Rattle.pst_space.specs.Flags.{flags_from, with_flags};
ghost use Rattle.pst_space.specs.Claimed.{claim_of, claim_all, first_unit, flag_of, is_clear, filled, unit_count, with_span, IsUnits, ClaimAnswers, with_spans, MapsFit, page_at, map_pages_at, maps_claimed, unit_total};

use crate::bits;
use pst_bytes::Span;
use pst_fault::{Fault, Kind};
use pst_header::{FIRST_AMAP, Header, REGION, UNIT};
use std::alloc::{AllocError, Global};
use std::marker::Model;

/// The units of the mapped part of a file that a page or a block has claimed. Unit u is the `UNIT` bytes at the
/// offset `FIRST_AMAP + UNIT * u`. A contract sees a flag for each unit; the memory is a bit for each, taken by `new`.
#[derive(Drop)]
pub struct Claims {
    words: Vec<u64>,
    units: usize,
    ghost room: { units ≤ 64 * length words.items },
}

impl Model for Claims {
    ghost use Rattle.std.specs.Prelude.{List, Bool};
    ghost use Rattle.pst_space.specs.Flags.{flags_from};

    ghost Value = { List Bool };

    ghost view = { λ c. flags_from c.words.items 0 c.units };
}

fn zeros(alloc: Global, len: usize) -> Result<Vec<u64>, AllocError>
    ensures zeros { IfOk result (λ v. v.items ≡ replicate len 0) }
    ensures len { IfOk result (λ v. length v.items ≡ len) }
{
    vec![in alloc; 0; len]
}

// Sets the flags of so many units from one on.
#[tactic(auto, using(crate::proofs::FlagLemmas::length_with_flags))]
fn fill(words: &mut Vec<u64>, first: usize, count: usize)
    requires room { first + count ≤ 64 * length words.old.items }
    requires fits { first + count < 2 ^ 64 }
    ensures flags { words.new.items ≡ with_flags words.old.items first count }
    ensures len { length words.new.items ≡ length words.old.items }
{
    bits::fill(words, first, count);
}

impl Claims {
    // Nothing is claimed of so many units.
    #[tactic(auto, using(crate::proofs::FlagLemmas::flags_of_zeros))]
    fn none(alloc: Global, units: usize) -> Result<Claims, AllocError>
        ensures { IfOk result (λ c. c ≡ replicate units false) }
    {
        let words = zeros(alloc, units.div_ceil(64))?;
        Ok(Claims { words, units })
    }

    // Claims a page, whether or not it is claimed.
    #[tactic(auto, using(crate::proofs::FlagLemmas::length_flags))]
    fn fill_page(&mut self, at: u64)
        requires { IsUnits self.old (page_at at) }
        ensures { self.new ≡ with_span self.old (page_at at) }
    {
        let first = ((at - FIRST_AMAP) / UNIT) as usize;
        fill(&mut self.words, first, 8);
    }

    // The map pages of a region.
    #[tactic(auto, using(crate::proofs::MapLemmas::length_with_span))]
    fn fill_maps(&mut self, region: u64)
        requires fit { MapsFit region (length self.old) }
        requires place { amap_place region + 512 < 2 ^ 64 }
        ensures { self.new ≡ with_spans self.old (map_pages_at region) }
    {
        let amap = FIRST_AMAP + REGION * region;
        self.fill_page(amap);
        if region.is_multiple_of(8) {
            self.fill_page(amap + 512);
        }
    }

    /// The claims of a file at first: its allocation map pages and page map pages ([MS-PST] 2.2.2.7.2 and 2.2.2.7.3),
    /// and nothing else. The header has to be one whose last allocation map lies in the file, as each has that was read.
    /// All memory that the claims ever take is taken here: a bit for each unit, 1/512 of the mapped part. AllocError
    /// where it is refused.
    #[tactic(auto, using(crate::proofs::MapLemmas::maps_start, crate::proofs::MapLemmas::maps_next, crate::proofs::MapLemmas::maps_end, crate::proofs::MapLemmas::maps_fit, crate::proofs::MapLemmas::maps_place, crate::proofs::MapLemmas::length_maps))]
    pub fn new(alloc: Global, header: &Header) -> Result<Claims, AllocError>
        requires { IsLastMap header.now.last_amap header.now.eof }
        ensures maps { IfOk result (λ c. c ≡ maps_claimed header.now) }
        ensures units { IfOk result (λ c. length c ≡ unit_total header.now) }
    {
        let units = (header.end().saturating_sub(FIRST_AMAP) / UNIT) as usize;
        let mut claims = Claims::none(alloc, units)?;
        for region in 0..header.amap_count() {
            claims.fill_maps(region);
        }
        Ok(claims)
    }

    /// Whether nothing is claimed of a span, which has to be one or more whole units of the mapped part.
    #[tactic(auto, using(crate::proofs::FlagLemmas::length_flags, crate::proofs::FlagLemmas::clear_in_is))]
    pub fn is_free(&self, span: Span) -> bool
        requires { IsUnits self.now span }
        ensures { result ≡ is_clear self.now (first_unit span) (unit_count span) }
    {
        let first = ((span.at - FIRST_AMAP) / UNIT) as usize;
        let count = (span.len / UNIT) as usize;
        bits::is_clear(&self.words, first, count)
    }

    /// Claims a span, which has to be one or more whole units of the mapped part. The fault Overlap (at the span, and of
    /// no page or block) exactly where one of its units is claimed already: then nothing changes. No memory is taken.
    #[tactic(auto, using(crate::proofs::FlagLemmas::length_flags, crate::proofs::FlagLemmas::length_with_flags, crate::proofs::FlagLemmas::clear_in_is, crate::proofs::FlagLemmas::claim_made, crate::proofs::FlagLemmas::claim_refused))]
    pub fn claim(&mut self, span: Span) -> Result<(), Fault>
        requires { IsUnits self.old span }
        ensures answers { ClaimAnswers self.old span self.new result }
        ensures same_units { length self.new ≡ length self.old }
    {
        let first = ((span.at - FIRST_AMAP) / UNIT) as usize;
        let count = (span.len / UNIT) as usize;
        if !self.is_free(span) {
            return Err(Fault::at(Kind::Overlap, span.at));
        }
        fill(&mut self.words, first, count);
        Ok(())
    }

    /// How many whole units the mapped part has.
    #[tactic(auto, using(crate::proofs::FlagLemmas::length_flags))]
    pub fn units(&self) -> u64
        ensures { result ≡ length self.now }
    {
        u64::try_from(self.units).unwrap_or(u64::MAX)
    }

    /// Whether a unit is claimed: false past the mapped part.
    #[tactic(auto, using(crate::proofs::FlagLemmas::flag_at, crate::proofs::FlagLemmas::flag_past))]
    pub fn is_claimed(&self, unit: u64) -> bool
        ensures { result ≡ flag_of self.now unit }
    {
        if unit >= self.units as u64 {
            return false;
        }
        bits::is_set(&self.words, unit as usize)
    }

    /// Which of eight units from a multiple of 8 on are claimed, as the bits of a byte: that of the first unit is the
    /// least significant.
    #[tactic(auto, using(crate::proofs::FlagLemmas::length_flags, crate::proofs::FlagLemmas::flag_at))]
    pub fn eight(&self, unit: u64) -> u8
        requires whole { unit % 8 ≡ 0 }
        requires inside { unit + 8 ≤ length self.now }
        ensures { (i : ℕ) → i < 8 → nat_eq (bit_at result i) 1 ≡ flag_of self.now (unit + i) }
    {
        bits::eight(&self.words, unit as usize)
    }
}
