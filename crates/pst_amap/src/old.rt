//! Old map pages.

ghost use Rattle.std.specs.Prelude.{◌≡◌, ℕ, ◌+◌, ◌-◌, ◌/◌, ◌%◌, ◌≤◌, ◌<◌, ◌^◌, length};
ghost use Rattle.pst_bytes.specs.Image.{bytes_of};
ghost use Rattle.pst_header.specs.Head.{IsMapped};
ghost use Rattle.pst_header.specs.Header.{amap_place, amap_count_of, end_of};
ghost use Rattle.pst_header.specs.declared.header.TheConstants.{FIRST_AMAP, UNIT};
ghost use Rattle.pst_space.specs.Claimed.{unit_total};
ghost use Rattle.pst_amap.specs.Old.{is_old_type as old_type, are_marked as marked, looks_old as old, old_step, old_below};

use crate::map::has_map_trailer;
use crate::marks::is_marked;
use crate::report::BitOrder;
use pst_bytes::{Image, Span};
use pst_header::{FIRST_AMAP, Header, REGION, UNIT};
use pst_space::Claims;

// Whether the two type bytes of a page are those of an old map page.
fn is_old_type(ptype: u8, repeated: u8) -> bool
    ensures { result ≡ old_type ptype repeated }
{
    (ptype == 0x82 || ptype == 0x85) && repeated == ptype
}

// Whether so many units from one on are marked.
#[tactic(auto, using(crate::proofs::MapLemmas::mark_inside, crate::proofs::OldLemmas::marked_next, crate::proofs::OldLemmas::marked_not, crate::proofs::OldLemmas::marked_end))]
fn are_marked(image: Image, header: &Header, order: BitOrder, unit: u64, count: u64) -> bool
    requires mapped { IsMapped (bytes_of image) header.now }
    requires units { unit + count ≤ unit_total header.now }
    requires fits { unit + count < 2 ^ 64 }
    ensures { result ≡ marked order (bytes_of image.entry) unit count }
{
    for i in 0..count {
        if !is_marked(image, order, unit + i) {
            return false;
        }
    }
    true
}

// Whether the page at an offset looks like an old map page.
#[tactic(auto, using(crate::proofs::OldLemmas::page_inside, crate::proofs::OldLemmas::page_units), unfolding(crate::specs::Old::looks_old))]
fn looks_old(image: Image, header: &Header, order: BitOrder, at: u64) -> bool
    requires mapped { IsMapped (bytes_of image) header.now }
    requires place { (FIRST_AMAP ≤ at) × (at % UNIT ≡ 0) }
    requires fits { at + 512 < 2 ^ 64 }
    ensures { result ≡ old order (bytes_of image.entry) (end_of header.now) at }
{
    at + 512 <= header.end()
        && is_old_type(image.number8(at + 496), image.number8(at + 497))
        && has_map_trailer(image, at)
        && are_marked(image, header, order, (at - FIRST_AMAP) / UNIT, 8)
}

// Claims the page at an offset if it is an old map page, and on nothing that is claimed: how many were found, 0 or 1.
#[tactic(auto, using(crate::proofs::OldLemmas::old_no, crate::proofs::OldLemmas::old_yes, crate::proofs::OldLemmas::old_on_another, crate::proofs::OldLemmas::page_whole))]
fn claim_old(image: Image, header: &Header, order: BitOrder, at: u64, claims: &mut Claims) -> u64
    requires mapped { IsMapped (bytes_of image) header.now }
    requires place { (FIRST_AMAP ≤ at) × (at % UNIT ≡ 0) }
    requires fits { at + 512 < 2 ^ 64 }
    requires units { length claims.old ≡ unit_total header.now }
    ensures found { (n : ℕ) → old_step order (bytes_of image.entry)
        (end_of header.now) (record { claimed = claims.old; count = n }) at ≡
        record { claimed = claims.new; count = n + result } }
    ensures units { length claims.new ≡ length claims.old }
    ensures most { result ≤ 1 }
{
    if !looks_old(image, header, order, at) {
        return 0;
    }
    match claims.claim(Span { at, len: 512 }) {
        Ok(()) => 1,
        Err(_) => 0,
    }
}

/// Claims the old map pages of a file: how many there are.
#[tactic(auto, using(crate::proofs::OldLemmas::old_start, crate::proofs::OldLemmas::old_next, crate::proofs::MapLemmas::map_inside))]
pub fn claim_old_maps(image: Image, header: &Header, order: BitOrder, claims: &mut Claims) -> u64
    requires mapped { IsMapped (bytes_of image) header.now }
    requires units { length claims.old ≡ unit_total header.now }
    ensures found { old_below order (bytes_of image.entry) (end_of header.now)
        (record { claimed = claims.old; count = 0 }) (amap_count_of header.now) ≡
        record { claimed = claims.new; count = result } }
    ensures units { length claims.new ≡ length claims.old }
{
    let mut count = 0;
    for region in 0..header.amap_count() {
        let amap = FIRST_AMAP + REGION * region;
        count += claim_old(image, header, order, amap + 1024, claims);
        count += claim_old(image, header, order, amap + 1536, claims);
    }
    count
}
