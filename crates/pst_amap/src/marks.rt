//! Marked units.

ghost use Rattle.std.specs.Prelude.{◌≡◌, ℕ, ◌+◌, ◌%◌, ◌≤◌, ◌<◌, ◌^◌, length, true, None};
ghost use Rattle.pst_bytes.specs.Image.{bytes_of, num};
ghost use Rattle.pst_fault.specs.First.{answer};
ghost use Rattle.pst_header.specs.Head.{IsMapped};
ghost use Rattle.pst_space.specs.Claimed.{unit_total};
ghost use Rattle.pst_amap.specs.Marks.{is_marked as marked, mark_place, mark_bit, marks_fault, unit_fault, missing_fault, bit_order_of, chosen_of};

use crate::report::BitOrder;
use pst_bytes::Image;
use pst_fault::{Fault, Kind};
use pst_header::{FIRST_AMAP, Header, REGION, UNIT};
use pst_space::Claims;

// How many units a region has: an allocation map has a bit for each.
const UNITS: u64 = REGION / UNIT;

impl BitOrder {
    fn mark_bit(self, unit: u64) -> u64
        ensures { result ≡ mark_bit self unit }
    {
        match self {
            BitOrder::High => 7 - unit % 8,
            BitOrder::Low => unit % 8,
        }
    }
}

/// The byte of a unit in the map of its region.
pub fn mark_byte(image: Image, unit: u64) -> u8
    requires { mark_place unit + 1 ≤ length (bytes_of image) }
    ensures { result ≡ num (bytes_of image.entry) (mark_place unit) 1 }
{
    image.number8(FIRST_AMAP + REGION * (unit / UNITS) + unit % UNITS / 8)
}

/// Whether a unit is marked in the map of its region.
#[tactic(auto, unfolding(crate::specs::Marks::is_marked))]
pub fn is_marked(image: Image, order: BitOrder, unit: u64) -> bool
    requires { mark_place unit + 1 ≤ length (bytes_of image) }
    ensures { result ≡ marked order (bytes_of image.entry) unit }
{
    (mark_byte(image, unit) >> order.mark_bit(unit)) % 2 == 1
}

// One unit: if it is claimed, it is marked.
#[tactic(auto, unfolding(crate::specs::Marks::unit_fault))]
fn check_unit(image: Image, order: BitOrder, claims: &Claims, unit: u64) -> Result<(), Fault>
    requires inside { mark_place unit + 1 ≤ length (bytes_of image) }
    requires small { unit < 2 ^ 58 }
    ensures { result ≡ answer (unit_fault order (bytes_of image.entry) claims.now unit) tt }
{
    if claims.is_claimed(unit) && !is_marked(image, order, unit) {
        return Err(Fault::at(Kind::MapMissing, FIRST_AMAP + UNIT * unit));
    }
    Ok(())
}

// Whether this unit and the seven behind it share a byte of their map, and are seen at once to be without fault: the byte
// is full, or none of them is claimed. False says nothing.
#[tactic(auto, using(crate::proofs::EightLemmas::marked_without_fault, crate::proofs::EightLemmas::clear_without_fault))]
fn are_sound(image: Image, claims: &Claims, unit: u64) -> bool
    requires inside { mark_place unit + 1 ≤ length (bytes_of image) }
    requires unit { unit < length claims.now }
    ensures room { result ≡ true → unit + 8 ≤ length claims.now }
    ensures sound { result ≡ true → (order : BitOrder) (i : ℕ) → i < 8 →
        unit_fault order (bytes_of image.entry) claims.now (unit + i) ≡ None }
{
    unit.is_multiple_of(8)
        && claims.units() - unit >= 8
        && (mark_byte(image, unit) == 0xff || claims.eight(unit) == 0)
}

// Each claimed unit is marked in one order of bits.
#[tactic(auto, using(crate::proofs::MapLemmas::mark_inside, crate::proofs::EightLemmas::first_more_all))]
fn check_marks(image: Image, header: &Header, order: BitOrder, claims: &Claims) -> Result<(), Fault>
    requires mapped { IsMapped (bytes_of image) header.now }
    requires units { length claims.now ≡ unit_total header.now }
    ensures { result ≡ answer (marks_fault order (bytes_of image.entry) claims.now) tt }
{
    let mut unit = 0;
    while unit < claims.units() {
        if are_sound(image, claims, unit) {
            unit += 8;
        } else {
            check_unit(image, order, claims, unit)?;
            unit += 1;
        }
    }
    Ok(())
}

/// The order of bits in which each claimed unit is marked: the most significant first where that fits, else the least
/// significant. MapMissing at the lowest unit that is claimed and not marked most significant first, where neither fits.
#[tactic(auto, using(crate::proofs::OrderLemmas::order_found), unfolding(crate::specs::Marks::missing_fault, crate::specs::Marks::bit_order_of))]
pub fn find_order(image: Image, header: &Header, claims: &Claims) -> Result<BitOrder, Fault>
    requires mapped { IsMapped (bytes_of image) header.now }
    requires units { length claims.now ≡ unit_total header.now }
    ensures { result ≡ answer (missing_fault (bytes_of image.entry) claims.now)
        (bit_order_of (bytes_of image.entry) claims.now) }
{
    let high = check_marks(image, header, BitOrder::High, claims);
    let low = check_marks(image, header, BitOrder::Low, claims);
    chosen(high, low)
}

// The order that fits, of what was found of both.
fn chosen(high: Result<(), Fault>, low: Result<(), Fault>) -> Result<BitOrder, Fault>
    ensures { result ≡ chosen_of high low }
{
    match (high, low) {
        (Ok(()), _) => Ok(BitOrder::High),
        (Err(_), Ok(())) => Ok(BitOrder::Low),
        (Err(fault), Err(_)) => Err(fault),
    }
}
