//! Lost runs.

ghost use Rattle.std.specs.Prelude.{◌≡◌, ℕ, ◌+◌, ◌-◌, ◌*◌, ◌≤◌, ◌<◌, ◌^◌, ◌++◌, length, true, false, IfOk, OnOk};
ghost use Rattle.pst_bytes.specs.Image.{bytes_of};
ghost use Rattle.pst_header.specs.Head.{IsMapped};
ghost use Rattle.pst_space.specs.Claimed.{unit_total};
ghost use Rattle.pst_amap.specs.Marks.{mark_place};
ghost use Rattle.pst_amap.specs.Lost.{is_lost as lost, lost_runs, run_before};

use crate::marks::{is_marked, mark_byte};
use crate::report::BitOrder;
use pst_bytes::{Image, Span};
use pst_header::{FIRST_AMAP, Header, UNIT};
use pst_space::Claims;
use std::alloc::{AllocError, Global};

#[tactic(auto, unfolding(crate::specs::Lost::is_lost))]
fn is_lost(image: Image, order: BitOrder, claims: &Claims, unit: u64) -> bool
    requires { mark_place unit + 1 ≤ length (bytes_of image) }
    ensures { result ≡ lost order (bytes_of image.entry) claims.now unit }
{
    is_marked(image, order, unit) && !claims.is_claimed(unit)
}

// Whether this unit and the seven behind it share a byte of their map, and are seen at once not to be lost: all are
// claimed, or the byte is empty. False says nothing.
#[tactic(auto, using(crate::proofs::EightLemmas::unmarked_not_lost, crate::proofs::EightLemmas::claimed_not_lost))]
fn are_kept(image: Image, order: BitOrder, claims: &Claims, unit: u64) -> bool
    requires inside { mark_place unit + 1 ≤ length (bytes_of image) }
    requires unit { unit < length claims.now }
    ensures room { result ≡ true → unit + 8 ≤ length claims.now }
    ensures kept { result ≡ true → (i : ℕ) → i < 8 →
        lost order (bytes_of image.entry) claims.now (unit + i) ≡ false }
{
    unit.is_multiple_of(8)
        && claims.units() - unit >= 8
        && (claims.eight(unit) == 0xff || mark_byte(image, unit) == 0)
}

// Adds the run of so many units that ends before a unit, if it has any.
fn push_run(runs: &mut Vec<Span>, unit: u64, run: u64) -> Result<(), AllocError>
    requires run { run ≤ unit }
    requires small { unit < 2 ^ 57 }
    ensures { OnOk result (runs.new.items ≡ runs.old.items ++ run_before unit run) }
{
    if run > 0 {
        runs.push(Span {
            at: FIRST_AMAP + UNIT * (unit - run),
            len: UNIT * run,
        })?;
    }
    Ok(())
}

/// The runs of units that are marked and not claimed, in order. AllocError where their memory is refused.
#[tactic(auto, using(crate::proofs::MapLemmas::mark_inside, crate::proofs::LostLemmas::runs_picked, crate::proofs::LostLemmas::runs_passed, crate::proofs::LostLemmas::runs_passed_all, crate::proofs::LostLemmas::runs_end))]
pub fn find_lost(
    alloc: Global,
    image: Image,
    header: &Header,
    order: BitOrder,
    claims: &Claims,
) -> Result<Vec<Span>, AllocError>
    requires mapped { IsMapped (bytes_of image) header.now }
    requires units { length claims.now ≡ unit_total header.now }
    ensures { IfOk result (λ runs. runs.items ≡ lost_runs order (bytes_of image.entry) claims.now) }
{
    let mut runs = Vec::new(alloc);
    let mut run = 0;
    let units = claims.units();
    let mut unit = 0;
    while unit < units {
        if is_lost(image, order, claims, unit) {
            run += 1;
            unit += 1;
        } else {
            push_run(&mut runs, unit, run)?;
            run = 0;
            unit += if are_kept(image, order, claims, unit) {
                8
            } else {
                1
            };
        }
    }
    push_run(&mut runs, units, run)?;
    Ok(runs)
}
