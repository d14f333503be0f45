//! What is judged beside what is claimed.

ghost use Rattle.std.specs.Prelude.{◌≡◌, length, true};
ghost use Rattle.pst_fault.specs.First.{answer};
ghost use Rattle.pst_space.specs.Claimed.{IsUnits, is_clear, first_unit, unit_count, with_span};
ghost use Rattle.pst_remains.specs.Judged.{overlap_fault};

use pst_bytes::Span;
use pst_fault::{Fault, Kind};
use pst_space::Claims;

/// Whether nothing lies in the span of a page or a block; or Overlap, with its identifier. Nothing is claimed.
#[tactic(auto, unfolding(crate::specs::Judged::overlap_fault))]
pub fn check_free(claims: &Claims, span: Span, bid: u64) -> Result<(), Fault>
    requires { IsUnits claims.now span }
    ensures { result ≡ answer (overlap_fault claims.now span bid) tt }
{
    if claims.is_free(span) {
        Ok(())
    } else {
        Err(Fault::within(Kind::Overlap, span.at, bid))
    }
}

/// Claims a span in which nothing lies.
#[tactic(auto, using(crate::proofs::JudgedLemmas::claim_free))]
pub fn claim_free(claims: &mut Claims, span: Span)
    requires units { IsUnits claims.old span }
    requires free { is_clear claims.old (first_unit span) (unit_count span) ≡ true }
    ensures claims { claims.new ≡ with_span claims.old span }
    ensures same { length claims.new ≡ length claims.old }
{
    let _claimed = claims.claim(span);
}
