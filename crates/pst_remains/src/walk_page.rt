//! The walk of a damaged tree: each page before those that it names, and these from left to right.

ghost use Rattle.std.specs.Prelude.{◌≡◌, length, OnOk, Option};
ghost use Rattle.pst_bytes.specs.Image.{bytes_of};
ghost use Rattle.pst_header.specs.Head.{IsMapped};
ghost use Rattle.pst_header.specs.Header.{end_of};
ghost use Rattle.pst_space.specs.Claimed.{unit_total};
ghost use Rattle.pst_remains.specs.Pages.{keys_end as ends, left_so_far, look_at};

use crate::pages::{Seen, enter_page};
use pst_btree::bound_of;
use pst_bytes::Image;
use pst_header::{Bref, Header};
use pst_page::PageKind;
use pst_space::Claims;
use std::alloc::AllocError;

// The key with which those of a page end, where others follow.
fn keys_end(bound: Option<u64>) -> u64
    ensures { result ≡ ends bound }
{
    match bound {
        None => 0,
        Some(high) => high,
    }
}

/// A page of a level, and all below it that is looked at: the pages with a fault are told, those without claim their space, and
/// the leaves that are left are noted. Keys from `from` on are sought by way of the page; its own are at least `low`; and
/// where there is a `high`, both are below it. AllocError where memory is refused.
#[tactic(auto, using(pst_page::proofs::EntryLemmas::entries_from_start, pst_page::proofs::EntryLemmas::entries_from_next, pst_page::proofs::EntryLemmas::entries_from_end, crate::proofs::WalkLemmas::look_shut, crate::proofs::WalkLemmas::look_leaf, crate::proofs::WalkLemmas::look_branch, crate::proofs::WalkLemmas::each_done))]
pub fn walk_page(
    image: Image<'_>,
    header: &Header,
    kind: PageKind,
    level: u8,
    bref: Bref,
    from: u64,
    low: u64,
    high: Option<u64>,
    claims: &mut Claims,
    seen: &mut Seen,
) -> Result<(), AllocError>
    requires mapped { IsMapped (bytes_of image) header.now }
    requires units { length claims.old ≡ unit_total header.now }
    ensures same { length claims.new ≡ length claims.old }
    ensures left { OnOk result (look_at kind (bytes_of image.entry) (end_of header.now) level
        (left_so_far claims.old seen.old.broken.items seen.old.leaves.items) bref from low high
        ≡ left_so_far claims.new seen.new.broken.items seen.new.leaves.items) }
{
    let entered = enter_page(
        image, header, kind, level, bref, from, low, high, claims, seen,
    )?;
    let Some(page) = entered else {
        return Ok(());
    };
    if level == 0 {
        seen.leaves.push(bref.ib)?;
        return Ok(());
    }
    let mut least = from;
    for i in 0..page.count() {
        let (child, first) = (page.child(i), page.key(i));
        let bound = bound_of(&page, i, high);
        let below = level - 1;
        walk_page(
            image, header, kind, below, child, least, first, bound, claims, seen,
        )?;
        least = keys_end(bound);
    }
    Ok(())
}
