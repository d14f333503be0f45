//! The pages of a damaged node B-tree with a fault that lie within none before them, side by side.

ghost use Rattle.std.specs.Prelude.{◌≡◌, ◌≤◌, ◌++◌, [], ◌∷◌, length, true, false, Option, IfOk, IfSome, OnOk};
ghost use Rattle.pst_remains.specs.Pages.{lies_behind as behind, page_before};
ghost use Rattle.pst_damage.specs.Apart.{is_up_to as ends_at, precedes as stands_before, ends_within as ends_in, lies_within as stands_within, are_apart, BeginUpTo, StandFor};

use pst_remains::Broken;
use std::alloc::{AllocError, Global};

// Whether keys end at a bound, or below it.
fn is_up_to(high: Option<u64>, bound: u64) -> bool
    ensures { result ≡ ends_at high bound }
{
    match high {
        None => false,
        Some(high) => high <= bound,
    }
}

// Whether the keys of one page end where those of another begin, or before.
fn precedes(page: Broken, next: Broken) -> bool
    ensures { result ≡ stands_before page next }
{
    page.from <= next.from && is_up_to(page.high, next.from)
}

// Whether the keys of one page end among those of another.
fn ends_within(outer: Option<u64>, inner: Option<u64>) -> bool
    ensures { result ≡ ends_in outer inner }
{
    match outer {
        None => true,
        Some(high) => is_up_to(inner, high),
    }
}

// Whether the keys of one page are among those of another.
fn lies_within(outer: Broken, page: Broken) -> bool
    ensures { result ≡ stands_within outer page }
{
    outer.from <= page.from && ends_within(outer.high, page.high)
}

// Whether a page is behind the last of some that stand apart.
#[tactic(auto, using(crate::proofs::PagesLemmas::first_apart, crate::proofs::PagesLemmas::next_apart))]
fn is_behind(outer: &[Broken], page: Broken) -> bool
    requires { are_apart outer.now ≡ true }
    ensures { result ≡ true → are_apart (outer.now ++ page ∷ []) ≡ true }
{
    match outer.split_last() {
        Some((last, _)) => precedes(*last, page),
        None => true,
    }
}

// Whether a page lies within the last of some.
#[tactic(auto, using(crate::proofs::PagesLemmas::within_stands))]
fn is_within(outer: &[Broken], page: Broken) -> bool
    ensures { result ≡ true → StandFor outer.now (outer.now ++ page ∷ []) }
{
    match outer.split_last() {
        Some((last, _)) => lies_within(*last, page),
        None => false,
    }
}

// Adds a page to those that lie within none before them, where it is behind the last of these; where it lies within that one,
// nothing is to be added. Where it is neither, the answer is false.
fn add(outer: &mut Vec<Broken>, page: Broken) -> Result<bool, AllocError>
    requires { are_apart outer.old.items ≡ true }
    ensures apart { OnOk result (are_apart outer.new.items ≡ true) }
    ensures added { IfOk result (λ yes. yes ≡ true →
        StandFor outer.new.items (outer.old.items ++ page ∷ [])) }
{
    if is_behind(outer, page) {
        outer.push(page)?;
        return Ok(true);
    }
    Ok(is_within(outer, page))
}

/// The pages that lie within none before them, where each other one lies within one of these, and each of these precedes the
/// next. None where it is otherwise, which no walk of a tree leaves.
#[tactic(auto, using(crate::proofs::PagesLemmas::stand_next, crate::proofs::PagesLemmas::stand_all))]
pub(crate) fn outer_of(alloc: Global, all: &[Broken]) -> Result<Option<Vec<Broken>>, AllocError>
    ensures apart { IfOk result (λ o. IfSome o (λ v. are_apart v.items ≡ true)) }
    ensures stand { IfOk result (λ o. IfSome o (λ v. StandFor v.items all.now)) }
{
    let mut outer = Vec::new(alloc);
    for page in all {
        if !add(&mut outer, *page)? {
            return Ok(None);
        }
    }
    Ok(Some(outer))
}

// Whether a key lies behind a page.
fn lies_behind(key: u64, page: Broken) -> bool
    ensures { result ≡ behind key page }
{
    match page.high {
        Some(high) => key >= page.from && key < high,
        None => key >= page.from,
    }
}

// How many of the first begin at or before a key.
fn count_up_to(outer: &[Broken], key: u64) -> usize
    requires { are_apart outer.now ≡ true }
    ensures within { result ≤ length outer.now }
    ensures up_to { BeginUpTo outer.now key result }
{
    outer.partition_point(|page| page.from <= key)
}

/// The page behind which a key lies, among some that stand apart: by halving.
#[tactic(auto, using(crate::proofs::PagesLemmas::found_none, crate::proofs::PagesLemmas::found_here, crate::proofs::PagesLemmas::found_past))]
pub(crate) fn find_among(outer: &[Broken], key: u64) -> Option<Broken>
    requires { are_apart outer.now ≡ true }
    ensures { result ≡ page_before outer.now key }
{
    let count = count_up_to(outer, key);
    if count == 0 {
        return None;
    }
    let page = outer[count - 1];
    if lies_behind(key, page) {
        Some(page)
    } else {
        None
    }
}
