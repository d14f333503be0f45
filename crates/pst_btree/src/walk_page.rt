//! The walk of a tree: each page before its children, and children from left to right.

ghost use Rattle.std.specs.Prelude.{◌≡◌, ◌+◌, ◌*◌, ◌^◌, ◌<◌, ◌≤◌, ◌++◌, length, OnOk, OnErr, IfOk, IfErr, Option, Some, ◌⊎◌};
ghost use Rattle.pst_bytes.specs.Image.{bytes_of};
ghost use Rattle.pst_fault.specs.Fault.{no_memory};
ghost use Rattle.pst_fault.specs.First.{Checks};
ghost use Rattle.pst_header.specs.Head.{Head};
ghost use Rattle.pst_header.specs.Header.{end_of};
ghost use Rattle.pst_page.specs.Page.{entries_at};
ghost use Rattle.pst_space.specs.Claimed.{claim_of, IsUnits, unit_total};
ghost use Rattle.pst_space.specs.Step.{GivesStep, ClaimsSome, claim_step};
ghost use Rattle.pst_space.specs.Marked.{marked};
ghost use Rattle.pst_btree.specs.Tree.{span_of, page_spans_at};
ghost use Rattle.pst_btree.specs.Walk.{body_fault, opened, walk_of, found_so_far};

use crate::order::{bound_of, check_order};
use pst_bytes::{Image, Span};
use pst_fault::{Fault, Kind};
use pst_header::{Bref, Header};
use pst_page::{Page, PageKind, decode_page, page_place};
use pst_space::Claims;

/// What a walk has found so far.
#[derive(Drop)]
pub struct Tally {
    /// The places of the leaves' entries, from left to right.
    pub places: Vec<u64>,
    /// How many pages there were.
    pub pages: u64,
}

// Claims a page, and names it where it overlaps.
#[tactic(auto, using(crate::proofs::MarkedLemmas::marked_page))]
fn claim_page(claims: &mut Claims, span: Span, bref: Bref) -> Result<(), Fault>
    requires place { span ≡ span_of bref }
    requires units { IsUnits claims.old (span_of bref) }
    ensures same { length claims.new ≡ length claims.old }
    ensures gives { GivesStep result claims.new claims.new
        (claim_step (span_of bref) bref.bid claims.old) }
    ensures held { (claims.new ≡ claims.old)
        ⊎ (claim_of claims.old (span_of bref) ≡ Some claims.new) }
    ensures claimed { OnOk result (claim_of claims.old (span_of bref) ≡ Some claims.new) }
    ensures marked { OnOk result (marked claims.new ≡ marked claims.old + 8) }
    ensures kept { OnErr result (claims.new ≡ claims.old) }
{
    match claims.claim(span) {
        Ok(()) => Ok(()),
        Err(_) => Err(Fault::within(Kind::Overlap, bref.ib, bref.bid)),
    }
}

// A page in its place: its trailer and its shape, its level, and the order of its keys. It is decoded, and counted.
#[tactic(auto, unfolding(crate::specs::Walk::body_fault, pst_page::specs::Fault::level_fault))]
fn checked_page<'a>(
    image: Image<'a>,
    kind: PageKind,
    level: u8,
    bref: Bref,
    low: u64,
    high: Option<u64>,
    pages: &mut u64,
) -> Result<Page<'a>, Fault>
    requires inside { bref.ib + 512 ≤ length (bytes_of image) }
    requires room { pages.old + 1 < 2 ^ 64 }
    ensures exact { Checks result (body_fault kind (bytes_of image.entry) level bref low high) }
    ensures counted { pages.new ≡ pages.old + 1 }
    ensures image { IfOk result (λ p. p.image ≡ image.entry) }
    ensures kind { IfOk result (λ p. p.kind ≡ kind) }
    ensures bref { IfOk result (λ p. p.bref ≡ bref) }
{
    let page = decode_page(image, bref, kind, pages)?;
    if page.level() != level {
        return Err(Fault::within(Kind::PageShape, bref.ib, bref.bid));
    }
    check_order(&page, low, high)?;
    Ok(page)
}

// One page: its place, its claim, and then the rest. Whatever the answer, it is decoded exactly where it is claimed.
#[tactic(auto, unfolding(crate::specs::Walk::opened), using(pst_header::proofs::Head::head_end))]
fn open_in<'a>(
    image: Image<'a>,
    header: &Header,
    kind: PageKind,
    level: u8,
    bref: Bref,
    low: u64,
    high: Option<u64>,
    claims: &mut Claims,
    pages: &mut u64,
) -> Result<Page<'a>, Fault>
    requires head { Head (bytes_of image) header.now }
    requires units { length claims.old ≡ unit_total header.now }
    requires room { pages.old + 1 < 2 ^ 64 }
    ensures same { length claims.new ≡ length claims.old }
    ensures gives { GivesStep result claims.new claims.new
        (opened kind (bytes_of image.entry) (end_of header.now) level claims.old bref low high) }
    ensures held { (claims.new ≡ claims.old)
        ⊎ (claim_of claims.old (span_of bref) ≡ Some claims.new) }
    ensures claimed { OnOk result (claim_of claims.old (span_of bref) ≡ Some claims.new) }
    ensures marked { OnOk result (marked claims.new ≡ marked claims.old + 8) }
    ensures counted { OnOk result (pages.new ≡ pages.old + 1) }
    ensures decoded { marked claims.new + 8 * pages.old ≡ marked claims.old + 8 * pages.new }
    ensures image { IfOk result (λ p. p.image ≡ image.entry) }
    ensures kind { IfOk result (λ p. p.kind ≡ kind) }
    ensures bref { IfOk result (λ p. p.bref ≡ bref) }
{
    let span = page_place(header, bref)?;
    claim_page(claims, span, bref)?;
    checked_page(image, kind, level, bref, low, high, pages)
}

// Notes the places of the entries of a leaf.
#[tactic(auto, using(pst_page::proofs::EntryLemmas::entries_from_start, pst_page::proofs::EntryLemmas::entries_from_next, pst_page::proofs::EntryLemmas::entries_from_end, crate::proofs::WalkLemmas::appended, crate::proofs::WalkLemmas::append_none))]
fn push_entries(page: &Page, places: &mut Vec<u64>) -> Result<(), Fault>
    ensures ok { OnOk result (places.new.items ≡
        places.old.items ++ entries_at (bytes_of page.now.image) page.now.bref.ib) }
    ensures err { IfErr result (λ f. f ≡ no_memory) }
{
    for i in 0..page.count() {
        places.push(page.place(i))?;
    }
    Ok(())
}

/// A page and all below it, claimed and noted; or the first fault there. Keys are at least `low` and, where there is a
/// `high`, below it. Whatever the answer, as many pages were decoded as were claimed: a page takes eight units.
#[tactic(auto, using(pst_page::proofs::EntryLemmas::entries_from_start, pst_page::proofs::EntryLemmas::entries_from_next, pst_page::proofs::EntryLemmas::entries_from_end, crate::proofs::WalkLemmas::children_go_on, crate::proofs::WalkLemmas::children_fail, crate::proofs::WalkLemmas::children_done, crate::proofs::WalkLemmas::walk_fail, crate::proofs::WalkLemmas::walk_leaf, crate::proofs::WalkLemmas::walk_branch, crate::proofs::SomeLemmas::left_page, pst_space::proofs::MarkedLemmas::marked_most))]
pub fn walk_page(
    image: Image<'_>,
    header: &Header,
    kind: PageKind,
    level: u8,
    bref: Bref,
    low: u64,
    high: Option<u64>,
    claims: &mut Claims,
    tally: &mut Tally,
) -> Result<(), Fault>
    requires head { Head (bytes_of image) header.now }
    requires units { length claims.old ≡ unit_total header.now }
    requires few { unit_total header.now < 2 ^ 58 }
    requires counted { 8 * tally.old.pages ≤ marked claims.old }
    ensures same { length claims.new ≡ length claims.old }
    ensures counted { OnOk result (8 * tally.new.pages ≤ marked claims.new) }
    ensures decoded { marked claims.new + 8 * tally.old.pages ≡
        marked claims.old + 8 * tally.new.pages }
    ensures some { ClaimsSome claims.old claims.new
        (page_spans_at kind (bytes_of image.entry) level bref) }
    ensures gives { GivesStep result (found_so_far claims.new tally.new.places.items
        tally.new.pages) claims.new (walk_of kind (bytes_of image.entry) (end_of header.now) level
        (found_so_far claims.old tally.old.places.items tally.old.pages) bref low high) }
{
    let pages = &mut tally.pages;
    let page = open_in(image, header, kind, level, bref, low, high, claims, pages)?;
    if level == 0 {
        return push_entries(&page, &mut tally.places);
    }
    for i in 0..page.count() {
        let (child, first) = (page.child(i), page.key(i));
        let bound = bound_of(&page, i, high);
        let below = level - 1;
        walk_page(
            image, header, kind, below, child, first, bound, claims, tally,
        )?;
    }
    Ok(())
}
