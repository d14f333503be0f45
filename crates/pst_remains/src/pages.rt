//! Pages of a damaged tree, one by one.

ghost use Rattle.std.specs.Prelude.{◌≡◌, ◌+◌, ◌≤◌, length, is_some, is_none, true, IfOk, OnOk, IfSome, None, Option};
ghost use Rattle.pst_bytes.specs.Image.{bytes_of};
ghost use Rattle.pst_fault.specs.First.{Checks, answer, ◌then◌};
ghost use Rattle.pst_header.specs.Head.{IsMapped};
ghost use Rattle.pst_header.specs.Header.{end_of};
ghost use Rattle.pst_space.specs.Claimed.{IsUnits, is_clear, first_unit, unit_count, unit_total};
ghost use Rattle.pst_page.specs.Fault.{level_fault};
ghost use Rattle.pst_page.specs.Page.{entries_at};
ghost use Rattle.pst_btree.specs.Order.{order_fault};
ghost use Rattle.pst_btree.specs.Tree.{span_of};
ghost use Rattle.pst_btree.specs.Walk.{body_fault};
ghost use Rattle.pst_remains.specs.Pages.{claim_fault, page_damage, has_types as types, is_node_leaf as node_leaf, inner_fault, leads_on, is_open, with_page, left_so_far};

use crate::judged::{check_free, claim_free};
use pst_btree::check_order;
use pst_bytes::{Image, Span};
use pst_fault::{Fault, Kind};
use pst_header::{Bref, Header};
use pst_page::{Page, PageKind, check_shape, known_page, open_page, page_place};
use pst_space::Claims;
use std::alloc::AllocError;

/// A page with a fault, and which keys are sought by way of it.
#[derive(Clone, Copy, Debug, PartialEq, Eq)]
pub struct Broken {
    /// The fault of the page.
    pub fault: Fault,
    /// The least key that is sought by way of it.
    pub from: u64,
    /// What these keys are below, where there is such a bound.
    pub high: Option<u64>,
}

/// What was seen so far of a tree.
#[derive(Drop)]
pub struct Seen {
    /// The pages with a fault.
    pub broken: Vec<Broken>,
    /// The places of the leaves that are left.
    pub leaves: Vec<u64>,
}

/// What a page is: its first fault, where it has one, and the page, where what it names is looked at.
#[derive(Clone, Copy)]
pub struct Judged<'a> {
    /// The first fault.
    pub fault: Option<Fault>,
    /// The page, where it has no fault or is followed.
    pub page: Option<Page<'a>>,
}

// The span of a page, where nothing lies there; or PagePlace or Overlap.
#[tactic(auto, unfolding(crate::specs::Pages::claim_fault))]
fn free_place(header: &Header, bref: Bref, claims: &Claims) -> Result<Span, Fault>
    requires units { length claims.now ≡ unit_total header.now }
    ensures exact { result ≡ answer (claim_fault (end_of header.now) claims.now bref)
        (span_of bref) }
    ensures units { OnOk result (IsUnits claims.now (span_of bref)) }
    ensures inside { OnOk result (bref.ib + 512 ≤ end_of header.now) }
{
    let span = page_place(header, bref)?;
    check_free(claims, span, bref.bid)?;
    Ok(span)
}

// The level of a page, and the order of its keys.
#[tactic(auto, unfolding(pst_page::specs::Fault::level_fault))]
fn check_keys(page: &Page, level: u8, low: u64, high: Option<u64>) -> Result<(), Fault>
    ensures { result ≡ answer (level_fault (bytes_of page.now.image) level page.now.bref
        then order_fault page.now.kind (bytes_of page.now.image) page.now.bref.bid low high
        (entries_at (bytes_of page.now.image) page.now.bref.ib)) tt }
{
    if page.level() != level {
        return Err(Fault::within(Kind::PageShape, page.bref.ib, page.bref.bid));
    }
    check_order(page, low, high)
}

// A page in its place: its trailer and its shape, its level, and the order of its keys.
#[tactic(auto, unfolding(pst_btree::specs::Walk::body_fault))]
fn checked_page<'a>(
    image: Image<'a>,
    kind: PageKind,
    level: u8,
    bref: Bref,
    low: u64,
    high: Option<u64>,
) -> Result<Page<'a>, Fault>
    requires inside { bref.ib + 512 ≤ length (bytes_of image) }
    ensures exact { Checks result (body_fault kind (bytes_of image.entry) level bref low high) }
    ensures image { IfOk result (λ p. p.image ≡ image.entry) }
    ensures kind { IfOk result (λ p. p.kind ≡ kind) }
    ensures bref { IfOk result (λ p. p.bref ≡ bref) }
{
    let page = open_page(image, bref, kind)?;
    check_keys(&page, level, low, high)?;
    Ok(page)
}

// The same, whatever its trailer says.
#[tactic(auto, unfolding(crate::specs::Pages::inner_fault))]
fn shaped_page<'a>(
    image: Image<'a>,
    kind: PageKind,
    level: u8,
    bref: Bref,
    low: u64,
    high: Option<u64>,
) -> Result<Page<'a>, Fault>
    requires inside { bref.ib + 512 ≤ length (bytes_of image) }
    ensures exact { Checks result (inner_fault kind (bytes_of image.entry) level bref low high) }
    ensures image { IfOk result (λ p. p.image ≡ image.entry) }
    ensures kind { IfOk result (λ p. p.kind ≡ kind) }
    ensures bref { IfOk result (λ p. p.bref ≡ bref) }
{
    check_shape(image, bref, kind)?;
    let page = known_page(image, bref, kind);
    check_keys(&page, level, low, high)?;
    Ok(page)
}

fn has_types(image: Image, kind: PageKind, bref: Bref) -> bool
    requires { bref.ib + 512 ≤ length (bytes_of image) }
    ensures { result ≡ types kind (bytes_of image.entry) bref }
{
    let page_type = kind.page_type();
    image.number8(bref.ib + 496) == page_type && image.number8(bref.ib + 497) == page_type
}

fn is_node_leaf(kind: PageKind, level: u8) -> bool
    ensures { result ≡ node_leaf kind level }
{
    match kind {
        PageKind::Nbt => level == 0,
        PageKind::Bbt => false,
    }
}

// The page, where it leads on though its trailer is wrong.
#[tactic(auto, unfolding(crate::specs::Pages::leads_on))]
fn page_led_on<'a>(
    image: Image<'a>,
    kind: PageKind,
    level: u8,
    bref: Bref,
    low: u64,
    high: Option<u64>,
) -> Option<Page<'a>>
    requires inside { bref.ib + 512 ≤ length (bytes_of image) }
    ensures leads { is_some result ≡ leads_on kind (bytes_of image.entry) level bref low high }
    ensures image { IfSome result (λ p. p.image ≡ image.entry) }
    ensures kind { IfSome result (λ p. p.kind ≡ kind) }
    ensures bref { IfSome result (λ p. p.bref ≡ bref) }
{
    if !has_types(image, kind, bref) || is_node_leaf(kind, level) {
        return None;
    }
    match shaped_page(image, kind, level, bref, low, high) {
        Ok(page) => Some(page),
        Err(_) => None,
    }
}

/// What a page is under its bounds, beside what is claimed.
#[tactic(auto, using(pst_header::proofs::Head::mapped_end, crate::proofs::JudgedLemmas::lost_damage, crate::proofs::JudgedLemmas::lost_shut, crate::proofs::JudgedLemmas::good_damage, crate::proofs::JudgedLemmas::good_open, crate::proofs::JudgedLemmas::bad_damage, crate::proofs::JudgedLemmas::bad_open, crate::proofs::JudgedLemmas::place_clear))]
pub fn judge_page<'a>(
    image: Image<'a>,
    header: &Header,
    kind: PageKind,
    level: u8,
    bref: Bref,
    low: u64,
    high: Option<u64>,
    claims: &Claims,
) -> Judged<'a>
    requires mapped { IsMapped (bytes_of image) header.now }
    requires units { length claims.now ≡ unit_total header.now }
    ensures fault { result.fault ≡ page_damage kind (bytes_of image.entry) (end_of header.now) level
        claims.now bref low high }
    ensures open { is_some result.page ≡ is_open kind (bytes_of image.entry) (end_of header.now)
        level claims.now bref low high }
    ensures units { is_none result.fault ≡ true → IsUnits claims.now (span_of bref) }
    ensures free { is_none result.fault ≡ true → is_clear claims.now
        (first_unit (span_of bref)) (unit_count (span_of bref)) ≡ true }
    ensures image { IfSome result.page (λ p. p.image ≡ image.entry) }
    ensures kind { IfSome result.page (λ p. p.kind ≡ kind) }
    ensures bref { IfSome result.page (λ p. p.bref ≡ bref) }
{
    if let Err(fault) = free_place(header, bref, claims) {
        return Judged {
            fault: Some(fault),
            page: None,
        };
    }
    match checked_page(image, kind, level, bref, low, high) {
        Ok(page) => Judged {
            fault: None,
            page: Some(page),
        },
        Err(fault) => Judged {
            fault: Some(fault),
            page: page_led_on(image, kind, level, bref, low, high),
        },
    }
}

/// A page alone: it is told where it has a fault, else its space is claimed. The page is given where what it names is looked
/// at. AllocError where memory is refused.
#[tactic(auto, unfolding(crate::specs::Pages::with_page))]
pub fn enter_page<'a>(
    image: Image<'a>,
    header: &Header,
    kind: PageKind,
    level: u8,
    bref: Bref,
    from: u64,
    low: u64,
    high: Option<u64>,
    claims: &mut Claims,
    seen: &mut Seen,
) -> Result<Option<Page<'a>>, AllocError>
    requires mapped { IsMapped (bytes_of image) header.now }
    requires units { length claims.old ≡ unit_total header.now }
    ensures same { length claims.new ≡ length claims.old }
    ensures left { OnOk result (with_page kind (bytes_of image.entry) (end_of header.now) level
        (left_so_far claims.old seen.old.broken.items seen.old.leaves.items) bref from low high
        ≡ left_so_far claims.new seen.new.broken.items seen.new.leaves.items) }
    ensures open { IfOk result (λ o. is_some o ≡ is_open kind (bytes_of image.entry)
        (end_of header.now) level claims.old bref low high) }
    ensures image { IfOk result (λ o. IfSome o (λ p. p.image ≡ image.entry)) }
    ensures kind { IfOk result (λ o. IfSome o (λ p. p.kind ≡ kind)) }
    ensures bref { IfOk result (λ o. IfSome o (λ p. p.bref ≡ bref)) }
{
    let judged = judge_page(image, header, kind, level, bref, low, high, claims);
    match judged.fault {
        None => {
            claim_free(
                claims,
                Span {
                    at: bref.ib,
                    len: 512,
                },
            );
            Ok(judged.page)
        }
        Some(fault) => {
            seen.broken.push(Broken { fault, from, high })?;
            Ok(judged.page)
        }
    }
}
