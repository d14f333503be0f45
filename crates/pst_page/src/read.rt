//! Reading a page, with the first fault of a bad one.

ghost use Rattle.std.specs.Prelude.{◌≡◌, ◌+◌, ◌*◌, ◌%◌, ◌^◌, ◌<◌, ◌≤◌, length, IfOk, OnOk, IsOk, true};
ghost use Rattle.pst_bytes.specs.Image.{bytes_of};
ghost use Rattle.pst_fault.specs.First.{answer};
ghost use Rattle.pst_header.specs.Head.{Head};
ghost use Rattle.pst_header.specs.Header.{end_of};
ghost use Rattle.pst_header.specs.declared.header.TheConstants.{FIRST_AMAP, UNIT};
ghost use Rattle.pst_fault.specs.First.{Checks};
ghost use Rattle.pst_page.specs.Page.{page_span};
ghost use Rattle.pst_page.specs.Fault.{has_shape, page_place_fault, page_trailer_fault, page_shape_fault, open_fault, page_fault};
ghost use Rattle.pst_page.specs.Good.{GoodPage, HasShape};

use crate::kind::PageKind;
use crate::page::Page;
use crate::trailer::has_trailer;
use pst_bytes::{Image, Span};
use pst_fault::{Fault, Kind};
use pst_header::{Bref, Header};

// How many bytes a page has.
const PAGE: u64 = 512;

/// The span of the page that a reference names, or PagePlace at the page: it lies in the mapped part of the file, which
/// begins at `FIRST_AMAP` and ends at `header.end()`, on a multiple of `UNIT` ([MS-PST] 2.2.2.7). The page is not read.
#[tactic(auto, unfolding(crate::specs::Fault::page_place_fault, pst_header::specs::Place::is_place))]
pub fn page_place(header: &Header, bref: Bref) -> Result<Span, Fault>
    // Where it lies, or which fault it is.
    ensures exact { result ≡ answer (page_place_fault (end_of header.now) bref)
        (page_span bref.ib) }

    // Whole units of 64 bytes of the mapped part.
    ensures whole_units { OnOk result (bref.ib % UNIT ≡ 0) }
    ensures mapped { OnOk result (FIRST_AMAP ≤ bref.ib) }
    ensures inside { OnOk result (bref.ib + 512 ≤ end_of header.now) }
{
    let span = Span {
        at: bref.ib,
        len: PAGE,
    };
    if header.has_place(span) {
        Ok(span)
    } else {
        Err(Fault::within(Kind::PagePlace, bref.ib, bref.bid))
    }
}

// The trailer ([MS-PST] 2.2.2.7.1), and the count of decoded pages with this one. This is the one place where a page of a
// tree is decoded with its check value.
#[tactic(auto, unfolding(crate::specs::Fault::has_page_trailer))]
fn check_trailer(image: Image, bref: Bref, kind: PageKind, pages: &mut u64) -> Result<(), Fault>
    requires inside { bref.ib + 512 ≤ length (bytes_of image) }
    requires room { pages.old + 1 < 2 ^ 64 }
    ensures exact { result ≡ answer (page_trailer_fault kind (bytes_of image.entry) bref) tt }
    ensures counted { pages.new ≡ pages.old + 1 }
{
    *pages += 1;
    let ib = bref.ib;
    let page_type = kind.page_type();
    if image.number8(ib + 496) == page_type
        && image.number8(ib + 497) == page_type
        && has_trailer(image, ib, pst_crc::signature(ib, bref.bid), bref.bid)
    {
        Ok(())
    } else {
        Err(Fault::within(Kind::PageTrailer, ib, bref.bid))
    }
}

/// The shape of the page that a reference names, whose place is known to lie in the file ([MS-PST] 2.2.2.7.7.1): PageShape,
/// where its entries are too small or do not fit, its level is over 15, or it is a branch with no entry. Its trailer is not
/// looked at.
#[tactic(auto, unfolding(crate::specs::Fault::has_shape, crate::specs::Page::count_at, crate::specs::Page::width_at, crate::specs::Page::level_at))]
pub fn check_shape(image: Image, bref: Bref, kind: PageKind) -> Result<(), Fault>
    requires { bref.ib + 512 ≤ length (bytes_of image) }
    ensures { result ≡ answer (page_shape_fault kind (bytes_of image.entry) bref) tt }
{
    let count = image.number8(bref.ib + 488);
    let width = image.number8(bref.ib + 490);
    let level = image.number8(bref.ib + 491);
    if width >= kind.entry_size(level)
        && u16::from(count) * u16::from(width) <= 488
        && level <= 15
        && (level == 0 || count > 0)
    {
        Ok(())
    } else {
        Err(Fault::within(Kind::PageShape, bref.ib, bref.bid))
    }
}

/// The page of a kind that a reference names, or its first fault, as `open_page` says; and the count of decoded pages with
/// this one, whatever the answer.
#[tactic(auto, unfolding(crate::specs::Fault::open_fault))]
pub fn decode_page<'a>(
    image: Image<'a>,
    bref: Bref,
    kind: PageKind,
    pages: &mut u64,
) -> Result<Page<'a>, Fault>
    requires inside { bref.ib + 512 ≤ length (bytes_of image) }
    requires room { pages.old + 1 < 2 ^ 64 }

    // Whether there is a page, or which fault it is.
    ensures exact { Checks result (open_fault kind (bytes_of image.entry) bref) }

    // One page was decoded.
    ensures counted { pages.new ≡ pages.old + 1 }

    // Which page it is.
    ensures image { IfOk result (λ p. p.image ≡ image.entry) }
    ensures bref { IfOk result (λ p. p.bref ≡ bref) }
    ensures kind { IfOk result (λ p. p.kind ≡ kind) }
{
    check_trailer(image, bref, kind, pages)?;
    check_shape(image, bref, kind)?;
    Ok(known_page(image, bref, kind))
}

/// The page of a kind that a reference names, where its place is known to lie in the file; or its first fault, at the
/// page: PageTrailer, where a type, the identifier, the signature or the check value of its trailer is wrong
/// ([MS-PST] 2.2.2.7.1); PageShape, where its entries are too small or do not fit, its level is over 15, or it is a
/// branch with no entry (2.2.2.7.7.1).
pub fn open_page<'a>(image: Image<'a>, bref: Bref, kind: PageKind) -> Result<Page<'a>, Fault>
    requires { bref.ib + 512 ≤ length (bytes_of image) }

    // Whether there is a page, or which fault it is.
    ensures exact { Checks result (open_fault kind (bytes_of image.entry) bref) }

    // Which page it is.
    ensures image { IfOk result (λ p. p.image ≡ image.entry) }
    ensures bref { IfOk result (λ p. p.bref ≡ bref) }
    ensures kind { IfOk result (λ p. p.kind ≡ kind) }
{
    let mut pages = 0;
    decode_page(image, bref, kind, &mut pages)
}

/// The page of a kind that a reference names, where it is known that it lies in the file and has its shape. Nothing is
/// checked.
#[tactic(auto, using(crate::proofs::PageLemmas::shape_wide, crate::proofs::PageLemmas::shape_room, crate::proofs::PageLemmas::shape_low))]
pub fn known_page<'a>(image: Image<'a>, bref: Bref, kind: PageKind) -> Page<'a>
    requires inside { bref.ib + 512 ≤ length (bytes_of image) }
    requires shape { has_shape kind (bytes_of image) bref.ib ≡ true }
    ensures image { result.image ≡ image.entry }
    ensures bref { result.bref ≡ bref }
    ensures kind { result.kind ≡ kind }
{
    Page { image, kind, bref }
}

// The page, or its first fault.
#[tactic(auto, unfolding(crate::specs::Fault::page_fault), using(pst_header::proofs::Head::head_end))]
fn checked<'a>(
    image: Image<'a>,
    header: &Header,
    bref: Bref,
    kind: PageKind,
) -> Result<Page<'a>, Fault>
    requires { Head (bytes_of image) header.now }
    ensures exact { Checks result (page_fault (end_of header.now) kind
        (bytes_of image.entry) bref) }
    ensures image { IfOk result (λ p. p.image ≡ image.entry) }
    ensures bref { IfOk result (λ p. p.bref ≡ bref) }
    ensures kind { IfOk result (λ p. p.kind ≡ kind) }
{
    page_place(header, bref)?;
    open_page(image, bref, kind)
}

/// The page of a kind that a reference names, or its first fault, at the page, with the identifier of the reference:
/// PagePlace, PageTrailer or PageShape, in this order, as `page_place` and `open_page` say.
pub fn read_page<'a>(
    image: Image<'a>,
    header: &Header,
    bref: Bref,
    kind: PageKind,
) -> Result<Page<'a>, Fault>
    requires { Head (bytes_of image) header.now }

    // What is read is a good page with its shape.
    ensures found { OnOk result (GoodPage (bytes_of image.entry) (end_of header.now) kind bref) }
    ensures shape { OnOk result (HasShape (bytes_of image.entry) kind bref.ib) }

    // A good page with its shape is read.
    ensures only { GoodPage (bytes_of image.entry) (end_of header.now) kind bref →
        HasShape (bytes_of image.entry) kind bref.ib → IsOk result }

    // Which fault it is, and where.
    ensures exact { Checks result (page_fault (end_of header.now) kind
        (bytes_of image.entry) bref) }

    // Which page it is.
    ensures image { IfOk result (λ p. p.image ≡ image.entry) }
    ensures bref { IfOk result (λ p. p.bref ≡ bref) }
    ensures kind { IfOk result (λ p. p.kind ≡ kind) }
{
    checked(image, header, bref, kind)
}
