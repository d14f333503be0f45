//! The blocks of a damaged file: those with a fault are told, the others are kept.

ghost use Rattle.std.specs.Prelude.{◌≡◌, ◌+◌, ◌≤◌, length, map, true, IfOk, OnOk};
ghost use Rattle.pst_bytes.specs.Image.{bytes_of};
ghost use Rattle.pst_fault.specs.First.{answer};
ghost use Rattle.pst_header.specs.Head.{IsMapped};
ghost use Rattle.pst_header.specs.Header.{end_of};
ghost use Rattle.pst_page.specs.declared.kind.PageKind.TheVariants.{Bbt};
ghost use Rattle.pst_page.specs.Entry.{block_entry_at};
ghost use Rattle.pst_page.specs.Page.{entries_at};
ghost use Rattle.pst_space.specs.Claimed.{IsUnits, is_clear, first_unit, unit_count, unit_total};
ghost use Rattle.pst_block.specs.Block.{block_span, block_size as size_of};
ghost use Rattle.pst_block.specs.Fault.{block_trailer_fault};
ghost use Rattle.pst_remains.specs.Blocks.{block_damage as damage, is_named_by_trailer as is_named_by, blocks_left, blocks_so_far, with_block, with_blocks};
ghost use Rattle.pst_remains.specs.Leaf.{AreLeaves, IsLeaf};
ghost use Rattle.pst_remains.specs.Pages.{leaf_entries};

use crate::judged::{check_free, claim_free};
use pst_block::{block_place, block_size, check_trailer};
use pst_bytes::{Image, Span};
use pst_fault::{Fault, Kind};
use pst_header::{Bref, Header};
use pst_page::{BlockEntry, Page, PageKind, known_page};
use pst_space::Claims;
use std::alloc::{AllocError, Global};

/// What was found of blocks.
#[derive(Drop)]
pub struct Sorted {
    /// The faults of those that have one.
    pub faults: Vec<Fault>,
    /// The entries of the others.
    pub good: Vec<BlockEntry>,
}

// Whether the trailer of a block names it: its length and its identifier are right. At most one entry is named by each.
#[tactic(auto, using(pst_block::proofs::BlockLemmas::size_large))]
fn is_named(image: Image, entry: BlockEntry) -> bool
    requires { entry.ib + size_of entry.cb ≤ length (bytes_of image) }
    ensures { result ≡ is_named_by (bytes_of image.entry) entry }
{
    let at = entry.ib + block_size(entry.cb) - 16;
    image.number16(at) == entry.cb
        && PageKind::Bbt.key_of(image.number64(at + 8)) == PageKind::Bbt.key_of(entry.bid)
}

// The trailer of a block in its place, or BlockTrailer. The block is summed only where its trailer names it.
#[tactic(auto, using(crate::proofs::BlockLemmas::not_named))]
fn check_sum(image: Image, entry: BlockEntry) -> Result<(), Fault>
    requires { entry.ib + size_of entry.cb ≤ length (bytes_of image) }
    ensures { result ≡ answer (block_trailer_fault (bytes_of image.entry) entry) tt }
{
    if !is_named(image, entry) {
        return Err(Fault::within(Kind::BlockTrailer, entry.ib, entry.bid));
    }
    let mut sums = 0;
    check_trailer(image, entry, &mut sums)
}

// The span of a block without fault, or its first fault. Nothing is claimed.
#[tactic(auto, unfolding(crate::specs::Blocks::block_damage), using(pst_header::proofs::Head::mapped_end, pst_block::proofs::BlockLemmas::size_large, pst_block::proofs::BlockLemmas::size_whole, crate::proofs::JudgedLemmas::span_clear))]
fn judge_block(
    image: Image,
    header: &Header,
    entry: BlockEntry,
    claims: &Claims,
) -> Result<Span, Fault>
    requires mapped { IsMapped (bytes_of image) header.now }
    requires units { length claims.now ≡ unit_total header.now }
    ensures exact { result ≡ answer (damage (end_of header.now) (bytes_of image.entry) claims.now
        entry) (block_span entry) }
    ensures units { OnOk result (IsUnits claims.now (block_span entry)) }
{
    let span = block_place(header, entry)?;
    check_free(claims, span, entry.bid)?;
    check_sum(image, entry)?;
    Ok(span)
}

// One block: it is told where it has a fault, else its space is claimed and its entry is kept.
#[tactic(auto, unfolding(crate::specs::Blocks::with_block), using(crate::proofs::BlockLemmas::good_clear, crate::proofs::BlockLemmas::judged_clear))]
fn enter_block(
    image: Image,
    header: &Header,
    entry: BlockEntry,
    claims: &mut Claims,
    sorted: &mut Sorted,
) -> Result<(), AllocError>
    requires mapped { IsMapped (bytes_of image) header.now }
    requires units { length claims.old ≡ unit_total header.now }
    ensures same { length claims.new ≡ length claims.old }
    ensures left { OnOk result (with_block (end_of header.now) (bytes_of image.entry)
        (blocks_so_far claims.old sorted.old.faults.items sorted.old.good.items) entry
        ≡ blocks_so_far claims.new sorted.new.faults.items sorted.new.good.items) }
{
    match judge_block(image, header, entry, claims) {
        Ok(span) => {
            claim_free(claims, span);
            sorted.good.push(entry)?;
        }
        Err(fault) => sorted.faults.push(fault)?,
    }
    Ok(())
}

// The blocks that a leaf names.
#[tactic(auto, using(pst_page::proofs::EntryLemmas::entries_from_start, pst_page::proofs::EntryLemmas::entries_from_next, pst_page::proofs::EntryLemmas::entries_from_end, crate::proofs::BlockLemmas::leaf_next, crate::proofs::BlockLemmas::blocks_done))]
fn enter_page(
    image: Image,
    header: &Header,
    page: &Page,
    claims: &mut Claims,
    sorted: &mut Sorted,
) -> Result<(), AllocError>
    requires mapped { IsMapped (bytes_of image) header.now }
    requires units { length claims.old ≡ unit_total header.now }
    requires image { page.now.image ≡ image }
    requires kind { page.now.kind ≡ Bbt }
    requires leaf { IsLeaf Bbt (bytes_of image) page.now.bref.ib }
    ensures same { length claims.new ≡ length claims.old }
    ensures left { OnOk result (with_blocks (end_of header.now) (bytes_of image.entry)
        (blocks_so_far claims.old sorted.old.faults.items sorted.old.good.items)
        (map (block_entry_at (bytes_of image.entry))
        (entries_at (bytes_of image.entry) page.now.bref.ib))
        ≡ blocks_so_far claims.new sorted.new.faults.items sorted.new.good.items) }
{
    for i in 0..page.count() {
        enter_block(image, header, page.block_entry(i), claims, sorted)?;
    }
    Ok(())
}

// The blocks that the leaf at a place names.
fn enter_leaf(
    image: Image,
    header: &Header,
    ib: u64,
    claims: &mut Claims,
    sorted: &mut Sorted,
) -> Result<(), AllocError>
    requires mapped { IsMapped (bytes_of image) header.now }
    requires units { length claims.old ≡ unit_total header.now }
    requires leaf { IsLeaf Bbt (bytes_of image) ib }
    ensures same { length claims.new ≡ length claims.old }
    ensures left { OnOk result (with_blocks (end_of header.now) (bytes_of image.entry)
        (blocks_so_far claims.old sorted.old.faults.items sorted.old.good.items)
        (map (block_entry_at (bytes_of image.entry)) (entries_at (bytes_of image.entry) ib))
        ≡ blocks_so_far claims.new sorted.new.faults.items sorted.new.good.items) }
{
    let page = known_page(image, Bref { bid: 0, ib }, PageKind::Bbt);
    enter_page(image, header, &page, claims, sorted)
}

/// The blocks that the leaves at some places name, in order: those without a fault are claimed, beside what is claimed before.
/// AllocError where memory is refused.
#[tactic(auto, using(crate::proofs::BlockLemmas::leaves_next, crate::proofs::BlockLemmas::leaves_done))]
pub fn sort_blocks(
    alloc: Global,
    image: Image,
    header: &Header,
    leaves: &[u64],
    claims: &mut Claims,
) -> Result<Sorted, AllocError>
    requires mapped { IsMapped (bytes_of image) header.now }
    requires units { length claims.old ≡ unit_total header.now }
    requires leaves { AreLeaves Bbt (bytes_of image) leaves.now }
    ensures same { length claims.new ≡ length claims.old }
    ensures left { IfOk result (λ s.
        blocks_left (end_of header.now) (bytes_of image.entry) claims.old
        (map (block_entry_at (bytes_of image.entry)) (leaf_entries (bytes_of image.entry) leaves.now))
        ≡ blocks_so_far claims.new s.faults.items s.good.items) }
{
    let mut sorted = Sorted {
        faults: Vec::new(alloc),
        good: Vec::new(alloc),
    };
    for ib in leaves {
        enter_leaf(image, header, *ib, claims, &mut sorted)?;
    }
    Ok(sorted)
}
