//! Look-ups in a data tree that has no fault.

ghost use Rattle.std.specs.Prelude.{◌≡◌, ℕ, ◌+◌, ◌*◌, ◌^◌, ◌<◌, ◌≤◌, [], ◌∷◌, length, IfSome, None};
ghost use Rattle.pst_bytes.specs.Image.{IsInside};
ghost use Rattle.pst_block.specs.Block.{body_span};
ghost use Rattle.pst_block.specs.Table.{body_of, IsWithin};
ghost use Rattle.pst_block.specs.Blocks.{table_of};
ghost use Rattle.pst_datatree.specs.List.{count_in};
ghost use Rattle.pst_datatree.specs.Named.{IfBlock};
ghost use Rattle.pst_datatree.specs.Data.{leaf_spans, data_leaf_fault, xblock_spans, xblock_fault, child_spans, child_fault, xxblock_spans, xxblock_fault, named_spans, tree_fault, data_spans, data_fault, size_of};

use crate::list::{bid_at, body_in};
use crate::named::{Named, sound_in};
use pst_block::{BlockEntry, Blocks};
use pst_bytes::Span;

// Where the body of a data block lies.
pub(crate) fn span_of(entry: BlockEntry) -> Span
    ensures { result ≡ body_span entry }
{
    Span {
        at: entry.ib,
        len: u64::from(entry.cb),
    }
}

// The span of the data block that an XBLOCK names with a number.
#[tactic(auto, unfolding(crate::specs::Data::leaf_spans, crate::specs::Data::data_leaf_fault))]
pub(crate) fn leaf_span(blocks: &Blocks, holder: BlockEntry, i: u16) -> Span
    requires within { IsWithin (table_of blocks.now).image holder }
    requires fits { 16 + 8 * i ≤ length (body_of (table_of blocks.now) holder) }
    requires sound { data_leaf_fault (table_of blocks.now) holder i ≡ None }
    ensures value { leaf_spans (table_of blocks.now) (body_of (table_of blocks.now) holder) i ≡
        result ∷ [] }
    ensures inside { IsInside (table_of blocks.now).image result }
{
    let bid = bid_at(body_in(blocks, holder), i);
    let Some(entry) = blocks.entry(bid) else {
        unreachable!()
    };
    span_of(entry)
}

// How many spans an XBLOCK has.
#[tactic(auto, using(crate::proofs::DataLemmas::xblock_head, crate::proofs::DataLemmas::xblock_fits, crate::proofs::DataLemmas::length_xblock))]
pub(crate) fn xblock_count(blocks: &Blocks, entry: BlockEntry) -> u16
    requires within { IsWithin (table_of blocks.now).image entry }
    requires sound { xblock_fault (table_of blocks.now) entry ≡ None }
    ensures value { result ≡ length (xblock_spans (table_of blocks.now) entry) }
    ensures fits { 8 + 8 * result ≤ length (body_of (table_of blocks.now) entry) }
{
    body_in(blocks, entry).number16(2)
}

// How many bytes an XBLOCK has: its lcbTotal.
#[tactic(auto, using(crate::proofs::DataLemmas::xblock_head, crate::proofs::DataLemmas::total_of_xblock))]
pub(crate) fn xblock_size(blocks: &Blocks, entry: BlockEntry) -> u64
    requires within { IsWithin (table_of blocks.now).image entry }
    requires sound { xblock_fault (table_of blocks.now) entry ≡ None }
    ensures value { result ≡ size_of (xblock_spans (table_of blocks.now) entry) }
    ensures small { result < 2 ^ 32 }
{
    u64::from(body_in(blocks, entry).number32(4))
}

// How many bytes an XXBLOCK has: its lcbTotal.
#[tactic(auto, using(crate::proofs::DataLemmas::xxblock_head, crate::proofs::DataLemmas::total_of_xxblock))]
pub(crate) fn xxblock_size(blocks: &Blocks, entry: BlockEntry) -> u64
    requires within { IsWithin (table_of blocks.now).image entry }
    requires sound { xxblock_fault (table_of blocks.now) entry ≡ None }
    ensures value { result ≡ size_of (xxblock_spans (table_of blocks.now) entry) }
    ensures small { result < 2 ^ 32 }
{
    u64::from(body_in(blocks, entry).number32(4))
}

// The XBLOCK that an XXBLOCK names with a number.
#[tactic(auto, using(crate::proofs::DataLemmas::sound_child), unfolding(crate::specs::Data::child_spans, crate::specs::Data::child_fault))]
pub(crate) fn child_entry(blocks: &Blocks, holder: BlockEntry, i: u16) -> BlockEntry
    requires within { IsWithin (table_of blocks.now).image holder }
    requires fits { 16 + 8 * i ≤ length (body_of (table_of blocks.now) holder) }
    requires sound { child_fault (table_of blocks.now) holder i ≡ None }
    ensures value { child_spans (table_of blocks.now) (body_of (table_of blocks.now) holder) i ≡
        xblock_spans (table_of blocks.now) result }
    ensures within { IsWithin (table_of blocks.now).image result }
    ensures sound { xblock_fault (table_of blocks.now) result ≡ None }
{
    let bid = bid_at(body_in(blocks, holder), i);
    let Some(entry) = blocks.entry(bid) else {
        unreachable!()
    };
    entry
}

// How many XBLOCKs an XXBLOCK names.
#[tactic(auto, using(crate::proofs::DataLemmas::xxblock_head, crate::proofs::DataLemmas::xxblock_fits, crate::proofs::DataLemmas::child_of_xxblock))]
pub(crate) fn child_count(blocks: &Blocks, entry: BlockEntry) -> u16
    requires within { IsWithin (table_of blocks.now).image entry }
    requires sound { xxblock_fault (table_of blocks.now) entry ≡ None }
    ensures value { result ≡ count_in (body_of (table_of blocks.now) entry) }
    ensures fits { 8 + 8 * result ≤ length (body_of (table_of blocks.now) entry) }
    ensures children { (i : ℕ) → i < result → child_fault (table_of blocks.now) entry i ≡ None }
{
    body_in(blocks, entry).number16(2)
}

// How many spans an XXBLOCK has.
#[tactic(auto, unfolding(crate::specs::Data::xxblock_spans))]
fn xxblock_count(blocks: &Blocks, entry: BlockEntry) -> u64
    requires within { IsWithin (table_of blocks.now).image entry }
    requires sound { xxblock_fault (table_of blocks.now) entry ≡ None }
    ensures { result ≡ length (xxblock_spans (table_of blocks.now) entry) }
{
    let mut total = 0u64;
    for i in 0..child_count(blocks, entry) {
        total += u64::from(xblock_count(blocks, child_entry(blocks, entry, i)));
    }
    total
}

// How many spans what an identifier names has.
pub(crate) fn span_count(blocks: &Blocks, named: Named) -> u64
    requires within { IfBlock named (IsWithin (table_of blocks.now).image) }
    requires sound { tree_fault (table_of blocks.now) named ≡ None }
    ensures { result ≡ length (named_spans (table_of blocks.now) named) }
{
    match named {
        Named::Nothing | Named::Missing => 0,
        Named::Data(_) => 1,
        Named::Xblock(entry) => u64::from(xblock_count(blocks, entry)),
        Named::Xxblock(entry) => xxblock_count(blocks, entry),
    }
}

/// How many spans the data tree of a block identifier has: one for each data block, as often as it is named.
#[tactic(auto, unfolding(crate::specs::Data::data_spans))]
pub fn leaf_count(blocks: &Blocks, bid: u64) -> u64
    requires { data_fault (table_of blocks.now) bid ≡ None }
    ensures { result ≡ length (data_spans (table_of blocks.now) bid) }
{
    span_count(blocks, sound_in(blocks, bid))
}

// How many bytes what an identifier names has.
pub(crate) fn data_size(blocks: &Blocks, named: Named) -> u64
    requires within { IfBlock named (IsWithin (table_of blocks.now).image) }
    requires sound { tree_fault (table_of blocks.now) named ≡ None }
    ensures value { result ≡ size_of (named_spans (table_of blocks.now) named) }
    ensures small { result < 2 ^ 32 }
{
    match named {
        Named::Nothing | Named::Missing => 0,
        Named::Data(entry) => u64::from(entry.cb),
        Named::Xblock(entry) => xblock_size(blocks, entry),
        Named::Xxblock(entry) => xxblock_size(blocks, entry),
    }
}
