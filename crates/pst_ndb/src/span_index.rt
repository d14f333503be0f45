//! An index of the spans of a node's data, made with memory by whoever asks for many of them.

ghost use Rattle.std.specs.Prelude.{◌≡◌, ◌≤◌, None, IfOk, IfErr, IfSome, slice_get};
ghost use Rattle.std.specs.List.Sorted.{IsNonDecreasing};
ghost use Rattle.pst_fault.specs.Fault.{no_memory};
ghost use Rattle.pst_bytes.specs.Image.{IsInside};
ghost use Rattle.pst_block.specs.Blocks.{table_of};
ghost use Rattle.pst_datatree.specs.Data.{data_spans, data_fault};
ghost use Rattle.pst_ndb.specs.SpanIndex.{AreStarts, IsPlaceOf, IsSpanIndexOf};

use pst_block::Blocks;
use pst_bytes::Span;
use pst_datatree::{Parts, leaf, leaf_count};
use pst_fault::Fault;
use std::alloc::Global;

// Of data with so few parts an index does not pay: to pass them all costs little more than a look-up by it.
pub(crate) const FEW: u16 = 32;

// Where each part begins, in order. So many spans come before it as are neither its own nor of one behind it.
#[tactic(auto, using(pst_datatree::proofs::PartsLemmas::part_sound, crate::proofs::SpanLemmas::part_within))]
fn starts_of(alloc: Global, blocks: &Blocks, bid: u64) -> Result<Vec<u64>, Fault>
    requires sound { data_fault (table_of blocks.now) bid ≡ None }
    ensures starts { IfOk result (λ v. AreStarts v.items (table_of blocks.now) bid) }
    ensures memory { IfErr result (λ f. f ≡ no_memory) }
{
    let parts = Parts::of(blocks, bid);
    let all = leaf_count(blocks, bid);
    let mut left = all;
    let mut starts = Vec::new(alloc);
    for part in 0..parts.count() {
        starts.push(all - left)?;
        left -= leaf_count(blocks, parts.bid(part));
    }
    Ok(starts)
}

// The place among numbers in order behind those that are no greater than one.
fn place_of(starts: &[u64], n: u64) -> usize
    requires { IsNonDecreasing starts.now }
    ensures { IsPlaceOf starts.now n result }
{
    starts.partition_point(|start| *start <= n)
}

// The span with a number, by where each part begins: one of the last part that begins no later. Of parts that begin at one place
// all but the last have no span.
#[tactic(auto, using(pst_datatree::proofs::PartsLemmas::part_sound, crate::proofs::SpanLemmas::none_before, crate::proofs::SpanLemmas::begins_before, crate::proofs::SpanLemmas::span_at))]
fn leaf_from(blocks: &Blocks, bid: u64, starts: &[u64], n: u64) -> Option<Span>
    requires sound { data_fault (table_of blocks.now) bid ≡ None }
    requires starts { AreStarts starts.now (table_of blocks.now) bid }
    ensures value { result ≡ slice_get (data_spans (table_of blocks.now) bid) n }
    ensures inside { IfSome result (IsInside (table_of blocks.now).image) }
{
    let parts = Parts::of(blocks, bid);
    let place = place_of(starts, n);
    if place == 0 {
        return None;
    }
    let part = place - 1;
    leaf(blocks, parts.bid(part as u16), n - starts[part])
}

/// An index of the spans of one node's data: where each of its parts begins, counted in spans. It may hold nothing, and then they
/// are sought part by part.
#[derive(Drop)]
pub struct SpanIndex {
    pub(crate) starts: Option<Vec<u64>>,
}

impl SpanIndex {
    ghost use Rattle.std.specs.Prelude.{◌≡◌, ℕ, false, None, IfOk, IfErr};
    ghost use Rattle.pst_fault.specs.Fault.{no_memory};
    ghost use Rattle.pst_block.specs.Blocks.{table_of};
    ghost use Rattle.pst_block.specs.Table.{Table};
    ghost use Rattle.pst_datatree.specs.Data.{data_fault};
    ghost use Rattle.pst_ndb.specs.SpanIndex.{IsSpanIndexOf, has_many_parts, holds_starts};

    /// The index that holds nothing, which is one of all data. No memory is taken.
    #[tactic(auto, unfolding(crate::specs::SpanIndex::IsSpanIndexOf, crate::specs::SpanIndex::holds_starts))]
    pub fn none() -> SpanIndex
        ensures index { (t : Table) (bid : ℕ) → IsSpanIndexOf result t bid }
        ensures held { holds_starts result ≡ false }
    {
        SpanIndex { starts: None }
    }

    /// An index of the spans of a block identifier's data, which has no fault. Of data with 32 parts at most it holds nothing, and
    /// no memory is taken. Of any other it holds where each part begins, and is made in as many steps as there are parts.
    /// NoMemory, if memory runs out.
    #[tactic(auto, unfolding(crate::specs::SpanIndex::IsSpanIndexOf, crate::specs::SpanIndex::has_many_parts, crate::specs::SpanIndex::holds_starts))]
    pub(crate) fn of(alloc: Global, blocks: &Blocks, bid: u64) -> Result<SpanIndex, Fault>
        requires { data_fault (table_of blocks.now) bid ≡ None }
        ensures index { IfOk result (λ i. IsSpanIndexOf i (table_of blocks.now) bid) }
        ensures held { let t = table_of blocks.now in
            IfOk result (λ i. holds_starts i ≡ has_many_parts t bid) }
        ensures memory { IfErr result (λ f. f ≡ no_memory) }
    {
        if Parts::of(blocks, bid).count() <= FEW {
            return Ok(SpanIndex::none());
        }
        let starts = starts_of(alloc, blocks, bid)?;
        Ok(SpanIndex {
            starts: Some(starts),
        })
    }
}

/// The span with a number of a block identifier's data, which has no fault and this index; None exactly where there is none. Of n
/// parts it takes about log n steps; where the index holds nothing, as many as `leaf`.
#[tactic(auto, unfolding(crate::specs::SpanIndex::IsSpanIndexOf))]
pub(crate) fn leaf_by(blocks: &Blocks, bid: u64, index: &SpanIndex, n: u64) -> Option<Span>
    requires sound { data_fault (table_of blocks.now) bid ≡ None }
    requires index { IsSpanIndexOf index.now (table_of blocks.now) bid }
    ensures value { result ≡ slice_get (data_spans (table_of blocks.now) bid) n }
    ensures inside { IfSome result (IsInside (table_of blocks.now).image) }
{
    match &index.starts {
        Some(starts) => leaf_from(blocks, bid, starts, n),
        None => leaf(blocks, bid, n),
    }
}
