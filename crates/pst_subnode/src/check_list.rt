//! The check of a subnode list: of its own blocks, and that no subnode stands in it twice.

ghost use Rattle.std.specs.Prelude.{◌≡◌, ◌+◌, ◌*◌, ◌≤◌, length, map, Some, None, IfOk, IfErr, OnOk};
ghost use Rattle.pst_fault.specs.Fault.{no_memory};
ghost use Rattle.pst_fault.specs.First.{answer, Tells, IsFirst, first_below};
ghost use Rattle.pst_block.specs.Table.{body_of, entry_of, IsWithin};
ghost use Rattle.pst_block.specs.Blocks.{table_of};
ghost use Rattle.pst_subnode.specs.List.{bad_list, slblock_fault, list_leaf_fault, shape_fault, list_block_fault, list_fault, block_subs, are_distinct as distinct, sub_nid};
ghost use Rattle.pst_subnode.specs.Left.{subs_left};
ghost use Rattle.pst_subnode.specs.Ranges.{AreRangesTrue};

use crate::apart::{Apart, block_is_apart, stands_again};
use crate::body::{bid_at, body_in};
use crate::entries::Subs;
use crate::list_block::{ListBlock, list_block};
use crate::ranges::Ranges;
use crate::rise::block_rises;
use pst_block::{BlockEntry, Blocks};
use pst_datatree::{is_internal, missing_block};
use pst_fault::{Fault, Kind};
use std::alloc::Global;
use std::collections::BTreeSet;

// The fault of a breach in a block of a list.
fn list_breach(entry: BlockEntry) -> Fault
    ensures { result ≡ bad_list entry }
{
    Fault::within(Kind::Subnode, entry.ib, entry.bid)
}

// A block that has to be an SLBLOCK.
#[tactic(auto, unfolding(crate::specs::List::slblock_fault))]
fn check_slblock(blocks: &Blocks, entry: BlockEntry) -> Result<(), Fault>
    requires { IsWithin (table_of blocks.now).image entry }
    ensures { result ≡ answer (slblock_fault (table_of blocks.now) entry) tt }
{
    match list_block(blocks, entry) {
        ListBlock::Slblock(_) => Ok(()),
        _ => Err(list_breach(entry)),
    }
}

// The SLBLOCK that an SIBLOCK names with a number.
#[tactic(auto, unfolding(crate::specs::List::list_leaf_fault))]
fn check_leaf(blocks: &Blocks, holder: BlockEntry, i: u16) -> Result<(), Fault>
    requires within { IsWithin (table_of blocks.now).image holder }
    requires fits { 24 + 16 * i ≤ length (body_of (table_of blocks.now) holder) }
    ensures { result ≡ answer (list_leaf_fault (table_of blocks.now) holder i) tt }
{
    let bid = bid_at(body_in(blocks, holder), i);
    let Some(entry) = blocks.entry(bid) else {
        return Err(missing_block(bid));
    };
    if !is_internal(bid) {
        return Err(list_breach(holder));
    }
    check_slblock(blocks, entry)
}

// The first SLBLOCKs that an SIBLOCK names.
#[tactic(auto, using(pst_fault::proofs::FirstLemmas::first_more))]
fn check_leaves(blocks: &Blocks, holder: BlockEntry, count: u16) -> Result<(), Fault>
    requires within { IsWithin (table_of blocks.now).image holder }
    requires fits { 8 + 16 * count ≤ length (body_of (table_of blocks.now) holder) }
    ensures { result ≡
        answer (first_below (list_leaf_fault (table_of blocks.now) holder) count) tt }
{
    for i in 0..count {
        check_leaf(blocks, holder, i)?;
    }
    Ok(())
}

// The shape of a block: an SLBLOCK, or an SIBLOCK with the SLBLOCKs that it names.
#[tactic(auto, using(crate::proofs::BlockLemmas::slblock_shape, crate::proofs::BlockLemmas::siblock_shape, crate::proofs::BlockLemmas::neither_shape))]
fn check_shape(blocks: &Blocks, entry: BlockEntry) -> Result<(), Fault>
    requires { IsWithin (table_of blocks.now).image entry }
    ensures { result ≡ answer (shape_fault (table_of blocks.now) entry) tt }
{
    match list_block(blocks, entry) {
        ListBlock::Slblock(_) => Ok(()),
        ListBlock::Siblock(body) => check_leaves(blocks, entry, body.number16(2)),
        ListBlock::Neither => Err(list_breach(entry)),
    }
}

// Whether no subnode stands twice among entries, in whatever order; or memory ran out.
fn stand_once(alloc: Global, subs: Subs) -> Result<bool, Fault>
    ensures value { IfOk result (λ b. b ≡ distinct (map sub_nid (subs_left subs.entry))) }
    ensures memory { IfErr result (λ f. f ≡ no_memory) }
{
    let mut met = BTreeSet::new(alloc);
    let mut rest = subs;
    while let Some(sub) = rest.next() {
        if !met.insert(sub.nid)? {
            return Ok(false);
        }
    }
    Ok(true)
}

// Whether no subnode stands twice among the entries of a block; or memory ran out. Where identifiers rise, as the format
// has them, none is taken but for what is known.
fn are_distinct(
    alloc: Global,
    blocks: &Blocks,
    entry: BlockEntry,
    ranges: &mut Ranges,
) -> Result<bool, Fault>
    requires within { IsWithin (table_of blocks.now).image entry }
    requires known { AreRangesTrue (table_of blocks.now) ranges.old }
    ensures known { AreRangesTrue (table_of blocks.now) ranges.new }
    ensures value { let t = table_of blocks.now in
        IfOk result (λ b. b ≡ distinct (map sub_nid (block_subs t entry))) }
    ensures memory { IfErr result (λ f. f ≡ no_memory) }
{
    if block_rises(blocks, entry, ranges)? {
        return Ok(true);
    }
    match block_is_apart(alloc, blocks, entry, ranges)? {
        Apart::Yes => Ok(true),
        Apart::Again(bid, i) if stands_again(blocks, entry, bid, i) => Ok(false),
        _ => stand_once(alloc, Subs::of_block(blocks, entry)),
    }
}

// A block of a list, all of it.
#[tactic(auto, unfolding(crate::specs::List::list_block_fault))]
fn check_block(
    alloc: Global,
    blocks: &Blocks,
    entry: BlockEntry,
    ranges: &mut Ranges,
) -> Result<(), Fault>
    requires within { IsWithin (table_of blocks.now).image entry }
    requires known { AreRangesTrue (table_of blocks.now) ranges.old }
    ensures known { AreRangesTrue (table_of blocks.now) ranges.new }
    ensures exact { Tells result (list_block_fault (table_of blocks.now) entry) tt }
{
    check_shape(blocks, entry)?;
    if !are_distinct(alloc, blocks, entry, ranges)? {
        return Err(list_breach(entry));
    }
    Ok(())
}

// The list of a block identifier that names a block: the entry of that.
#[tactic(auto, unfolding(crate::specs::List::list_fault))]
pub(crate) fn check_list(
    alloc: Global,
    blocks: &Blocks,
    bid: u64,
    ranges: &mut Ranges,
) -> Result<BlockEntry, Fault>
    requires { AreRangesTrue (table_of blocks.now) ranges.old }
    ensures known { AreRangesTrue (table_of blocks.now) ranges.new }
    ensures exact { IfErr result (IsFirst (list_fault (table_of blocks.now) bid)) }
    ensures none { OnOk result (list_fault (table_of blocks.now) bid ≡ None) }
    ensures entry { IfOk result (λ e. entry_of (table_of blocks.now) bid ≡ Some e) }
    ensures within { IfOk result (IsWithin (table_of blocks.now).image) }
{
    let Some(entry) = blocks.entry(bid) else {
        return Err(missing_block(bid));
    };
    if !is_internal(bid) {
        return Err(list_breach(entry));
    }
    check_block(alloc, blocks, entry, ranges)?;
    Ok(entry)
}
