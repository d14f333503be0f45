//! How many bytes a data tree has, or its first fault: an XBLOCK that is known is passed over.

ghost use Rattle.std.specs.Prelude.{◌≡◌, ℕ, ◌+◌, ◌*◌, ◌^◌, ◌<◌, ◌≤◌, true, length, IfOk, Some, OnOk};
ghost use Rattle.pst_fault.specs.First.{answer, Tells, first_below, join_below};
ghost use Rattle.pst_block.specs.Block.{bid_key};
ghost use Rattle.pst_block.specs.Table.{Table, body_of, entry_of, IsWithin};
ghost use Rattle.pst_block.specs.Blocks.{table_of};
ghost use Rattle.pst_datatree.specs.Data.{size_of, leaf_spans, data_leaf_fault, xblock_spans, xblock_fault, child_spans, child_fault, xxblock_spans, xxblock_fault, data_spans, data_fault, block_missing, bad_tree};
ghost use Rattle.pst_datatree.specs.List.{has_level_two, bid_in};
ghost use Rattle.pst_datatree.specs.Names.{IsKeyOf, IsOfFirst, IsChildKey, IsUnder, IsInTree};
ghost use Rattle.pst_datatree.specs.Seen.{tree_expansions, has_tree, holds_tree, IsSeenTrue, IsKnownTree, NamesKnown, AddsTrees, KeepsCount, RaisesCount, NoNewTwo};

use crate::bid::is_internal;
use crate::list::{bid_at, body_in, is_block_list, is_xxblock};
use crate::look::{xblock_size, xxblock_size};
use crate::named::{Named, named_in};
use crate::seen::Seen;
use pst_block::{BlockEntry, Blocks};
use pst_fault::{Fault, Kind};

/// The fault of a block that is named and that the block B-tree lacks.
pub fn missing_block(bid: u64) -> Fault
    ensures { result ≡ block_missing bid }
{
    Fault::within(Kind::BlockMissing, 0, bid)
}

// The fault of a breach in an internal block.
fn tree_breach(entry: BlockEntry) -> Fault
    ensures { result ≡ bad_tree entry }
{
    Fault::within(Kind::DataTree, entry.ib, entry.bid)
}

// How many bytes the data block has that an XBLOCK names with a number.
#[tactic(auto, unfolding(crate::specs::Data::leaf_spans, crate::specs::Data::data_leaf_fault))]
fn leaf_len(blocks: &Blocks, holder: BlockEntry, i: u16) -> Result<u64, Fault>
    requires within { IsWithin (table_of blocks.now).image holder }
    requires fits { 16 + 8 * i ≤ length (body_of (table_of blocks.now) holder) }
    ensures value { let t = table_of blocks.now in
        result ≡ answer (data_leaf_fault t holder i) (size_of (leaf_spans t (body_of t holder) i)) }
    ensures small { IfOk result (λ n. n < 65536) }
{
    let bid = bid_at(body_in(blocks, holder), i);
    let Some(entry) = blocks.entry(bid) else {
        return Err(missing_block(bid));
    };
    if is_internal(bid) {
        return Err(tree_breach(holder));
    }
    Ok(u64::from(entry.cb))
}

// How many bytes the first data blocks have that an XBLOCK names.
fn leaves_len(blocks: &Blocks, holder: BlockEntry, count: u16) -> Result<u64, Fault>
    requires within { IsWithin (table_of blocks.now).image holder }
    requires fits { 8 + 8 * count ≤ length (body_of (table_of blocks.now) holder) }
    ensures value { let t = table_of blocks.now in
        result ≡ answer (first_below (data_leaf_fault t holder) count)
        (size_of (join_below (leaf_spans t (body_of t holder)) count)) }
    ensures small { IfOk result (λ n. n ≤ 65536 * count) }
{
    let mut total = 0u64;
    for i in 0..count {
        total += leaf_len(blocks, holder, i)?;
    }
    Ok(total)
}

// How many bytes an XBLOCK has, which is expanded for that.
#[tactic(auto, unfolding(crate::specs::Data::xblock_spans, crate::specs::Data::xblock_fault))]
fn xblock_len(blocks: &Blocks, entry: BlockEntry, seen: &mut Seen) -> Result<u64, Fault>
    requires within { IsWithin (table_of blocks.now).image entry }
    ensures value { let t = table_of blocks.now in
        result ≡ answer (xblock_fault t entry) (size_of (xblock_spans t entry)) }
    ensures small { IfOk result (λ n. n < 2 ^ 32) }
    ensures known { (t : Table) → IsSeenTrue t seen.old → IsSeenTrue t seen.new }
    ensures raises { OnOk result (RaisesCount seen.old seen.new) }
    ensures same { (bid : ℕ) → has_tree seen.new bid ≡ has_tree seen.old bid }
    ensures keys { (key : ℕ) → holds_tree seen.new key ≡ holds_tree seen.old key }
    ensures grows { tree_expansions seen.old ≤ tree_expansions seen.new }
{
    let body = body_in(blocks, entry);
    if !is_block_list(1, body) {
        return Err(tree_breach(entry));
    }
    seen.expand();
    let total = leaves_len(blocks, entry, body.number16(2))?;
    if total != u64::from(body.number32(4)) {
        return Err(tree_breach(entry));
    }
    Ok(total)
}

// How many bytes an XBLOCK has, which is expanded unless it is known. An XXBLOCK is none, whether it is known or not.
#[tactic(auto, using(crate::proofs::SeenLemmas::xblock_of_two, crate::proofs::SeenLemmas::sound_one))]
fn xblock_once(blocks: &Blocks, entry: BlockEntry, seen: &mut Seen) -> Result<u64, Fault>
    requires within { IsWithin (table_of blocks.now).image entry }
    requires listed { entry_of (table_of blocks.now) entry.bid ≡ Some entry }
    requires known { IsSeenTrue (table_of blocks.now) seen.old }
    ensures value { let t = table_of blocks.now in
        Tells result (xblock_fault t entry) (size_of (xblock_spans t entry)) }
    ensures small { IfOk result (λ n. n < 2 ^ 32) }
    ensures known { IsSeenTrue (table_of blocks.now) seen.new }
    ensures counts { OnOk result (KeepsCount seen.old seen.new) }
    ensures levels { NoNewTwo (table_of blocks.now) seen.old seen.new }
    ensures adds { AddsTrees (table_of blocks.now) (λ key.
        bid_key entry.bid ≡ key) seen.old seen.new }
    ensures there { OnOk result (has_tree seen.new entry.bid ≡ true) }
    ensures grows { tree_expansions seen.old ≤ tree_expansions seen.new }
{
    if is_xxblock(body_in(blocks, entry)) {
        return Err(tree_breach(entry));
    }
    if seen.knows(entry.bid) {
        return Ok(xblock_size(blocks, entry));
    }
    let total = xblock_len(blocks, entry, seen)?;
    seen.put(entry.bid)?;
    Ok(total)
}

// How many bytes the XBLOCK has that an XXBLOCK names with a number.
#[tactic(auto, unfolding(crate::specs::Data::child_spans, crate::specs::Data::child_fault))]
fn child_len(blocks: &Blocks, holder: BlockEntry, i: u16, seen: &mut Seen) -> Result<u64, Fault>
    requires within { IsWithin (table_of blocks.now).image holder }
    requires fits { 16 + 8 * i ≤ length (body_of (table_of blocks.now) holder) }
    requires known { IsSeenTrue (table_of blocks.now) seen.old }
    ensures value { let t = table_of blocks.now in
        Tells result (child_fault t holder i) (size_of (child_spans t (body_of t holder) i)) }
    ensures small { IfOk result (λ n. n < 2 ^ 32) }
    ensures known { IsSeenTrue (table_of blocks.now) seen.new }
    ensures counts { OnOk result (KeepsCount seen.old seen.new) }
    ensures levels { NoNewTwo (table_of blocks.now) seen.old seen.new }
    ensures adds { let t = table_of blocks.now in
        AddsTrees t (IsKeyOf t (bid_in (body_of t holder) i)) seen.old seen.new }
    ensures there { let t = table_of blocks.now in
        OnOk result (has_tree seen.new (bid_in (body_of t holder) i) ≡ true) }
    ensures grows { tree_expansions seen.old ≤ tree_expansions seen.new }
{
    let bid = bid_at(body_in(blocks, holder), i);
    let Some(entry) = blocks.entry(bid) else {
        return Err(missing_block(bid));
    };
    if !is_internal(bid) {
        return Err(tree_breach(holder));
    }
    xblock_once(blocks, entry, seen)
}

// How many bytes the first XBLOCKs have that an XXBLOCK names.
#[tactic(auto, using(crate::proofs::AddLemmas::adds_next, crate::proofs::AddLemmas::there_next))]
fn children_len(
    blocks: &Blocks,
    holder: BlockEntry,
    count: u16,
    seen: &mut Seen,
) -> Result<u64, Fault>
    requires within { IsWithin (table_of blocks.now).image holder }
    requires fits { 8 + 8 * count ≤ length (body_of (table_of blocks.now) holder) }
    requires known { IsSeenTrue (table_of blocks.now) seen.old }
    ensures value { let t = table_of blocks.now in
        Tells result (first_below (child_fault t holder) count)
        (size_of (join_below (child_spans t (body_of t holder)) count)) }
    ensures known { IsSeenTrue (table_of blocks.now) seen.new }
    ensures counts { OnOk result (KeepsCount seen.old seen.new) }
    ensures levels { NoNewTwo (table_of blocks.now) seen.old seen.new }
    ensures adds { let t = table_of blocks.now in
        AddsTrees t (IsOfFirst t holder count) seen.old seen.new }
    ensures there { let t = table_of blocks.now in
        OnOk result ((i : ℕ) → i < count → has_tree seen.new (bid_in (body_of t holder) i) ≡ true) }
    ensures grows { tree_expansions seen.old ≤ tree_expansions seen.new }
{
    let mut total = 0u64;
    for i in 0..count {
        total += child_len(blocks, holder, i, seen)?;
    }
    Ok(total)
}

// How many bytes an XXBLOCK has, which is expanded for that.
#[tactic(auto, unfolding(crate::specs::Data::xxblock_spans, crate::specs::Data::xxblock_fault))]
fn xxblock_len(blocks: &Blocks, entry: BlockEntry, seen: &mut Seen) -> Result<u64, Fault>
    requires within { IsWithin (table_of blocks.now).image entry }
    requires known { IsSeenTrue (table_of blocks.now) seen.old }
    ensures value { let t = table_of blocks.now in
        Tells result (xxblock_fault t entry) (size_of (xxblock_spans t entry)) }
    ensures small { IfOk result (λ n. n < 2 ^ 32) }
    ensures known { IsSeenTrue (table_of blocks.now) seen.new }
    ensures raises { OnOk result (RaisesCount seen.old seen.new) }
    ensures levels { NoNewTwo (table_of blocks.now) seen.old seen.new }
    ensures adds { let t = table_of blocks.now in
        AddsTrees t (IsChildKey t entry) seen.old seen.new }
    ensures there { OnOk result (NamesKnown (table_of blocks.now) seen.new entry) }
    ensures grows { tree_expansions seen.old ≤ tree_expansions seen.new }
{
    let body = body_in(blocks, entry);
    if !is_block_list(2, body) {
        return Err(tree_breach(entry));
    }
    seen.expand();
    let total = children_len(blocks, entry, body.number16(2), seen)?;
    if total != u64::from(body.number32(4)) {
        return Err(tree_breach(entry));
    }
    Ok(total)
}

// How many bytes an XXBLOCK has, which is expanded unless it is known.
#[tactic(auto, using(crate::proofs::SeenLemmas::sound_two))]
fn xxblock_once(blocks: &Blocks, entry: BlockEntry, seen: &mut Seen) -> Result<u64, Fault>
    requires within { IsWithin (table_of blocks.now).image entry }
    requires listed { entry_of (table_of blocks.now) entry.bid ≡ Some entry }
    requires level { has_level_two (body_of (table_of blocks.now) entry) ≡ true }
    requires known { IsSeenTrue (table_of blocks.now) seen.old }
    ensures value { let t = table_of blocks.now in
        Tells result (xxblock_fault t entry) (size_of (xxblock_spans t entry)) }
    ensures known { IsSeenTrue (table_of blocks.now) seen.new }
    ensures counts { OnOk result (KeepsCount seen.old seen.new) }
    ensures adds { let t = table_of blocks.now in
        AddsTrees t (IsUnder t entry) seen.old seen.new }
    ensures there { OnOk result (has_tree seen.new entry.bid ≡ true) }
    ensures grows { tree_expansions seen.old ≤ tree_expansions seen.new }
{
    if seen.knows(entry.bid) {
        return Ok(xxblock_size(blocks, entry));
    }
    let total = xxblock_len(blocks, entry, seen)?;
    seen.put(entry.bid)?;
    Ok(total)
}

// How many bytes the data tree of a block identifier has.
#[tactic(auto, unfolding(crate::specs::Data::data_spans, crate::specs::Data::data_fault))]
pub fn data_len(blocks: &Blocks, bid: u64, seen: &mut Seen) -> Result<u64, Fault>
    requires known { IsSeenTrue (table_of blocks.now) seen.old }
    ensures value { let t = table_of blocks.now in
        Tells result (data_fault t bid) (size_of (data_spans t bid)) }
    ensures known { IsSeenTrue (table_of blocks.now) seen.new }
    ensures counts { OnOk result (KeepsCount seen.old seen.new) }
    ensures adds { let t = table_of blocks.now in
        AddsTrees t (IsInTree t bid) seen.old seen.new }
    ensures there { OnOk result (IsKnownTree (table_of blocks.now) seen.new bid) }
    ensures grows { tree_expansions seen.old ≤ tree_expansions seen.new }
{
    match named_in(blocks, bid) {
        Named::Nothing => Ok(0),
        Named::Missing => Err(missing_block(bid)),
        Named::Data(entry) => Ok(u64::from(entry.cb)),
        Named::Xblock(entry) => xblock_once(blocks, entry, seen),
        Named::Xxblock(entry) => xxblock_once(blocks, entry, seen),
    }
}
