//! The steps of the walk of lists that walk no further.

ghost use Rattle.std.specs.Prelude.{◌≡◌, ◌+◌, ◌*◌, ◌<◌, ◌≤◌, length, false, Some, None, Ok, Err, IfOk, IfErr, OnOk};
ghost use Rattle.pst_fault.specs.First.{Tells, IsFirst};
ghost use Rattle.pst_block.specs.Blocks.{table_of};
ghost use Rattle.pst_block.specs.Table.{body_of, entry_of, IsWithin};
ghost use Rattle.pst_datatree.specs.Bid.{is_no_block as no_block};
ghost use Rattle.pst_datatree.specs.Data.{data_fault};
ghost use Rattle.pst_datatree.specs.List.{count_in};
ghost use Rattle.pst_datatree.specs.Names.{IsInTree};
ghost use Rattle.pst_datatree.specs.Seen.{tree_expansions, IsSeenTrue, IsKnownTree, AddsTrees, KeepsCount};
ghost use Rattle.pst_subnode.specs.Tree.{nesting};
ghost use Rattle.pst_subnode.specs.List.{list_fault};
ghost use Rattle.pst_subnode.specs.Heights.{AreTrue, AreAlike};
ghost use Rattle.pst_subnode.specs.Faults.{AreSubFaultsTrue};
ghost use Rattle.pst_subnode.specs.Marks.{IsSiList};

use crate::body::body_in;
use crate::check_list::check_list;
use crate::faults::SubFaults;
use crate::heights::Heights;
use crate::sub::Sub;
use pst_block::{BlockEntry, Blocks};
use pst_datatree::{Seen, check_data};
use pst_fault::{Fault, Kind};
use std::alloc::Global;

// The fault of one list too many.
pub(crate) fn nesting_fault() -> Fault
    ensures { result ≡ nesting }
{
    Fault::at(Kind::Nesting, 0)
}

// What is known of a list, where so many lists may nest: a list that is being expanded would nest in itself.
pub(crate) fn height_known(height: u16, limit: u16) -> Result<u16, Fault>
    ensures marked { height ≡ 0 → result ≡ Err nesting }
    ensures fits { 0 < height → height ≤ limit → result ≡ Ok height }
    ensures high { limit < height → result ≡ Err nesting }
    ensures known { IfOk result (λ h. (h ≡ height) × (0 < h) × (h ≤ limit)) }
{
    if height == 0 || height > limit {
        return Err(nesting_fault());
    }
    Ok(height)
}

// The own blocks of the list of a block identifier: the entry of that block. It changes no height, and no mark. Their fault is
// that of the list wherever one list may nest.
#[tactic(auto, using(crate::proofs::StateLemmas::ranges_true))]
pub(crate) fn check_own_blocks(
    alloc: Global,
    blocks: &Blocks,
    bid: u64,
    heights: &mut Heights,
    faults: &mut SubFaults,
) -> Result<BlockEntry, Fault>
    requires named { no_block bid ≡ false }
    requires known { AreTrue (table_of blocks.now) heights.old }
    requires faults { AreSubFaultsTrue (table_of blocks.now) faults.old }
    ensures known { AreTrue (table_of blocks.now) heights.new }
    ensures faults { AreSubFaultsTrue (table_of blocks.now) faults.new }
    ensures exact { IfErr result (IsFirst (list_fault (table_of blocks.now) bid)) }
    ensures none { OnOk result (list_fault (table_of blocks.now) bid ≡ None) }
    ensures entry { IfOk result (λ e. entry_of (table_of blocks.now) bid ≡ Some e) }
    ensures within { IfOk result (IsWithin (table_of blocks.now).image) }
    ensures same { AreAlike heights.old heights.new }
{
    if faults.is_whole(bid) {
        if let Some(entry) = blocks.entry(bid) {
            return Ok(entry);
        }
    }
    match check_list(alloc, blocks, bid, &mut heights.ranges) {
        Ok(entry) => Ok(entry),
        Err(fault) => {
            faults.put_list(bid, 1, fault);
            Err(fault)
        }
    }
}

// How many SLBLOCKs an SIBLOCK names.
#[tactic(auto, using(crate::proofs::LeafLemmas::si_fits, crate::proofs::LeafLemmas::si_head))]
pub(crate) fn leaf_count(blocks: &Blocks, bid: u64, entry: BlockEntry) -> u16
    requires within { IsWithin (table_of blocks.now).image entry }
    requires is_list { IsSiList (table_of blocks.now) bid entry }
    ensures value { result ≡ count_in (body_of (table_of blocks.now) entry) }
    ensures fits { 8 + 16 * result ≤ length (body_of (table_of blocks.now) entry) }
{
    body_in(blocks, entry).number16(2)
}

// The data of an entry, under no node, of which no fault is remembered.
#[tactic(auto, using(pst_datatree::proofs::NodeLemmas::data_no_node))]
fn check_new_data(alloc: Global, blocks: &Blocks, sub: Sub, seen: &mut Seen) -> Result<(), Fault>
    requires seen { IsSeenTrue (table_of blocks.now) seen.old }
    ensures exact { Tells result (data_fault (table_of blocks.now) sub.bid_data) tt }
    ensures seen { IsSeenTrue (table_of blocks.now) seen.new }
    ensures adds { let t = table_of blocks.now in
        AddsTrees t (IsInTree t sub.bid_data) seen.old seen.new }
    ensures there { OnOk result (IsKnownTree (table_of blocks.now) seen.new sub.bid_data) }
    ensures counts { OnOk result (KeepsCount seen.old seen.new) }
    ensures grows { tree_expansions seen.old ≤ tree_expansions seen.new }
{
    check_data(alloc, blocks, sub.bid_data, 0, seen)
}

// The data of an entry, under no node. Its fault is remembered.
pub(crate) fn check_entry_data(
    alloc: Global,
    blocks: &Blocks,
    sub: Sub,
    seen: &mut Seen,
    faults: &mut SubFaults,
) -> Result<(), Fault>
    requires seen { IsSeenTrue (table_of blocks.now) seen.old }
    requires faults { AreSubFaultsTrue (table_of blocks.now) faults.old }
    ensures faults { AreSubFaultsTrue (table_of blocks.now) faults.new }
    ensures exact { Tells result (data_fault (table_of blocks.now) sub.bid_data) tt }
    ensures seen { IsSeenTrue (table_of blocks.now) seen.new }
    ensures adds { let t = table_of blocks.now in
        AddsTrees t (IsInTree t sub.bid_data) seen.old seen.new }
    ensures there { OnOk result (IsKnownTree (table_of blocks.now) seen.new sub.bid_data) }
    ensures counts { OnOk result (KeepsCount seen.old seen.new) }
    ensures grows { tree_expansions seen.old ≤ tree_expansions seen.new }
{
    if let Some(fault) = faults.content(sub.bid_data) {
        return Err(fault);
    }
    match check_new_data(alloc, blocks, sub, seen) {
        Ok(()) => Ok(()),
        Err(fault) => {
            faults.put_content(sub.bid_data, fault);
            Err(fault)
        }
    }
}
