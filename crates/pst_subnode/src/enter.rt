//! The walk of lists comes to a list: what is known of it answers, or it is opened.

ghost use Rattle.std.specs.Prelude.{◌≡◌, ℕ, ◌+◌, ◌*◌, ◌<◌, Some, None, false, IfOk};
ghost use Rattle.pst_block.specs.Blocks.{table_of};
ghost use Rattle.pst_block.specs.Table.{IsWithin, entry_of};
ghost use Rattle.pst_datatree.specs.Bid.{is_no_block as no_block};
ghost use Rattle.pst_datatree.specs.declared.seen.Seen.{Seen as SeenTrees};
ghost use Rattle.pst_datatree.specs.Seen.{IsSeenTrue};
ghost use Rattle.pst_subnode.specs.Heights.{state_of, AreTrue};
ghost use Rattle.pst_subnode.specs.Faults.{AreSubFaultsTrue};
ghost use Rattle.pst_subnode.specs.Marks.{IsSlblockList, IsSiList, HaveCome, at_list, rank_of};
ghost use Rattle.pst_subnode.specs.Weight.{frame_weight, turn_weight, unit_weight};
ghost use Rattle.pst_subnode.specs.Stack.{Opens, Enters};

use crate::body::{body_in, has_level_one};
use crate::entries::Subs;
use crate::faults::SubFaults;
use crate::frame::{Below, Frame, LeafBlocks, Turn};
use crate::heights::Heights;
use crate::steps::{check_own_blocks, height_known, leaf_count, nesting_fault};
use pst_block::{BlockEntry, Blocks};
use pst_datatree::is_no_block;
use pst_fault::Fault;
use std::alloc::Global;

// An SLBLOCK that nothing is known of is marked, and all its entries are left.
fn open_slblock<'a>(
    blocks: &Blocks<'a>,
    bid: u64,
    entry: BlockEntry,
    limit: u16,
    heights: &mut Heights,
) -> Result<Frame<'a>, Fault>
    requires room { 0 < limit }
    requires entry { entry_of (table_of blocks.now) bid ≡ Some entry }
    requires within { IsWithin (table_of blocks.now).image entry }
    requires is_list { IsSlblockList (table_of blocks.now) bid }
    requires known { AreTrue (table_of blocks.now) heights.old }
    requires come { let t = table_of blocks.now in HaveCome t heights.old (at_list t bid) 0 limit }
    requires fresh { state_of heights.old bid ≡ None }
    ensures opens { let t = table_of blocks.now in (s : SeenTrees) → IsSeenTrue t s →
        Opens t bid limit s heights.old result heights.new }
    ensures light { IfOk result (λ f. frame_weight f < unit_weight (2 * limit + 1)) }
{
    heights.begin(bid)?;
    Ok(Frame {
        bid,
        limit,
        most: 0,
        below: Below::Entries(Subs::of_slblock(blocks, entry)),
    })
}

// An SIBLOCK that nothing is known of is marked, and all its SLBLOCKs are left.
fn open_siblock<'a>(
    blocks: &Blocks<'a>,
    bid: u64,
    entry: BlockEntry,
    limit: u16,
    heights: &mut Heights,
) -> Result<Frame<'a>, Fault>
    requires room { 0 < limit }
    requires within { IsWithin (table_of blocks.now).image entry }
    requires is_list { IsSiList (table_of blocks.now) bid entry }
    requires known { AreTrue (table_of blocks.now) heights.old }
    requires come { let t = table_of blocks.now in HaveCome t heights.old (at_list t bid) 1 limit }
    requires fresh { state_of heights.old bid ≡ None }
    ensures opens { let t = table_of blocks.now in (s : SeenTrees) → IsSeenTrue t s →
        Opens t bid limit s heights.old result heights.new }
    ensures light { IfOk result (λ f. frame_weight f < unit_weight (2 * limit + 2)) }
{
    let count = leaf_count(blocks, bid, entry);
    heights.begin(bid)?;
    Ok(Frame {
        bid,
        limit,
        most: 1,
        below: Below::Leaves(LeafBlocks {
            holder: entry,
            next: 0,
            count,
        }),
    })
}

// A list that nothing is known of: its own blocks are checked, and it is marked.
fn open<'a>(
    alloc: Global,
    blocks: &Blocks<'a>,
    bid: u64,
    limit: u16,
    heights: &mut Heights,
    faults: &mut SubFaults,
) -> Result<Frame<'a>, Fault>
    requires room { 0 < limit }
    requires named { no_block bid ≡ false }
    requires known { AreTrue (table_of blocks.now) heights.old }
    requires come { let t = table_of blocks.now in
        HaveCome t heights.old (at_list t bid) (rank_of t bid) limit }
    requires fresh { state_of heights.old bid ≡ None }
    requires faults { AreSubFaultsTrue (table_of blocks.now) faults.old }
    ensures faults { AreSubFaultsTrue (table_of blocks.now) faults.new }
    ensures opens { let t = table_of blocks.now in (s : SeenTrees) → IsSeenTrue t s →
        Opens t bid limit s heights.old result heights.new }
    ensures light { let t = table_of blocks.now in
        IfOk result (λ f. frame_weight f < unit_weight (2 * limit + rank_of t bid + 1)) }
{
    let entry = check_own_blocks(alloc, blocks, bid, heights, faults)?;
    if has_level_one(body_in(blocks, entry)) {
        open_siblock(blocks, bid, entry, limit, heights)
    } else {
        open_slblock(blocks, bid, entry, limit, heights)
    }
}

// The walk comes to an SLBLOCK that an SIBLOCK names, whose own blocks were checked with it.
#[tactic(auto, unfolding(crate::specs::List::list_fault))]
pub(crate) fn enter_leaf<'a>(
    blocks: &Blocks<'a>,
    bid: u64,
    limit: u16,
    heights: &mut Heights,
    faults: &SubFaults,
) -> Result<Turn<'a>, Fault>
    requires room { 0 < limit }
    requires is_list { IsSlblockList (table_of blocks.now) bid }
    requires faults { AreSubFaultsTrue (table_of blocks.now) faults.now }
    requires known { AreTrue (table_of blocks.now) heights.old }
    requires come { let t = table_of blocks.now in HaveCome t heights.old (at_list t bid) 0 limit }
    ensures enters { let t = table_of blocks.now in (s : SeenTrees) → IsSeenTrue t s →
        Enters t bid limit s heights.old result heights.new }
    ensures light { IfOk result (λ turn. turn_weight turn < unit_weight (2 * limit + 1)) }
{
    if let Some(height) = heights.state(bid) {
        return Ok(Turn::Answers(height_known(height, limit)?));
    }
    if let Some(fault) = faults.list(bid, limit) {
        return Err(fault);
    }
    let Some(entry) = blocks.entry(bid) else {
        unreachable!()
    };
    Ok(Turn::Expands(open_slblock(blocks, bid, entry, limit, heights)?))
}

// The walk comes to the list of a block identifier, where so many may nest. A fault that is remembered answers, too.
pub(crate) fn enter<'a>(
    alloc: Global,
    blocks: &Blocks<'a>,
    bid: u64,
    limit: u16,
    heights: &mut Heights,
    faults: &mut SubFaults,
) -> Result<Turn<'a>, Fault>
    requires known { AreTrue (table_of blocks.now) heights.old }
    requires faults { AreSubFaultsTrue (table_of blocks.now) faults.old }
    requires come { let t = table_of blocks.now in
        HaveCome t heights.old (at_list t bid) (rank_of t bid) limit }
    ensures faults { AreSubFaultsTrue (table_of blocks.now) faults.new }
    ensures enters { let t = table_of blocks.now in (s : SeenTrees) → IsSeenTrue t s →
        Enters t bid limit s heights.old result heights.new }
    ensures light { let t = table_of blocks.now in
        IfOk result (λ turn. turn_weight turn < unit_weight (2 * limit + rank_of t bid + 1)) }
{
    if is_no_block(bid) {
        return Ok(Turn::Answers(0));
    }
    if limit == 0 {
        return Err(nesting_fault());
    }
    if let Some(height) = heights.state(bid) {
        return Ok(Turn::Answers(height_known(height, limit)?));
    }
    if let Some(fault) = faults.list(bid, limit) {
        return Err(fault);
    }
    Ok(Turn::Expands(open(alloc, blocks, bid, limit, heights, faults)?))
}
