//! The walk of the lists of subnodes, depth first: each list is expanded once, and marked as long as that takes. Those that
//! are being expanded stand on a stack, each below the one that it waits for, so that the walk takes no more of the thread's
//! own stack where lists nest deeper.

ghost use Rattle.std.specs.Prelude.{◌≡◌, ℕ, ◌+◌, ◌*◌, ◌<◌, ◌≤◌, Some, None, [], ◌∷◌, reverse, Ok, IfOk, OnOk, IfErr, IfSome};
ghost use Rattle.pst_fault.specs.First.{Tells, IsFirst};
ghost use Rattle.pst_block.specs.Blocks.{table_of};
ghost use Rattle.pst_block.specs.Table.{Table};
ghost use Rattle.pst_datatree.specs.declared.seen.Seen.{Seen as SeenTrees};
ghost use Rattle.pst_subnode.specs.Tree.{sub_fault, sub_height};
ghost use Rattle.pst_subnode.specs.Faults.{AreSubFaultsTrue};
ghost use Rattle.pst_subnode.specs.Marks.{at_list, rank_of};
ghost use Rattle.pst_subnode.specs.Reach.{Leads};
ghost use Rattle.pst_subnode.specs.Known.{IsKnownList};
ghost use Rattle.pst_subnode.specs.Walk.{IsBegun, IsWalked, KeepsCounts};
ghost use Rattle.pst_subnode.specs.declared.heights.Heights.{Heights as KnownHeights};
ghost use Rattle.pst_subnode.specs.Weight.{frame_weight, stack_weight, turn_weight, walk_weight};
ghost use Rattle.pst_subnode.specs.Stack.{Start, AreWaiting, Enters, IsExpanding, IsNext, IsWaiting, IsGivingUp, IsRefused, Ends};

use crate::body::{bid_at, body_in};
use crate::enter::{enter, enter_leaf};
use crate::entries::Subs;
use crate::faults::SubFaults;
use crate::frame::{Below, Frame, LeafBlocks, Turn};
use crate::heights::Heights;
use crate::steps::check_entry_data;
use pst_block::Blocks;
use pst_datatree::Seen;
use pst_fault::Fault;
use std::alloc::Global;

// A list goes on, once the one below it has been entered: what is known of that one counts at once. One that was opened is
// walked first, and the list waits for it on the stack. Where there is a fault, neither is marked any more.
fn go_below<'a>(
    frame: Frame<'a>,
    entered: Result<Turn<'a>, Fault>,
    stack: &mut Vec<Frame<'a>>,
    heights: &mut Heights,
) -> Result<Turn<'a>, Fault>
    ensures next { (t : Table) (a : Start) (bid : ℕ) (limit : ℕ)
        (s : SeenTrees) (h : KnownHeights) →
        AreWaiting t a (frame.entry ∷ reverse stack.old.items) bid limit s h →
        Enters t bid limit s h entered.entry heights.old →
        IsNext t a stack.new.items result s heights.new }
    ensures exact { (t : Table) (bid : ℕ) (limit : ℕ) (s : SeenTrees) (h : KnownHeights) →
        IsWaiting t frame.entry bid limit s h → Enters t bid limit s h entered.entry heights.old →
        IfErr result (IsFirst (sub_fault t frame.entry.limit frame.entry.bid)) }
    ensures falls { (unit : ℕ) → IfOk entered.entry (λ turn. turn_weight turn < unit) →
        IfOk result (λ turn. walk_weight stack.new.items turn <
        stack_weight (reverse stack.old.items) + (frame_weight frame.entry + unit)) }
{
    match entered {
        Ok(turn) => match turn {
            Turn::Answers(height) => Ok(Turn::Expands(frame.with_height(height))),
            Turn::Expands(opened) => {
                if let Err(refused) = stack.push(frame) {
                    heights.forget(opened.bid);
                    heights.forget(frame.bid);
                    return Err(Fault::from(refused));
                }
                Ok(Turn::Expands(opened))
            }
        },
        Err(fault) => {
            heights.forget(frame.bid);
            Err(fault)
        }
    }
}

// The height of a list that has been entered, where it is known.
fn known_height(entered: &Result<Turn, Fault>) -> Option<u16>
    ensures known { IfSome result (λ height. entered.now ≡ Ok (Turn.Answers height)) }
    ensures all { (height : ℕ) → entered.now ≡ Ok (Turn.Answers height) → result ≡ Some height }
{
    match entered {
        Ok(turn) => match turn {
            Turn::Answers(height) => Some(*height),
            Turn::Expands(_) => None,
        },
        Err(_) => None,
    }
}

// The entries of an SLBLOCK that are left, up to the next one whose list has to be opened: what is known of the others counts
// at once. Or all have been walked, and the list gets its height.
fn run_entries<'a>(
    alloc: Global,
    blocks: &Blocks<'a>,
    frame: Frame<'a>,
    subs: Subs<'a>,
    stack: &mut Vec<Frame<'a>>,
    seen: &mut Seen,
    heights: &mut Heights,
    faults: &mut SubFaults,
) -> Result<Turn<'a>, Fault>
    requires below { frame.below ≡ Below.Entries subs }
    requires at { let t = table_of blocks.now in (a : Start) ×
        IsExpanding t a stack.old.items frame seen.old heights.old }
    requires faults { AreSubFaultsTrue (table_of blocks.now) faults.old }
    ensures faults { AreSubFaultsTrue (table_of blocks.now) faults.new }
    ensures exact { IfErr result
        (IsFirst (sub_fault (table_of blocks.now) frame.entry.limit frame.entry.bid)) }
    ensures next { let t = table_of blocks.now in (a : Start) →
        IsExpanding t a stack.old.items frame.entry seen.old heights.old →
        IsNext t a stack.new.items result seen.new heights.new }
    ensures falls { IfOk result (λ turn. walk_weight stack.new.items turn <
        stack_weight (reverse stack.old.items) + frame_weight frame.entry) }
{
    let mut most = frame.most;
    let mut rest = subs;
    while let Some(sub) = rest.next() {
        if let Err(fault) = check_entry_data(alloc, blocks, sub, seen, faults) {
            heights.forget(frame.bid);
            return Err(fault);
        }
        let entered = enter(alloc, blocks, sub.bid_sub, frame.limit - 1, heights, faults);
        let Some(height) = known_height(&entered) else {
            let waits = frame.left_with(most, Below::Entries(rest));
            return go_below(waits, entered, stack, heights);
        };
        most = most.max(height);
    }
    heights.settle(frame.bid, most + 1)?;
    Ok(Turn::Answers(most + 1))
}

// The SLBLOCKs of an SIBLOCK that are left, up to the next one that has to be opened: what is known of the others counts at
// once. Or all have been walked, and the list gets its height.
fn run_leaves<'a>(
    blocks: &Blocks<'a>,
    frame: Frame<'a>,
    leaves: LeafBlocks,
    stack: &mut Vec<Frame<'a>>,
    seen: &Seen,
    heights: &mut Heights,
    faults: &SubFaults,
) -> Result<Turn<'a>, Fault>
    requires below { frame.below ≡ Below.Leaves leaves }
    requires at { let t = table_of blocks.now in (a : Start) ×
        IsExpanding t a stack.old.items frame seen.now heights.old }
    requires faults { AreSubFaultsTrue (table_of blocks.now) faults.now }
    ensures exact { IfErr result
        (IsFirst (sub_fault (table_of blocks.now) frame.entry.limit frame.entry.bid)) }
    ensures next { let t = table_of blocks.now in (a : Start) →
        IsExpanding t a stack.old.items frame.entry seen.now heights.old →
        IsNext t a stack.new.items result seen.now heights.new }
    ensures falls { IfOk result (λ turn. walk_weight stack.new.items turn <
        stack_weight (reverse stack.old.items) + frame_weight frame.entry) }
{
    let mut most = frame.most;
    let mut rest = leaves;
    while rest.next < rest.count {
        let bid = bid_at(body_in(blocks, rest.holder), rest.next);
        let entered = enter_leaf(blocks, bid, frame.limit, heights, faults);
        rest = rest.behind();
        let Some(height) = known_height(&entered) else {
            let waits = frame.left_with(most, Below::Leaves(rest));
            return go_below(waits, entered, stack, heights);
        };
        most = most.max(height);
    }
    heights.settle(frame.bid, most)?;
    Ok(Turn::Answers(most))
}

// A list is expanded, up to the next one below it that has to be opened, or to its end.
fn expand<'a>(
    alloc: Global,
    blocks: &Blocks<'a>,
    frame: Frame<'a>,
    stack: &mut Vec<Frame<'a>>,
    seen: &mut Seen,
    heights: &mut Heights,
    faults: &mut SubFaults,
) -> Result<Turn<'a>, Fault>
    requires at { let t = table_of blocks.now in (a : Start) ×
        IsExpanding t a stack.old.items frame seen.old heights.old }
    requires faults { AreSubFaultsTrue (table_of blocks.now) faults.old }
    ensures faults { AreSubFaultsTrue (table_of blocks.now) faults.new }
    ensures exact { IfErr result
        (IsFirst (sub_fault (table_of blocks.now) frame.entry.limit frame.entry.bid)) }
    ensures next { let t = table_of blocks.now in (a : Start) →
        IsExpanding t a stack.old.items frame.entry seen.old heights.old →
        IsNext t a stack.new.items result seen.new heights.new }
    ensures falls { IfOk result (λ turn. walk_weight stack.new.items turn <
        stack_weight (reverse stack.old.items) + frame_weight frame.entry) }
{
    match frame.below {
        Below::Entries(subs) => {
            run_entries(alloc, blocks, frame, subs, stack, seen, heights, faults)
        }
        Below::Leaves(leaves) => run_leaves(blocks, frame, leaves, stack, seen, heights, faults),
    }
}

// The same; the fault of the list is remembered.
fn run<'a>(
    alloc: Global,
    blocks: &Blocks<'a>,
    frame: Frame<'a>,
    stack: &mut Vec<Frame<'a>>,
    seen: &mut Seen,
    heights: &mut Heights,
    faults: &mut SubFaults,
) -> Result<Turn<'a>, Fault>
    requires at { let t = table_of blocks.now in (a : Start) ×
        IsExpanding t a stack.old.items frame seen.old heights.old }
    requires faults { AreSubFaultsTrue (table_of blocks.now) faults.old }
    ensures faults { AreSubFaultsTrue (table_of blocks.now) faults.new }
    ensures next { let t = table_of blocks.now in (a : Start) →
        IsExpanding t a stack.old.items frame.entry seen.old heights.old →
        IsNext t a stack.new.items result seen.new heights.new }
    ensures falls { IfOk result (λ turn. walk_weight stack.new.items turn <
        stack_weight (reverse stack.old.items) + frame_weight frame.entry) }
{
    match expand(alloc, blocks, frame, stack, seen, heights, faults) {
        Ok(turn) => Ok(turn),
        Err(fault) => {
            faults.put_opened(frame, fault);
            Err(fault)
        }
    }
}

// All lists, from the one of a block identifier on. Where it finds a fault, the stack has those that are still marked.
fn climb<'a>(
    alloc: Global,
    blocks: &Blocks<'a>,
    bid: u64,
    limit: u16,
    stack: &mut Vec<Frame<'a>>,
    seen: &mut Seen,
    heights: &mut Heights,
    faults: &mut SubFaults,
) -> Result<u16, Fault>
    requires empty { stack.old.items ≡ [] }
    requires begun { let t = table_of blocks.now in
        IsBegun t seen.old heights.old (at_list t bid) 1 limit }
    requires faults { AreSubFaultsTrue (table_of blocks.now) faults.old }
    ensures faults { AreSubFaultsTrue (table_of blocks.now) faults.new }
    ensures ends { let t = table_of blocks.now in
        Ends t (record { bid = bid; limit = limit; seen = seen.old; heights = heights.old })
        stack.new.items result seen.new heights.new }
{
    let mut turn = enter(alloc, blocks, bid, limit, heights, faults)?;
    loop {
        turn = match turn {
            Turn::Expands(frame) => run(alloc, blocks, frame, stack, seen, heights, faults)?,
            Turn::Answers(height) => match stack.pop() {
                Some(frame) => Turn::Expands(frame.with_height(height)),
                None => return Ok(height),
            },
        };
    }
}

// The lists on the stack are given up, since one below them has a fault, which is the fault of each: it is remembered, and none
// of them is marked any more.
fn give_up(stack: &mut Vec<Frame>, fault: Fault, heights: &mut Heights, faults: &mut SubFaults)
    ensures given_up { (t : Table) (a : Start) (s : SeenTrees) →
        IsGivingUp t a stack.old.items fault s heights.old →
        IsRefused t a.bid a.limit fault a.seen a.heights s heights.new }
    ensures faults { (t : Table) (a : Start) (s : SeenTrees) →
        IsGivingUp t a stack.old.items fault s heights.old →
        AreSubFaultsTrue t faults.old → AreSubFaultsTrue t faults.new }
{
    while let Some(frame) = stack.pop() {
        heights.forget(frame.bid);
        faults.put_opened(frame, fault);
    }
}

// The height of the subnodes of a block identifier, where so many lists may nest.
pub(crate) fn height_of(
    alloc: Global,
    blocks: &Blocks,
    bid: u64,
    limit: u16,
    seen: &mut Seen,
    heights: &mut Heights,
    faults: &mut SubFaults,
) -> Result<u16, Fault>
    requires begun { let t = table_of blocks.now in
        IsBegun t seen.old heights.old (at_list t bid) 1 limit }
    requires faults { AreSubFaultsTrue (table_of blocks.now) faults.old }
    ensures faults { AreSubFaultsTrue (table_of blocks.now) faults.new }
    ensures exact { let t = table_of blocks.now in
        Tells result (sub_fault t limit bid) (sub_height t limit bid) }
    ensures small { IfOk result (λ h. h ≤ limit) }
    ensures walked { let t = table_of blocks.now in
        IsWalked t (λ from. Leads t from bid) seen.old heights.old seen.new heights.new }
    ensures counts { OnOk result (KeepsCounts seen.old heights.old seen.new heights.new) }
    ensures there { let t = table_of blocks.now in OnOk result (IsKnownList t heights.new bid) }
{
    let mut stack = Vec::new(alloc);
    match climb(alloc, blocks, bid, limit, &mut stack, seen, heights, faults) {
        Ok(height) => Ok(height),
        Err(fault) => {
            give_up(&mut stack, fault, heights, faults);
            Err(fault)
        }
    }
}
