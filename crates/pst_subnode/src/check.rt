//! The check of subnodes and of the subnodes of each of them, and how many lists nest.

ghost use Rattle.std.specs.Prelude.{◌≡◌, ℕ, ◌≤◌, None, IfOk, IfErr, OnOk, List, option_map};
ghost use Rattle.pst_fault.specs.Fault.{no_memory};
ghost use Rattle.pst_fault.specs.First.{Tells};
ghost use Rattle.pst_block.specs.Blocks.{table_of};
ghost use Rattle.pst_subnode.specs.declared.sub.Sub.{Sub};
ghost use Rattle.pst_subnode.specs.List.{subs_of};
ghost use Rattle.pst_subnode.specs.Tree.{sub_fault, sub_height, at_top};
ghost use Rattle.pst_subnode.specs.Reach.{Leads};
ghost use Rattle.pst_subnode.specs.Faults.{AreSubFaultsTrue};
ghost use Rattle.pst_subnode.specs.Known.{Adds, AreBothTrue, IsKnownList};
ghost use Rattle.pst_subnode.specs.Walk.{CountsGrow, KeepsCounts};
ghost use Rattle.pst_subnode.specs.Relation.{HasSubs};

use crate::faults::SubFaults;
use crate::heights::Heights;
use crate::walk::height_of;
use pst_block::Blocks;
use pst_datatree::Seen;
use pst_fault::{Fault, Kind, Place};
use std::alloc::Global;

/// How many lists may nest.
pub const LISTS: u32 = 256;

// A fault, under the node whose subnodes begin with a block identifier.
fn fault_at_top(fault: Fault, bid: u64, nid: u32) -> Fault
    ensures { result ≡ at_top bid nid fault }
{
    match fault.kind {
        Kind::NoMemory => fault,
        Kind::Nesting => Fault {
            kind: fault.kind,
            place: Place {
                bid,
                nid,
                ..fault.place
            },
        },
        _ => fault.at_node(nid),
    }
}

/// Checks the subnodes of a node, by the identifier that the node has for them ([MS-PST] 2.2.2.8.3.3), and answers their
/// height: how many lists nest. In order, with `nid` as the node:
///
/// - Nesting, with the identifier of the node's subnodes as it is written, where a list would begin below 256 others; it
///   is not looked up;
/// - BlockMissing, with the identifier as it is written, where the block B-tree lacks a block that is named;
/// - Subnode, at the block of the list with the breach and with the identifier of its entry: the block is external, btype
///   is not 2, cLevel is neither 0 nor 1 or not 0 below an SIBLOCK, the entries do not fit in the body, a block that an
///   SIBLOCK names is external (told of the SIBLOCK), or a subnode stands twice in the list (told of the block that the
///   identifier names);
/// - then entry by entry the faults of its data, and those of its own subnodes.
///
/// An identifier that is 0 but for its bit 0 names no block: it has no fault, and the height is 0.
///
/// The lists that wait for one below them stand on a stack in memory, so that the walk takes no more of the thread's own stack
/// where lists nest deeper. Memory is also taken to tell whether a subnode stands twice, and for what is known. Where it is
/// refused, that is NoMemory at once, and no list is left marked.
pub fn check_sub(
    alloc: Global,
    blocks: &Blocks,
    bid: u64,
    nid: u32,
    seen: &mut Seen,
    heights: &mut Heights,
) -> Result<u32, Fault>
    // What is known is true, and stays so; no list is left marked.
    requires known { AreBothTrue (table_of blocks.now) seen.old heights.old }
    ensures known { AreBothTrue (table_of blocks.now) seen.new heights.new }

    // The height, or the first fault; or that memory ran out.
    ensures exact { Tells result (option_map (at_top bid nid)
        (sub_fault (table_of blocks.now) LISTS bid)) (sub_height (table_of blocks.now) LISTS bid) }
    ensures small { IfOk result (λ h. h ≤ LISTS) }
    ensures none { OnOk result (sub_fault (table_of blocks.now) LISTS bid ≡ None) }

    // The identifier has the list of this height, as the format says.
    ensures found { IfOk result (λ h.
        HasSubs (table_of blocks.now) bid h (subs_of (table_of blocks.now) bid)) }

    // Where it has a list whose height is within the limit, only memory is refused.
    ensures only { (h : ℕ) (list : List Sub) → HasSubs (table_of blocks.now) bid h list →
        h ≤ LISTS → IfErr result (λ f. f ≡ no_memory) }

    // Chains from the identifier lead to all that is known since; where there is no fault, the list is known.
    ensures adds { let t = table_of blocks.now in
        Adds t (λ from. Leads t from bid) seen.old heights.old seen.new heights.new }
    ensures there { OnOk result (IsKnownList (table_of blocks.now) heights.new bid) }

    // What is counted never falls; where there is no fault, what was expanded is what is known.
    ensures grows { CountsGrow seen.old heights.old seen.new heights.new }
    ensures counts { OnOk result (KeepsCounts seen.old heights.old seen.new heights.new) }
{
    let mut faults = SubFaults::new(alloc);
    check_sub_with(alloc, blocks, bid, nid, seen, heights, &mut faults)
}

/// The same as `check_sub`, which passes over what is known of the faults below lists, and remembers the one that it finds: for
/// whoever goes on behind a fault.
pub fn check_sub_with(
    alloc: Global,
    blocks: &Blocks,
    bid: u64,
    nid: u32,
    seen: &mut Seen,
    heights: &mut Heights,
    faults: &mut SubFaults,
) -> Result<u32, Fault>
    // What is known is true, and stays so; no list is left marked.
    requires known { AreBothTrue (table_of blocks.now) seen.old heights.old }
    requires faults { AreSubFaultsTrue (table_of blocks.now) faults.old }
    ensures known { AreBothTrue (table_of blocks.now) seen.new heights.new }
    ensures faults { AreSubFaultsTrue (table_of blocks.now) faults.new }

    // The height, or the first fault; or that memory ran out.
    ensures exact { Tells result (option_map (at_top bid nid)
        (sub_fault (table_of blocks.now) LISTS bid)) (sub_height (table_of blocks.now) LISTS bid) }
    ensures small { IfOk result (λ h. h ≤ LISTS) }
    ensures none { OnOk result (sub_fault (table_of blocks.now) LISTS bid ≡ None) }

    // The identifier has the list of this height, as the format says.
    ensures found { IfOk result (λ h.
        HasSubs (table_of blocks.now) bid h (subs_of (table_of blocks.now) bid)) }

    // Where it has a list whose height is within the limit, only memory is refused.
    ensures only { (h : ℕ) (list : List Sub) → HasSubs (table_of blocks.now) bid h list →
        h ≤ LISTS → IfErr result (λ f. f ≡ no_memory) }

    // Chains from the identifier lead to all that is known since; where there is no fault, the list is known.
    ensures adds { let t = table_of blocks.now in
        Adds t (λ from. Leads t from bid) seen.old heights.old seen.new heights.new }
    ensures there { OnOk result (IsKnownList (table_of blocks.now) heights.new bid) }

    // What is counted never falls; where there is no fault, what was expanded is what is known.
    ensures grows { CountsGrow seen.old heights.old seen.new heights.new }
    ensures counts { OnOk result (KeepsCounts seen.old heights.old seen.new heights.new) }
{
    match height_of(alloc, blocks, bid, LISTS as u16, seen, heights, faults) {
        Ok(height) => Ok(u32::from(height)),
        Err(fault) => Err(fault_at_top(fault, bid, nid)),
    }
}
