//! The check of a data tree.

ghost use Rattle.std.specs.Prelude.{◌≡◌, ◌<◌, ◌≤◌, true, List, option_map, IfErr, None, OnOk};
ghost use Rattle.pst_bytes.specs.declared.span.Span.{Span};
ghost use Rattle.pst_fault.specs.Fault.{at_node, no_memory};
ghost use Rattle.pst_fault.specs.First.{Tells};
ghost use Rattle.pst_block.specs.Blocks.{table_of};
ghost use Rattle.pst_datatree.specs.Data.{data_spans, data_fault, told_at};
ghost use Rattle.pst_datatree.specs.Relation.{HasData};
ghost use Rattle.pst_datatree.specs.Names.{IsInTree};
ghost use Rattle.pst_datatree.specs.Seen.{tree_expansions, IsSeenTrue, IsKnownTree, AddsTrees, KeepsCount};

use crate::lengths::data_len;
use crate::seen::Seen;
use pst_block::Blocks;
use pst_fault::{Fault, Kind};
use std::alloc::Global;

// A fault of a data tree, told of a node; that memory ran out is told of none.
fn fault_at(fault: Fault, nid: u32) -> Fault
    ensures { result ≡ told_at nid fault }
{
    match fault.kind {
        Kind::NoMemory => fault,
        _ => fault.at_node(nid),
    }
}

// The data tree of a block identifier, with its fault told of a node.
#[tactic(auto, using(crate::proofs::NodeLemmas::data_first_told))]
fn checked(blocks: &Blocks, bid: u64, nid: u32, seen: &mut Seen) -> Result<(), Fault>
    requires known { IsSeenTrue (table_of blocks.now) seen.old }
    ensures exact { Tells result (option_map (at_node nid) (data_fault (table_of blocks.now) bid))
        tt }
    ensures sound { OnOk result (data_fault (table_of blocks.now) bid ≡ None) }
    ensures known { IsSeenTrue (table_of blocks.now) seen.new }
    ensures counts { OnOk result (KeepsCount seen.old seen.new) }
    ensures adds { let t = table_of blocks.now in
        AddsTrees t (IsInTree t bid) seen.old seen.new }
    ensures there { OnOk result (IsKnownTree (table_of blocks.now) seen.new bid) }
    ensures grows { tree_expansions seen.old ≤ tree_expansions seen.new }
{
    match data_len(blocks, bid, seen) {
        Ok(_) => Ok(()),
        Err(fault) => Err(fault_at(fault, nid)),
    }
}

/// Checks the data tree of a node's data, by the identifier that the node has for it ([MS-PST] 2.2.2.8.3). In order, with
/// `nid` as the node:
///
/// - BlockMissing, with the identifier as it is written, where the block B-tree lacks a block that is named;
/// - DataTree, at the internal block with the breach and with the identifier of its entry: btype is not 1, cLevel is
///   neither 1 nor 2 or not 1 below an XXBLOCK, the identifiers do not fit in the body, a block that an XBLOCK names is
///   internal or one that an XXBLOCK names is not (told of the naming block), or lcbTotal is not the number of all bytes
///   below. An XBLOCK that an XXBLOCK names is checked whole before the next one.
///
/// An identifier that is 0 but for its bit 0 names no block, and has no fault.
#[tactic(auto, using(crate::proofs::CheckLemmas::has_data, crate::proofs::CheckLemmas::only_memory_refuses))]
pub fn check_data(
    _alloc: Global,
    blocks: &Blocks,
    bid: u64,
    nid: u32,
    seen: &mut Seen,
) -> Result<(), Fault>
    // What is known is true, and stays so.
    requires known { IsSeenTrue (table_of blocks.now) seen.old }
    ensures known { IsSeenTrue (table_of blocks.now) seen.new }

    // No fault, or the first one; or that memory ran out.
    ensures exact { Tells result (option_map (at_node nid) (data_fault (table_of blocks.now) bid))
        tt }

    // Where there is none, the identifier has a data tree, with the spans that look-ups give.
    ensures sound { OnOk result (data_fault (table_of blocks.now) bid ≡ None) }
    ensures found { OnOk result (HasData (table_of blocks.now) bid
        (data_spans (table_of blocks.now) bid)) }

    // An identifier that has a data tree is refused for want of memory alone.
    ensures only { (spans : List Span) → HasData (table_of blocks.now) bid spans →
        IfErr result (λ f. f ≡ no_memory) }

    // Only internal blocks of the data tree are known since; where there is no fault, all of them.
    ensures adds { AddsTrees (table_of blocks.now)
        (IsInTree (table_of blocks.now) bid) seen.old seen.new }
    ensures there { OnOk result (IsKnownTree (table_of blocks.now) seen.new bid) }

    // What is counted never falls.
    ensures counts { OnOk result (KeepsCount seen.old seen.new) }
    ensures grows { tree_expansions seen.old ≤ tree_expansions seen.new }
{
    checked(blocks, bid, nid, seen)
}
