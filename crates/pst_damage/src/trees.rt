//! The trees of the blocks of each node that is left, over the blocks without fault.

ghost use Rattle.std.specs.Prelude.{◌≡◌, IfOk, IfErr, option_map};
ghost use Rattle.pst_fault.specs.Fault.{at_node, no_memory};
ghost use Rattle.pst_fault.specs.First.{Tells};
ghost use Rattle.pst_block.specs.Blocks.{table_of};
ghost use Rattle.pst_datatree.specs.Data.{data_fault};
ghost use Rattle.pst_subnode.specs.declared.check.TheConstants.{LISTS};
ghost use Rattle.pst_subnode.specs.Tree.{sub_fault, at_top};
ghost use Rattle.pst_ndb.specs.Fault.{node_fault};
ghost use Rattle.pst_damage.specs.Judged.{broken_by};
ghost use Rattle.pst_damage.specs.Trees.{AreTreesKnown};

use crate::broken::{BrokenNode, found, push_told};
use pst_block::Blocks;
use pst_datatree::{Seen, check_data};
use pst_fault::Fault;
use pst_msg::Faults;
use pst_page::NodeEntry;
use pst_subnode::{Heights, SubFaults, check_sub_with};
use std::alloc::Global;

// What is known of the trees that were looked at. What has no fault is passed over where it is met again; of the data of a node,
// and of each list and data below it, that have one it is remembered.
#[derive(Drop)]
struct JudgedTrees {
    seen: Seen,
    heights: Heights,
    content: Faults,
    below: SubFaults,
}

impl JudgedTrees {
    ghost use Rattle.pst_block.specs.Table.{Table};
    ghost use Rattle.pst_damage.specs.Trees.{AreTreesKnown};

    // Nothing yet.
    fn new(alloc: Global) -> JudgedTrees
        ensures { (t : Table) → AreTreesKnown t result }
    {
        JudgedTrees {
            seen: Seen::new(alloc),
            heights: Heights::new(alloc),
            content: Faults::new(alloc),
            below: SubFaults::new(alloc),
        }
    }
}

// The data of a node.
fn check_content(
    alloc: Global,
    blocks: &Blocks,
    entry: NodeEntry,
    known: &mut JudgedTrees,
) -> Result<(), Fault>
    requires { AreTreesKnown (table_of blocks.now) known.old }
    ensures known { AreTreesKnown (table_of blocks.now) known.new }
    ensures exact { Tells result (option_map (at_node entry.nid)
        (data_fault (table_of blocks.now) entry.bid_data)) tt }
{
    let part = ((entry.bid_data, 0), 0);
    if let Some(fault) = known.content.get(part) {
        return Err(fault.at_node(entry.nid));
    }
    let answer = check_data(alloc, blocks, entry.bid_data, entry.nid, &mut known.seen);
    known.content.keep(part, answer)
}

// The subnodes of a node.
fn check_subs(
    alloc: Global,
    blocks: &Blocks,
    entry: NodeEntry,
    known: &mut JudgedTrees,
) -> Result<(), Fault>
    requires { AreTreesKnown (table_of blocks.now) known.old }
    ensures known { AreTreesKnown (table_of blocks.now) known.new }
    ensures exact { Tells result (option_map (at_top entry.bid_sub entry.nid)
        (sub_fault (table_of blocks.now) LISTS entry.bid_sub)) tt }
{
    check_sub_with(
        alloc,
        blocks,
        entry.bid_sub,
        entry.nid,
        &mut known.seen,
        &mut known.heights,
        &mut known.below,
    )?;
    Ok(())
}

// One node: its data, then its subnodes.
#[tactic(auto, unfolding(pst_ndb::specs::Fault::node_fault))]
fn check_trees(
    alloc: Global,
    blocks: &Blocks,
    entry: NodeEntry,
    known: &mut JudgedTrees,
) -> Result<(), Fault>
    requires { AreTreesKnown (table_of blocks.now) known.old }
    ensures known { AreTreesKnown (table_of blocks.now) known.new }
    ensures exact { Tells result (node_fault (table_of blocks.now) entry) tt }
{
    check_content(alloc, blocks, entry, known)?;
    check_subs(alloc, blocks, entry, known)
}

/// The nodes that are left whose own trees have a fault, each with the first one of its data and of its subnodes. NoMemory where
/// memory is refused; nothing else is refused.
pub(crate) fn judge_trees(
    alloc: Global,
    blocks: &Blocks,
    nodes: &[NodeEntry],
) -> Result<Vec<BrokenNode>, Fault>
    ensures broken { IfOk result (λ v.
        v.items ≡ broken_by (node_fault (table_of blocks.now)) nodes.now) }
    ensures err { IfErr result (λ f. f ≡ no_memory) }
{
    let mut known = JudgedTrees::new(alloc);
    let mut broken = Vec::new(alloc);
    for entry in nodes {
        let fault = found(check_trees(alloc, blocks, *entry, &mut known))?;
        push_told(&mut broken, *entry, fault)?;
    }
    Ok(broken)
}
