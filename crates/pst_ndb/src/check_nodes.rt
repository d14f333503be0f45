//! The trees of the blocks of each node.

ghost use Rattle.std.specs.Prelude.{◌≡◌, None, IfOk, IfErr, OnOk, option_map, map};
ghost use Rattle.pst_fault.specs.First.{Tells, IsFirst};
ghost use Rattle.pst_btree.specs.Trees.{node_entries};
ghost use Rattle.pst_block.specs.Blocks.{table_of};
ghost use Rattle.pst_subnode.specs.declared.check.TheConstants.{LISTS};
ghost use Rattle.pst_subnode.specs.Tree.{sub_fault, at_top};
ghost use Rattle.pst_ndb.specs.Fault.{node_fault, nodes_fault};
ghost use Rattle.pst_subnode.specs.Reach.{Leads};
ghost use Rattle.pst_subnode.specs.Known.{IsKnownList, AreLedTo, AreLedEach, AreKnownEach};
ghost use Rattle.pst_ndb.specs.Counts.{AreExpanded};
ghost use Rattle.pst_ndb.specs.Known.{IsKnownTrue, IsCounted, AddsKnown, KnowsEntry, entry_of_node};

use pst_block::Blocks;
use pst_btree::{NodeEntry, NodeTree};
use pst_datatree::{Seen, check_data};
use pst_fault::Fault;
use pst_subnode::{Heights, check_sub};
use std::alloc::Global;

// What is known of the trees that were looked at.
#[derive(Drop)]
struct SoundTrees {
    seen: Seen,
    heights: Heights,
}

impl SoundTrees {
    ghost use Rattle.std.specs.Prelude.{◌≡◌, ◌+◌};
    ghost use Rattle.std.specs.List.Sorted.{IsStrictlySortedBy};
    ghost use Rattle.std.specs.Ordering.{nat_cmp};
    ghost use Rattle.pst_block.specs.Table.{Table};
    ghost use Rattle.pst_datatree.specs.Seen.{tree_expansions, tree_keys};
    ghost use Rattle.pst_subnode.specs.Heights.{list_expansions, list_keys};
    ghost use Rattle.pst_ndb.specs.Counts.{capped};
    ghost use Rattle.pst_ndb.specs.Known.{IsKnownTrue, IsNew, IsCounted};

    // Nothing yet.
    fn new(alloc: Global) -> SoundTrees
        ensures known { (t : Table) → IsKnownTrue t result }
        ensures empty { IsNew result }
        ensures counts { IsCounted result }
    {
        SoundTrees {
            seen: Seen::new(alloc),
            heights: Heights::new(alloc),
        }
    }

    // How many internal blocks have been expanded; and that none is known twice.
    fn expansions(&self) -> u64
        ensures value { result ≡
            capped (tree_expansions self.now.seen + list_expansions self.now.heights) }
        ensures trees { IsStrictlySortedBy nat_cmp (tree_keys self.now.seen) }
        ensures lists { IsStrictlySortedBy nat_cmp (list_keys self.now.heights) }
    {
        self.seen.keys_rise();
        self.heights.keys_rise();
        self.seen
            .expansions()
            .saturating_add(self.heights.expansions())
    }
}

// The subnodes of a node.
fn check_subs(
    alloc: Global,
    blocks: &Blocks,
    entry: NodeEntry,
    known: &mut SoundTrees,
) -> Result<(), Fault>
    requires { IsKnownTrue (table_of blocks.now) known.old }
    ensures known { IsKnownTrue (table_of blocks.now) known.new }
    ensures exact { Tells result (option_map (at_top entry.bid_sub entry.nid)
        (sub_fault (table_of blocks.now) LISTS entry.bid_sub)) tt }
    ensures adds { let t = table_of blocks.now in
        AddsKnown t (λ from. Leads t from entry.bid_sub) known.old known.new }
    ensures there { let t = table_of blocks.now in
        OnOk result (IsKnownList t known.new.heights entry.bid_sub) }
    ensures counts { OnOk result (IsCounted known.old → IsCounted known.new) }
{
    check_sub(
        alloc,
        blocks,
        entry.bid_sub,
        entry.nid,
        &mut known.seen,
        &mut known.heights,
    )?;
    Ok(())
}

// One node: its data, then its subnodes.
#[tactic(auto, unfolding(crate::specs::Fault::node_fault))]
fn check_node(
    alloc: Global,
    blocks: &Blocks,
    entry: NodeEntry,
    known: &mut SoundTrees,
) -> Result<(), Fault>
    requires { IsKnownTrue (table_of blocks.now) known.old }
    ensures known { IsKnownTrue (table_of blocks.now) known.new }
    ensures exact { Tells result (node_fault (table_of blocks.now) entry) tt }
    ensures adds { let t = table_of blocks.now in
        AddsKnown t (λ from. AreLedTo t from (entry_of_node entry)) known.old known.new }
    ensures there { let t = table_of blocks.now in
        OnOk result (KnowsEntry t known.new (entry_of_node entry)) }
    ensures counts { OnOk result (IsCounted known.old → IsCounted known.new) }
{
    check_data(alloc, blocks, entry.bid_data, entry.nid, &mut known.seen)?;
    check_subs(alloc, blocks, entry, known)
}

// All nodes, in order of their identifiers.
#[tactic(auto, using(pst_fault::proofs::EachLemmas::each_next, pst_fault::proofs::EachLemmas::each_refused, pst_fault::proofs::EachLemmas::each_done))]
fn check_each(
    alloc: Global,
    blocks: &Blocks,
    tree: &NodeTree,
    known: &mut SoundTrees,
) -> Result<(), Fault>
    requires { IsKnownTrue (table_of blocks.now) known.old }
    ensures known { IsKnownTrue (table_of blocks.now) known.new }
    ensures exact { Tells result (nodes_fault (table_of blocks.now) (node_entries tree.now)) tt }
    ensures adds { let t = table_of blocks.now in
        AddsKnown t (AreLedEach t (map entry_of_node (node_entries tree.now))) known.old known.new }
    ensures there { let t = table_of blocks.now in
        OnOk result (AreKnownEach t known.new.seen known.new.heights
        (map entry_of_node (node_entries tree.now))) }
    ensures counts { OnOk result (IsCounted known.old → IsCounted known.new) }
{
    for entry in tree.nodes() {
        check_node(alloc, blocks, entry, known)?;
    }
    Ok(())
}

/// Checks the trees of each node's blocks, in order of the nodes' identifiers, and answers how many internal blocks were
/// expanded for that, each once; or the first fault.
pub(crate) fn check_nodes(alloc: Global, blocks: &Blocks, tree: &NodeTree) -> Result<u64, Fault>
    ensures exact { IfErr result
        (IsFirst (nodes_fault (table_of blocks.now) (node_entries tree.now))) }
    ensures none { OnOk result (nodes_fault (table_of blocks.now) (node_entries tree.now) ≡ None) }
    ensures expansions { IfOk result (AreExpanded (table_of blocks.now) (node_entries tree.now)) }
{
    let mut known = SoundTrees::new(alloc);
    check_each(alloc, blocks, tree, &mut known)?;
    Ok(known.expansions())
}
