//! All nodes that are left of a damaged file, one after another.

ghost use Rattle.std.specs.Prelude.{◌≡◌, IfOk, IfErr, OnOk};
ghost use Rattle.pst_fault.specs.Fault.{no_memory};
ghost use Rattle.pst_btree.specs.Lists.{nodes_in_list};
ghost use Rattle.pst_block.specs.Blocks.{table_of};
ghost use Rattle.pst_damage.specs.Judged.{broken_by};
ghost use Rattle.pst_damage.specs.Left.{left_table, left_nodes, left_pages};
ghost use Rattle.pst_damage.specs.Nodes.{node_damage, with_required as with_missing, nodes_damage, whole_left};

use crate::asked::fault_of;
use crate::broken::{BrokenNode, push_told, take_told};
use crate::broken_pages::BrokenPages;
use crate::known::JudgedParts;
use crate::left::Left;
use crate::order::put_in;
use crate::trees::judge_trees;
use crate::whole::{Whole, whole_of};
use pst_block::Blocks;
use pst_btree::NodeList;
use pst_fault::{Fault, Kind};
use pst_msg::{ROOT, STORE, named};
use pst_remains::Broken;
use std::alloc::{AllocError, Global};

/// What was found of the nodes that are left of a damaged file.
#[derive(Drop)]
pub struct JudgedNodes {
    /// The broken ones, their identifiers rising, each with its first fault.
    pub broken: Vec<BrokenNode>,
    /// How many have no fault.
    pub whole: Whole,
}

// Each node that is left, in order; those whose own trees have a fault are told already.
fn judge_each(alloc: Global, left: &Left) -> Result<Vec<BrokenNode>, Fault>
    ensures told { let t = left_table left.now in let nodes = left_nodes left.now in
        IfOk result (λ v. v.items ≡ broken_by (node_damage t nodes (left_pages left.now)) nodes) }
    ensures err { IfErr result (λ f. f ≡ no_memory) }
{
    let mut known = JudgedParts::new(alloc);
    let mut told = Vec::new(alloc);
    let mut next = 0;
    left.nodes.nids_rise();
    for entry in left.nodes.entries() {
        let own_fault = take_told(left.own, &mut next, entry.nid);
        let fault = fault_of(left, *entry, own_fault, &mut known)?;
        push_told(&mut told, *entry, fault)?;
    }
    Ok(told)
}

// A node that every store has, told where it is missing. AllocError where memory is refused.
fn add_missing(left: &Left, nid: u32, told: &mut Vec<BrokenNode>) -> Result<(), AllocError>
    ensures { OnOk result (told.new.items ≡
        with_missing (left_nodes left.now) (left_pages left.now) nid told.old.items) }
{
    if left.nodes.find(nid).is_some() || left.pages.before(nid).is_some() {
        return Ok(());
    }
    let fault = named(Kind::NodeMissing, 0, 0, nid);
    put_in(told, BrokenNode { nid, fault })
}

// All of them, and what is whole.
#[tactic(auto, unfolding(crate::specs::Nodes::nodes_damage, crate::specs::Nodes::whole_left))]
fn judge_left(alloc: Global, left: &Left) -> Result<JudgedNodes, Fault>
    ensures broken { let t = left_table left.now in
        IfOk result (λ j. j.broken.items ≡
        nodes_damage t (left_nodes left.now) (left_pages left.now)) }
    ensures whole { let t = left_table left.now in
        IfOk result (λ j. j.whole ≡ whole_left t (left_nodes left.now) (left_pages left.now)) }
    ensures err { IfErr result (λ f. f ≡ no_memory) }
{
    let mut broken = judge_each(alloc, left)?;
    let whole = whole_of(left.nodes.entries(), &broken);
    add_missing(left, STORE, &mut broken)?;
    add_missing(left, ROOT, &mut broken)?;
    Ok(JudgedNodes { broken, whole })
}

/// The nodes that are left of a damaged file, over the blocks without fault, where these pages of the node B-tree have a fault,
/// in the order in which they are looked at: each node by the rules of `find_damage`. NoMemory where memory is refused; nothing
/// else is refused.
pub fn judge_nodes(
    alloc: Global,
    blocks: Blocks,
    nodes: NodeList,
    pages: &[Broken],
) -> Result<JudgedNodes, Fault>
    ensures broken { let t = table_of blocks.entry in
        IfOk result (λ j. j.broken.items ≡ nodes_damage t (nodes_in_list nodes.entry) pages.now) }
    ensures whole { let t = table_of blocks.entry in
        IfOk result (λ j. j.whole ≡ whole_left t (nodes_in_list nodes.entry) pages.now) }
    ensures err { IfErr result (λ f. f ≡ no_memory) }
{
    let own = judge_trees(alloc, &blocks, nodes.entries())?;
    let pages = BrokenPages::of(alloc, pages)?;
    let left = Left {
        blocks,
        nodes,
        own: &own,
        pages: &pages,
    };
    judge_left(alloc, &left)
}
