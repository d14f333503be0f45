//! Broken nodes among those that are left of a file.

ghost use Rattle.std.specs.Prelude.{◌≡◌, ◌++◌, [], IfOk, OnOk};
ghost use Rattle.std.specs.List.{filter};
ghost use Rattle.pst_btree.specs.Lists.{nodes_in_list};
ghost use Rattle.pst_damage.specs.Judged.{Judged, kept_node, sound_by, broken_by};
ghost use Rattle.pst_whole.specs.Nodes.{is_there};

use pst_btree::NodeList;
use pst_damage::{BrokenNode, take_told};
use pst_fault::Fault;
use pst_page::NodeEntry;
use std::alloc::{AllocError, Global};

/// Those of these broken nodes that are there; of a node that every store has, it may have been told that it is missing.
pub(crate) fn told_there(nodes: NodeList, told: Vec<BrokenNode>) -> Vec<BrokenNode>
    ensures { result.items ≡ filter (is_there (nodes_in_list nodes.entry)) told.items }
{
    let mut told = told;
    told.retain(|node| nodes.find(node.nid).is_some());
    told
}

// Adds a node to the others, where it has no fault.
fn push_untold(
    whole: &mut Vec<NodeEntry>,
    entry: NodeEntry,
    fault: Option<Fault>,
) -> Result<(), AllocError>
    ensures { OnOk result (whole.new.items ≡ whole.old.items ++ kept_node fault entry []) }
{
    if fault.is_none() {
        whole.push(entry)?;
    }
    Ok(())
}

/// The nodes of which nothing is told, where all others are told in their order.
pub(crate) fn untold(
    alloc: Global,
    nodes: NodeList,
    told: &[BrokenNode],
) -> Result<Vec<NodeEntry>, AllocError>
    ensures { (part : Judged) → told.now ≡ broken_by part (nodes_in_list nodes.entry) →
        IfOk result (λ v. v.items ≡ sound_by part (nodes_in_list nodes.entry)) }
{
    let mut whole = Vec::new(alloc);
    let mut next = 0;
    nodes.nids_rise();
    for entry in nodes.entries() {
        let fault = take_told(told, &mut next, entry.nid);
        push_untold(&mut whole, *entry, fault)?;
    }
    Ok(whole)
}
