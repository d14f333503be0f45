//! What messaging asks of the nodes of a damaged file.

ghost use Rattle.std.specs.Prelude.{◌≡◌, None, IfOk, IfErr};
ghost use Rattle.pst_fault.specs.Fault.{no_memory};
ghost use Rattle.pst_fault.specs.First.{Tells};
ghost use Rattle.pst_ndb.specs.Fault.{node_fault};
ghost use Rattle.pst_ndb.specs.Views.{table_of_node, roots_of};
ghost use Rattle.pst_damage.specs.Folder.{asked_damage};
ghost use Rattle.pst_damage.specs.Known.{IsKnownOf};
ghost use Rattle.pst_damage.specs.Left.{left_table, left_nodes, left_pages};
ghost use Rattle.pst_damage.specs.Nodes.{node_damage};

use crate::broken::found;
use crate::folder::check_folder;
use crate::known::JudgedParts;
use crate::left::{Left, node_of};
use pst_btree::NodeEntry;
use pst_fault::Fault;
use pst_msg::{FOLDER, NAME_MAP, SEARCH_FOLDER, STORE, is_message, is_type};
use pst_ndb::Node;

// What is asked of a sound node, by its identifier.
#[tactic(auto, unfolding(crate::specs::Folder::asked_damage))]
fn check_asked(left: &Left, node: Node, known: &mut JudgedParts) -> Result<(), Fault>
    requires table { table_of_node node ≡ left_table left.now }
    requires known { let nodes = left_nodes left.now in
        IsKnownOf (left_table left.now) nodes (left_pages left.now) known.old }
    ensures known { let nodes = left_nodes left.now in
        IsKnownOf (left_table left.now) nodes (left_pages left.now) known.new }
    ensures exact { let t = left_table left.now in
        Tells result (asked_damage t (left_nodes left.now) (left_pages left.now)
        (roots_of node.entry)) tt }
{
    let nid = node.top();
    if nid == STORE {
        return known.contexts.check_properties(node);
    }
    if nid == NAME_MAP {
        return known.contexts.check_name_map(node);
    }
    if is_type(FOLDER, nid) {
        return check_folder(left, node, known);
    }
    if is_type(SEARCH_FOLDER, nid) {
        return known.contexts.check_properties(node);
    }
    if is_message(nid) {
        return known.contexts.check_message(node);
    }
    Ok(())
}

/// The first fault of a node: that of its own trees, where there is one, else what is asked of it. NoMemory where memory is
/// refused.
#[tactic(auto, unfolding(crate::specs::Nodes::node_damage))]
pub(crate) fn fault_of(
    left: &Left,
    entry: NodeEntry,
    own: Option<Fault>,
    known: &mut JudgedParts,
) -> Result<Option<Fault>, Fault>
    requires own { own ≡ node_fault (left_table left.now) entry }
    requires known { let nodes = left_nodes left.now in
        IsKnownOf (left_table left.now) nodes (left_pages left.now) known.old }
    ensures known { let nodes = left_nodes left.now in
        IsKnownOf (left_table left.now) nodes (left_pages left.now) known.new }
    ensures exact { let t = left_table left.now in
        IfOk result (λ o. o ≡ node_damage t (left_nodes left.now) (left_pages left.now) entry) }
    ensures err { IfErr result (λ f. f ≡ no_memory) }
{
    if let Some(fault) = own {
        return Ok(Some(fault));
    }
    let list = [entry];
    let node = node_of(left.blocks, entry, &list);
    found(check_asked(left, node, known))
}
