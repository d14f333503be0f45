//! The check of a table context by one who remembers page maps.

ghost use Rattle.std.specs.Prelude.{◌≡◌, IfOk};
ghost use Rattle.pst_fault.specs.First.{TellsFirst};
ghost use Rattle.pst_ndb.specs.Views.{table_of_node, roots_of};
ghost use Rattle.pst_heap.specs.PageMaps.{AreMapsTrue};
ghost use Rattle.pst_tc.specs.Fault.{tc_fault};
ghost use Rattle.pst_tc.specs.Tc.{node_of_tc};

use crate::check::check_content;
use crate::tc::Tc;
use pst_fault::Fault;
use pst_heap::{PageMaps, check_heap_with};
use pst_ndb::Node;

/// Checks the table context of a node as `check_tc` does, its heap by what is known of page maps, as `check_heap_with` does.
/// NoMemory where memory is refused for that.
pub fn check_tc_with<'a>(node: Node<'a>, maps: &mut PageMaps) -> Result<Tc<'a>, Fault>
    // What is known is true, and stays so.
    requires known { AreMapsTrue (table_of_node node) maps.old }
    ensures known { AreMapsTrue (table_of_node node.entry) maps.new }

    // A table context, or the first fault; or that memory ran out.
    ensures exact { TellsFirst result (tc_fault (table_of_node node.entry) (roots_of node.entry)) }
    ensures node { IfOk result (λ t. node_of_tc t ≡ node.entry) }
{
    let heap = check_heap_with(node, maps)?;
    match check_content(&heap) {
        Ok(()) => Ok(Tc::of(heap)),
        Err(fault) => Err(fault),
    }
}
