//! Lists of identifiers.

ghost use Rattle.std.specs.Prelude.{OnOk};
ghost use Rattle.pst_ndb.specs.Views.{table_of_node, roots_of};
ghost use Rattle.pst_value_json.specs.pst_text.Names.{nid_data};
ghost use Rattle.pst_value_json.specs.pst_text.Parts.{list_data};
ghost use Rattle.pst_value_json.specs.pst_tc.Tc.{node_of_tc};
ghost use Rattle.pst_value_json.specs.pst_tc.Values.{tc_rows};
ghost use Rattle.pst_json.specs.Folders.{row_nid};

use pst_value_json::{Leaf, Pen, Tc};
use std::alloc::{AllocError, Global};

/// Writes identifiers, as a list.
pub(crate) fn write_nids<P: Pen>(alloc: Global, nids: &[u32], pen: &mut P) -> Result<(), AllocError>
    ensures put { OnOk result (P.Puts pen.old pen.new (list_data nid_data nids.now)) }
    ensures kept { (base : P) → P.Keeps base pen.old → P.Keeps base pen.new }
{
    pen.open_list(alloc)?;
    let mut later = false;
    for nid in nids {
        pen.comma(later)?;
        pen.leaf(alloc, &Leaf::Nid(Some(*nid)))?;
        pen.item(alloc)?;
        later = true;
    }
    pen.close_list(later)
}

/// Writes the identifiers of the rows of a table, as a list.
pub(crate) fn write_row_nids<P: Pen>(alloc: Global, tc: &Tc, pen: &mut P) -> Result<(), AllocError>
    ensures put { let node = node_of_tc tc.now in
        let rows = tc_rows (table_of_node node) (roots_of node) in
        OnOk result (P.Puts pen.old pen.new (list_data row_nid rows)) }
    ensures kept { (base : P) → P.Keeps base pen.old → P.Keeps base pen.new }
{
    pen.open_list(alloc)?;
    let mut later = false;
    for row in tc.rows() {
        pen.comma(later)?;
        pen.leaf(alloc, &Leaf::Nid(Some(row.id())))?;
        pen.item(alloc)?;
        later = true;
    }
    pen.close_list(later)
}
