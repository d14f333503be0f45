//! The rows of a table with the cells that they have.

ghost use Rattle.std.specs.Prelude.{◌≡◌, IfOk, OnOk, map, option_map};
ghost use Rattle.serde_json.specs.View.{view};
ghost use Rattle.pst_ndb.specs.Views.{table_of_node, roots_of};
ghost use Rattle.pst_tc.specs.Left.{columns_left};
ghost use Rattle.pst_tc.specs.Tc.{node_of_tc};
ghost use Rattle.pst_tc.specs.Values.{IsFirstColumn, tc_rows};
ghost use Rattle.pst_tc.specs.View.{column_of, row_parts, tc_of_row};
ghost use Rattle.pst_value_json.specs.Cells.{cell_content, table_row_data};
ghost use Rattle.pst_value_json.specs.Columns.{has_tag, distinct_columns};
ghost use Rattle.pst_text.specs.Parts.{list_data};
ghost use Rattle.pst_value_json.specs.Places.{content_in};

use crate::pens::Pen;
use crate::trees::only;
use crate::write_cells::write_row;
use pst_datatree::Value;
use pst_tc::{Column, Columns, Row, Tc};
use serde_json::Value as Doc;
use std::alloc::{AllocError, Global};

// Whether a column with this tag is among these.
fn is_among(columns: &[Column], tag: u32) -> bool
    ensures { result ≡ has_tag tag (map column_of columns.now) }
{
    for column in columns {
        if column.tag == tag {
            return true;
        }
    }
    false
}

// All columns in order, but for those whose tag an earlier one has.
#[tactic(auto, unfolding(crate::specs::Columns::distinct_columns))]
fn shown_columns(alloc: Global, columns: Columns) -> Result<Vec<Column>, AllocError>
    ensures { IfOk result (λ v.
        map column_of v.items ≡ distinct_columns (columns_left columns.entry)) }
{
    let mut shown = Vec::new(alloc);
    for column in columns {
        if !is_among(&shown, column.tag) {
            shown.push(column)?;
        }
    }
    Ok(shown)
}

/// The value of the cell that a row has in a column, the first one with its tag. No column is gone through.
#[tactic(auto, using(crate::proofs::PlaceLemmas::value_content))]
pub(crate) fn cell_at<'a>(row: Row<'a>, column: Column) -> Option<Value<'a>>
    requires { let node = node_of_tc (tc_of_row row) in
        IsFirstColumn (table_of_node node) (roots_of node) (column_of column) }
    ensures { let node = node_of_tc (tc_of_row row.entry) in
        option_map content_in result ≡ cell_content (table_of_node node) (roots_of node)
        (row_parts row.entry).place.at (column_of column).tag }
{
    row.cell_in(column)
}

/// Writes all rows of a table, as a list of objects, in order of their identifiers, each with its cells, in order of the columns,
/// and its identifier. Cells that a row has not, and columns whose tag an earlier one has, are left out. A cell has the tag of its
/// column, and its value, as `value_doc` gives it, or, in a column that has not the width of its type, its bytes in hexadecimal.
/// With places, each has also a list of `[place,length]`, as the properties of `write_props` have.
pub fn write_table<P: Pen>(
    alloc: Global,
    tc: &Tc,
    places: bool,
    pen: &mut P,
) -> Result<(), AllocError>
    ensures put { let node = node_of_tc tc.now in let t = table_of_node node in
        let r = roots_of node in
        OnOk result (P.Puts pen.old pen.new (list_data (table_row_data places t r) (tc_rows t r))) }
    ensures kept { (base : P) → P.Keeps base pen.old → P.Keeps base pen.new }
{
    let columns = shown_columns(alloc, tc.columns())?;
    pen.open_list(alloc)?;
    let mut later = false;
    for row in tc.rows() {
        pen.comma(later)?;
        write_row(alloc, row, &columns, places, pen)?;
        pen.item(alloc)?;
        later = true;
    }
    pen.close_list(later)
}

/// The rows of a table as a JSON array, as `write_table` shows them.
pub fn table_doc(alloc: Global, tc: &Tc, places: bool) -> Result<Doc, AllocError>
    ensures { let node = node_of_tc tc.now in let t = table_of_node node in let r = roots_of node in
        IfOk result (λ d. view d ≡ list_data (table_row_data places t r) (tc_rows t r)) }
{
    let mut docs = Vec::new(alloc);
    write_table(alloc, tc, places, &mut docs)?;
    Ok(only(docs))
}
