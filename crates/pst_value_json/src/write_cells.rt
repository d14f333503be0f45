//! The rows of a table with the cells that they have, written with a pen.

ghost use Rattle.std.specs.Prelude.{◌≡◌, ◌++◌, IfOk, OnOk, List, codes, map, option_map};
ghost use Rattle.serde_json.specs.Data.{Data};
ghost use Rattle.pst_ndb.specs.Views.{table_of_node, roots_of};
ghost use Rattle.pst_tc.specs.Tc.{node_of_tc};
ghost use Rattle.pst_tc.specs.View.{column_of, row_parts, tc_of_row};
ghost use Rattle.pst_value_json.specs.Cells.{cell_with, cell_in, cell_value, cell_data, cells_of, placed_members, row_data};
ghost use Rattle.pst_value_json.specs.Columns.{AreShown};
ghost use Rattle.pst_text.specs.Parts.{list_data};
ghost use Rattle.pst_value_json.specs.Places.{content_in, places_in};

use crate::cells::cell_at;
use crate::leaf::Leaf;
use crate::pens::Pen;
use crate::write_places::write_places;
use crate::write_values::write_value;
use pst_datatree::Value;
use pst_tc::{Column, Row};
use pst_value::PropType;
use std::alloc::{AllocError, Global};

// Writes the value of a cell.
fn write_cell_value<P: Pen>(
    alloc: Global,
    column: Column,
    value: &Value,
    pen: &mut P,
) -> Result<(), AllocError>
    ensures put { let cell = cell_with (column_of column) (content_in value.now) in
        OnOk result (P.Puts pen.old pen.new (cell_value cell)) }
    ensures kept { (base : P) → P.Keeps base pen.old → P.Keeps base pen.new }
{
    let kind = PropType((column.tag % 0x1_0000) as u16);
    if kind.cell_width() == Some(column.width) {
        write_value(alloc, kind, value, pen)
    } else {
        pen.leaf(alloc, &Leaf::Hex(value))
    }
}

// A cell begins: with its places, where these are asked for, and then the key of its tag.
fn open_cell<P: Pen>(
    alloc: Global,
    places: bool,
    value: &Value,
    pen: &mut P,
) -> Result<(), AllocError>
    ensures put { let front = placed_members places (places_in value.now) in
        OnOk result (P.AtKey pen.old pen.new front (codes "tag")) }
    ensures kept { (base : P) → P.Keeps base pen.old → P.Keeps base pen.new }
{
    if !places {
        return pen.first(alloc, "tag", b"{\"tag\":");
    }
    pen.first(alloc, "places", b"{\"places\":")?;
    write_places(alloc, value, pen)?;
    pen.next(alloc, "tag", b",\"tag\":")
}

// Writes a cell, as an object.
#[tactic(auto, unfolding(crate::specs::Cells::cell_data))]
fn write_cell<P: Pen>(
    alloc: Global,
    column: Column,
    value: &Value,
    places: bool,
    pen: &mut P,
) -> Result<(), AllocError>
    ensures put { let cell = cell_with (column_of column) (content_in value.now) in
        OnOk result (P.Puts pen.old pen.new (cell_data places cell)) }
    ensures kept { (base : P) → P.Keeps base pen.old → P.Keeps base pen.new }
{
    open_cell(alloc, places, value, pen)?;
    pen.leaf(alloc, &Leaf::Tag(column.tag))?;
    pen.next(alloc, "value", b",\"value\":")?;
    write_cell_value(alloc, column, value, pen)?;
    pen.close(alloc)
}

// Writes the cell of a column into a list, where the row has it; and whether any cell stands there then.
fn write_cell_of<P: Pen>(
    alloc: Global,
    column: Column,
    value: &Option<Value>,
    places: bool,
    later: bool,
    pen: &mut P,
) -> Result<bool, AllocError>
    ensures put { let cell = cell_in (column_of column) (option_map content_in value.now) in
        (base : P) (done : List Data) → P.InList base pen.old later done → IfOk result (λ more.
        P.InList base pen.new more (done ++ map (cell_data places) cell)) }
    ensures kept { (base : P) → P.Keeps base pen.old → P.Keeps base pen.new }
{
    let Some(value) = value else {
        return Ok(later);
    };
    pen.comma(later)?;
    write_cell(alloc, column, value, places, pen)?;
    pen.item(alloc)?;
    Ok(true)
}

// Writes the cells that a row has in these columns, as a list of objects: one pass over the columns.
fn write_cells<P: Pen>(
    alloc: Global,
    row: Row,
    columns: &[Column],
    places: bool,
    pen: &mut P,
) -> Result<(), AllocError>
    requires { AreShown (tc_of_row row) columns.now }
    ensures put { let node = node_of_tc (tc_of_row row.entry) in
        let cells = cells_of (table_of_node node) (roots_of node) (row_parts row.entry).place.at
        (map column_of columns.now) in
        OnOk result (P.Puts pen.old pen.new (list_data (cell_data places) cells)) }
    ensures kept { (base : P) → P.Keeps base pen.old → P.Keeps base pen.new }
{
    pen.open_list(alloc)?;
    let mut later = false;
    for column in columns {
        let value = cell_at(row, *column);
        later = write_cell_of(alloc, *column, &value, places, later, pen)?;
    }
    pen.close_list(later)
}

/// Writes a row, as an object, of the columns that are shown of its table.
#[tactic(auto, unfolding(crate::specs::Cells::row_data))]
pub(crate) fn write_row<P: Pen>(
    alloc: Global,
    row: Row,
    columns: &[Column],
    places: bool,
    pen: &mut P,
) -> Result<(), AllocError>
    requires { AreShown (tc_of_row row) columns.now }
    ensures put { let node = node_of_tc (tc_of_row row.entry) in
        let shown = row_data places (table_of_node node) (roots_of node)
        (map column_of columns.now) (row_parts row.entry) in
        OnOk result (P.Puts pen.old pen.new shown) }
    ensures kept { (base : P) → P.Keeps base pen.old → P.Keeps base pen.new }
{
    pen.first(alloc, "cells", b"{\"cells\":")?;
    write_cells(alloc, row, columns, places, pen)?;
    pen.next(alloc, "row", b",\"row\":")?;
    pen.leaf(alloc, &Leaf::Nid(Some(row.id())))?;
    pen.close(alloc)
}
