//! A row, and its cells.

ghost use Rattle.std.specs.Prelude.{◌≡◌, None};
ghost use Rattle.pst_bytes.specs.Image.{IsInside};
ghost use Rattle.pst_ndb.specs.Views.{table_of_node, roots_of};
ghost use Rattle.pst_tc.specs.Info.{row_size};
ghost use Rattle.pst_tc.specs.Fault.{cells_fault};
ghost use Rattle.pst_tc.specs.Tc.{node_of_tc};
ghost use Rattle.pst_tc.specs.Front.{front_tc, front_item};

use crate::cell::{is_present, is_typed};
use crate::columns::{Column, find_column};
use crate::front::Front;
use pst_bytes::Span;
use pst_datatree::{Value, value_at};
use pst_value::{PropType, known_value};

/// A row of a table context ([MS-PST] 2.3.4.4): its identifier, and a finite map from tags to values.
#[derive(Clone, Copy)]
pub struct Row<'a> {
    front: Front<'a>,
    id: u32,
    at: u64,
    place: Span,
    ghost inside: { IsInside (table_of_node (node_of_tc (front_tc front))).image place },
    ghost size: { place.len ≡ row_size (table_of_node (node_of_tc (front_tc front))).image
        (front_item front) },
    ghost sound: { cells_fault (table_of_node (node_of_tc (front_tc front)))
        (roots_of (node_of_tc (front_tc front))) (front_item front) place.at ≡ None },
}

impl<'a> Row<'a> {
    ghost use Rattle.std.specs.Prelude.{◌≡◌, ◌+◌, ◌≤◌, length, true, None};
    ghost use Rattle.pst_bytes.specs.Image.{IsInside};
    ghost use Rattle.pst_ndb.specs.Views.{image_of_node, table_of_node, roots_of};
    ghost use Rattle.pst_value.specs.View.{IsValue, IsValueOf};
    ghost use Rattle.pst_tc.specs.Info.{row_size, is_column, is_present as present};
    ghost use Rattle.pst_tc.specs.Values.{IsFirstColumn, cell_spans, present_spans, tc_cell};
    ghost use Rattle.pst_tc.specs.Fault.{cell_fault, cells_fault};
    ghost use Rattle.pst_tc.specs.Tc.{node_of_tc};
    ghost use Rattle.pst_tc.specs.Front.{front_tc, front_item};
    ghost use Rattle.pst_tc.specs.View.{column_of, row_parts, tc_of_row, row_item};

    // The row at a place, whose cells have no fault.
    pub(crate) fn of(front: Front<'a>, id: u32, at: u64, place: Span) -> Row<'a>
        requires inside { IsInside (table_of_node (node_of_tc (front_tc front))).image place }
        requires size { let t = table_of_node (node_of_tc (front_tc front)) in
            place.len ≡ row_size t.image (front_item front) }
        requires sound { let node = node_of_tc (front_tc front) in
            cells_fault (table_of_node node) (roots_of node) (front_item front) place.at ≡ None }
        ensures row { row_parts result ≡ record { id = id; at = at; place = place } }
        ensures tc { tc_of_row result ≡ front_tc front.entry }
    {
        Row {
            front,
            id,
            at,
            place,
        }
    }

    /// Its identifier.
    pub fn id(&self) -> u32
        ensures { result ≡ (row_parts self.now).id }
    {
        self.id
    }

    /// Where its record in the row index begins.
    pub fn at(&self) -> u64
        ensures { result ≡ (row_parts self.now).at }
    {
        self.at
    }

    // The value of its cell in a column, which is there.
    #[tactic(auto, unfolding(crate::specs::Values::cell_spans), using(crate::proofs::RowLemmas::body_room, crate::proofs::RowLemmas::cell_sound, crate::proofs::InfoLemmas::cell_inside, pst_value::proofs::TypeLemmas::typed_room, crate::proofs::TypedLemmas::typed_is))]
    fn value(&self, column: u64) -> Value<'a>
        requires column { let t = table_of_node (node_of_tc (tc_of_row self.now)) in
            column + 8 ≤ length t.image }
        requires good { let t = table_of_node (node_of_tc (tc_of_row self.now)) in
            is_column t.image (row_item self.now) column ≡ true }
        requires present { let I = (table_of_node (node_of_tc (tc_of_row self.now))).image in
            present I (row_item self.now) (row_parts self.now).place.at column ≡ true }
        requires sound { let node = node_of_tc (tc_of_row self.now) in
            let row = (row_parts self.now).place.at in
            cell_fault (table_of_node node) (roots_of node) (row_item self.now) row column ≡ None }
        ensures { let node = node_of_tc (tc_of_row self.now) in
            let row = (row_parts self.now).place.at in
            let spans = cell_spans (table_of_node node) (roots_of node) row column in
            IsValue (image_of_node node) spans result }
    {
        let image = self.front.image();
        let cell = Span {
            at: self.place.at + u64::from(image.number16(column + 4)),
            len: u64::from(image.number8(column + 6)),
        };
        if !is_typed(image, column) {
            return value_at(image, cell);
        }
        let kind = PropType(image.number16(column));
        known_value(&self.front.heap(), kind, cell)
    }

    // The value of its cell in a column; None exactly where it has none there.
    #[tactic(auto, using(crate::proofs::RowLemmas::body_info, crate::proofs::RowLemmas::body_room))]
    fn cell_at(&self, column: u64) -> Option<Value<'a>>
        requires column { let t = table_of_node (node_of_tc (tc_of_row self.now)) in
            column + 8 ≤ length t.image }
        requires good { let t = table_of_node (node_of_tc (tc_of_row self.now)) in
            is_column t.image (row_item self.now) column ≡ true }
        requires sound { let node = node_of_tc (tc_of_row self.now) in
            let row = (row_parts self.now).place.at in
            cell_fault (table_of_node node) (roots_of node) (row_item self.now) row column ≡ None }
        ensures { let node = node_of_tc (tc_of_row self.now) in
            let row = (row_parts self.now).place.at in
            let found = present_spans (table_of_node node) (roots_of node) row column in
            IsValueOf (image_of_node node) found result }
    {
        self.front.is_sound();
        let image = self.front.image();
        if !is_present(image, self.front.item(), self.place, column) {
            return None;
        }
        Some(self.value(column))
    }

    /// The value of the cell in the first column with a tag; None exactly where there is no such column, or the row has no cell in
    /// it. The columns are gone through; the value is looked up, as an item of the heap or as a subnode, whose pieces are not.
    #[tactic(auto, unfolding(crate::specs::Values::tc_cell), using(crate::proofs::RowLemmas::body_info, crate::proofs::RowLemmas::found_cell))]
    pub fn cell(&self, tag: u32) -> Option<Value<'a>>
        ensures { let node = node_of_tc (tc_of_row self.now) in
            let row = (row_parts self.now).place.at in
            let found = tc_cell (table_of_node node) (roots_of node) row tag in
            IsValueOf (image_of_node node) found result }
    {
        self.front.is_sound();
        let image = self.front.image();
        match find_column(image, self.front.item(), tag) {
            Some(column) => self.cell_at(column),
            None => None,
        }
    }

    /// The value of the cell in a column of its table, the first one with that tag: what `cell` answers for the tag, and no column
    /// is gone through. So the cells of a row are had by one pass over the columns.
    #[tactic(auto, unfolding(crate::specs::Values::tc_cell), using(crate::proofs::RowLemmas::first_place))]
    pub fn cell_in(&self, column: Column) -> Option<Value<'a>>
        requires { let node = node_of_tc (tc_of_row self.now) in
            IsFirstColumn (table_of_node node) (roots_of node) (column_of column) }
        ensures { let node = node_of_tc (tc_of_row self.now) in
            let row = (row_parts self.now).place.at in
            let tag = (column_of column).tag in
            let found = tc_cell (table_of_node node) (roots_of node) row tag in
            IsValueOf (image_of_node node) found result }
    {
        self.front.is_sound();
        self.cell_at(column.place)
    }
}
