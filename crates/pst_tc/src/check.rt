//! The check of a table context.

ghost use Rattle.std.specs.Prelude.{◌≡◌, ℕ, ◌+◌, ◌≤◌, length, true, None, IfOk, IsOk, OnOk, option_map};
ghost use Rattle.pst_bytes.specs.Image.{IsInside};
ghost use Rattle.pst_fault.specs.First.{◌then◌, Checks};
ghost use Rattle.pst_fault.specs.Each.{first_of};
ghost use Rattle.pst_ndb.specs.Views.{table_of_node, roots_of};
ghost use Rattle.pst_heap.specs.Fault.{told_under};
ghost use Rattle.pst_heap.specs.View.{node_of, data_of};
ghost use Rattle.pst_heap.specs.Items.{heap_of_items, node_of_items, data_of_items};
ghost use Rattle.pst_bth.specs.View.{heap_of, sizes_in, records_of};
ghost use Rattle.pst_tc.specs.Info.{row_size, is_column, matrix_hnid};
ghost use Rattle.pst_tc.specs.Values.{tc_sizes, row_of_matrix};
ghost use Rattle.pst_tc.specs.Fault.{info_fault, cell_fault, cells_fault, row_record_fault, matrix_fault, tc_body_fault, tc_fault};
ghost use Rattle.pst_tc.specs.Grammar.{IsTc};
ghost use Rattle.pst_tc.specs.declared.matrix.Matrix.TheVariants.{Nothing};
ghost use Rattle.pst_tc.specs.Matrix.{matrix_row, LiesIn, HasRowsOf};
ghost use Rattle.pst_tc.specs.Tc.{node_of_tc};

use crate::cell::{is_present, is_typed};
use crate::info::{check_info, column_count, size_of};
use crate::matrix::{Matrix, matrix_item, put_matrix, row_of};
use crate::tc::Tc;
use pst_bth::{Bth, check_bth_at};
use pst_bytes::Span;
use pst_fault::{Fault, Kind};
use pst_heap::{Heap, Items, check_client, check_heap, known_heap, told_of};
use pst_ndb::Node;
use pst_value::{PropType, check_value, missing_at};

// The cell of a column in a row.
#[tactic(auto, unfolding(crate::specs::Fault::cell_fault), using(crate::proofs::InfoLemmas::cell_inside, pst_value::proofs::TypeLemmas::typed_room, crate::proofs::TypedLemmas::typed_is))]
fn check_cell(items: &mut Items, info: Span, row: Span, column: u64) -> Result<(), Fault>
    requires info { info.at + 22 ≤ length (data_of_items items.old).image }
    requires column { column + 8 ≤ length (data_of_items items.old).image }
    requires row { IsInside (data_of_items items.old).image row }
    requires size { row.len ≡ row_size (data_of_items items.old).image info }
    requires good { is_column (data_of_items items.old).image info column ≡ true }
    ensures exact { let node = node_of_items items.old in let r = roots_of node in
        let first = cell_fault (table_of_node node) r info row.at column in
        Checks result (option_map (told_under r) first) }
    ensures heap { heap_of_items items.new ≡ heap_of_items items.old }
{
    let image = items.heap().image();
    if !is_present(image, info, row, column) {
        return Ok(());
    }
    if !is_typed(image, column) {
        return Ok(());
    }
    let kind = PropType(image.number16(column));
    let raw = Span {
        at: row.at + u64::from(image.number16(column + 4)),
        len: u64::from(image.number8(column + 6)),
    };
    check_value(items, kind, raw.at, raw)
}

// The cells of a row, in the order of their columns.
#[tactic(auto, unfolding(crate::specs::Fault::cells_fault), using(crate::proofs::InfoLemmas::sound_room, crate::proofs::InfoLemmas::sound_column, crate::proofs::TcLemmas::cells_more, crate::proofs::TcLemmas::cells_fail, crate::proofs::TcLemmas::cells_done))]
fn check_cells(items: &mut Items, info: Span, row: Span) -> Result<(), Fault>
    requires info { IsInside (data_of_items items.old).image info }
    requires sound { info_fault (data_of_items items.old).image info ≡ None }
    requires row { IsInside (data_of_items items.old).image row }
    requires size { row.len ≡ row_size (data_of_items items.old).image info }
    ensures exact { let node = node_of_items items.old in let r = roots_of node in
        Checks result (option_map (told_under r) (cells_fault (table_of_node node) r info row.at)) }
    ensures heap { heap_of_items items.new ≡ heap_of_items items.old }
{
    let image = items.heap().image();
    let count = column_count(image, info);
    for i in 0..count {
        let column = info.at + 22 + 8 * u64::from(i);
        check_cell(items, info, row, column)?;
    }
    Ok(())
}

// The row of a record of the row index, and its cells.
#[tactic(auto, unfolding(crate::specs::Fault::row_record_fault, crate::specs::Values::row_of_record))]
fn check_row<'a>(
    items: &mut Items<'a>,
    info: Span,
    matrix: &mut Matrix<'a>,
    id: u32,
    content: Span,
) -> Result<(), Fault>
    requires info { IsInside (data_of_items items.old).image info }
    requires sound { info_fault (data_of_items items.old).image info ≡ None }
    requires matrix { LiesIn (data_of_items items.old).image matrix.old }
    requires rows { let node = node_of_items items.old in let t = table_of_node node in
        let hnid = matrix_hnid t.image info in (size n : ℕ) →
        matrix_row matrix.old size n ≡ row_of_matrix t (roots_of node) hnid size n }
    requires inside { IsInside (data_of_items items.old).image content }
    requires behind { 4 ≤ content.at }
    requires four { content.len ≡ 4 }
    ensures exact { let node = node_of_items items.old in let r = roots_of node in
        let first = row_record_fault (table_of_node node) r info (id, content) in
        Checks result (option_map (told_under r) first) }
    ensures lies { LiesIn (data_of_items items.old).image matrix.new }
    ensures same { (size n : ℕ) → matrix_row matrix.new size n ≡ matrix_row matrix.old size n }
    ensures heap { heap_of_items items.new ≡ heap_of_items items.old }
{
    let image = items.heap().image();
    let size = size_of(image, info);
    let bad = Fault::at(Kind::Table, content.at - 4);
    let Some(row) = row_of(image, matrix, size, image.number32(content.at)) else {
        return Err(told_of(&items.heap().node(), bad));
    };
    if image.number32(row.at) != id {
        return Err(told_of(&items.heap().node(), bad));
    }
    check_cells(items, info, row)
}

// The rows of all records of the row index, in order.
#[inline(always)]
#[tactic(auto, using(pst_bth::proofs::RecordLemmas::record_next, pst_bth::proofs::RecordLemmas::records_done))]
fn check_rows<'a>(heap: &Heap<'a>, info: Span, matrix: Matrix<'a>, bth: &Bth) -> Result<(), Fault>
    requires info { IsInside (data_of heap.now).image info }
    requires sound { info_fault (data_of heap.now).image info ≡ None }
    requires matrix { LiesIn (data_of heap.now).image matrix }
    requires rows { let node = node_of heap.now in let t = table_of_node node in
        let hnid = matrix_hnid t.image info in (size n : ℕ) →
        matrix_row matrix size n ≡ row_of_matrix t (roots_of node) hnid size n }
    requires heap { heap_of bth.now ≡ heap.now }
    requires sizes { sizes_in bth.now ≡ tc_sizes }
    ensures exact { let node = node_of heap.now in let r = roots_of node in
        let first = first_of (row_record_fault (table_of_node node) r info) (records_of bth.now) in
        Checks result (option_map (told_under r) first) }
{
    let mut items = Items::of(*heap);
    let mut matrix = matrix;
    let mut rest = bth.records();
    while let Some(taken) = rest.next() {
        check_row(&mut items, info, &mut matrix, taken.0, taken.1)?;
    }
    Ok(())
}

// TCINFO and its columns, told of the node.
fn check_front(heap: &Heap, info: Span) -> Result<(), Fault>
    requires { IsInside (data_of heap.now).image info }
    ensures exact { let first = info_fault (data_of heap.now).image info in
        Checks result (option_map (told_under (roots_of (node_of heap.now))) first) }
{
    match check_info(heap.image(), info) {
        Ok(()) => Ok(()),
        Err(fault) => Err(told_of(&heap.node(), fault)),
    }
}

// The row matrix, which is put in the place of none.
#[inline(always)]
#[tactic(auto, unfolding(crate::specs::Fault::matrix_fault), using(crate::proofs::InfoLemmas::sound_room, crate::proofs::TcLemmas::matrix_there, crate::proofs::TcLemmas::matrix_missing))]
fn check_matrix<'a>(heap: &Heap<'a>, info: Span, matrix: &mut Matrix<'a>) -> Result<(), Fault>
    requires info { IsInside (data_of heap.now).image info }
    requires room { 22 ≤ info.len }
    requires none { matrix.old ≡ Nothing }
    ensures exact { let node = node_of heap.now in let r = roots_of node in
        Checks result (option_map (told_under r) (matrix_fault (table_of_node node) r info)) }
    ensures inside { LiesIn (data_of heap.now).image matrix.new }
    ensures rows { let node = node_of heap.now in let t = table_of_node node in
        HasRowsOf t (roots_of node) (matrix_hnid t.image info) matrix.new }
{
    let image = heap.image();
    let named = info.at + 14;
    let hnid = image.number32(named);
    if put_matrix(heap, hnid, matrix) {
        return Ok(());
    }
    Err(told_of(&heap.node(), missing_at(named, hnid)))
}

// The row matrix wherever it lies, and the rows of all records. It may be many bytes, so this stands apart.
#[inline(never)]
#[tactic(auto, using(crate::proofs::TcLemmas::matrix_first, crate::proofs::TcLemmas::matrix_next))]
fn check_any_matrix(heap: &Heap, info: Span, bth: &Bth) -> Result<(), Fault>
    requires info { IsInside (data_of heap.now).image info }
    requires room { 22 ≤ info.len }
    requires sound { info_fault (data_of heap.now).image info ≡ None }
    requires heap { heap_of bth.now ≡ heap.now }
    requires sizes { sizes_in bth.now ≡ tc_sizes }
    ensures exact { let t = table_of_node (node_of heap.now) in
        let r = roots_of (node_of heap.now) in
        let rows = first_of (row_record_fault t r info) (records_of bth.now) in
        Checks result (option_map (told_under r) (matrix_fault t r info then rows)) }
{
    let mut matrix = Matrix::Nothing;
    check_matrix(heap, info, &mut matrix)?;
    check_rows(heap, info, matrix, bth)
}

// The row matrix, and the rows of all records.
#[inline]
#[tactic(auto, using(crate::proofs::InfoLemmas::sound_room, crate::proofs::TcLemmas::matrix_there, crate::proofs::TcLemmas::matrix_next))]
fn check_matrix_rows(heap: &Heap, info: Span, bth: &Bth) -> Result<(), Fault>
    requires info { IsInside (data_of heap.now).image info }
    requires room { 22 ≤ info.len }
    requires sound { info_fault (data_of heap.now).image info ≡ None }
    requires heap { heap_of bth.now ≡ heap.now }
    requires sizes { sizes_in bth.now ≡ tc_sizes }
    ensures exact { let t = table_of_node (node_of heap.now) in
        let r = roots_of (node_of heap.now) in
        let rows = first_of (row_record_fault t r info) (records_of bth.now) in
        Checks result (option_map (told_under r) (matrix_fault t r info then rows)) }
{
    let image = heap.image();
    match matrix_item(heap, image.number32(info.at + 14)) {
        Some(item) => check_rows(heap, info, Matrix::Item(item), bth),
        None => check_any_matrix(heap, info, bth),
    }
}

// TCINFO, and all that it names.
#[tactic(auto, using(crate::proofs::TcLemmas::info_told_none))]
fn check_body(heap: &Heap, info: Span) -> Result<(), Fault>
    requires inside { IsInside (data_of heap.now).image info }
    ensures exact { let node = node_of heap.now in let r = roots_of node in
        Checks result (option_map (told_under r) (tc_body_fault (table_of_node node) r info)) }
{
    check_front(heap, info)?;
    let _count = column_count(heap.image(), info);
    let bth = check_bth_at(
        heap,
        info.at + 10,
        heap.image().number32(info.at + 10),
        4,
        4,
    )?;
    check_matrix_rows(heap, info, &bth)
}

// What a heap has to have to be a table context.
pub(crate) fn check_content(heap: &Heap) -> Result<(), Fault>
    ensures exact { let node = node_of heap.now in
        Checks result (tc_fault (table_of_node node) (roots_of node)) }
{
    heap.is_sound();
    check_client(heap, 0x7C)?;
    let named = heap.user_root_place();
    let Some(info) = heap.item_span(heap.user_root()) else {
        return Err(told_of(&heap.node(), Fault::at(Kind::HeapId, named)));
    };
    check_body(heap, info)
}

// All of a table context.
fn check_all(node: Node<'_>) -> Result<Heap<'_>, Fault>
    ensures exact { Checks result (tc_fault (table_of_node node.entry) (roots_of node.entry)) }
    ensures node { IfOk result (λ h. node_of h ≡ node.entry) }
{
    let heap = check_heap(node)?;
    check_content(&heap)?;
    Ok(heap)
}

/// The table context of a node that has one. Its heap is looked up.
#[tactic(auto, using(crate::proofs::TcLemmas::has_heap))]
pub fn known_tc(node: Node<'_>) -> Tc<'_>
    requires { tc_fault (table_of_node node) (roots_of node) ≡ None }
    ensures { node_of_tc result ≡ node.entry }
{
    Tc::of(known_heap(node))
}

/// Checks the table context of a node ([MS-PST] 2.3.4), in this order, with the node's bidData and the node of the tree from
/// which it was reached:
///
/// - the heap, as `check_heap` does, and Heap at its first span, where the client signature is not 0x7C;
/// - TCINFO: HeapId at hidUserRoot, where that names no item; Table at the item, where it has no room for its columns, bType is not
///   0x7C, or the end offsets do not rise from 4 to at most 8,176;
/// - Table at the first column whose cells, or their bits, do not lie in a row;
/// - the row index, as `check_bth_at` does, with keys and data of 4 bytes, HeapId at hidRowIndex;
/// - HeapId or Subnode at hnidRows, where that is not 0 and names no item or no subnode;
/// - for each record of the row index Table at the record, where its row is not in the matrix or does not begin with its identifier;
///   then for each cell that is present, in the order of the columns, and whose column has the width of its type: HeapId or Subnode
///   at its HNID, where that names no item or no subnode; Property at the cell, where the value has a length that its type does not
///   allow.
///
/// It takes no memory. Of n rows each is looked at once, and each of its cells. Of a node that was lent an index of its subnodes
/// (`Node::indexed`) the row matrix and each value in one is found in about log n steps, in whatever order their list has them.
#[tactic(auto, using(crate::proofs::TcLaws::none_tc, crate::proofs::TcLaws::tc_none))]
pub fn check_tc(node: Node<'_>) -> Result<Tc<'_>, Fault>
    // A table context, or the first fault.
    ensures exact { Checks result (tc_fault (table_of_node node.entry) (roots_of node.entry)) }
    ensures node { IfOk result (λ t. node_of_tc t ≡ node.entry) }

    // What is found is one, and one is found.
    ensures found { OnOk result (IsTc (table_of_node node.entry) (roots_of node.entry)) }
    ensures only { IsTc (table_of_node node.entry) (roots_of node.entry) → IsOk result }
{
    let heap = check_all(node)?;
    Ok(Tc::of(heap))
}
