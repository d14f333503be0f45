//! What a table context asks of the list of subnodes of its node.

ghost use Rattle.std.specs.Prelude.{◌≡◌, ℕ, ◌+◌, ◌≤◌, length, true, None, OnOk, IfErr};
ghost use Rattle.pst_bytes.specs.Image.{IsInside};
ghost use Rattle.pst_fault.specs.Each.{first_of};
ghost use Rattle.pst_fault.specs.Fault.{no_memory};
ghost use Rattle.pst_ndb.specs.Views.{table_of_node, roots_of};
ghost use Rattle.pst_heap.specs.View.{node_of, data_of};
ghost use Rattle.pst_bth.specs.View.{heap_of, sizes_in, records_of};
ghost use Rattle.pst_value.specs.Met.{AsksMore, HoldsWith};
ghost use Rattle.pst_tc.specs.Asks.{AsksMatrix, HoldsMatrix};
ghost use Rattle.pst_tc.specs.Info.{row_size, is_column, matrix_hnid};
ghost use Rattle.pst_tc.specs.Values.{tc_sizes, row_of_matrix};
ghost use Rattle.pst_tc.specs.Fault.{info_fault, cell_fault, cells_fault, row_record_fault, matrix_fault};
ghost use Rattle.pst_tc.specs.Matrix.{matrix_row, LiesIn};

use crate::cell::{is_present, is_typed};
use crate::front::Front;
use crate::info::{column_count, size_of};
use crate::matrix::{Matrix, row_of};
use crate::tc::Tc;
use pst_bth::Bth;
use pst_bytes::Span;
use pst_fault::Fault;
use pst_heap::Heap;
use pst_page::PageKind;
use pst_value::{Asks, Hnid, PropType, ask_value, hnid_of};
use std::alloc::Global;

// Asks for what the cell of a column in a row does.
#[tactic(auto, unfolding(crate::specs::Fault::cell_fault), using(crate::proofs::InfoLemmas::cell_inside, pst_value::proofs::TypeLemmas::typed_room, crate::proofs::TypedLemmas::typed_is, crate::proofs::RowLemmas::cell_sound))]
fn ask_cell(heap: &Heap, info: Span, row: Span, column: u64, asks: &mut Asks) -> Result<(), Fault>
    requires info { info.at + 22 ≤ length (data_of heap.now).image }
    requires column { column + 8 ≤ length (data_of heap.now).image }
    requires row { IsInside (data_of heap.now).image row }
    requires size { row.len ≡ row_size (data_of heap.now).image info }
    requires good { is_column (data_of heap.now).image info column ≡ true }
    requires sound { let node = node_of heap.now in
        cell_fault (table_of_node node) (roots_of node) info row.at column ≡ None }
    ensures holds { let node = node_of heap.now in let t = table_of_node node in
        OnOk result (HoldsWith t (roots_of node) asks.new
        (λ s. cell_fault t s info row.at column)) }
    ensures more { AsksMore asks.old asks.new }
    ensures memory { IfErr result (λ f. f ≡ no_memory) }
{
    let image = heap.image();
    if !is_present(image, info, row, column) {
        return Ok(());
    }
    if !is_typed(image, column) {
        return Ok(());
    }
    let kind = PropType(image.number16(column));
    let raw = Span {
        at: row.at + u64::from(image.number16(column + 4)),
        len: u64::from(image.number8(column + 6)),
    };
    ask_value(heap, kind, raw, asks)
}

// Asks for what the cells of a row do, in the order of their columns.
#[tactic(auto, using(crate::proofs::InfoLemmas::sound_room, crate::proofs::AskLemmas::cells_hold))]
fn ask_cells(heap: &Heap, info: Span, row: Span, asks: &mut Asks) -> Result<(), Fault>
    requires info { IsInside (data_of heap.now).image info }
    requires front { info_fault (data_of heap.now).image info ≡ None }
    requires row { IsInside (data_of heap.now).image row }
    requires size { row.len ≡ row_size (data_of heap.now).image info }
    requires sound { let node = node_of heap.now in
        cells_fault (table_of_node node) (roots_of node) info row.at ≡ None }
    ensures holds { let node = node_of heap.now in let t = table_of_node node in
        OnOk result (HoldsWith t (roots_of node) asks.new (λ s. cells_fault t s info row.at)) }
    ensures more { AsksMore asks.old asks.new }
    ensures memory { IfErr result (λ f. f ≡ no_memory) }
{
    let count = column_count(heap.image(), info);
    for i in 0..count {
        let column = info.at + 22 + 8 * u64::from(i);
        ask_cell(heap, info, row, column, asks)?;
    }
    Ok(())
}

// Asks for what the row of a record of the row index does.
#[tactic(auto, unfolding(crate::specs::Values::row_of_record), using(crate::proofs::RowLemmas::row_there, crate::proofs::RowLemmas::row_sound, crate::proofs::AskLemmas::row_holds))]
fn ask_row<'a>(
    heap: &Heap<'a>,
    info: Span,
    matrix: &mut Matrix<'a>,
    taken: (u32, Span),
    asks: &mut Asks,
) -> Result<(), Fault>
    requires info { IsInside (data_of heap.now).image info }
    requires front { info_fault (data_of heap.now).image info ≡ None }
    requires matrix { LiesIn (data_of heap.now).image matrix.old }
    requires rows { let node = node_of heap.now in let t = table_of_node node in
        let hnid = matrix_hnid t.image info in (size n : ℕ) →
        matrix_row matrix.old size n ≡ row_of_matrix t (roots_of node) hnid size n }
    requires inside { IsInside (data_of heap.now).image taken.1 }
    requires four { taken.1.len ≡ 4 }
    requires sound { let node = node_of heap.now in
        row_record_fault (table_of_node node) (roots_of node) info taken ≡ None }
    requires asked { let node = node_of heap.now in
        HoldsMatrix (table_of_node node) (roots_of node) info asks.old }
    ensures holds { let node = node_of heap.now in let t = table_of_node node in
        OnOk result (HoldsWith t (roots_of node) asks.new
        (λ s. row_record_fault t s info taken)) }
    ensures more { AsksMore asks.old asks.new }
    ensures lies { LiesIn (data_of heap.now).image matrix.new }
    ensures same { (size n : ℕ) → matrix_row matrix.new size n ≡ matrix_row matrix.old size n }
    ensures memory { IfErr result (λ f. f ≡ no_memory) }
{
    let image = heap.image();
    let size = size_of(image, info);
    let Some(row) = row_of(image, matrix, size, image.number32(taken.1.at)) else {
        unreachable!()
    };
    ask_cells(heap, info, row, asks)?;
    Ok(())
}

// Asks for what the rows of all records of the row index do, in order.
fn ask_rows<'a>(
    heap: &Heap<'a>,
    info: Span,
    matrix: Matrix<'a>,
    bth: &Bth,
    asks: &mut Asks,
) -> Result<(), Fault>
    requires info { IsInside (data_of heap.now).image info }
    requires front { info_fault (data_of heap.now).image info ≡ None }
    requires matrix { LiesIn (data_of heap.now).image matrix }
    requires rows { let node = node_of heap.now in let t = table_of_node node in
        let hnid = matrix_hnid t.image info in (size n : ℕ) →
        matrix_row matrix size n ≡ row_of_matrix t (roots_of node) hnid size n }
    requires heap { node_of (heap_of bth.now) ≡ node_of heap.now }
    requires sizes { sizes_in bth.now ≡ tc_sizes }
    requires sound { let node = node_of heap.now in
        first_of (row_record_fault (table_of_node node) (roots_of node) info) (records_of bth.now)
        ≡ None }
    requires asked { let node = node_of heap.now in
        HoldsMatrix (table_of_node node) (roots_of node) info asks.old }
    ensures holds { let node = node_of heap.now in let t = table_of_node node in
        OnOk result (HoldsWith t (roots_of node) asks.new
        (λ s. first_of (row_record_fault t s info) (records_of bth.now))) }
    ensures more { AsksMore asks.old asks.new }
    ensures memory { IfErr result (λ f. f ≡ no_memory) }
{
    let mut matrix = matrix;
    let mut rest = bth.records();
    while let Some(taken) = rest.next() {
        ask_row(heap, info, &mut matrix, taken, asks)?;
    }
    Ok(())
}

// What is asked of the list for the row matrix: where it is a subnode, that one, with the block of its data.
#[tactic(auto, using(crate::proofs::AskLemmas::nothing_asked, crate::proofs::AskLemmas::item_asked, crate::proofs::AskLemmas::blocks_asked, crate::proofs::AskLemmas::blocks_there))]
fn matrix_ask(heap: &Heap, info: Span) -> Option<(u32, u64)>
    requires info { IsInside (data_of heap.now).image info }
    requires room { 22 ≤ info.len }
    requires sound { let node = node_of heap.now in
        matrix_fault (table_of_node node) (roots_of node) info ≡ None }
    ensures { let node = node_of heap.now in
        AsksMatrix (table_of_node node) (roots_of node) info result }
{
    let hnid = heap.image().number32(info.at + 14);
    match hnid_of(hnid) {
        Hnid::Nothing => None,
        Hnid::Item(_) => None,
        Hnid::Subnode(nid) => match heap.node().sub(nid) {
            Some(sub) => Some((nid, PageKind::Bbt.key_of(sub.bid_data()))),
            None => unreachable!(),
        },
    }
}

impl<'a> Tc<'a> {
    ghost use Rattle.std.specs.Prelude.{◌≡◌, IfOk, IfErr};
    ghost use Rattle.pst_fault.specs.Fault.{no_memory};
    ghost use Rattle.pst_ndb.specs.Views.{table_of_node, roots_of};
    ghost use Rattle.pst_value.specs.Met.{HoldsWith};
    ghost use Rattle.pst_tc.specs.Fault.{tc_fault};
    ghost use Rattle.pst_tc.specs.Tc.{node_of_tc};

    /// What it asks of the list of its node's subnodes. The same data has no fault as a table context by any other list that meets
    /// this. Its rows are gone through, and no value is looked up. NoMemory, if memory runs out.
    #[tactic(auto, using(crate::proofs::RowLemmas::body_room, crate::proofs::RowLemmas::body_info, crate::proofs::RowLemmas::body_rows, crate::proofs::AskLemmas::body_named, crate::proofs::AskLemmas::matrix_holds, crate::proofs::AskLemmas::tc_holds))]
    pub fn asks(&self, alloc: Global) -> Result<Asks, Fault>
        ensures holds { let node = node_of_tc self.now in let t = table_of_node node in
            IfOk result (λ asks. HoldsWith t (roots_of node) asks (tc_fault t)) }
        ensures memory { IfErr result (λ f. f ≡ no_memory) }
    {
        let front = Front::of(self);
        front.is_sound();
        let heap = front.heap();
        let mut asks = Asks::of_matrix(alloc, matrix_ask(&heap, front.item()));
        let mut matrix = Matrix::Nothing;
        front.put_matrix(&mut matrix);
        ask_rows(&heap, front.item(), matrix, &front.index(), &mut asks)?;
        Ok(asks)
    }
}
