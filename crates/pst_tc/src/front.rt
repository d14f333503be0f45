//! TCINFO of a table context, and what it names.

ghost use Rattle.std.specs.Prelude.{◌≡◌, None};
ghost use Rattle.pst_bytes.specs.Image.{IsInside};
ghost use Rattle.pst_ndb.specs.Views.{table_of_node, roots_of};
ghost use Rattle.pst_tc.specs.Fault.{tc_body_fault};
ghost use Rattle.pst_tc.specs.Values.{info_of};
ghost use Rattle.pst_tc.specs.Tc.{node_of_tc};

use crate::columns::Columns;
use crate::grid::Grid;
use crate::info::column_count;
use crate::matrix::{Matrix, put_matrix};
use crate::tc::Tc;
use pst_bth::{Bth, known_bth};
use pst_bytes::{Image, Span};
use pst_heap::Heap;

/// TCINFO of a table context, looked up once.
#[derive(Clone, Copy)]
pub(crate) struct Front<'a> {
    tc: Tc<'a>,
    item: Span,
    ghost is: { item ≡ info_of (table_of_node (node_of_tc tc)) (roots_of (node_of_tc tc)) },
    ghost inside: { IsInside (table_of_node (node_of_tc tc)).image item },
    ghost sound: { tc_body_fault (table_of_node (node_of_tc tc)) (roots_of (node_of_tc tc)) item
        ≡ None },
}

impl<'a> Front<'a> {
    ghost use Rattle.std.specs.Prelude.{◌≡◌, None, map};
    ghost use Rattle.pst_bytes.specs.Image.{bytes_of, IsInside};
    ghost use Rattle.pst_ndb.specs.Views.{table_of_node, roots_of, image_of_node};
    ghost use Rattle.pst_heap.specs.View.{node_of};
    ghost use Rattle.pst_bth.specs.View.{heap_of, sizes_in, records_of};
    ghost use Rattle.pst_tc.specs.Info.{matrix_hnid, column_places};
    ghost use Rattle.pst_tc.specs.Values.{info_of, tc_sizes, tc_records, column_parts_at};
    ghost use Rattle.pst_tc.specs.Fault.{tc_body_fault};
    ghost use Rattle.pst_tc.specs.declared.matrix.Matrix.TheVariants.{Nothing};
    ghost use Rattle.pst_tc.specs.Matrix.{LiesIn, HasRowsOf};
    ghost use Rattle.pst_tc.specs.Tc.{node_of_tc};
    ghost use Rattle.pst_tc.specs.Front.{front_tc, front_item};
    ghost use Rattle.pst_tc.specs.Grid.{grid_front};
    ghost use Rattle.pst_tc.specs.Left.{columns_left};

    /// That of a table context.
    pub(crate) fn of(tc: &Tc<'a>) -> Front<'a>
        ensures { front_tc result ≡ tc.now }
    {
        let item = tc.info();
        Front { tc: *tc, item }
    }

    /// What is known of it: which item it is, where that lies, and that nothing that it names is at fault.
    pub(crate) fn is_sound(&self)
        ensures is { let node = node_of_tc (front_tc self.now) in
            front_item self.now ≡ info_of (table_of_node node) (roots_of node) }
        ensures inside { IsInside (table_of_node (node_of_tc (front_tc self.now))).image
            (front_item self.now) }
        ensures sound { let node = node_of_tc (front_tc self.now) in
            tc_body_fault (table_of_node node) (roots_of node) (front_item self.now) ≡ None }
    {}

    /// The item.
    pub(crate) fn item(&self) -> Span
        ensures { result ≡ front_item self.now }
    {
        self.item
    }

    /// The heap in which it is.
    pub(crate) fn heap(&self) -> Heap<'a>
        ensures { node_of result ≡ node_of_tc (front_tc self.now) }
    {
        self.tc.heap()
    }

    /// The file.
    pub(crate) fn image(&self) -> Image<'a>
        ensures same { result ≡ image_of_node (node_of_tc (front_tc self.now)) }
        ensures bytes { bytes_of result ≡ (table_of_node (node_of_tc (front_tc self.now))).image }
    {
        self.tc.node().image()
    }

    /// The row index.
    #[tactic(auto, unfolding(crate::specs::Values::tc_records), using(crate::proofs::RowLemmas::body_room, crate::proofs::RowLemmas::body_index))]
    pub(crate) fn index(&self) -> Bth<'a>
        ensures heap { node_of (heap_of result) ≡ node_of_tc (front_tc self.now) }
        ensures sizes { sizes_in result ≡ tc_sizes }
        ensures records { let node = node_of_tc (front_tc self.now) in
            records_of result ≡ tc_records (table_of_node node) (roots_of node)
            (front_item self.now) }
    {
        let heap = &self.tc.heap;
        let hid = heap.image().number32(self.item.at + 10);
        known_bth(heap, hid, 4, 4)
    }

    /// Puts the row matrix in the place of none.
    #[inline(always)]
    #[tactic(auto, using(crate::proofs::RowLemmas::body_room))]
    pub(crate) fn put_matrix(&self, matrix: &mut Matrix<'a>)
        requires { matrix.old ≡ Nothing }
        ensures inside { LiesIn (table_of_node (node_of_tc (front_tc self.now))).image matrix.new }
        ensures rows { let node = node_of_tc (front_tc self.now) in let t = table_of_node node in
            HasRowsOf t (roots_of node) (matrix_hnid t.image (front_item self.now)) matrix.new }
    {
        let heap = &self.tc.heap;
        let hnid = heap.image().number32(self.item.at + 14);
        let _is_there = put_matrix(heap, hnid, matrix);
    }

    /// TCINFO with the row matrix.
    pub(crate) fn grid(&self) -> Grid<'a>
        ensures { grid_front result ≡ self.now }
    {
        let mut matrix = Matrix::Nothing;
        self.put_matrix(&mut matrix);
        Grid::of(self, &matrix)
    }

    /// All columns.
    #[tactic(auto, using(crate::proofs::RowLemmas::body_info, crate::proofs::InfoLemmas::sound_room))]
    pub(crate) fn columns(&self) -> Columns<'a>
        ensures { let I = (table_of_node (node_of_tc (front_tc self.now))).image in
            columns_left result ≡ map (column_parts_at I) (column_places I (front_item self.now)) }
    {
        let image = self.image();
        Columns::of(image, self.item, column_count(image, self.item))
    }
}
