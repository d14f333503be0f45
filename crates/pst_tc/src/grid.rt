//! TCINFO of a table context, and its row matrix.

ghost use Rattle.pst_ndb.specs.Views.{table_of_node, roots_of};
ghost use Rattle.pst_tc.specs.Info.{matrix_hnid};
ghost use Rattle.pst_tc.specs.Matrix.{LiesIn, LiesIn-prop, HasRowsOf, HasRowsOf-prop};
ghost use Rattle.pst_tc.specs.Tc.{node_of_tc};
ghost use Rattle.pst_tc.specs.Front.{front_tc, front_item};

use crate::front::Front;
use crate::info::size_of;
use crate::matrix::{Matrix, row_of};
use crate::row::Row;
use pst_bytes::Span;

/// TCINFO and the row matrix, each looked up once.
#[derive(Clone, Copy)]
pub(crate) struct Grid<'a> {
    front: Front<'a>,
    matrix: Matrix<'a>,
    ghost inside: { LiesIn (table_of_node (node_of_tc (front_tc front))).image
        matrix } by { LiesIn-prop (table_of_node (node_of_tc (front_tc front))).image matrix },
    ghost rows: { HasRowsOf (table_of_node (node_of_tc (front_tc front)))
        (roots_of (node_of_tc (front_tc front)))
        (matrix_hnid (table_of_node (node_of_tc (front_tc front))).image (front_item front))
        matrix } by { HasRowsOf-prop (table_of_node (node_of_tc (front_tc front)))
            (roots_of (node_of_tc (front_tc front)))
            (matrix_hnid (table_of_node (node_of_tc (front_tc front))).image (front_item front))
            matrix },
}

impl<'a> Grid<'a> {
    ghost use Rattle.std.specs.Prelude.{◌≡◌, ◌≤◌, None};
    ghost use Rattle.pst_bytes.specs.Image.{IsInside};
    ghost use Rattle.pst_ndb.specs.Views.{table_of_node, roots_of};
    ghost use Rattle.pst_tc.specs.Info.{matrix_hnid};
    ghost use Rattle.pst_tc.specs.Values.{row_parts_at};
    ghost use Rattle.pst_tc.specs.Fault.{row_record_fault};
    ghost use Rattle.pst_tc.specs.Matrix.{LiesIn, HasRowsOf};
    ghost use Rattle.pst_tc.specs.Tc.{node_of_tc};
    ghost use Rattle.pst_tc.specs.Front.{front_tc, front_item};
    ghost use Rattle.pst_tc.specs.Grid.{grid_front, grid_tc, grid_item};
    ghost use Rattle.pst_tc.specs.View.{row_parts, tc_of_row};

    /// TCINFO with its row matrix.
    #[inline(always)]
    pub(crate) fn of(front: &Front<'a>, matrix: &Matrix<'a>) -> Grid<'a>
        requires inside { let node = node_of_tc (front_tc front.now) in
            LiesIn (table_of_node node).image matrix.now }
        requires rows { let node = node_of_tc (front_tc front.now) in
            let t = table_of_node node in
            HasRowsOf t (roots_of node) (matrix_hnid t.image (front_item front.now)) matrix.now }
        ensures { grid_front result ≡ front.now }
    {
        Grid {
            front: *front,
            matrix: *matrix,
        }
    }

    /// The row of a record of the row index.
    #[tactic(auto, unfolding(crate::specs::Values::row_of_record), using(crate::proofs::RowLemmas::body_info, crate::proofs::RowLemmas::row_there, crate::proofs::RowLemmas::row_sound))]
    pub(crate) fn row(&mut self, id: u32, number: Span) -> Row<'a>
        requires inside { IsInside (table_of_node (node_of_tc (grid_tc self.old))).image number }
        requires behind { 4 ≤ number.at }
        requires four { number.len ≡ 4 }
        requires sound { let node = node_of_tc (grid_tc self.old) in
            row_record_fault (table_of_node node) (roots_of node) (grid_item self.old) (id, number)
            ≡ None }
        ensures row { let node = node_of_tc (grid_tc self.old) in
            row_parts result ≡ row_parts_at (table_of_node node) (roots_of node) (id, number) }
        ensures tc { tc_of_row result ≡ grid_tc self.old }
        ensures same { grid_front self.new ≡ grid_front self.old }
    {
        self.front.is_sound();
        let image = self.front.image();
        let size = size_of(image, self.front.item());
        let found = row_of(image, &mut self.matrix, size, image.number32(number.at));
        let Some(place) = found else { unreachable!() };
        Row::of(self.front, id, number.at - 4, place)
    }
}
