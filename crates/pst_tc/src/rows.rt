//! All rows, in order of their identifiers.

ghost use Rattle.std.specs.Prelude.{◌≡◌, None};
ghost use Rattle.pst_fault.specs.Each.{first_of};
ghost use Rattle.pst_ndb.specs.Views.{table_of_node, roots_of};
ghost use Rattle.pst_heap.specs.View.{data_of};
ghost use Rattle.pst_bth.specs.View.{heap_of, sizes_in};
ghost use Rattle.pst_bth.specs.Left.{bth_left, records_left};
ghost use Rattle.pst_tc.specs.Fault.{row_record_fault};
ghost use Rattle.pst_tc.specs.Values.{tc_sizes};
ghost use Rattle.pst_tc.specs.Tc.{node_of_tc};
ghost use Rattle.pst_tc.specs.Grid.{grid_tc, grid_item};

use crate::front::Front;
use crate::grid::Grid;
use crate::matrix::Matrix;
use crate::row::Row;
use pst_bth::Records;

/// The rows of a table context that are left, identifiers rising. No memory is taken. The row matrix is kept, and
/// the block of the last row: rows in order take one step each.
#[derive(Clone, Copy)]
pub struct Rows<'a> {
    grid: Grid<'a>,
    rest: Records<'a>,
    ghost image: { (data_of (heap_of (bth_left rest))).image
        ≡ (table_of_node (node_of_tc (grid_tc grid))).image },
    ghost sizes: { sizes_in (bth_left rest) ≡ tc_sizes },
    ghost sound: { first_of (row_record_fault (table_of_node (node_of_tc (grid_tc grid)))
        (roots_of (node_of_tc (grid_tc grid))) (grid_item grid)) (records_left rest) ≡ None },
}

impl<'a> Rows<'a> {
    ghost use Rattle.std.specs.Prelude.{◌≡◌, map};
    ghost use Rattle.pst_ndb.specs.Views.{table_of_node, roots_of};
    ghost use Rattle.pst_tc.specs.Values.{info_of, tc_records};
    ghost use Rattle.pst_tc.specs.Tc.{node_of_tc};
    ghost use Rattle.pst_tc.specs.Front.{front_tc};
    ghost use Rattle.pst_tc.specs.Left.{tc_left, row_records_left};

    // All rows. The matrix is a variable, which is put where it is kept by one copy: an answer would be copied several times.
    #[tactic(auto, using(crate::proofs::RowLemmas::body_rows))]
    pub(crate) fn all(front: &Front<'a>) -> Rows<'a>
        ensures records { let node = node_of_tc (front_tc front.now) in
            let t = table_of_node node in
            let r = roots_of node in
            row_records_left result ≡ tc_records t r (info_of t r) }
        ensures tc { tc_left result ≡ front_tc front.now }
    {
        front.is_sound();
        let rest = front.index().records();
        let mut matrix = Matrix::Nothing;
        front.put_matrix(&mut matrix);
        Rows {
            grid: Grid::of(front, &matrix),
            rest,
        }
    }
}

impl<'a> Iterator for Rows<'a> {
    ghost use Rattle.std.specs.Iterator.{item_count};
    ghost use Rattle.pst_tc.specs.Left.{tc_rows_left, TakesRow};

    type Item = Row<'a>;

    ghost next_gives = { TakesRow };

    ghost remaining = { item_count tc_rows_left };

    #[tactic(auto, using(pst_fault::proofs::EachLemmas::each_first, pst_fault::proofs::EachLemmas::each_rest))]
    fn next(&mut self) -> Option<Row<'a>> {
        let (id, number) = self.rest.next()?;
        Some(self.grid.row(id, number))
    }
}
