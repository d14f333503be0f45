//! A table context as a view.

ghost use Rattle.std.specs.Prelude.{◌≡◌, None};
ghost use Rattle.pst_ndb.specs.Views.{table_of_node, roots_of};
ghost use Rattle.pst_heap.specs.View.{node_of};
ghost use Rattle.pst_tc.specs.Fault.{tc_fault};

use crate::columns::Columns;
use crate::front::Front;
use crate::row::Row;
use crate::rows::Rows;
use pst_bytes::Span;
use pst_heap::{Heap, known_heap};
use pst_ndb::{Node, SubIndex};

/// A table context without fault ([MS-PST] 2.3.4): columns, and a finite map from identifiers to rows.
#[derive(Clone, Copy)]
pub struct Tc<'a> {
    pub(crate) heap: Heap<'a>,
    ghost sound: { tc_fault (table_of_node (node_of heap)) (roots_of (node_of heap)) ≡ None },
}

impl<'a> Tc<'a> {
    ghost use Rattle.std.specs.Prelude.{◌≡◌, IfSome, None, length, option_map};
    ghost use Rattle.pst_bytes.specs.Image.{IsInside};
    ghost use Rattle.pst_btree.specs.Entries.{first_with};
    ghost use Rattle.pst_ndb.specs.Views.{image_of_node, table_of_node, nid_of, roots_of, IsIndexedBy};
    ghost use Rattle.pst_heap.specs.View.{node_of};
    ghost use Rattle.pst_tc.specs.Fault.{tc_fault, tc_body_fault};
    ghost use Rattle.pst_tc.specs.Grammar.{IsTc};
    ghost use Rattle.pst_tc.specs.Values.{info_of, tc_columns, row_id_of, tc_rows};
    ghost use Rattle.pst_tc.specs.Tc.{node_of_tc};
    ghost use Rattle.pst_tc.specs.View.{row_parts, tc_of_row};
    ghost use Rattle.pst_tc.specs.Left.{columns_left, tc_left, tc_rows_left};

    // That of a heap which is one.
    pub(crate) fn of(heap: Heap<'a>) -> Tc<'a>
        requires { tc_fault (table_of_node (node_of heap)) (roots_of (node_of heap)) ≡ None }
        ensures { node_of_tc result ≡ node_of heap.entry }
    {
        Tc { heap }
    }

    /// What is known of every table context: it has no first fault, so it is one by the grammar.
    #[tactic(auto, using(crate::proofs::TcLaws::none_tc))]
    pub fn is_sound(&self)
        ensures sound { let node = node_of_tc self.now in
            tc_fault (table_of_node node) (roots_of node) ≡ None }
        ensures context { let node = node_of_tc self.now in
            IsTc (table_of_node node) (roots_of node) }
    {}

    /// The node whose data it is.
    pub fn node(&self) -> Node<'a>
        ensures { result ≡ node_of_tc self.now }
    {
        self.heap.node()
    }

    /// The same, whose node is lent an index of its subnodes: cells in subnodes are found by it from then on, each of n in about
    /// log n steps, in whatever order their list has them.
    #[tactic(auto, using(crate::proofs::TcLemmas::has_heap))]
    pub fn indexed(self, index: &'a SubIndex) -> Tc<'a>
        requires { IsIndexedBy (node_of_tc self) index.now }
        ensures roots { roots_of (node_of_tc result) ≡ roots_of (node_of_tc self.entry) }
        ensures image { image_of_node (node_of_tc result) ≡ image_of_node (node_of_tc self.entry) }
        ensures table { table_of_node (node_of_tc result) ≡ table_of_node (node_of_tc self.entry) }
        ensures nid { nid_of (node_of_tc result) ≡ nid_of (node_of_tc self.entry) }
    {
        Tc::of(known_heap(self.node().indexed(index)))
    }

    // The heap in which it is.
    pub(crate) fn heap(&self) -> Heap<'a>
        ensures { node_of result ≡ node_of_tc self.now }
    {
        self.heap
    }

    // TCINFO.
    #[tactic(auto, unfolding(crate::specs::Values::info_of))]
    pub(crate) fn info(&self) -> Span
        ensures value { let node = node_of_tc self.now in
            result ≡ info_of (table_of_node node) (roots_of node) }
        ensures inside { IsInside (table_of_node (node_of_tc self.now)).image result }
        ensures sound { let node = node_of_tc self.now in
            tc_body_fault (table_of_node node) (roots_of node) result ≡ None }
    {
        match self.heap.item_span(self.heap.user_root()) {
            Some(info) => info,
            None => unreachable!(),
        }
    }

    /// All columns, in order.
    #[tactic(auto, unfolding(crate::specs::Values::tc_columns))]
    pub fn columns(&self) -> Columns<'a>
        ensures { let node = node_of_tc self.now in
            columns_left result ≡ tc_columns (table_of_node node) (roots_of node) }
    {
        Front::of(self).columns()
    }

    /// All rows, in order of their identifiers, each once. The row matrix is looked up once.
    #[tactic(auto, unfolding(crate::specs::Values::tc_rows))]
    pub fn rows(&self) -> Rows<'a>
        ensures left { let node = node_of_tc self.now in
            tc_rows_left result ≡ tc_rows (table_of_node node) (roots_of node) }
        ensures tc { tc_left result ≡ self.now }
    {
        Rows::all(&Front::of(self))
    }

    /// How many rows there are. The row index is gone through leaf by leaf, and the matrix is not.
    #[tactic(auto, unfolding(crate::specs::Values::tc_rows))]
    pub fn row_count(&self) -> u64
        ensures { let node = node_of_tc self.now in
            result ≡ length (tc_rows (table_of_node node) (roots_of node)) }
    {
        let front = Front::of(self);
        front.is_sound();
        front.index().count()
    }

    /// The row with an identifier; None exactly where there is none. It is found as a record of the row index is, and the matrix
    /// is opened for it: where that is a subnode, it is looked up in the node's list.
    pub fn row(&self, id: u32) -> Option<Row<'a>>
        ensures value { let node = node_of_tc self.now in
            let rows = tc_rows (table_of_node node) (roots_of node) in
            option_map row_parts result ≡ first_with row_id_of id rows }
        ensures tc { IfSome result (λ row. tc_of_row row ≡ self.now) }
    {
        let front = Front::of(self);
        front.is_sound();
        let Some(number) = front.index().find(id) else {
            return None;
        };
        let mut grid = front.grid();
        Some(grid.row(id, number))
    }
}
