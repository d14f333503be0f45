//! The blocks of a row matrix.

ghost use Rattle.std.specs.Prelude.{◌≡◌, slice_get};
ghost use Rattle.pst_ndb.specs.Views.{table_of_node, data_bid_of};
ghost use Rattle.pst_datatree.specs.Data.{data_spans};
ghost use Rattle.pst_datatree.specs.Leaves.{leaves_spans};

use pst_bytes::Span;
use pst_datatree::Leaves;
use pst_ndb::Node;

/// The blocks of a subnode by their numbers, in any order, and the one that was asked for last: blocks that are asked for in
/// order, each as often as one likes, take one step each.
#[derive(Clone, Copy)]
pub(crate) struct Blocks<'a> {
    node: Node<'a>,
    // The number of the block that was asked for last, and where it lies; None behind the last one.
    number: u64,
    block: Option<Span>,
    leaves: Leaves<'a>,
    ghost found: { block ≡ slice_get (data_spans (table_of_node node) (data_bid_of node)) number },
    ghost all: { leaves_spans leaves ≡ data_spans (table_of_node node) (data_bid_of node) },
}

impl<'a> Blocks<'a> {
    ghost use Rattle.std.specs.Prelude.{◌≡◌, ◌^◌, ◌<◌, IfSome, slice_get};
    ghost use Rattle.pst_bytes.specs.Image.{IsInside};
    ghost use Rattle.pst_ndb.specs.Views.{table_of_node};
    ghost use Rattle.pst_tc.specs.Blocks.{blocks_node, matrix_spans};

    /// All blocks of a subnode.
    pub(crate) fn of(node: Node<'a>) -> Blocks<'a>
        ensures { blocks_node result ≡ node.entry }
    {
        let mut leaves = node.leaves();
        let block = leaves.leaf(0);
        Blocks {
            node,
            number: 0,
            block,
            leaves,
        }
    }

    /// The block with a number, which is then the one that was asked for last; None exactly where there is none.
    #[tactic(auto, using(crate::proofs::BlockLemmas::got_inside))]
    pub(crate) fn block(&mut self, number: u64) -> Option<Span>
        requires { number < 2 ^ 32 }
        ensures value { result ≡ slice_get (matrix_spans self.old) number }
        ensures inside { IfSome result (IsInside (table_of_node (blocks_node self.old)).image) }
        ensures same { blocks_node self.new ≡ blocks_node self.old }
    {
        self.node.is_sound();
        if number == self.number {
            return self.block;
        }
        let block = self.leaves.leaf(number);
        self.number = number;
        self.block = block;
        block
    }
}
