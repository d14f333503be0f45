//! Laws of data trees, each the contract of a function that does nothing.

ghost use Rattle.pst_block.specs.Blocks.{table_of};
ghost use Rattle.pst_datatree.specs.Data.{data_spans};
ghost use Rattle.pst_datatree.specs.Laws.{SameDataLaw};
ghost use Rattle.pst_datatree.specs.Relation.{DataLaw, UntoldLaw};
ghost use Rattle.pst_datatree.specs.Spans.{AreInside};

use pst_block::Blocks;

/// A block identifier has a data tree exactly where it has no first fault, and then the spans are the tree's.
pub fn data_decides()
    ensures { DataLaw }
{}

/// The first fault of a data tree is told of no node: the check of a node sets it.
pub fn data_names_no_node()
    ensures { UntoldLaw }
{}

/// Block identifiers that differ in bit 0 alone have the same spans, and the one has a fault exactly where the other has.
pub fn data_is_of_key()
    ensures { SameDataLaw }
{}

/// All spans of a data tree lie in the file.
#[tactic(auto, using(crate::proofs::InsideLemmas::data_spans_inside))]
pub fn data_lies_inside(blocks: &Blocks, bid: u64)
    ensures { AreInside (table_of blocks.now).image (data_spans (table_of blocks.now) bid) }
{
    blocks.lie_within();
}
