//! Laws of blocks, each the contract of a function that does nothing.

ghost use Rattle.pst_block.specs.Good.{BlockLaw};
ghost use Rattle.pst_block.specs.Walk.{BlocksLaw};

/// A block is good exactly where it has no first fault.
pub fn block_decides()
    ensures { BlockLaw }
{}

/// Where each unit of the mapped part has its flag, all blocks are checked without fault exactly where each is good, and they
/// have no byte in common with what is claimed or with each other.
pub fn blocks_decide()
    ensures { BlocksLaw }
{}
