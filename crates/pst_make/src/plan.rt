//! What a store is made of, as its maker names it.

ghost use Rattle.std.specs.Prelude.{◌≡◌};
ghost use Rattle.pst_make.specs.declared.plan.MakeFault.TheVariants.{Memory};

use std::alloc::{AllocError, AllocFailed};
use thiserror::Error;

/// A block of the store ([MS-PST] 2.2.2.8).
#[derive(Debug, Drop)]
pub struct BlockPlan {
    /// Its identifier, a BID ([MS-PST] 2.2.2.2).
    pub bid: u64,
    /// Its bytes, at most 8,176.
    pub body: Vec<u8>,
}

/// A node of the store: an entry of the node B-tree ([MS-PST] 2.2.2.7.7.4).
#[derive(Clone, Copy, Debug, PartialEq, Eq)]
pub struct NodePlan {
    /// Its identifier, a NID ([MS-PST] 2.2.2.1).
    pub nid: u32,
    /// The BID of its data, or 0.
    pub bid_data: u64,
    /// The BID of its subnodes, or 0.
    pub bid_sub: u64,
    /// The NID of its parent, or 0.
    pub parent: u32,
}

/// A store to be made. In a good store the identifiers of the blocks strictly rise, and so do those of the nodes;
/// where they do not, what is made is laid out all the same, and its trees are out of order.
#[derive(Debug, Drop)]
pub struct Plan {
    /// The blocks, in the order of the block B-tree and of their places.
    pub blocks: Vec<BlockPlan>,
    /// The nodes, in the order of the node B-tree.
    pub nodes: Vec<NodePlan>,
}

/// Why a plan is not made.
#[derive(Clone, Copy, Debug, PartialEq, Eq, Error)]
pub enum MakeFault {
    /// The store would need more than 16 allocation maps.
    #[error("the plan needs more than 16 allocation maps")]
    TooLarge,
    /// A block's body has more than 8,176 bytes.
    #[error("a body is longer than 8,176 bytes")]
    Body,
    /// Memory was refused.
    #[error("out of memory")]
    Memory,
}

impl From<AllocError> for MakeFault {
    ghost from_gives = { λ _ f. f ≡ Memory };

    fn from(_error: AllocError) -> MakeFault {
        MakeFault::Memory
    }
}

impl<T: Drop> From<AllocFailed<T>> for MakeFault {
    ghost from_gives = { λ _ f. f ≡ Memory };

    fn from(_error: AllocFailed<T>) -> MakeFault {
        MakeFault::Memory
    }
}
