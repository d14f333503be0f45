//! What is already known of the identifiers in SLBLOCKs.

use crate::numbers::Numbers;
use crate::stamps::Stamps;
use pst_fault::Fault;
use pst_page::PageKind;
use std::alloc::Global;
use std::collections::BTreeMap;

// Where identifiers lie that rise: none is below `first`, and all are below `end`.
#[derive(Clone, Copy)]
pub(crate) struct NidRange {
    pub(crate) first: u64,
    pub(crate) end: u64,
}

// The SLBLOCKs whose identifiers were found to rise, each of which was gone through for that, and where these lie; and the
// numbers of identifiers, where they do not rise through an SIBLOCK.
#[derive(Drop)]
pub(crate) struct Ranges {
    // By the keys of the SLBLOCKs.
    ranges: BTreeMap<u64, NidRange>,
    pub(crate) numbers: Numbers,
    pub(crate) stamps: Stamps,
}

impl Ranges {
    ghost use Rattle.std.specs.Prelude.{◌≡◌, IfErr};
    ghost use Rattle.pst_fault.specs.Fault.{no_memory};
    ghost use Rattle.pst_block.specs.Table.{Table};
    ghost use Rattle.pst_subnode.specs.Ranges.{range_of, IsRangeOf, AreRangesTrue};

    // Nothing is known. No memory is taken.
    pub(crate) fn new(alloc: Global) -> Ranges
        ensures { (t : Table) → AreRangesTrue t result }
    {
        Ranges {
            ranges: BTreeMap::new(alloc),
            numbers: Numbers::new(alloc),
            stamps: Stamps::new(alloc),
        }
    }

    // What is known of an SLBLOCK.
    #[tactic(auto, unfolding(crate::specs::Ranges::range_of))]
    pub(crate) fn get(&self, bid: u64) -> Option<NidRange>
        ensures { result ≡ range_of self.now bid }
    {
        self.ranges.get(&PageKind::Bbt.key_of(bid)).copied()
    }

    // The identifiers in an SLBLOCK rise within this range; or memory is refused, and all stays as it is.
    pub(crate) fn put(&mut self, bid: u64, range: NidRange) -> Result<(), Fault>
        ensures known { (t : Table) → IsRangeOf t bid range →
            AreRangesTrue t self.old → AreRangesTrue t self.new }
        ensures memory { IfErr result (λ f. f ≡ no_memory) }
    {
        let _old = self.ranges.insert(PageKind::Bbt.key_of(bid), range)?;
        Ok(())
    }
}
