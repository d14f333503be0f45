//! What is known of the parts of messaging that were looked at.

use crate::listings::Listings;
use pst_msg::{Checker, Faults};
use std::alloc::Global;

/// What was found without fault, and is passed over where it is met again; and the faults of what was broken.
#[derive(Drop)]
pub(crate) struct JudgedParts {
    /// The contexts and messages.
    pub(crate) contexts: Checker,
    /// The rows of long tables of folders.
    pub(crate) listings: Listings,
    /// The faults of the rows of tables of folders.
    pub(crate) rows: Faults,
}

impl JudgedParts {
    ghost use Rattle.std.specs.Prelude.{List};
    ghost use Rattle.pst_page.specs.declared.entry.NodeEntry.{NodeEntry};
    ghost use Rattle.pst_block.specs.Table.{Table};
    ghost use Rattle.pst_remains.specs.declared.pages.Broken.{Broken};
    ghost use Rattle.pst_damage.specs.Known.{IsKnownOf};

    /// Nothing yet. No memory is taken.
    pub(crate) fn new(alloc: Global) -> JudgedParts
        ensures { (t : Table) (nodes : List NodeEntry) (broken : List Broken) →
            IsKnownOf t nodes broken result }
    {
        JudgedParts {
            contexts: Checker::new(alloc),
            listings: Listings::new(alloc),
            rows: Faults::new(alloc),
        }
    }
}
