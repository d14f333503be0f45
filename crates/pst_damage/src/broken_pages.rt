//! The pages of a damaged node B-tree with a fault, by the keys that lie behind them.

ghost use Rattle.std.specs.Prelude.{◌≡◌, true};
ghost use Rattle.std.specs.Option.{ForSome};
ghost use Rattle.pst_damage.specs.Apart.{are_apart, StandFor};

use crate::apart::{find_among, outer_of};
use pst_remains::{Broken, page_before};
use std::alloc::{AllocError, Global};

/// The pages of a damaged node B-tree with a fault, for many look-ups. A walk tells a page before those below it, whose keys
/// are among its own, and pages side by side in the order of their keys: so a key is sought by halving among those that lie
/// within none before them, which are kept in memory.
#[derive(Drop)]
pub struct BrokenPages<'a> {
    all: &'a [Broken],
    outer: Option<Vec<Broken>>,
    ghost apart: { ForSome outer (λ v. are_apart v.items ≡ true) },
    ghost stand: { ForSome outer (λ v. StandFor v.items all.now) },
}

impl<'a> BrokenPages<'a> {
    ghost use Rattle.std.specs.Prelude.{◌≡◌, IfOk};
    ghost use Rattle.pst_remains.specs.Pages.{page_before as first_before};
    ghost use Rattle.pst_damage.specs.BrokenPages.{pages_in};

    /// These pages, in the order in which a walk told them. AllocError where memory is refused.
    pub fn of(alloc: Global, all: &'a [Broken]) -> Result<BrokenPages<'a>, AllocError>
        ensures { IfOk result (λ p. pages_in p ≡ all.entry.now) }
    {
        let outer = outer_of(alloc, all)?;
        Ok(BrokenPages { all, outer })
    }

    /// The first of them behind which a node lies: that by way of which its identifier is sought from the root on, where the
    /// way down to it goes through one of them or ends there.
    pub fn before(&self, nid: u32) -> Option<Broken>
        ensures { result ≡ first_before (pages_in self.now) nid }
    {
        let key = u64::from(nid);
        match &self.outer {
            Some(outer) => find_among(outer, key),
            None => page_before(self.all, key),
        }
    }
}
