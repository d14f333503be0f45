//! What lies behind a page with a fault.

ghost use Rattle.std.specs.Prelude.{◌≡◌, Option};
ghost use Rattle.pst_remains.specs.Pages.{lies_behind as behind, page_before as first_before};

use crate::pages::Broken;

fn lies_behind(key: u64, page: Broken) -> bool
    ensures { result ≡ behind key page }
{
    match page.high {
        Some(high) => key >= page.from && key < high,
        None => key >= page.from,
    }
}

/// The first of some pages of a tree behind which a key lies: that by way of which it is sought from the root on, where the
/// way down to it goes through one of them or ends there. Whether there is an entry with this key is not asked.
#[tactic(auto, using(crate::proofs::BehindLemmas::before_found, crate::proofs::BehindLemmas::before_next, crate::proofs::BehindLemmas::before_done))]
pub fn page_before(broken: &[Broken], key: u64) -> Option<Broken>
    ensures { result ≡ first_before broken.now key }
{
    for page in broken {
        if lies_behind(key, *page) {
            return Some(*page);
        }
    }
    None
}
