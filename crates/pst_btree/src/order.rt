//! The order of the keys of a page.

ghost use Rattle.std.specs.Prelude.{◌≡◌, ◌+◌, ◌<◌};
ghost use Rattle.pst_bytes.specs.Image.{bytes_of};
ghost use Rattle.pst_fault.specs.First.{answer};
ghost use Rattle.pst_page.specs.Page.{count_at, entries_at, entries_from};
ghost use Rattle.pst_btree.specs.Order.{is_below as below, order_fault};
ghost use Rattle.pst_btree.specs.Walk.{next_key};
ghost use Rattle.pst_btree.specs.Find.{IsUpTo};

use pst_fault::{Fault, Kind};
use pst_page::Page;

fn is_below(key: u64, high: Option<u64>) -> bool
    ensures { result ≡ below key high }
{
    match high {
        Some(high) => key < high,
        None => true,
    }
}

/// The keys of a page rise strictly, are at least `low` and, where there is a `high`, below it. KeyOrder at the first
/// entry whose key does not, with the identifier of the page.
#[tactic(auto, using(pst_page::proofs::EntryLemmas::entries_from_start, pst_page::proofs::EntryLemmas::entries_from_next, pst_page::proofs::EntryLemmas::entries_from_end, crate::proofs::OrderLemmas::order_goes_on, crate::proofs::OrderLemmas::order_low, crate::proofs::OrderLemmas::order_high, crate::proofs::OrderLemmas::order_done))]
pub fn check_order(page: &Page, low: u64, high: Option<u64>) -> Result<(), Fault>
    ensures { result ≡ answer (order_fault page.now.kind (bytes_of page.now.image)
        page.now.bref.bid low high (entries_at (bytes_of page.now.image) page.now.bref.ib)) tt }
{
    let mut least = low;
    for i in 0..page.count() {
        let key = page.key(i);
        if key < least || !is_below(key, high) {
            return Err(Fault::within(Kind::KeyOrder, page.place(i), page.bref.bid));
        }
        least = key + 1;
    }
    Ok(())
}

/// What the keys below an entry are below: the next entry's key, or the bound of the page.
#[tactic(auto, using(pst_page::proofs::EntryLemmas::entries_from_next, pst_page::proofs::EntryLemmas::entries_from_end))]
pub fn bound_of(page: &Page, i: u8, high: Option<u64>) -> Option<u64>
    requires { i < count_at (bytes_of page.now.image) page.now.bref.ib }
    ensures { result ≡ next_key page.now.kind (bytes_of page.now.image)
        (entries_from (bytes_of page.now.image) page.now.bref.ib (i + 1)) high }
{
    let count = page.count();
    if i + 1 < count {
        Some(page.key(i + 1))
    } else {
        high
    }
}

/// How many entries of a page have a key of at most this one. A page has at most 20: they are gone through, which a
/// processor foresees better than halving.
pub fn up_to(page: &Page, key: u64) -> u8
    ensures { IsUpTo page.now.kind (bytes_of page.now.image) page.now.bref.ib key result }
{
    let count = page.count();
    for i in 0..count {
        if page.key(i) > key {
            return i;
        }
    }
    count
}
