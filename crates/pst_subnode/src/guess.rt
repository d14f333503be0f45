//! Entries of subnode lists, found by halving where the identifiers rise. Where they do not, an entry may not be found; what
//! is found is there.

ghost use Rattle.std.specs.Prelude.{◌≡◌, ◌+◌, ◌*◌, ◌≤◌, length, IfSome};
ghost use Rattle.std.specs.List.{Contains};
ghost use Rattle.pst_bytes.specs.Image.{bytes_of};
ghost use Rattle.pst_fault.specs.First.{join_below};
ghost use Rattle.pst_block.specs.Table.{entry_of};
ghost use Rattle.pst_block.specs.Blocks.{table_of};
ghost use Rattle.pst_datatree.specs.List.{count_in};
ghost use Rattle.pst_subnode.specs.Body.{subs_in};
ghost use Rattle.pst_subnode.specs.List.{subs_at, slblock_subs, leaf_subs, subs_of};

use crate::body::{bid_at, body_in, sub_at};
use crate::list_block::{ListBlock, list_block};
use crate::sub::Sub;
use pst_block::Blocks;
use pst_bytes::Image;
use pst_datatree::is_no_block;

// Among the entries of an SLBLOCK's body.
fn guess_of_entries(body: Image, nid: u32) -> Option<Sub>
    requires { 8 + 24 * count_in (bytes_of body) ≤ length (bytes_of body) }
    ensures there { IfSome result (Contains (subs_in (bytes_of body.entry))) }
    ensures nid { IfSome result (λ s. s.nid ≡ nid) }
{
    let mut low = 0u16;
    let mut high = body.number16(2);
    while low < high {
        let middle = low + (high - low) / 2;
        let sub = sub_at(body, middle);
        if sub.nid == nid {
            return Some(sub);
        }
        if sub.nid < nid {
            low = middle + 1;
        } else {
            high = middle;
        }
    }
    None
}

// Among the entries of an SLBLOCK, by its identifier; another block has none.
#[tactic(auto, unfolding(crate::specs::List::slblock_subs))]
fn guess_of_leaf(blocks: &Blocks, bid: u64, nid: u32) -> Option<Sub>
    ensures there { IfSome result (Contains
        (subs_at (slblock_subs (table_of blocks.now)) (entry_of (table_of blocks.now) bid))) }
    ensures nid { IfSome result (λ s. s.nid ≡ nid) }
{
    match list_block(blocks, blocks.entry(bid)?) {
        ListBlock::Slblock(body) => guess_of_entries(body, nid),
        _ => None,
    }
}

// Whether the first entry of an SLBLOCK is behind an identifier, or it has none.
fn is_behind(blocks: &Blocks, bid: u64, nid: u32) -> bool {
    let Some(entry) = blocks.entry(bid) else {
        return true;
    };
    let body = body_in(blocks, entry);
    body.len() < 32 || nid < sub_at(body, 0).nid
}

// Whether an SLBLOCK has no entries.
fn is_empty(blocks: &Blocks, bid: u64) -> bool {
    match blocks.entry(bid) {
        Some(entry) => body_in(blocks, entry).len() < 32,
        None => true,
    }
}

// The first of some SLBLOCKs that an SIBLOCK's body names, from one on and before another, that has entries; or that other one.
fn first_with_entries(blocks: &Blocks, body: Image, from: u16, end: u16) -> u16
    requires order { from ≤ end }
    requires fits { 8 + 16 * end ≤ length (bytes_of body) }
    ensures low { from ≤ result }
    ensures high { result ≤ end }
{
    let mut i = from;
    while i < end && is_empty(blocks, bid_at(body, i)) {
        i += 1;
    }
    i
}

// Among the entries of the SLBLOCKs that an SIBLOCK's body names. Those without entries are passed: they lie neither before nor behind.
fn guess_of_leaves(blocks: &Blocks, body: Image, nid: u32) -> Option<Sub>
    requires { 8 + 16 * count_in (bytes_of body) ≤ length (bytes_of body) }
    ensures there { IfSome result (Contains (join_below
        (leaf_subs (table_of blocks.now) (bytes_of body.entry)) (count_in (bytes_of body.entry)))) }
    ensures nid { IfSome result (λ s. s.nid ≡ nid) }
{
    let mut low = 0u16;
    let mut high = body.number16(2);
    while low < high {
        let middle = low + (high - low) / 2;
        let full = first_with_entries(blocks, body, middle, high);
        if full == high || is_behind(blocks, bid_at(body, full), nid) {
            high = middle;
        } else {
            low = full + 1;
        }
    }
    if low == 0 {
        return None;
    }
    guess_of_leaf(blocks, bid_at(body, low - 1), nid)
}

// Among the entries of a block identifier.
#[tactic(auto, using(crate::proofs::BlockLemmas::slblock_all, crate::proofs::BlockLemmas::siblock_all), unfolding(crate::specs::List::subs_of))]
pub(crate) fn guess(blocks: &Blocks, bid: u64, nid: u32) -> Option<Sub>
    ensures there { IfSome result (Contains (subs_of (table_of blocks.now) bid)) }
    ensures nid { IfSome result (λ s. s.nid ≡ nid) }
{
    if is_no_block(bid) {
        return None;
    }
    match list_block(blocks, blocks.entry(bid)?) {
        ListBlock::Slblock(body) => guess_of_entries(body, nid),
        ListBlock::Siblock(body) => guess_of_leaves(blocks, body, nid),
        ListBlock::Neither => None,
    }
}
