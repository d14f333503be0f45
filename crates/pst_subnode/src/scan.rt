//! Entries of subnode lists, looked for one after another by their identifiers alone.

ghost use Rattle.std.specs.Prelude.{◌≡◌, ◌+◌, ◌*◌, ◌≤◌, length};
ghost use Rattle.pst_bytes.specs.Image.{bytes_of};
ghost use Rattle.pst_fault.specs.First.{join_below};
ghost use Rattle.pst_block.specs.Table.{entry_of};
ghost use Rattle.pst_block.specs.Blocks.{table_of};
ghost use Rattle.pst_btree.specs.Entries.{first_with};
ghost use Rattle.pst_datatree.specs.List.{count_in};
ghost use Rattle.pst_subnode.specs.Body.{subs_in};
ghost use Rattle.pst_subnode.specs.List.{sub_nid, subs_at, slblock_subs, leaf_subs, subs_of};

use crate::body::{bid_at, nid_at, sub_at};
use crate::list_block::{ListBlock, list_block};
use crate::sub::Sub;
use pst_block::Blocks;
use pst_bytes::Image;
use pst_datatree::is_no_block;

// Among the entries of an SLBLOCK's body.
#[tactic(auto, using(crate::proofs::ScanLemmas::entry_found, crate::proofs::ScanLemmas::entry_passed, crate::proofs::FindLemmas::found_nowhere), unfolding(crate::specs::Body::subs_in))]
fn scan_entries(body: Image, nid: u32) -> Option<Sub>
    requires { 8 + 24 * count_in (bytes_of body) ≤ length (bytes_of body) }
    ensures { result ≡ first_with sub_nid nid (subs_in (bytes_of body.entry)) }
{
    for i in 0..body.number16(2) {
        if nid_at(body, i) == nid {
            return Some(sub_at(body, i));
        }
    }
    None
}

// Among the entries of an SLBLOCK, by its identifier; another block has none.
#[tactic(auto, unfolding(crate::specs::List::slblock_subs, pst_btree::specs::Entries::first_with))]
fn scan_leaf(blocks: &Blocks, bid: u64, nid: u32) -> Option<Sub>
    ensures { result ≡ first_with sub_nid nid
        (subs_at (slblock_subs (table_of blocks.now)) (entry_of (table_of blocks.now) bid)) }
{
    match list_block(blocks, blocks.entry(bid)?) {
        ListBlock::Slblock(body) => scan_entries(body, nid),
        _ => None,
    }
}

// Among the entries of the SLBLOCKs that an SIBLOCK's body names.
#[tactic(auto, using(crate::proofs::ScanLemmas::leaf_found, crate::proofs::ScanLemmas::leaf_passed, crate::proofs::FindLemmas::found_nowhere))]
fn scan_leaves(blocks: &Blocks, body: Image, nid: u32) -> Option<Sub>
    requires { 8 + 16 * count_in (bytes_of body) ≤ length (bytes_of body) }
    ensures { result ≡ first_with sub_nid nid (join_below
        (leaf_subs (table_of blocks.now) (bytes_of body.entry)) (count_in (bytes_of body.entry))) }
{
    for i in 0..body.number16(2) {
        if let Some(sub) = scan_leaf(blocks, bid_at(body, i), nid) {
            return Some(sub);
        }
    }
    None
}

// Among the entries of a block identifier.
#[tactic(auto, using(crate::proofs::BlockLemmas::slblock_all, crate::proofs::BlockLemmas::siblock_all, crate::proofs::BlockLemmas::neither_all), unfolding(crate::specs::List::subs_of, pst_btree::specs::Entries::first_with))]
pub(crate) fn scan(blocks: &Blocks, bid: u64, nid: u32) -> Option<Sub>
    ensures { result ≡ first_with sub_nid nid (subs_of (table_of blocks.now) bid) }
{
    if is_no_block(bid) {
        return None;
    }
    match list_block(blocks, blocks.entry(bid)?) {
        ListBlock::Slblock(body) => scan_entries(body, nid),
        ListBlock::Siblock(body) => scan_leaves(blocks, body, nid),
        ListBlock::Neither => None,
    }
}
