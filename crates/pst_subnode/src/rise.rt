//! Whether the identifiers in a list rise, as the format has them: then no subnode stands twice. An SLBLOCK whose own rise is
//! gone through once for that, however many SIBLOCKs name it.

ghost use Rattle.std.specs.Prelude.{◌≡◌, ◌+◌, ◌*◌, ◌≤◌, length, map, true, IfOk, IfErr, IfSome};
ghost use Rattle.pst_bytes.specs.Image.{bytes_of};
ghost use Rattle.pst_fault.specs.Fault.{no_memory};
ghost use Rattle.pst_fault.specs.First.{join_below};
ghost use Rattle.pst_block.specs.Table.{IsWithin};
ghost use Rattle.pst_block.specs.Blocks.{table_of};
ghost use Rattle.pst_datatree.specs.List.{count_in};
ghost use Rattle.pst_subnode.specs.Body.{subs_in};
ghost use Rattle.pst_subnode.specs.List.{sub_nid, leaf_subs, block_subs, are_distinct as distinct};
ghost use Rattle.pst_subnode.specs.Ranges.{RiseIn, IsRangeOf, AreRangesTrue};

use crate::body::{bid_at, nid_at};
use crate::list_block::{ListBlock, list_block};
use crate::ranges::{NidRange, Ranges};
use pst_block::{BlockEntry, Blocks};
use pst_bytes::Image;
use pst_fault::Fault;

// Where the identifiers in an SLBLOCK's body lie, if they rise.
#[tactic(auto, using(crate::proofs::RiseLemmas::none_rise, crate::proofs::RiseLemmas::entry_rises), unfolding(crate::specs::Body::subs_in))]
fn range_of_entries(body: Image) -> Option<NidRange>
    requires { 8 + 24 * count_in (bytes_of body) ≤ length (bytes_of body) }
    ensures { IfSome result (λ r. RiseIn r (subs_in (bytes_of body.entry))) }
{
    let mut first = u64::MAX;
    let mut end = 0;
    for i in 0..body.number16(2) {
        let nid = u64::from(nid_at(body, i));
        if nid < end {
            return None;
        }
        first = first.min(nid);
        end = nid + 1;
    }
    Some(NidRange { first, end })
}

// The same of the SLBLOCK that a block identifier names.
#[tactic(auto, unfolding(crate::specs::List::slblock_subs))]
fn range_of_leaf(blocks: &Blocks, bid: u64) -> Option<NidRange>
    ensures { IfSome result (IsRangeOf (table_of blocks.now) bid) }
{
    match list_block(blocks, blocks.entry(bid)?) {
        ListBlock::Slblock(body) => range_of_entries(body),
        _ => None,
    }
}

// The same, which is known from now on; or memory ran out.
#[tactic(auto, using(crate::proofs::RangeLemmas::known_range))]
fn known_range(blocks: &Blocks, bid: u64, ranges: &mut Ranges) -> Result<Option<NidRange>, Fault>
    requires { AreRangesTrue (table_of blocks.now) ranges.old }
    ensures known { AreRangesTrue (table_of blocks.now) ranges.new }
    ensures value { IfOk result (λ o. IfSome o (IsRangeOf (table_of blocks.now) bid)) }
    ensures memory { IfErr result (λ f. f ≡ no_memory) }
{
    if let Some(range) = ranges.get(bid) {
        return Ok(Some(range));
    }
    let Some(range) = range_of_leaf(blocks, bid) else {
        return Ok(None);
    };
    ranges.put(bid, range)?;
    Ok(Some(range))
}

// Whether identifiers rise through the SLBLOCKs that an SIBLOCK's body names; or memory ran out.
#[tactic(auto, using(crate::proofs::RiseLemmas::none_rise, crate::proofs::RiseLemmas::leaf_rises, crate::proofs::RiseLemmas::risen_distinct))]
fn leaves_rise(blocks: &Blocks, body: Image, ranges: &mut Ranges) -> Result<bool, Fault>
    requires fits { 8 + 16 * count_in (bytes_of body) ≤ length (bytes_of body) }
    requires known { AreRangesTrue (table_of blocks.now) ranges.old }
    ensures known { AreRangesTrue (table_of blocks.now) ranges.new }
    ensures value { let b = bytes_of body.entry in
        IfOk result (λ r. r ≡ true →
        distinct (map sub_nid (join_below (leaf_subs (table_of blocks.now) b) (count_in b)))
        ≡ true) }
    ensures memory { IfErr result (λ f. f ≡ no_memory) }
{
    let mut end = 0;
    for i in 0..body.number16(2) {
        let Some(range) = known_range(blocks, bid_at(body, i), ranges)? else {
            return Ok(false);
        };
        if range.first < end {
            return Ok(false);
        }
        end = end.max(range.end);
    }
    Ok(true)
}

// Whether identifiers rise through all entries of a block; or memory ran out.
#[tactic(auto, using(crate::proofs::BlockLemmas::slblock_all, crate::proofs::BlockLemmas::siblock_all, crate::proofs::RiseLemmas::risen_distinct))]
pub(crate) fn block_rises(
    blocks: &Blocks,
    entry: BlockEntry,
    ranges: &mut Ranges,
) -> Result<bool, Fault>
    requires within { IsWithin (table_of blocks.now).image entry }
    requires known { AreRangesTrue (table_of blocks.now) ranges.old }
    ensures known { AreRangesTrue (table_of blocks.now) ranges.new }
    ensures value { IfOk result (λ b. b ≡ true →
        distinct (map sub_nid (block_subs (table_of blocks.now) entry)) ≡ true) }
    ensures memory { IfErr result (λ f. f ≡ no_memory) }
{
    match list_block(blocks, entry) {
        ListBlock::Slblock(body) => Ok(range_of_entries(body).is_some()),
        ListBlock::Siblock(body) => leaves_rise(blocks, body, ranges),
        ListBlock::Neither => Ok(false),
    }
}
