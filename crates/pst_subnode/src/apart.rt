//! Whether the identifiers in an SIBLOCK are apart, told by their numbers: each SLBLOCK is gone through once for these, however
//! many SIBLOCKs name it.

ghost use Rattle.std.specs.Prelude.{◌≡◌, ◌+◌, ◌*◌, ◌≤◌, length, map, true, false, IfOk, IfErr};
ghost use Rattle.pst_bytes.specs.Image.{bytes_of};
ghost use Rattle.pst_fault.specs.Fault.{no_memory};
ghost use Rattle.pst_fault.specs.First.{join_below};
ghost use Rattle.pst_block.specs.Table.{Table, IsWithin};
ghost use Rattle.pst_block.specs.Blocks.{table_of};
ghost use Rattle.pst_datatree.specs.List.{count_in};
ghost use Rattle.pst_subnode.specs.List.{sub_nid, leaf_subs, block_subs, are_distinct as distinct};
ghost use Rattle.pst_subnode.specs.Left.{subs_left};
ghost use Rattle.pst_subnode.specs.Numbers.{AreNumbersTrue};
ghost use Rattle.pst_subnode.specs.Ranges.{AreRangesTrue};

use crate::body::{bid_at, nid_at};
use crate::entries::Subs;
use crate::list_block::{ListBlock, list_block};
use crate::numbers::Numbers;
use crate::ranges::Ranges;
use crate::stamps::Stamps;
use pst_block::{BlockEntry, Blocks};
use pst_bytes::Image;
use pst_fault::Fault;
use std::alloc::Global;

// The SLBLOCKs that an SIBLOCK's body names are gone through, each that was not; or memory ran out.
fn learn_leaves(
    alloc: Global,
    blocks: &Blocks,
    body: Image,
    numbers: &mut Numbers,
) -> Result<(), Fault>
    requires fits { 8 + 16 * count_in (bytes_of body) ≤ length (bytes_of body) }
    requires known { AreNumbersTrue (table_of blocks.now) numbers.old }
    ensures known { AreNumbersTrue (table_of blocks.now) numbers.new }
    ensures memory { IfErr result (λ f. f ≡ no_memory) }
{
    for i in 0..body.number16(2) {
        numbers.learn(alloc, blocks, bid_at(body, i))?;
    }
    Ok(())
}

// What is told of the identifiers in a block by their numbers.
#[derive(Clone, Copy)]
pub(crate) enum Apart {
    // They are apart.
    Yes,
    // This entry of the SLBLOCK of this block identifier may have one that stands before it.
    Again(u64, u16),
    // Nothing.
    Unknown,
}

// Whether each identifier in the SLBLOCKs that an SIBLOCK's body names is met in this turn for the first time, as far as
// their numbers are kept.
fn meet_leaves(body: Image, numbers: &Numbers, stamps: &mut Stamps) -> Apart
    requires { 8 + 16 * count_in (bytes_of body) ≤ length (bytes_of body) }
    ensures { result ≡ Apart.Yes → (t : Table) → AreNumbersTrue t numbers.now →
        distinct (map sub_nid
        (join_below (leaf_subs t (bytes_of body.entry)) (count_in (bytes_of body.entry))))
        ≡ true }
{
    for i in 0..body.number16(2) {
        let bid = bid_at(body, i);
        let Some(kept) = numbers.kept(bid) else {
            return Apart::Unknown;
        };
        if let Some(before) = stamps.meet_all(kept) {
            return Apart::Again(bid, before);
        }
    }
    Apart::Yes
}

// The identifier of an entry of the SLBLOCK that a block identifier names.
fn nid_in(blocks: &Blocks, bid: u64, i: u16) -> Option<u32> {
    let entry = blocks.entry(bid)?;
    let ListBlock::Slblock(body) = list_block(blocks, entry) else {
        return None;
    };
    if i < body.number16(2) {
        Some(nid_at(body, i))
    } else {
        None
    }
}

// Whether an identifier is seen to stand twice among entries.
fn stands_twice(subs: Subs, nid: u32) -> bool
    ensures { result ≡ true → distinct (map sub_nid (subs_left subs.entry)) ≡ false }
{
    let mut met = false;
    let mut rest = subs;
    while let Some(sub) = rest.next() {
        if sub.nid == nid {
            if met {
                return true;
            }
            met = true;
        }
    }
    false
}

// Whether the identifier of this entry of the SLBLOCK of a block identifier is seen to stand twice in a block.
pub(crate) fn stands_again(blocks: &Blocks, entry: BlockEntry, bid: u64, i: u16) -> bool
    requires { IsWithin (table_of blocks.now).image entry }
    ensures { result ≡ true →
        distinct (map sub_nid (block_subs (table_of blocks.now) entry)) ≡ false }
{
    match nid_in(blocks, bid, i) {
        Some(nid) => stands_twice(Subs::of_block(blocks, entry), nid),
        None => false,
    }
}

// Whether the identifiers in a block are apart, if it is an SIBLOCK; or memory ran out. Of other blocks it says nothing.
#[tactic(auto, using(crate::proofs::BlockLemmas::siblock_all, crate::proofs::RangeLemmas::known_numbers))]
pub(crate) fn block_is_apart(
    alloc: Global,
    blocks: &Blocks,
    entry: BlockEntry,
    ranges: &mut Ranges,
) -> Result<Apart, Fault>
    requires within { IsWithin (table_of blocks.now).image entry }
    requires known { AreRangesTrue (table_of blocks.now) ranges.old }
    ensures known { AreRangesTrue (table_of blocks.now) ranges.new }
    ensures value { IfOk result (λ a. a ≡ Apart.Yes →
        distinct (map sub_nid (block_subs (table_of blocks.now) entry)) ≡ true) }
    ensures memory { IfErr result (λ f. f ≡ no_memory) }
{
    let ListBlock::Siblock(body) = list_block(blocks, entry) else {
        return Ok(Apart::Unknown);
    };
    learn_leaves(alloc, blocks, body, &mut ranges.numbers)?;
    ranges.stamps.begin(ranges.numbers.count())?;
    Ok(meet_leaves(body, &ranges.numbers, &mut ranges.stamps))
}
