//! An index of a subnode list, made with memory by whoever looks up many of its entries.

ghost use Rattle.std.specs.Prelude.{◌≡◌, ℕ, map, IfOk, IfErr, None};
ghost use Rattle.std.specs.List.Sorted.{IsNonDecreasingBy};
ghost use Rattle.pst_fault.specs.Fault.{no_memory};
ghost use Rattle.pst_block.specs.Blocks.{table_of};
ghost use Rattle.pst_btree.specs.Entries.{first_with};
ghost use Rattle.pst_subnode.specs.declared.check.TheConstants.{LISTS};
ghost use Rattle.pst_subnode.specs.List.{sub_nid, subs_of};
ghost use Rattle.pst_subnode.specs.Left.{subs_left};
ghost use Rattle.pst_subnode.specs.Tree.{sub_fault};
ghost use Rattle.pst_subnode.specs.Index.{HasFirst, IsIndexOf, is_long_list, is_scanned, nids_rise};

use crate::body::{body_in, has_level_one};
use crate::entries::Subs;
use crate::find::find_sub;
use crate::sub::Sub;
use pst_block::Blocks;
use pst_fault::Fault;
use std::alloc::Global;

// The entries that are left, as they stand in the list.
fn entries_of(alloc: Global, subs: Subs) -> Result<Vec<Sub>, Fault>
    ensures value { IfOk result (λ v. v.items ≡ subs_left subs.entry) }
    ensures memory { IfErr result (λ f. f ≡ no_memory) }
{
    let mut entries = Vec::new(alloc);
    let mut rest = subs;
    while let Some(sub) = rest.next() {
        entries.push(sub)?;
    }
    Ok(entries)
}

// The entries in the order of their identifiers; those that have one identifier stay in the order of the list.
fn entries_by_nid(alloc: Global, subs: Subs) -> Result<Vec<Sub>, Fault>
    ensures order { IfOk result (λ v. IsNonDecreasingBy sub_nid v.items) }
    ensures value { IfOk result (λ v. HasFirst v.items (subs_left subs.entry)) }
    ensures memory { IfErr result (λ f. f ≡ no_memory) }
{
    let mut entries = entries_of(alloc, subs)?;
    entries.sort_by_key(|sub| sub.nid)?;
    Ok(entries)
}

// The first entry with an identifier, of entries in the order of these.
fn first_of(entries: &[Sub], nid: u32) -> Option<Sub>
    requires order { IsNonDecreasingBy sub_nid entries.now }
    ensures { result ≡ first_with sub_nid nid entries.now }
{
    let place = entries.partition_point(|sub| sub.nid < nid);
    if place == entries.len() {
        return None;
    }
    let sub = entries[place];
    if sub.nid == nid { Some(sub) } else { None }
}

// Whether the identifiers of entries rise, so that each is found by halving.
fn rise(subs: Subs) -> bool
    ensures { result ≡ nids_rise 0 (map sub_nid (subs_left subs.entry)) }
{
    let mut end = 0u64;
    let mut rest = subs;
    while let Some(sub) = rest.next() {
        let nid = u64::from(sub.nid);
        if nid < end {
            return false;
        }
        end = nid + 1;
    }
    true
}

// An SLBLOCK whose body is no longer has 16 entries at most, and is gone through as fast as halved.
const SHORT: u64 = 400;

// Whether the list of a block identifier has an SIBLOCK, and so may have more entries than one SLBLOCK has, or more than a few whose
// identifiers do not rise.
#[tactic(auto, unfolding(crate::specs::Index::is_scanned))]
fn may_be_scanned(blocks: &Blocks, bid: u64) -> bool
    ensures { result ≡ is_scanned (table_of blocks.now) bid }
{
    match blocks.entry(bid) {
        Some(entry) => {
            let body = body_in(blocks, entry);
            has_level_one(body) || (body.len() > SHORT && !rise(Subs::of_slblock(blocks, entry)))
        }
        None => false,
    }
}

/// Whether the list of a block identifier may have more than 16 entries: it has an SIBLOCK, or an SLBLOCK whose body has more than
/// 400 bytes. That is one look-up of a block, and none of its entries.
#[tactic(auto, unfolding(crate::specs::Index::is_long_list))]
pub fn may_be_long(blocks: &Blocks, bid: u64) -> bool
    ensures { result ≡ is_long_list (table_of blocks.now) bid }
{
    match blocks.entry(bid) {
        Some(entry) => {
            let body = body_in(blocks, entry);
            has_level_one(body) || body.len() > SHORT
        }
        None => false,
    }
}

/// An index of one subnode list: its entries in the order of their identifiers, in whatever order they stand there. It may hold
/// none of them, and then they are looked up in the list itself.
#[derive(Drop)]
pub struct SubIndex {
    pub(crate) entries: Option<Vec<Sub>>,
}

impl SubIndex {
    ghost use Rattle.std.specs.Prelude.{◌≡◌, false, IfOk, IfErr, List};
    ghost use Rattle.pst_fault.specs.Fault.{no_memory};
    ghost use Rattle.pst_block.specs.Blocks.{table_of};
    ghost use Rattle.pst_subnode.specs.declared.sub.Sub.{Sub};
    ghost use Rattle.pst_subnode.specs.List.{subs_of};
    ghost use Rattle.pst_subnode.specs.Index.{IsIndexOf, held_count, is_held, is_scanned};

    /// The index that holds nothing, which is one of every list. No memory is taken.
    #[tactic(auto, unfolding(crate::specs::Index::IsIndexOf, crate::specs::Index::is_held))]
    pub fn none() -> SubIndex
        ensures index { (subs : List Sub) → IsIndexOf result subs }
        ensures held { is_held result ≡ false }
    {
        SubIndex { entries: None }
    }

    /// An index of the list of a block identifier. Of a list in one SLBLOCK whose identifiers rise, as writers let them, or whose
    /// body has at most 400 bytes, it holds nothing, and no memory is taken. Of any other it holds all n entries, in about n steps
    /// where their identifiers rise or fall, and else in n log n. NoMemory, if memory runs out.
    #[tactic(auto, unfolding(crate::specs::Index::IsIndexOf, crate::specs::Index::is_held))]
    pub fn of(alloc: Global, blocks: &Blocks, bid: u64) -> Result<SubIndex, Fault>
        ensures index { IfOk result (λ i. IsIndexOf i (subs_of (table_of blocks.now) bid)) }
        ensures held { IfOk result (λ i. is_held i ≡ is_scanned (table_of blocks.now) bid) }
        ensures memory { IfErr result (λ f. f ≡ no_memory) }
    {
        if !may_be_scanned(blocks, bid) {
            return Ok(SubIndex::none());
        }
        let entries = entries_by_nid(alloc, Subs::of_bid(blocks, bid))?;
        Ok(SubIndex {
            entries: Some(entries),
        })
    }

    /// How many entries it holds.
    #[tactic(auto, unfolding(crate::specs::Index::held_count))]
    pub fn len(&self) -> usize
        ensures { result ≡ held_count self.now }
    {
        match &self.entries {
            Some(entries) => entries.len(),
            None => 0,
        }
    }
}

/// The entry of a subnode in the list of a block identifier, which has no fault and this index. Of a list of n entries it takes
/// about log n steps, whether it has such an entry or not; where the index holds nothing, as many as `find_sub`.
#[tactic(auto, unfolding(crate::specs::Index::IsIndexOf))]
pub fn find_sub_by(blocks: &Blocks, bid: u64, index: &SubIndex, nid: u32) -> Option<Sub>
    requires sound { sub_fault (table_of blocks.now) LISTS bid ≡ None }
    requires index { IsIndexOf index.now (subs_of (table_of blocks.now) bid) }
    ensures { result ≡ first_with sub_nid nid (subs_of (table_of blocks.now) bid) }
{
    match &index.entries {
        Some(entries) => first_of(entries, nid),
        None => find_sub(blocks, bid, nid),
    }
}
