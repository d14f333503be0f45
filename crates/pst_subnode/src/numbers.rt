//! Numbers of identifiers: each that was met has one and keeps it, so that a table with a place for each number tells whether it
//! was met before, and no set is made anew.

use crate::body::nid_at;
use crate::list_block::{ListBlock, list_block};
use pst_block::Blocks;
use pst_bytes::Image;
use pst_fault::Fault;
use pst_page::PageKind;
use std::alloc::Global;
use std::collections::BTreeMap;

// The numbers of identifiers, and the SLBLOCKs that were gone through for them.
#[derive(Drop)]
pub(crate) struct Numbers {
    // By the identifiers.
    numbers: BTreeMap<u32, u32>,
    // By the keys of the SLBLOCKs: the numbers of their identifiers, in the order of the entries.
    leaves: BTreeMap<u64, Vec<u32>>,
}

impl Numbers {
    ghost use Rattle.std.specs.Prelude.{◌≡◌, ◌+◌, ◌*◌, ◌≤◌, Some, length, IfOk, IfErr};
    ghost use Rattle.std.specs.Option.{option_copied};
    ghost use Rattle.pst_bytes.specs.Image.{bytes_of};
    ghost use Rattle.pst_fault.specs.Fault.{no_memory};
    ghost use Rattle.pst_block.specs.Table.{Table, entry_of};
    ghost use Rattle.pst_block.specs.Blocks.{table_of};
    ghost use Rattle.pst_datatree.specs.List.{count_in};
    ghost use Rattle.pst_subnode.specs.Body.{subs_in};
    ghost use Rattle.pst_subnode.specs.List.{subs_at, slblock_subs};
    ghost use Rattle.pst_subnode.specs.Numbers.{nid_number, numbers_kept, HaveNumbers, KeepsNumbers, AreNumbersTrue};

    // No identifier was met. No memory is taken.
    #[tactic(auto, using(crate::proofs::NumberLemmas::no_numbers))]
    pub(crate) fn new(alloc: Global) -> Numbers
        ensures { (t : Table) → AreNumbersTrue t result }
    {
        Numbers {
            numbers: BTreeMap::new(alloc),
            leaves: BTreeMap::new(alloc),
        }
    }

    // How many identifiers were met: each number is below.
    pub(crate) fn count(&self) -> usize {
        self.numbers.len()
    }

    // The numbers that are kept of an SLBLOCK.
    #[tactic(auto, unfolding(crate::specs::Numbers::numbers_kept))]
    pub(crate) fn kept(&self, bid: u64) -> Option<&Vec<u32>>
        ensures { option_copied result ≡ numbers_kept self.now bid }
    {
        self.leaves.get(&PageKind::Bbt.key_of(bid))
    }

    // The number of an identifier: a new one, where it was not met; or memory is refused. Where numbers run out several
    // identifiers have the last.
    fn number(&mut self, nid: u32) -> Result<u32, Fault>
        ensures value { IfOk result (λ number. nid_number self.new nid ≡ Some number) }
        ensures keeps { KeepsNumbers self.old self.new }
        ensures memory { IfErr result (λ f. f ≡ no_memory) }
    {
        if let Some(number) = self.numbers.get(&nid).copied() {
            return Ok(number);
        }
        let number = self.numbers.len().min(u32::MAX as usize) as u32;
        let _new = self.numbers.insert(nid, number)?;
        Ok(number)
    }

    // The numbers of the identifiers in an SLBLOCK's body, in order; or memory is refused.
    #[tactic(auto, using(crate::proofs::NumberLemmas::no_entries, crate::proofs::NumberLemmas::keeps_none), unfolding(crate::specs::Body::subs_in))]
    fn number_entries(&mut self, alloc: Global, body: Image) -> Result<Vec<u32>, Fault>
        requires { 8 + 24 * count_in (bytes_of body) ≤ length (bytes_of body) }
        ensures value { IfOk result (λ v.
            HaveNumbers self.new (subs_in (bytes_of body.entry)) v.items) }
        ensures keeps { KeepsNumbers self.old self.new }
        ensures memory { IfErr result (λ f. f ≡ no_memory) }
    {
        let count = body.number16(2);
        let mut numbers = Vec::with_capacity(alloc, usize::from(count))?;
        for i in 0..count {
            let number = self.number(nid_at(body, i))?;
            numbers.push(number)?;
        }
        Ok(numbers)
    }

    // These numbers are kept of an SLBLOCK; or memory is refused, and all stays as it is.
    #[tactic(auto, using(crate::proofs::NumberLemmas::numbers_put, crate::proofs::NumberLemmas::numbers_same))]
    fn keep(&mut self, bid: u64, numbers: Vec<u32>) -> Result<(), Fault>
        ensures known { (t : Table) →
            HaveNumbers self.old (subs_at (slblock_subs t) (entry_of t bid)) numbers.items →
            AreNumbersTrue t self.old → AreNumbersTrue t self.new }
        ensures memory { IfErr result (λ f. f ≡ no_memory) }
    {
        let _new = self.leaves.insert(PageKind::Bbt.key_of(bid), numbers)?;
        Ok(())
    }

    // The SLBLOCK of a block identifier is gone through, if it was not; or memory is refused.
    pub(crate) fn learn(&mut self, alloc: Global, blocks: &Blocks, bid: u64) -> Result<(), Fault>
        requires { AreNumbersTrue (table_of blocks.now) self.old }
        ensures known { AreNumbersTrue (table_of blocks.now) self.new }
        ensures memory { IfErr result (λ f. f ≡ no_memory) }
    {
        if self.kept(bid).is_some() {
            return Ok(());
        }
        let Some(entry) = blocks.entry(bid) else {
            return Ok(());
        };
        let ListBlock::Slblock(body) = list_block(blocks, entry) else {
            return Ok(());
        };
        let numbers = self.number_entries(alloc, body)?;
        self.keep(bid, numbers)
    }
}
