//! What is already known of data trees.

ghost use Rattle.std.specs.Prelude.{◌≡◌, ◌≤◌};

use pst_fault::Fault;
use pst_page::PageKind;
use std::alloc::Global;
use std::collections::BTreeSet;

/// What is already known of data trees: the internal blocks whose trees were found without fault. Each walk passes these over;
/// their levels and totals stand in the blocks themselves.
#[derive(Drop)]
pub struct Seen {
    // The keys of the blocks.
    pub(crate) trees: BTreeSet<u64>,
    pub(crate) expansions: u64,
}

impl Seen {
    ghost use Rattle.std.specs.Prelude.{◌≡◌, ℕ, ◌+◌, true, false, Some, ◌⊎◌, IfErr, OnOk};
    ghost use Rattle.std.specs.List.Sorted.{IsStrictlySortedBy};
    ghost use Rattle.std.specs.Ordering.{nat_cmp};
    ghost use Rattle.pst_block.specs.Block.{bid_key};
    ghost use Rattle.pst_block.specs.Table.{Table, entry_of};
    ghost use Rattle.pst_page.specs.declared.entry.BlockEntry.{BlockEntry};
    ghost use Rattle.pst_fault.specs.Fault.{no_memory};
    ghost use Rattle.pst_datatree.specs.Seen.{tree_expansions, known_trees, raised, has_tree, holds_tree, tree_keys, IsSoundTree, IsSeenTrue, IsAhead, RaisesCount};

    /// Nothing is known, and nothing has been expanded. No memory is taken.
    pub fn new(alloc: Global) -> Seen
        ensures counts { tree_expansions result ≡ 0 }
        ensures known { (t : Table) → IsSeenTrue t result }
        ensures none { known_trees result ≡ 0 }
        ensures empty { (key : ℕ) → holds_tree result key ≡ false }
    {
        Seen {
            trees: BTreeSet::new(alloc),
            expansions: 0,
        }
    }

    /// How many XBLOCKs and XXBLOCKs have been expanded, whose entries were followed: each once. The count stays at its
    /// greatest value.
    pub fn expansions(&self) -> u64
        ensures { result ≡ tree_expansions self.now }
    {
        self.expansions
    }

    /// A law of what is known: the keys of the blocks strictly rise.
    pub fn keys_rise(&self)
        ensures { IsStrictlySortedBy nat_cmp (tree_keys self.now) }
    {
        let _count = self.trees.len();
    }

    // Whether a block is known.
    #[tactic(auto, unfolding(crate::specs::Seen::has_tree))]
    pub(crate) fn knows(&self, bid: u64) -> bool
        ensures { result ≡ has_tree self.now bid }
    {
        self.trees.contains(&PageKind::Bbt.key_of(bid))
    }

    // A block is known from now on; or memory is refused, and all stays as it is.
    #[tactic(auto, unfolding(crate::specs::Seen::has_tree))]
    pub(crate) fn put(&mut self, bid: u64) -> Result<(), Fault>
        ensures only { (other : ℕ) → has_tree self.new other ≡ true →
            (has_tree self.old other ≡ true) ⊎ (bid_key bid ≡ bid_key other) }
        ensures stays { (key : ℕ) → holds_tree self.old key ≡ true →
            holds_tree self.new key ≡ true }
        ensures key { (key : ℕ) → holds_tree self.new key ≡ true →
            (holds_tree self.old key ≡ true) ⊎ (bid_key bid ≡ key) }
        ensures there { OnOk result (has_tree self.new bid ≡ true) }
        ensures known { (t : Table) (e : BlockEntry) → entry_of t bid ≡ Some e →
            IsSoundTree t e → IsSeenTrue t self.old → IsSeenTrue t self.new }
        ensures counts { tree_expansions self.new ≡ tree_expansions self.old }
        ensures ahead { OnOk result (has_tree self.old bid ≡ false →
            (k : ℕ) → IsAhead (k + 1) self.old → IsAhead k self.new) }
        ensures memory { IfErr result (λ f. f ≡ no_memory) }
    {
        self.trees.insert(PageKind::Bbt.key_of(bid))?;
        Ok(())
    }

    // One more is expanded.
    #[tactic(auto, using(crate::proofs::SeenLemmas::same_true, crate::proofs::SeenLemmas::raise_one), unfolding(crate::specs::Seen::has_tree))]
    pub(crate) fn expand(&mut self)
        ensures counts { tree_expansions self.new ≡ raised (tree_expansions self.old) 1 }
        ensures grows { tree_expansions self.old ≤ tree_expansions self.new }
        ensures raises { RaisesCount self.old self.new }
        ensures same { (bid : ℕ) → has_tree self.new bid ≡ has_tree self.old bid }
        ensures keys { (key : ℕ) → holds_tree self.new key ≡ holds_tree self.old key }
        ensures known { (t : Table) → IsSeenTrue t self.old → IsSeenTrue t self.new }
    {
        self.expansions = self.expansions.saturating_add(1);
    }
}
