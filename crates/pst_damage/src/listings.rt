//! What is known of the rows of folders' tables.

ghost use Rattle.std.specs.Prelude.{◌≡◌};
ghost use Rattle.pst_block.specs.Block.{bid_key};
ghost use Rattle.pst_ndb.specs.Views.{roots_of};
ghost use Rattle.pst_damage.specs.Listings.{items_number, listing_key};

use pst_msg::Items;
use pst_ndb::Node;
use pst_page::PageKind;
use std::alloc::{AllocError, Global};
use std::collections::BTreeSet;

// The identifier of the block of a table's data, with bit 0 cleared, 0 for its subnodes, and a number for what it lists.
type Key = ((u64, u64), u64);

// The identifier of a block without its bit 0.
fn cleared(bid: u64) -> u64
    ensures { result ≡ bid_key bid }
{
    PageKind::Bbt.key_of(bid)
}

/// A number for what a table lists.
pub(crate) fn number_of(items: Items) -> u64
    ensures { result ≡ items_number items }
{
    match items {
        Items::Subfolders => 0,
        Items::Messages => 1,
        Items::Associated => 2,
    }
}

// The key of a table that lists these.
fn key_of(items: Items, table: Node) -> Key
    ensures { result ≡ listing_key items (roots_of table.entry) }
{
    ((cleared(table.bid_data()), 0), number_of(items))
}

/// Tables of folders whose rows were found without fault, by their data, whatever their lists: long ones, so that rows that many
/// folders share are gone through once.
#[derive(Drop)]
pub(crate) struct Listings {
    tables: BTreeSet<Key>,
}

impl Listings {
    ghost use Rattle.std.specs.Prelude.{◌≡◌, true, None, List, OnOk, OnErr};
    ghost use Rattle.pst_fault.specs.Each.{first_of};
    ghost use Rattle.pst_page.specs.declared.entry.NodeEntry.{NodeEntry};
    ghost use Rattle.pst_block.specs.Table.{Table};
    ghost use Rattle.pst_ndb.specs.Views.{table_of_node, roots_of};
    ghost use Rattle.pst_remains.specs.declared.pages.Broken.{Broken};
    ghost use Rattle.pst_tc.specs.Values.{tc_rows};
    ghost use Rattle.pst_damage.specs.Folder.{row_damage};
    ghost use Rattle.pst_damage.specs.Listings.{is_listed, listing_key, AreListingsTrue};

    /// None yet. No memory is taken.
    #[tactic(auto, using(crate::proofs::ListingsLemmas::none_listed))]
    pub(crate) fn new(alloc: Global) -> Listings
        ensures { (t : Table) (nodes : List NodeEntry) (broken : List Broken) →
            AreListingsTrue t nodes broken result }
    {
        Listings {
            tables: BTreeSet::new(alloc),
        }
    }

    /// Whether the rows of a table that lists these are known to have no fault.
    #[tactic(auto, unfolding(crate::specs::Listings::is_listed))]
    pub(crate) fn has(&self, items: Items, table: Node) -> bool
        ensures { result ≡ is_listed self.now (listing_key items (roots_of table.entry)) }
    {
        self.tables.contains(&key_of(items, table))
    }

    /// Remembers a table whose rows have no fault. AllocError where memory is refused.
    #[tactic(auto, using(crate::proofs::ListingsLemmas::one_listed))]
    pub(crate) fn put(&mut self, items: Items, table: Node) -> Result<(), AllocError>
        ensures { (nodes : List NodeEntry) (broken : List Broken) →
            let t = table_of_node table.entry in let r = roots_of table.entry in
            first_of (row_damage nodes broken items r.bid_data) (tc_rows t r) ≡ None →
            AreListingsTrue t nodes broken self.old → AreListingsTrue t nodes broken self.new }
    {
        self.tables.insert(key_of(items, table))?;
        Ok(())
    }
}
