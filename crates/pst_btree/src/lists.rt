//! Entries of leaves that were gathered, in the order of their keys.

ghost use Rattle.std.specs.Prelude.{map, None};
ghost use Rattle.pst_btree.specs.Entries.{block_key, node_key};
ghost use Rattle.pst_btree.specs.Order.{Rises};
ghost use Rattle.pst_btree.specs.TreeProps.{Rises-prop};

use pst_page::{BlockEntry, NodeEntry, PageKind};

/// Entries of the block B-tree in the order of their keys, kept in memory: those of a file, say, whose tree is not whole.
/// They are found by halving.
#[derive(Clone, Copy)]
pub struct BlockList<'a> {
    entries: &'a [BlockEntry],
    ghost rise: { Rises 0 None (map block_key entries.now) } by { Rises-prop 0 None
        (map block_key entries.now) },
}

impl<'a> BlockList<'a> {
    ghost use Rattle.std.specs.Prelude.{◌≡◌, map, None};
    ghost use Rattle.pst_page.specs.declared.kind.PageKind.TheVariants.{Bbt};
    ghost use Rattle.pst_page.specs.Entry.{key_of};
    ghost use Rattle.pst_btree.specs.Entries.{block_key, block_with};
    ghost use Rattle.pst_btree.specs.Order.{Rises};
    ghost use Rattle.pst_btree.specs.Lists.{listed_blocks};

    /// The list of these entries.
    pub fn of(entries: &'a [BlockEntry]) -> BlockList<'a>
        requires { Rises 0 None (map block_key entries.now) }
        ensures { listed_blocks result ≡ entries.entry.now }
    {
        BlockList { entries }
    }

    /// The entry of a block, by its identifier with its bit 0 ignored: of n entries in about log n steps.
    pub fn find(&self, bid: u64) -> Option<BlockEntry>
        ensures { result ≡ block_with (key_of Bbt bid) (listed_blocks self.now) }
    {
        let key = PageKind::Bbt.key_of(bid);
        let place = self
            .entries
            .partition_point(|entry| PageKind::Bbt.key_of(entry.bid) < key);
        if place == self.entries.len() {
            return None;
        }
        let entry = self.entries[place];
        if PageKind::Bbt.key_of(entry.bid) == key {
            Some(entry)
        } else {
            None
        }
    }
}

/// Entries of the node B-tree in the order of their identifiers, kept in memory: those of a file, say, whose tree is not
/// whole. They are found by halving.
#[derive(Clone, Copy)]
pub struct NodeList<'a> {
    entries: &'a [NodeEntry],
    ghost rise: { Rises 0 None (map node_key entries.now) } by { Rises-prop 0 None
        (map node_key entries.now) },
}

impl<'a> NodeList<'a> {
    ghost use Rattle.std.specs.Prelude.{◌≡◌, map, None};
    ghost use Rattle.pst_btree.specs.Entries.{node_key, node_with};
    ghost use Rattle.pst_btree.specs.Order.{Rises};
    ghost use Rattle.pst_btree.specs.Lists.{nodes_in_list};

    /// The list of these entries.
    pub fn of(entries: &'a [NodeEntry]) -> NodeList<'a>
        requires { Rises 0 None (map node_key entries.now) }
        ensures { nodes_in_list result ≡ entries.entry.now }
    {
        NodeList { entries }
    }

    /// The entry of a node, by its identifier: of n entries in about log n steps.
    pub fn find(&self, nid: u32) -> Option<NodeEntry>
        ensures { result ≡ node_with nid (nodes_in_list self.now) }
    {
        let place = self.entries.partition_point(|entry| entry.nid < nid);
        if place == self.entries.len() {
            return None;
        }
        let entry = self.entries[place];
        if entry.nid == nid { Some(entry) } else { None }
    }

    /// All of them, in order.
    pub fn entries(&self) -> &'a [NodeEntry]
        ensures { result.now ≡ nodes_in_list self.now }
    {
        self.entries
    }

    /// What is known of every such list: the identifiers rise.
    pub fn nids_rise(&self)
        ensures { Rises 0 None (map node_key (nodes_in_list self.now)) }
    {}
}
