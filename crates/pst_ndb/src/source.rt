//! Where the entries of nodes are found, and what is left of them.

use pst_btree::{NodeEntry, NodeList, NodeTree, Nodes as TreeNodes, node_keys_rise};

/// Where the entries of nodes are found: in the pages of the node B-tree, or among some that were gathered.
#[derive(Clone, Copy)]
pub(crate) enum Source<'a> {
    /// All entries of the tree.
    Tree(NodeTree<'a>),
    /// Those that were gathered.
    Gathered(NodeList<'a>),
}

/// The entries that are left, their identifiers rising.
#[derive(Clone, Copy)]
pub(crate) enum Rest<'a> {
    /// Of the tree.
    Tree(TreeNodes<'a>),
    /// Of those that were gathered.
    Gathered(&'a [NodeEntry]),
}

impl<'a> Source<'a> {
    ghost use Rattle.std.specs.Prelude.{◌≡◌, None, map};
    ghost use Rattle.pst_btree.specs.Entries.{node_key, node_with};
    ghost use Rattle.pst_btree.specs.Order.{Rises};
    ghost use Rattle.pst_ndb.specs.Source.{source_entries, entries_left};

    /// The entry of a node, by its identifier.
    #[tactic(auto, unfolding(crate::specs::Source::source_entries))]
    pub(crate) fn find(&self, nid: u32) -> Option<NodeEntry>
        ensures { result ≡ node_with nid (source_entries self.now) }
    {
        match self {
            Source::Tree(tree) => tree.find(nid),
            Source::Gathered(list) => list.find(nid),
        }
    }

    /// All entries.
    #[tactic(auto, unfolding(crate::specs::Source::source_entries, crate::specs::Source::entries_left))]
    pub(crate) fn entries(&self) -> Rest<'a>
        ensures { entries_left result ≡ source_entries self.now }
    {
        match self {
            Source::Tree(tree) => Rest::Tree(tree.nodes()),
            Source::Gathered(list) => Rest::Gathered(list.entries()),
        }
    }

    /// A law of both: the identifiers rise.
    #[tactic(auto, unfolding(crate::specs::Source::source_entries))]
    pub(crate) fn nids_rise(&self)
        ensures { Rises 0 None (map node_key (source_entries self.now)) }
    {
        match self {
            Source::Tree(tree) => node_keys_rise(tree),
            Source::Gathered(list) => list.nids_rise(),
        }
    }
}

impl<'a> Iterator for Rest<'a> {
    ghost use Rattle.std.specs.Iterator.{YieldsFirst, item_count};
    ghost use Rattle.pst_ndb.specs.Source.{entries_left};

    type Item = NodeEntry;

    ghost next_gives = { YieldsFirst entries_left };

    ghost remaining = { item_count entries_left };

    #[tactic(auto, unfolding(crate::specs::Source::entries_left))]
    fn next(&mut self) -> Option<NodeEntry> {
        match self {
            Rest::Tree(rest) => rest.next(),
            Rest::Gathered(entries) => {
                let (first, rest) = entries.split_first()?;
                *entries = rest;
                Some(*first)
            }
        }
    }
}
