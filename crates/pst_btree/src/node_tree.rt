//! The node B-tree.

ghost use Rattle.std.specs.Prelude.{◌≡◌};
ghost use Rattle.pst_page.specs.declared.kind.PageKind.TheVariants.{Nbt};

use crate::descend::find_steps;
use crate::tree::TreeView;
use pst_page::{NodeEntry, node_entry_at};

/// The node B-tree of a file, walked without fault ([MS-PST] 2.2.2.7.7).
#[derive(Clone, Copy)]
pub struct NodeTree<'a> {
    pub(crate) view: TreeView<'a>,
    ghost kind: { view.kind ≡ Nbt },
}

impl<'a> NodeTree<'a> {
    ghost use Rattle.std.specs.Prelude.{◌≡◌, ◌+◌, ◌≤◌, length, option_map, OnSome};
    ghost use Rattle.pst_page.specs.declared.kind.PageKind.TheVariants.{Nbt};
    ghost use Rattle.pst_page.specs.Entry.{node_entry_at as entry_at};
    ghost use Rattle.pst_btree.specs.Entries.{node_with};
    ghost use Rattle.pst_btree.specs.Find.{first_at};
    ghost use Rattle.pst_btree.specs.Tree.{pages_of};
    ghost use Rattle.pst_btree.specs.View.{bytes_of_view, tree_of, entries};
    ghost use Rattle.pst_btree.specs.Trees.{node_view, node_entries};

    /// The entry of a node, by its identifier; and how many pages were decoded: the pages of one path, `level() + 1`
    /// where the node is there, and never more.
    #[tactic(auto, using(crate::proofs::EntryLemmas::node_with_first))]
    pub fn find_steps(&self, nid: u32) -> (Option<NodeEntry>, u32)
        // The entry with that key, and by its place.
        ensures entry { result.0 ≡ node_with nid (node_entries self.now) }
        ensures place { result.0 ≡ option_map (entry_at (bytes_of_view (node_view self.now)))
            (first_at Nbt (bytes_of_view (node_view self.now)) nid (entries (node_view self.now))) }

        // How many pages.
        ensures most { result.1 ≤ (node_view self.now).level + 1 }
        ensures all { OnSome result.0 (result.1 ≡ (node_view self.now).level + 1) }
    {
        let (place, steps) = find_steps(&self.view, u64::from(nid));
        match place {
            Some(at) => (Some(node_entry_at(self.view.image, at)), steps),
            None => (None, steps),
        }
    }

    /// The entry of a node, by its identifier.
    pub fn find(&self, nid: u32) -> Option<NodeEntry>
        ensures entry { result ≡ node_with nid (node_entries self.now) }
        ensures place { result ≡ option_map (entry_at (bytes_of_view (node_view self.now)))
            (first_at Nbt (bytes_of_view (node_view self.now)) nid (entries (node_view self.now))) }
    {
        self.find_steps(nid).0
    }

    /// How many pages it has.
    pub fn pages(&self) -> u64
        ensures { result ≡ length (pages_of (tree_of (node_view self.now))) }
    {
        self.view.pages
    }

    /// The level of its root: 0 for a leaf, and at most 15.
    #[tactic(auto, using(crate::proofs::TreeLaws::low_there))]
    pub fn level(&self) -> u8
        ensures value { result ≡ (node_view self.now).level }
        ensures most { result ≤ 15 }
    {
        self.view.level
    }
}
