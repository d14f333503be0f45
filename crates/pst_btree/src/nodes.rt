//! All entries of the node B-tree, in order of their keys.

ghost use Rattle.std.specs.Prelude.{◌≡◌, ◌<◌, ◌≤◌, length, map, [], None, IfSome};
ghost use Rattle.pst_bytes.specs.Image.{bytes_of};
ghost use Rattle.pst_page.specs.declared.kind.PageKind.TheVariants.{Nbt};
ghost use Rattle.pst_page.specs.Entry.{key_at};
ghost use Rattle.pst_page.specs.Page.{entries_at, level_at};
ghost use Rattle.pst_btree.specs.Find.{rest_from, IsStretch};
ghost use Rattle.pst_btree.specs.Order.{Rises};
ghost use Rattle.pst_btree.specs.Tree.{HasTreeAt, tree_at, entries_of};
ghost use Rattle.pst_btree.specs.TreeProps.{IsStretch-prop};
ghost use Rattle.pst_btree.specs.View.{tree_parts, entries};

use crate::node_tree::NodeTree;
use crate::order::up_to;
use crate::tree::TreeView;
use pst_bytes::Image;
use pst_header::Bref;
use pst_page::{NodeEntry, Page, PageKind, known_page, node_entry_at};

// Entries of a leaf, which lie one behind the other.
#[derive(Clone, Copy)]
struct Stretch {
    // The place of the first of them.
    at: u64,
    // How many bytes there are from one to the next.
    width: u8,
    // How many there are.
    count: u8,
}

// The entries of a leaf from a key on: the first one whose key is not lower, and all behind it.
#[tactic(auto, using(pst_page::proofs::EntryLemmas::entries_from_start, pst_page::proofs::EntryLemmas::entries_from_next, pst_page::proofs::EntryLemmas::entries_from_end, crate::proofs::RiseLemmas::rest_later))]
fn stretch_in(page: &Page, low: u64) -> Option<Stretch>
    requires leaf { level_at (bytes_of page.now.image) page.now.bref.ib ≡ 0 }
    requires rises { Rises 0 None (map (key_at page.now.kind (bytes_of page.now.image))
        (entries_at (bytes_of page.now.image) page.now.bref.ib)) }
    ensures none { result ≡ None → rest_from page.now.kind (bytes_of page.now.image) low
        (entries_at (bytes_of page.now.image) page.now.bref.ib) ≡ [] }
    ensures some { IfSome result (λ s. 0 < s.count) }
    ensures stretch { IfSome result (λ s. IsStretch page.now.kind (bytes_of page.now.image)
        (entries_at (bytes_of page.now.image) page.now.bref.ib) low s.at s.width s.count) }
{
    let count = page.count();
    for i in 0..count {
        if page.key(i) >= low {
            return Some(Stretch {
                at: page.place(i),
                width: page.width(),
                count: count - i,
            });
        }
    }
    None
}

// The same of the first leaf that has any, at a page or below it. Children whose keys are all lower are passed over.
#[tactic(auto, using(crate::proofs::FromLemmas::from_steps))]
fn stretch_below(
    image: Image,
    end: u64,
    kind: PageKind,
    level: u8,
    bref: Bref,
    low: u64,
) -> Option<Stretch>
    requires inside { end ≤ length (bytes_of image) }
    requires tree { HasTreeAt kind (bytes_of image) end level bref }
    ensures none { result ≡ None → rest_from kind (bytes_of image.entry) low
        (entries_of (tree_at kind (bytes_of image.entry) level bref)) ≡ [] }
    ensures some { IfSome result (λ s. 0 < s.count) }
    ensures stretch { IfSome result (λ s. IsStretch kind (bytes_of image.entry)
        (entries_of (tree_at kind (bytes_of image.entry) level bref)) low s.at s.width s.count) }
{
    let page = known_page(image, bref, kind);
    if level == 0 {
        return stretch_in(&page, low);
    }
    let below = level - 1;
    let first = up_to(&page, low).saturating_sub(1);
    for i in first..page.count() {
        if let Some(found) = stretch_below(image, end, kind, below, page.child(i), low) {
            return Some(found);
        }
    }
    None
}

/// The entries of a node B-tree from a key on, in order of their keys: a `NodeEntry` each. Those of a leaf are read one
/// after another, and the tree is gone down once more for each leaf. No memory is taken.
#[derive(Clone, Copy)]
pub struct Nodes<'a> {
    view: TreeView<'a>,
    // The least key that an entry that is left may have.
    low: u64,
    // What is left of the leaf that the last entry lies in.
    leaf: Stretch,
    ghost kind: { view.kind ≡ Nbt },
    ghost stretch: { IsStretch view.kind (bytes_of view.image) (entries (tree_parts view)) low
        leaf.at leaf.width leaf.count } by { IsStretch-prop view.kind (bytes_of view.image)
            (entries (tree_parts view)) low leaf.at leaf.width leaf.count },
}

impl<'a> Nodes<'a> {
    ghost use Rattle.std.specs.Prelude.{◌≡◌, ◌<◌, [], None, IfSome};
    ghost use Rattle.pst_bytes.specs.Image.{bytes_of};
    ghost use Rattle.pst_btree.specs.Find.{rest_from, IsStretch};
    ghost use Rattle.pst_btree.specs.View.{tree_parts, entries};

    // What is left of that leaf or, where nothing is, the entries of the next one.
    #[tactic(auto, using(crate::proofs::FromLemmas::has_tree))]
    fn stretch(&self) -> Option<Stretch>
        ensures none { result ≡ None → rest_from self.now.view.kind (bytes_of self.now.view.image)
            self.now.low (entries (tree_parts self.now.view)) ≡ [] }
        ensures some { IfSome result (λ s. 0 < s.count) }
        ensures stretch { IfSome result (λ s. IsStretch self.now.view.kind
            (bytes_of self.now.view.image) (entries (tree_parts self.now.view))
            self.now.low s.at s.width s.count) }
    {
        if self.leaf.count > 0 {
            return Some(self.leaf);
        }
        let view = self.view;
        stretch_below(
            view.image, view.end, view.kind, view.level, view.root, self.low,
        )
    }
}

impl<'a> Iterator for Nodes<'a> {
    ghost use Rattle.std.specs.Prelude.{◌≡◌};
    ghost use Rattle.std.specs.Iterator.{YieldsFirst, item_count};
    ghost use Rattle.pst_btree.specs.Nodes.{nodes_left};

    type Item = NodeEntry;

    ghost next_gives = { YieldsFirst nodes_left };

    ghost remaining = { item_count nodes_left };

    #[tactic(auto, using(crate::proofs::FromLemmas::left_some, crate::proofs::FromLemmas::left_none, crate::proofs::FromLemmas::left_stretch, crate::proofs::StretchLemmas::stretch_place))]
    fn next(&mut self) -> Option<NodeEntry> {
        let view = self.view;
        let found = self.stretch()?;
        let key = view.kind.key_at(view.image, found.at);
        *self = Nodes {
            view,
            low: key + 1,
            leaf: Stretch {
                at: found.at + u64::from(found.width),
                width: found.width,
                count: found.count - 1,
            },
        };
        Some(node_entry_at(view.image, found.at))
    }
}

impl<'a> NodeTree<'a> {
    ghost use Rattle.std.specs.Prelude.{◌≡◌};
    ghost use Rattle.pst_btree.specs.Trees.{node_entries};
    ghost use Rattle.pst_btree.specs.Nodes.{nodes_left};

    /// All entries of the tree, in order of their keys, each once.
    #[tactic(auto, using(crate::proofs::FromLemmas::rest_from_zero, crate::proofs::StretchLemmas::no_stretch))]
    pub fn nodes(&self) -> Nodes<'a>
        ensures { nodes_left result ≡ node_entries self.now }
    {
        Nodes {
            view: self.view,
            low: 0,
            leaf: Stretch {
                at: 0,
                width: 0,
                count: 0,
            },
        }
    }
}
