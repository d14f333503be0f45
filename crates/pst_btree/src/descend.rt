//! Look-ups that go down one path.

ghost use Rattle.std.specs.Prelude.{◌≡◌, ◌+◌, ◌<◌, ◌≤◌, length, OnSome, IfSome};
ghost use Rattle.pst_page.specs.Entry.{entry_size};
ghost use Rattle.pst_btree.specs.Find.{first_at};
ghost use Rattle.pst_btree.specs.View.{tree_parts, bytes_of_view, entries};

use crate::order::up_to;
use crate::tree::TreeView;
use pst_page::known_page;

/// The place of the entry with a key, and how many pages were decoded.
#[tactic(auto, using(crate::proofs::DescendLemmas::path_start, crate::proofs::DescendLemmas::path_page, crate::proofs::DescendLemmas::path_down, crate::proofs::DescendLemmas::path_none, crate::proofs::DescendLemmas::path_leaf_some, crate::proofs::DescendLemmas::path_leaf_none))]
pub fn find_steps(tree: &TreeView, key: u64) -> (Option<u64>, u32)
    ensures found { result.0 ≡ first_at tree.now.kind (bytes_of_view (tree_parts tree.now)) key
        (entries (tree_parts tree.now)) }
    ensures inside { IfSome result.0 (λ at.
        at + entry_size tree.now.kind 0 ≤ length (bytes_of_view (tree_parts tree.now))) }
    ensures most { result.1 ≤ tree.now.level + 1 }
    ensures all { OnSome result.0 (result.1 ≡ tree.now.level + 1) }
{
    let mut bref = tree.root;
    let mut level = tree.level;
    let mut steps = 1;
    loop {
        let page = known_page(tree.image, bref, tree.kind);
        let count = up_to(&page, key);
        if count == 0 {
            return (None, steps);
        }
        if level == 0 {
            if page.key(count - 1) != key {
                return (None, steps);
            }
            return (Some(page.place(count - 1)), steps);
        }
        bref = page.child(count - 1);
        level -= 1;
        steps += 1;
    }
}
