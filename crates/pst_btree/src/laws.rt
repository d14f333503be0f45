//! Laws of trees, each the contract of a function that does nothing.

ghost use Rattle.std.specs.Prelude.{None, map};
ghost use Rattle.pst_btree.specs.Entries.{block_key, node_key, BlockMapLaw, NodeMapLaw};
ghost use Rattle.pst_btree.specs.Laws.{WalkLaw, OneTreeLaw};
ghost use Rattle.pst_btree.specs.Order.{Rises};
ghost use Rattle.pst_btree.specs.Trees.{block_entries, node_entries};

use crate::block_tree::BlockTree;
use crate::node_tree::NodeTree;

/// Where each unit of the mapped part has its flag, a walk finds no fault exactly where the file spells a tree under the
/// root, whose keys keep their bounds and whose pages have no byte in common with what is claimed or with each other; and
/// there is one such tree at most.
pub fn walk_decides()
    ensures law { WalkLaw }
    ensures one { OneTreeLaw }
{}

/// Where keys rise, a list of entries is a finite map from its keys: looking for the first entry with a key is looking the
/// key up.
pub fn entries_are_maps()
    ensures blocks { BlockMapLaw }
    ensures nodes { NodeMapLaw }
{}

/// The keys of the entries of a block B-tree rise strictly.
#[tactic(auto, using(crate::proofs::EntryLemmas::block_keys_rise))]
pub fn block_keys_rise(tree: &BlockTree)
    ensures { Rises 0 None (map block_key (block_entries tree.now)) }
{}

/// The keys of the entries of a node B-tree rise strictly.
#[tactic(auto, using(crate::proofs::EntryLemmas::node_keys_rise))]
pub fn node_keys_rise(tree: &NodeTree)
    ensures { Rises 0 None (map node_key (node_entries tree.now)) }
{}
