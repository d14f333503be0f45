//! All nodes, one after another.

ghost use Rattle.std.specs.Prelude.{◌≡◌, None};
ghost use Rattle.pst_block.specs.Blocks.{table_of};
ghost use Rattle.pst_ndb.specs.Fault.{nodes_fault};
ghost use Rattle.pst_ndb.specs.Source.{entries_left};

use crate::node::Node;
use crate::source::{Rest, Source};
use pst_block::Blocks;

/// The nodes that are left, their identifiers rising: a `Node` each. A node B-tree is gone down once for each of its
/// leaves, and no memory is taken.
#[derive(Clone, Copy)]
pub struct Nodes<'a> {
    blocks: Blocks<'a>,
    rest: Rest<'a>,
    ghost sound: { nodes_fault (table_of blocks) (entries_left rest) ≡ None },
}

impl<'a> Iterator for Nodes<'a> {
    ghost use Rattle.std.specs.Iterator.{item_count};
    ghost use Rattle.pst_ndb.specs.Views.{parts_left, TakesNode};

    type Item = Node<'a>;

    ghost next_gives = { TakesNode };

    ghost remaining = { item_count parts_left };

    #[tactic(auto, using(pst_fault::proofs::EachLemmas::each_first, pst_fault::proofs::EachLemmas::each_rest))]
    fn next(&mut self) -> Option<Node<'a>> {
        let mut rest = self.rest;
        let entry = rest.next()?;
        self.rest = rest;
        Some(Node::of_entry(self.blocks, entry))
    }
}

impl<'a> Nodes<'a> {
    ghost use Rattle.std.specs.Prelude.{◌≡◌, None, map};
    ghost use Rattle.pst_block.specs.Blocks.{table_of, image_of};
    ghost use Rattle.pst_ndb.specs.Fault.{nodes_fault};
    ghost use Rattle.pst_ndb.specs.Node.{entry_parts};
    ghost use Rattle.pst_ndb.specs.Roots.{all_roots};
    ghost use Rattle.pst_ndb.specs.Source.{source_entries};
    ghost use Rattle.pst_ndb.specs.Views.{parts_left, roots_left, table_left, image_left};

    // All nodes of a source.
    pub(crate) fn all(blocks: Blocks<'a>, source: &Source<'a>) -> Nodes<'a>
        requires { nodes_fault (table_of blocks) (source_entries source.now) ≡ None }
        ensures parts { parts_left result ≡ map (entry_parts (image_of blocks.entry)
            (table_of blocks.entry)) (source_entries source.now) }
        ensures roots { roots_left result ≡ all_roots (source_entries source.now) }
        ensures table { table_left result ≡ table_of blocks.entry }
        ensures image { image_left result ≡ image_of blocks.entry }
    {
        Nodes {
            blocks,
            rest: source.entries(),
        }
    }
}
