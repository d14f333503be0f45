//! What is left of a damaged file for its nodes.

ghost use Rattle.std.specs.Prelude.{◌≡◌, ◌∷◌, [], None};
ghost use Rattle.pst_btree.specs.Lists.{nodes_in_list};
ghost use Rattle.pst_block.specs.Blocks.{table_of};
ghost use Rattle.pst_ndb.specs.Fault.{node_fault};
ghost use Rattle.pst_ndb.specs.Roots.{entry_roots};
ghost use Rattle.pst_ndb.specs.Views.{table_of_node, roots_of};
ghost use Rattle.pst_damage.specs.Judged.{broken_by};

use crate::broken::{BrokenNode, find_told};
use crate::broken_pages::BrokenPages;
use pst_block::Blocks;
use pst_btree::{NodeEntry, NodeList};
use pst_ndb::{Node, NodeTable};

/// The nodes that are left of a damaged file, over its blocks without fault; those of them whose own trees have one; and the
/// pages with a fault, behind which others may lie. A node is kept once: a sound one is one that is not among the broken ones.
#[derive(Clone, Copy)]
pub(crate) struct Left<'a> {
    pub(crate) blocks: Blocks<'a>,
    pub(crate) nodes: NodeList<'a>,
    pub(crate) own: &'a [BrokenNode],
    pub(crate) pages: &'a BrokenPages<'a>,
    ghost own_are: { own.now ≡ broken_by (node_fault (table_of blocks)) (nodes_in_list nodes) },
}

impl<'a> Left<'a> {
    ghost use Rattle.std.specs.Prelude.{◌≡◌};
    ghost use Rattle.pst_btree.specs.Entries.{node_with};
    ghost use Rattle.pst_damage.specs.Judged.{sound_nodes};
    ghost use Rattle.pst_damage.specs.Left.{left_table, left_nodes};

    /// The entry of a node, where it is sound.
    #[tactic(auto, using(crate::proofs::SoundLemmas::sound_told, crate::proofs::SoundLemmas::sound_untold, crate::proofs::SoundLemmas::own_rise))]
    pub(crate) fn sound(&self, nid: u32) -> Option<NodeEntry>
        ensures { result ≡ node_with nid (sound_nodes (left_table self.now) (left_nodes self.now)) }
    {
        self.nodes.nids_rise();
        match find_told(self.own, nid) {
            Some(_) => None,
            None => self.nodes.find(nid),
        }
    }
}

/// The node of an entry that is known to be sound, over these blocks; the list is of this entry alone.
#[tactic(auto, using(crate::proofs::SoundLemmas::one_rises, crate::proofs::SoundLemmas::one_sound, crate::proofs::SoundLemmas::one_lacks, crate::proofs::SoundLemmas::one_found))]
pub(crate) fn node_of<'a>(blocks: Blocks<'a>, entry: NodeEntry, list: &'a [NodeEntry]) -> Node<'a>
    requires list { list.now ≡ entry ∷ [] }
    requires sound { node_fault (table_of blocks) entry ≡ None }
    ensures table { table_of_node result ≡ table_of blocks.entry }
    ensures roots { roots_of result ≡ entry_roots entry }
{
    match NodeTable::known(blocks, NodeList::of(list)).node(entry.nid) {
        Some(node) => node,
        None => unreachable!(),
    }
}
