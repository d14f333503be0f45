//! What is whole of a damaged file.

ghost use Rattle.std.specs.Prelude.{◌≡◌};
ghost use Rattle.pst_remains.specs.View.{table_in};
ghost use Rattle.pst_whole.specs.Nodes.{broken_nodes, whole_nodes};

use crate::lost::{LeftNodes, Lost};
use pst_btree::NodeList;
use pst_damage::{BrokenNode, BrokenPages};
use pst_intact::Intact;
use pst_ndb::NodeTable;
use pst_page::NodeEntry;
use pst_remains::Remains;
use std::alloc::{AllocError, Global};

/// What is whole of a damaged file: of the nodes that are left of it those without fault, beside the others, each with its fault.
#[derive(Drop)]
pub struct WholeNodes<'a> {
    remains: Remains<'a>,
    told: Vec<BrokenNode>,
    entries: Vec<NodeEntry>,
    ghost all_told: { told.items
        ≡ broken_nodes (table_in remains) remains.nodes.items remains.broken.items },
    ghost all_whole: { entries.items
        ≡ whole_nodes (table_in remains) remains.nodes.items remains.broken.items },
}

impl<'a> WholeNodes<'a> {
    ghost use Rattle.std.specs.Prelude.{◌≡◌, IfOk};
    ghost use Rattle.pst_damage.specs.BrokenPages.{pages_in};
    ghost use Rattle.pst_remains.specs.View.{table_in, parts_in};
    ghost use Rattle.pst_intact.specs.View.{table_of_intact, nodes_of_intact};
    ghost use Rattle.pst_whole.specs.Lost.{lost_of};
    ghost use Rattle.pst_whole.specs.Nodes.{broken_nodes, whole_nodes};
    ghost use Rattle.pst_whole.specs.View.{remains_whole, lost_in};

    // What remains of a file, with its broken nodes and the others.
    pub(crate) fn of(
        remains: Remains<'a>,
        told: Vec<BrokenNode>,
        entries: Vec<NodeEntry>,
    ) -> WholeNodes<'a>
        requires told { told.items
            ≡ broken_nodes (table_in remains) remains.nodes.items remains.broken.items }
        requires whole { entries.items
            ≡ whole_nodes (table_in remains) remains.nodes.items remains.broken.items }
        ensures { remains_whole result ≡ parts_in remains.entry }
    {
        WholeNodes {
            remains,
            told,
            entries,
        }
    }

    /// The pages of the node B-tree with a fault, for `lost`. AllocError where memory is refused.
    pub fn pages(&self, alloc: Global) -> Result<BrokenPages<'_>, AllocError>
        ensures { IfOk result (λ p. pages_in p ≡ (remains_whole self.now).broken) }
    {
        BrokenPages::of(alloc, &self.remains.broken)
    }

    /// The whole nodes, over the blocks without fault.
    #[tactic(auto, using(crate::proofs::WholeLemmas::whole_rise, crate::proofs::WholeLemmas::whole_trees, crate::proofs::WholeLemmas::whole_intact))]
    pub fn intact(&self) -> Intact<'_>
        ensures table { table_of_intact result ≡ (remains_whole self.now).table }
        ensures nodes { let r = remains_whole self.now in
            nodes_of_intact result ≡ whole_nodes r.table r.nodes r.broken }
    {
        self.remains.node_list().nids_rise();
        let entries = NodeList::of(&self.entries);
        Intact::known(NodeTable::known(self.remains.good_blocks(), entries))
    }

    /// What is told of all others: of broken nodes, and of what lies behind these pages.
    pub fn lost<'b>(&'b self, pages: &'b BrokenPages<'b>) -> Lost<'b>
        requires { pages_in pages.now ≡ (remains_whole self.now).broken }
        ensures { let r = remains_whole self.now in
            lost_in result ≡ lost_of r.table r.nodes r.broken }
    {
        Lost::Damaged(LeftNodes::of(
            self.remains.good_blocks(),
            self.remains.node_list(),
            pages,
            &self.told,
        ))
    }
}
