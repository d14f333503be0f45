//! What is told of identifiers under which nothing is read.

ghost use Rattle.std.specs.Prelude.{◌≡◌};
ghost use Rattle.pst_btree.specs.Lists.{nodes_in_list};
ghost use Rattle.pst_block.specs.Blocks.{table_of};
ghost use Rattle.pst_damage.specs.BrokenPages.{pages_in};
ghost use Rattle.pst_whole.specs.Nodes.{broken_nodes};

use pst_block::Blocks;
use pst_btree::NodeList;
use pst_damage::{BrokenNode, BrokenPages, find_told};
use pst_fault::Fault;

/// The nodes that are left of a damaged file, those of them that are broken, and the pages with a fault, behind which others may
/// lie.
#[derive(Clone, Copy)]
pub struct LeftNodes<'a> {
    blocks: Blocks<'a>,
    nodes: NodeList<'a>,
    pages: &'a BrokenPages<'a>,
    told: &'a [BrokenNode],
    ghost all_told: { told.now
        ≡ broken_nodes (table_of blocks) (nodes_in_list nodes) (pages_in pages.now) },
}

/// What is told of identifiers where nodes are read that are intact.
#[derive(Clone, Copy)]
pub enum Lost<'a> {
    /// Nothing: all nodes of a store are intact.
    Nothing,
    /// What is told of a damaged file.
    Damaged(LeftNodes<'a>),
}

impl<'a> LeftNodes<'a> {
    ghost use Rattle.std.specs.Prelude.{◌≡◌};
    ghost use Rattle.pst_btree.specs.Lists.{nodes_in_list};
    ghost use Rattle.pst_block.specs.Blocks.{table_of};
    ghost use Rattle.pst_damage.specs.BrokenPages.{pages_in};
    ghost use Rattle.pst_whole.specs.Lost.{lost_of};
    ghost use Rattle.pst_whole.specs.Nodes.{broken_nodes};
    ghost use Rattle.pst_whole.specs.View.{lost_left};

    // These nodes, of which these are broken.
    pub(crate) fn of(
        blocks: Blocks<'a>,
        nodes: NodeList<'a>,
        pages: &'a BrokenPages<'a>,
        told: &'a [BrokenNode],
    ) -> LeftNodes<'a>
        requires { told.now
            ≡ broken_nodes (table_of blocks) (nodes_in_list nodes) (pages_in pages.now) }
        ensures { lost_left result
            ≡ lost_of (table_of blocks.entry) (nodes_in_list nodes.entry) (pages_in pages.entry.now) }
    {
        LeftNodes {
            blocks,
            nodes,
            pages,
            told,
        }
    }

    /// The fault of the node with an identifier, where it is there and broken: of n broken nodes in about log n steps.
    #[tactic(auto, using(crate::proofs::LostLemmas::own_is, crate::proofs::LostLemmas::broken_rise))]
    pub fn own(&self, nid: u32) -> Option<Fault>
        ensures { result ≡ (lost_left self.now).own nid }
    {
        self.nodes.nids_rise();
        find_told(self.told, nid)
    }

    /// The fault of the page behind which an identifier lies, where it lies behind one with a fault.
    #[tactic(auto, using(crate::proofs::LostLemmas::not_behind, crate::proofs::LostLemmas::is_behind))]
    pub fn behind(&self, nid: u32) -> Option<Fault>
        ensures { result ≡ (lost_left self.now).behind nid }
    {
        if self.nodes.find(nid).is_some() {
            return None;
        }
        match self.pages.before(nid) {
            Some(page) => Some(page.fault),
            None => None,
        }
    }
}

impl<'a> Lost<'a> {
    ghost use Rattle.std.specs.Prelude.{◌≡◌};
    ghost use Rattle.pst_whole.specs.Lost.{told_lost};
    ghost use Rattle.pst_whole.specs.View.{lost_in};

    /// The fault of the node with an identifier, where it is there and broken.
    pub fn own(&self, nid: u32) -> Option<Fault>
        ensures { result ≡ (lost_in self.now).own nid }
    {
        match self {
            Lost::Nothing => None,
            Lost::Damaged(left) => left.own(nid),
        }
    }

    /// The fault of the page behind which an identifier lies, where it lies behind one with a fault.
    pub fn behind(&self, nid: u32) -> Option<Fault>
        ensures { result ≡ (lost_in self.now).behind nid }
    {
        match self {
            Lost::Nothing => None,
            Lost::Damaged(left) => left.behind(nid),
        }
    }

    /// What is told of an identifier: the fault of its node, or of the page behind which it lies.
    pub fn told(&self, nid: u32) -> Option<Fault>
        ensures { result ≡ told_lost (lost_in self.now) nid }
    {
        match self.own(nid) {
            Some(fault) => Some(fault),
            None => self.behind(nid),
        }
    }
}
