//! A folder that is intact, and what it has.

ghost use Rattle.std.specs.Prelude.{◌≡◌, true, None};
ghost use Rattle.pst_ndb.specs.NodeTable.{image_of_nodes, table_of_nodes, entries_of_nodes};
ghost use Rattle.pst_ndb.specs.Views.{image_of_node, table_of_node, top_of, nid_of, roots_of};
ghost use Rattle.pst_store.specs.pst_msg.Values.{is_folder};
ghost use Rattle.pst_intact.specs.Fault.{intact_node_fault};

use pst_msg::{FOLDER, Items, Pc, Tc, is_type, known_pc, listing_nid};
use pst_ndb::{Node, NodeTable};
use pst_tc::known_tc;

/// A folder or a search folder that is intact ([MS-PST] 2.4.4), among intact nodes. A table of it is there where its node is among
/// these.
#[derive(Clone, Copy)]
pub struct IntactFolder<'a> {
    nodes: NodeTable<'a>,
    node: Node<'a>,
    ghost table: { table_of_node node ≡ table_of_nodes nodes },
    ghost image: { image_of_node node ≡ image_of_nodes nodes },
    ghost own: { nid_of node ≡ top_of node },
    ghost kind: { is_folder (top_of node) ≡ true },
    ghost sound: { intact_node_fault (table_of_nodes nodes) (entries_of_nodes nodes)
        (roots_of node) ≡ None },
}

impl<'a> IntactFolder<'a> {
    ghost use Rattle.std.specs.Prelude.{◌≡◌, true, None, IfSome, option_map};
    ghost use Rattle.pst_ndb.specs.NodeTable.{image_of_nodes, table_of_nodes, entries_of_nodes};
    ghost use Rattle.pst_ndb.specs.Views.{image_of_node, table_of_node, top_of, nid_of, roots_of};
    ghost use Rattle.pst_tc.specs.Tc.{node_of_tc};
    ghost use Rattle.pst_store.specs.pst_msg.pst_pc.View.{node_of_pc};
    ghost use Rattle.pst_store.specs.pst_msg.pst_mail.declared.items.Items.TheVariants.{Subfolders, Messages};
    ghost use Rattle.pst_store.specs.pst_msg.Shown.{folder_table};
    ghost use Rattle.pst_store.specs.pst_msg.Values.{is_folder};
    ghost use Rattle.pst_store.specs.pst_msg.View.{tc_roots};
    ghost use Rattle.pst_intact.specs.Fault.{intact_node_fault};
    ghost use Rattle.pst_intact.specs.View.{intact_beside, intact_node};

    // The folder of a node that is one.
    pub(crate) fn of(nodes: NodeTable<'a>, node: Node<'a>) -> IntactFolder<'a>
        requires table { table_of_node node ≡ table_of_nodes nodes }
        requires image { image_of_node node ≡ image_of_nodes nodes }
        requires own { nid_of node ≡ top_of node }
        requires kind { is_folder (top_of node) ≡ true }
        requires sound { intact_node_fault (table_of_nodes nodes) (entries_of_nodes nodes)
            (roots_of node) ≡ None }
        ensures beside { intact_beside result ≡ nodes.entry }
        ensures node { intact_node result ≡ node.entry }
    {
        IntactFolder { nodes, node }
    }

    /// What is known of every such folder: it is a node of a folder's type, over the blocks of these nodes and in their file.
    pub fn is_sound(&self)
        ensures table { let nodes = intact_beside self.now in
            table_of_node (intact_node self.now) ≡ table_of_nodes nodes }
        ensures image { let nodes = intact_beside self.now in
            image_of_node (intact_node self.now) ≡ image_of_nodes nodes }
        ensures kind { is_folder (top_of (intact_node self.now)) ≡ true }
        ensures sound { let nodes = intact_beside self.now in
            intact_node_fault (table_of_nodes nodes) (entries_of_nodes nodes)
            (roots_of (intact_node self.now)) ≡ None }
    {}

    /// The identifier of its node.
    pub fn nid(&self) -> u32
        ensures own { result ≡ nid_of (intact_node self.now) }
        ensures top { result ≡ top_of (intact_node self.now) }
    {
        self.node.nid()
    }

    /// Its properties.
    #[tactic(auto, using(crate::proofs::IntactLemmas::folder_properties))]
    pub fn pc(&self) -> Pc<'a>
        ensures { node_of_pc result ≡ intact_node self.now }
    {
        known_pc(self.node)
    }

    /// A table of it; None exactly for a search folder, and where the table's node is not among these nodes.
    #[tactic(auto, using(crate::proofs::IntactLemmas::folder_tables), unfolding(pst_mail::specs::Shown::folder_table))]
    pub fn table(&self, items: Items) -> Option<Tc<'a>>
        ensures roots { let nodes = entries_of_nodes (intact_beside self.now) in
            option_map tc_roots result ≡ folder_table nodes items (top_of (intact_node self.now)) }
        ensures table { IfSome result (λ x.
            table_of_node (node_of_tc x) ≡ table_of_nodes (intact_beside self.now)) }
        ensures image { IfSome result (λ x.
            image_of_node (node_of_tc x) ≡ image_of_nodes (intact_beside self.now)) }
    {
        if !is_type(FOLDER, self.node.top()) {
            return None;
        }
        match self.nodes.node(listing_nid(self.node.top(), items)) {
            Some(table) => Some(known_tc(table)),
            None => None,
        }
    }

    /// The table of its subfolders.
    pub fn hierarchy(&self) -> Option<Tc<'a>>
        ensures roots { let nodes = entries_of_nodes (intact_beside self.now) in
            let nid = top_of (intact_node self.now) in
            option_map tc_roots result ≡ folder_table nodes Subfolders nid }
        ensures table { IfSome result (λ x.
            table_of_node (node_of_tc x) ≡ table_of_nodes (intact_beside self.now)) }
        ensures image { IfSome result (λ x.
            image_of_node (node_of_tc x) ≡ image_of_nodes (intact_beside self.now)) }
    {
        self.table(Items::Subfolders)
    }

    /// The table of its messages.
    pub fn contents(&self) -> Option<Tc<'a>>
        ensures roots { let nodes = entries_of_nodes (intact_beside self.now) in
            let nid = top_of (intact_node self.now) in
            option_map tc_roots result ≡ folder_table nodes Messages nid }
        ensures table { IfSome result (λ x.
            table_of_node (node_of_tc x) ≡ table_of_nodes (intact_beside self.now)) }
        ensures image { IfSome result (λ x.
            image_of_node (node_of_tc x) ≡ image_of_nodes (intact_beside self.now)) }
    {
        self.table(Items::Messages)
    }
}
