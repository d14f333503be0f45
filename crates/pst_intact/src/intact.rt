//! Intact nodes, and what is looked up among them.

ghost use Rattle.std.specs.Prelude.{◌≡◌, None};
ghost use Rattle.pst_ndb.specs.NodeTable.{table_of_nodes, entries_of_nodes};
ghost use Rattle.pst_intact.specs.Fault.{intact_fault};

use crate::folder::IntactFolder;
use crate::folders::IntactFolders;
use crate::messages::IntactMessages;
use pst_msg::{NAME_MAP, known_message, known_names, known_pc};
use pst_ndb::{Node, NodeTable};
use pst_store::{Message, NameMap, Store, is_folder, is_message};

/// Nodes that are intact, over the blocks that they are made of: all of a store, or those of a damaged file that have no fault.
/// What a folder's table lists need not be among them.
#[derive(Clone, Copy)]
pub struct Intact<'a> {
    nodes: NodeTable<'a>,
    ghost sound: { intact_fault (table_of_nodes nodes) (entries_of_nodes nodes) ≡ None },
}

impl<'a> Intact<'a> {
    ghost use Rattle.std.specs.Prelude.{◌≡◌, None, IfSome, option_map, map};
    ghost use Rattle.pst_btree.specs.Entries.{node_key};
    ghost use Rattle.pst_btree.specs.Order.{Rises};
    ghost use Rattle.pst_ndb.specs.NodeTable.{image_of_nodes, table_of_nodes, entries_of_nodes};
    ghost use Rattle.pst_ndb.specs.Roots.{node_in, all_roots};
    ghost use Rattle.pst_ndb.specs.Views.{image_of_node, table_of_node, top_of, nid_of, roots_of};
    ghost use Rattle.pst_store.specs.pst_msg.pst_names.declared.name_map.TheConstants.{NAME_MAP as name_map_nid};
    ghost use Rattle.pst_store.specs.pst_msg.pst_names.View.{node_of_names, names_roots};
    ghost use Rattle.pst_store.specs.pst_msg.Values.{is_folder as folder_kind, is_message as message_kind};
    ghost use Rattle.pst_store.specs.pst_msg.View.{node_of_message, message_roots};
    ghost use Rattle.pst_store.specs.Kind.{of_kind, node_of_kind};
    ghost use Rattle.pst_store.specs.View.{image_of_store, table_of_store, nodes_of_store};
    ghost use Rattle.pst_intact.specs.Fault.{intact_fault};
    ghost use Rattle.pst_intact.specs.View.{image_of_intact, table_of_intact, nodes_of_intact, intact_node, intact_roots, intact_beside};
    ghost use Rattle.pst_intact.specs.View.{intact_folders_left, folders_beside, intact_messages_left, messages_beside};

    /// Nodes each of which is known to be intact. Nothing is checked.
    pub fn known(nodes: NodeTable<'a>) -> Intact<'a>
        requires { intact_fault (table_of_nodes nodes) (entries_of_nodes nodes) ≡ None }
        ensures image { image_of_intact result ≡ image_of_nodes nodes.entry }
        ensures table { table_of_intact result ≡ table_of_nodes nodes.entry }
        ensures nodes { nodes_of_intact result ≡ entries_of_nodes nodes.entry }
    {
        Intact { nodes }
    }

    /// All nodes of a store.
    #[tactic(auto, using(crate::proofs::IntactLemmas::store_intact))]
    pub fn of(store: &Store<'a>) -> Intact<'a>
        ensures image { image_of_intact result ≡ image_of_store store.now }
        ensures table { table_of_intact result ≡ table_of_store store.now }
        ensures nodes { nodes_of_intact result ≡ nodes_of_store store.now }
    {
        Intact {
            nodes: store.ndb().table(),
        }
    }

    /// What is known of all of them: they have no fault as intact nodes.
    pub fn is_sound(&self)
        ensures { intact_fault (table_of_intact self.now) (nodes_of_intact self.now) ≡ None }
    {}

    /// What is known of all of them: their identifiers rise.
    pub fn nids_rise(&self)
        ensures { Rises 0 None (map node_key (nodes_of_intact self.now)) }
    {
        self.nodes.nids_rise();
    }

    /// The node with an identifier; None exactly where there is none.
    pub fn node(&self, nid: u32) -> Option<Node<'a>>
        ensures roots { option_map roots_of result ≡ node_in (nodes_of_intact self.now) nid }
        ensures image { IfSome result (λ n. image_of_node n ≡ image_of_intact self.now) }
        ensures table { IfSome result (λ n. table_of_node n ≡ table_of_intact self.now) }
        ensures top { IfSome result (λ n. top_of n ≡ nid) }
        ensures nid { IfSome result (λ n. nid_of n ≡ nid) }
    {
        self.nodes.node(nid)
    }

    /// The name map ([MS-PST] 2.4.7), by which properties from 0x8000 on are called; None exactly where its node is not there.
    #[tactic(auto, using(crate::proofs::IntactLemmas::names_properties, crate::proofs::IntactLemmas::names_sound))]
    pub fn names(&self) -> Option<NameMap<'a>>
        ensures roots { option_map names_roots result
            ≡ node_in (nodes_of_intact self.now) name_map_nid }
        ensures image { IfSome result (λ m.
            image_of_node (node_of_names m) ≡ image_of_intact self.now) }
        ensures table { IfSome result (λ m.
            table_of_node (node_of_names m) ≡ table_of_intact self.now) }
    {
        match self.nodes.node(NAME_MAP) {
            Some(node) => Some(known_names(&known_pc(node))),
            None => None,
        }
    }

    /// The folder or search folder with an identifier; None exactly where there is no such node.
    #[tactic(auto, using(crate::proofs::IntactLemmas::kind_found, crate::proofs::IntactLemmas::node_sound), unfolding(pst_store::specs::Kind::node_of_kind))]
    pub fn folder(&self, nid: u32) -> Option<IntactFolder<'a>>
        ensures roots { let nodes = nodes_of_intact self.now in
            option_map intact_roots result ≡ node_of_kind folder_kind nodes nid }
        ensures image { IfSome result (λ f.
            image_of_nodes (intact_beside f) ≡ image_of_intact self.now) }
        ensures table { IfSome result (λ f.
            table_of_nodes (intact_beside f) ≡ table_of_intact self.now) }
        ensures nodes { IfSome result (λ f.
            entries_of_nodes (intact_beside f) ≡ nodes_of_intact self.now) }
        ensures nid { IfSome result (λ f. nid_of (intact_node f) ≡ nid) }
    {
        if !is_folder(nid) {
            return None;
        }
        match self.nodes.node(nid) {
            Some(node) => Some(IntactFolder::of(self.nodes, node)),
            None => None,
        }
    }

    /// The folders and search folders, their identifiers rising.
    #[tactic(auto, using(crate::proofs::IntactLemmas::nodes_sound))]
    pub fn folders(&self) -> IntactFolders<'a>
        ensures left { let nodes = nodes_of_intact self.now in
            intact_folders_left result ≡ of_kind folder_kind (all_roots nodes) }
        ensures image { image_of_nodes (folders_beside result) ≡ image_of_intact self.now }
        ensures table { table_of_nodes (folders_beside result) ≡ table_of_intact self.now }
        ensures nodes { entries_of_nodes (folders_beside result) ≡ nodes_of_intact self.now }
    {
        IntactFolders::all(self.nodes)
    }

    /// The message with an identifier, also one that belongs to a folder itself; None exactly where there is no such node.
    #[tactic(auto, using(crate::proofs::IntactLemmas::message_found), unfolding(pst_store::specs::Kind::node_of_kind))]
    pub fn message(&self, nid: u32) -> Option<Message<'a>>
        ensures roots { let nodes = nodes_of_intact self.now in
            option_map message_roots result ≡ node_of_kind message_kind nodes nid }
        ensures image { IfSome result (λ m.
            image_of_node (node_of_message m) ≡ image_of_intact self.now) }
        ensures table { IfSome result (λ m.
            table_of_node (node_of_message m) ≡ table_of_intact self.now) }
        ensures nid { IfSome result (λ m. nid_of (node_of_message m) ≡ nid) }
    {
        if !is_message(nid) {
            return None;
        }
        match self.nodes.node(nid) {
            Some(node) => Some(known_message(node)),
            None => None,
        }
    }

    /// The messages, also those that belong to a folder itself, their identifiers rising.
    #[tactic(auto, using(crate::proofs::IntactLemmas::nodes_sound))]
    pub fn messages(&self) -> IntactMessages<'a>
        ensures left { let nodes = nodes_of_intact self.now in
            intact_messages_left result ≡ of_kind message_kind (all_roots nodes) }
        ensures image { image_of_nodes (messages_beside result) ≡ image_of_intact self.now }
        ensures table { table_of_nodes (messages_beside result) ≡ table_of_intact self.now }
        ensures nodes { entries_of_nodes (messages_beside result) ≡ nodes_of_intact self.now }
    {
        IntactMessages::all(self.nodes)
    }
}
