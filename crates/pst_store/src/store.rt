//! A store, and what it has.

ghost use Rattle.std.specs.Prelude.{◌≡◌, None};
ghost use Rattle.pst_bytes.specs.Image.{bytes_of};
ghost use Rattle.pst_ndb.specs.Views.{image_of_ndb, table_of_ndb, nodes_of};
ghost use Rattle.pst_msg.specs.Fault.{messaging_fault};
ghost use Rattle.pst_store.specs.Fault.{store_fault};

use crate::folders::Folders;
use crate::messages::Messages;
use pst_msg::{
    Folder, Message, NAME_MAP, Name, NameMap, Pc, ROOT, STORE, is_folder, is_message, known_folder,
    known_message, known_names, known_pc,
};
use pst_ndb::{Ndb, Node};

/// A store: its file has no fault.
#[derive(Clone, Copy)]
pub struct Store<'a> {
    ndb: Ndb<'a>,
    ghost sound: { store_fault (bytes_of (image_of_ndb ndb)) ≡ None },
    ghost messaging: { messaging_fault (table_of_ndb ndb) (nodes_of ndb) ≡ None },
}

impl<'a> Store<'a> {
    ghost use Rattle.std.specs.Prelude.{◌≡◌, Some, None, IfSome, option_map};
    ghost use Rattle.pst_ndb.specs.Roots.{node_in, all_roots};
    ghost use Rattle.pst_ndb.specs.Views.{table_of_ndb, nodes_of, image_of_node, table_of_node, top_of, nid_of, roots_of};
    ghost use Rattle.pst_msg.specs.pst_pc.View.{node_of_pc};
    ghost use Rattle.pst_msg.specs.pst_names.Name.{store_name};
    ghost use Rattle.pst_msg.specs.pst_names.View.{node_of_names, names_roots, name_parts, IsLentIn};
    ghost use Rattle.pst_msg.specs.Fault.{messaging_fault};
    ghost use Rattle.pst_msg.specs.Values.{is_folder as folder_kind, is_message as message_kind};
    ghost use Rattle.pst_msg.specs.View.{node_of_folder, ndb_of_folder, folder_roots, node_of_message, message_roots};
    ghost use Rattle.pst_store.specs.Fault.{store_fault};
    ghost use Rattle.pst_store.specs.Grammar.{IsStore};
    ghost use Rattle.pst_store.specs.Kind.{of_kind, node_of_kind};
    ghost use Rattle.pst_store.specs.Parts.{parts_table, parts_entries};
    ghost use Rattle.pst_store.specs.Values.{store_in};
    ghost use Rattle.pst_store.specs.View.{ndb_of_store, bytes_of_store, image_of_store, header_of_store, table_of_store, nodes_of_store};
    ghost use Rattle.pst_store.specs.View.{folders_left, folders_ndb, messages_left, messages_ndb};

    /// The store of a node database whose messaging has no first fault: `check_messaging` answered Ok of it.
    #[tactic(auto, using(crate::proofs::StoreLemmas::is_store))]
    pub fn known(ndb: Ndb<'a>) -> Store<'a>
        requires { messaging_fault (table_of_ndb ndb) (nodes_of ndb) ≡ None }
        ensures { ndb_of_store result ≡ ndb.entry }
    {
        ndb.is_sound();
        Store { ndb }
    }

    /// What is known of every store: its file has no first fault, so it is a store, and what it shows is that store's header, blocks
    /// and nodes.
    #[tactic(auto, using(crate::proofs::StoreLaws::sound_store, crate::proofs::StoreLemmas::header_is, crate::proofs::StoreLemmas::table_is, crate::proofs::StoreLemmas::entries_are))]
    pub fn is_sound(&self)
        ensures sound { store_fault (bytes_of_store self.now) ≡ None }
        ensures store { let I = bytes_of_store self.now in IsStore I (store_in I) }
        ensures header { let I = bytes_of_store self.now in
            header_of_store self.now ≡ (store_in I).header }
        ensures table { let I = bytes_of_store self.now in
            table_of_store self.now ≡ parts_table I (store_in I) }
        ensures nodes { let I = bytes_of_store self.now in
            nodes_of_store self.now ≡ parts_entries I (store_in I) }
    {
        self.ndb.is_sound();
    }

    /// Its node database.
    pub fn ndb(&self) -> Ndb<'a>
        ensures { result ≡ ndb_of_store self.now }
    {
        self.ndb
    }

    /// The node with an identifier; None exactly where the store has none.
    pub fn node(&self, nid: u32) -> Option<Node<'a>>
        ensures roots { option_map roots_of result ≡ node_in (nodes_of_store self.now) nid }
        ensures image { IfSome result (λ n. image_of_node n ≡ image_of_store self.now) }
        ensures table { IfSome result (λ n. table_of_node n ≡ table_of_store self.now) }
        ensures top { IfSome result (λ n. top_of n ≡ nid) }
        ensures nid { IfSome result (λ n. nid_of n ≡ nid) }
    {
        self.ndb.node(nid)
    }

    /// The properties of the message store itself ([MS-PST] 2.4.3).
    #[tactic(auto, using(crate::proofs::StoreLemmas::store_there, crate::proofs::StoreLemmas::store_properties))]
    pub fn props(&self) -> Pc<'a>
        ensures roots { Some (roots_of (node_of_pc result))
            ≡ node_in (nodes_of_store self.now) STORE }
        ensures image { image_of_node (node_of_pc result) ≡ image_of_store self.now }
        ensures table { table_of_node (node_of_pc result) ≡ table_of_store self.now }
    {
        match self.ndb.node(STORE) {
            Some(node) => known_pc(node),
            None => unreachable!(),
        }
    }

    /// Its name map ([MS-PST] 2.4.7), by which properties from 0x8000 on are called; None exactly where the store has no node of it.
    #[tactic(auto, using(crate::proofs::StoreLemmas::names_properties, crate::proofs::StoreLemmas::names_sound))]
    pub fn names(&self) -> Option<NameMap<'a>>
        ensures roots { option_map names_roots result
            ≡ node_in (nodes_of_store self.now) NAME_MAP }
        ensures image { IfSome result (λ m.
            image_of_node (node_of_names m) ≡ image_of_store self.now) }
        ensures table { IfSome result (λ m.
            table_of_node (node_of_names m) ≡ table_of_store self.now) }
    {
        match self.ndb.node(NAME_MAP) {
            Some(node) => Some(known_names(&known_pc(node))),
            None => None,
        }
    }

    /// What the property with an identifier is called; None exactly where no entry of the name map names it. Of two entries that
    /// name it the first one counts. It takes no memory, and goes through the entries up to the one that names it.
    #[tactic(auto, using(crate::proofs::StoreLemmas::name_is, crate::proofs::StoreLemmas::no_name, crate::proofs::StoreLemmas::name_lent))]
    pub fn name(&self, id: u16) -> Option<Name<'a>>
        ensures value { option_map name_parts result
            ≡ store_name (table_of_store self.now) (nodes_of_store self.now) id }
        ensures lent { let nodes = nodes_of_store self.now in
            IfSome result (IsLentIn (image_of_store self.now) (table_of_store self.now) nodes id) }
    {
        match self.names() {
            Some(names) => names.name(id),
            None => None,
        }
    }

    /// The root folder.
    #[tactic(auto, using(crate::proofs::StoreLemmas::root_there, crate::proofs::StoreLemmas::root_kind, crate::proofs::StoreLemmas::node_sound))]
    pub fn root(&self) -> Folder<'a>
        ensures roots { Some (folder_roots result) ≡ node_in (nodes_of_store self.now) ROOT }
        ensures ndb { ndb_of_folder result ≡ ndb_of_store self.now }
    {
        match self.ndb.node(ROOT) {
            Some(node) => known_folder(self.ndb, node),
            None => unreachable!(),
        }
    }

    /// The folder or search folder with an identifier; None exactly where the store has no such node.
    #[tactic(auto, using(crate::proofs::StoreLemmas::kind_found, crate::proofs::StoreLemmas::node_sound), unfolding(crate::specs::Kind::node_of_kind))]
    pub fn folder(&self, nid: u32) -> Option<Folder<'a>>
        ensures roots { let nodes = nodes_of_store self.now in
            option_map folder_roots result ≡ node_of_kind folder_kind nodes nid }
        ensures ndb { IfSome result (λ f. ndb_of_folder f ≡ ndb_of_store self.now) }
        ensures nid { IfSome result (λ f. nid_of (node_of_folder f) ≡ nid) }
    {
        if !is_folder(nid) {
            return None;
        }
        match self.ndb.node(nid) {
            Some(node) => Some(known_folder(self.ndb, node)),
            None => None,
        }
    }

    /// Its folders and search folders, their identifiers rising.
    #[tactic(auto, using(crate::proofs::StoreLemmas::nodes_sound))]
    pub fn folders(&self) -> Folders<'a>
        ensures left { let nodes = nodes_of_store self.now in
            folders_left result ≡ of_kind folder_kind (all_roots nodes) }
        ensures ndb { folders_ndb result ≡ ndb_of_store self.now }
    {
        Folders::all(self.ndb)
    }

    /// The message with an identifier, also one that belongs to a folder itself; None exactly where the store has no such node.
    #[tactic(auto, using(crate::proofs::StoreLemmas::message_found), unfolding(crate::specs::Kind::node_of_kind))]
    pub fn message(&self, nid: u32) -> Option<Message<'a>>
        ensures roots { let nodes = nodes_of_store self.now in
            option_map message_roots result ≡ node_of_kind message_kind nodes nid }
        ensures image { IfSome result (λ m.
            image_of_node (node_of_message m) ≡ image_of_store self.now) }
        ensures table { IfSome result (λ m.
            table_of_node (node_of_message m) ≡ table_of_store self.now) }
        ensures nid { IfSome result (λ m. nid_of (node_of_message m) ≡ nid) }
    {
        if !is_message(nid) {
            return None;
        }
        match self.ndb.node(nid) {
            Some(node) => Some(known_message(node)),
            None => None,
        }
    }

    /// Its messages, also those that belong to a folder itself, their identifiers rising.
    #[tactic(auto, using(crate::proofs::StoreLemmas::nodes_sound))]
    pub fn messages(&self) -> Messages<'a>
        ensures left { let nodes = nodes_of_store self.now in
            messages_left result ≡ of_kind message_kind (all_roots nodes) }
        ensures ndb { messages_ndb result ≡ ndb_of_store self.now }
    {
        Messages::all(self.ndb)
    }
}
