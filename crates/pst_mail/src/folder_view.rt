//! A folder, and what it has.

ghost use Rattle.std.specs.Prelude.{◌≡◌, true, None};
ghost use Rattle.pst_ndb.specs.Views.{image_of_node, image_of_ndb, table_of_node, table_of_ndb, nodes_of, top_of, nid_of, roots_of};
ghost use Rattle.pst_mail.specs.Fault.{typed_node_fault};
ghost use Rattle.pst_mail.specs.Values.{is_folder};

use crate::items::{Items, listing_nid};
use crate::nid::{FOLDER, is_type};
use pst_ndb::{Ndb, Node};
use pst_pc::{Pc, known_pc};
use pst_tc::{Tc, known_tc};

/// A folder or a search folder without fault ([MS-PST] 2.4.4).
#[derive(Clone, Copy)]
pub struct Folder<'a> {
    ndb: Ndb<'a>,
    node: Node<'a>,
    ghost table: { table_of_node node ≡ table_of_ndb ndb },
    ghost image: { image_of_node node ≡ image_of_ndb ndb },
    ghost own: { nid_of node ≡ top_of node },
    ghost kind: { is_folder (top_of node) ≡ true },
    ghost sound: { typed_node_fault (table_of_ndb ndb) (nodes_of ndb) (roots_of node) ≡ None },
}

impl<'a> Folder<'a> {
    ghost use Rattle.std.specs.Prelude.{◌≡◌, true, None, IfSome, option_map};
    ghost use Rattle.pst_ndb.specs.Views.{image_of_node, image_of_ndb, table_of_node, table_of_ndb, nodes_of, top_of, nid_of, roots_of};
    ghost use Rattle.pst_pc.specs.View.{node_of_pc};
    ghost use Rattle.pst_tc.specs.Tc.{node_of_tc};
    ghost use Rattle.pst_mail.specs.declared.items.Items.TheVariants.{Subfolders, Messages, Associated};
    ghost use Rattle.pst_mail.specs.Fault.{typed_node_fault};
    ghost use Rattle.pst_mail.specs.NodeLaw.{IsAsTyped};
    ghost use Rattle.pst_mail.specs.Shown.{folder_table};
    ghost use Rattle.pst_mail.specs.Values.{is_folder};
    ghost use Rattle.pst_mail.specs.View.{tc_roots, ndb_of_folder, node_of_folder};

    // The folder of a node that is one.
    pub(crate) fn of(ndb: Ndb<'a>, node: Node<'a>) -> Folder<'a>
        requires table { table_of_node node ≡ table_of_ndb ndb }
        requires image { image_of_node node ≡ image_of_ndb ndb }
        requires own { nid_of node ≡ top_of node }
        requires kind { is_folder (top_of node) ≡ true }
        requires sound { typed_node_fault (table_of_ndb ndb) (nodes_of ndb) (roots_of node) ≡ None }
        ensures ndb { ndb_of_folder result ≡ ndb.entry }
        ensures node { node_of_folder result ≡ node.entry }
    {
        Folder { ndb, node }
    }

    /// What is known of every folder: it is a node of its node database, of a folder's type, and has no first fault, so it is
    /// what its type says by the grammar: a folder, or a search folder.
    #[tactic(auto, using(crate::proofs::FolderLemmas::is_typed))]
    pub fn is_sound(&self)
        ensures table { let ndb = ndb_of_folder self.now in
            table_of_node (node_of_folder self.now) ≡ table_of_ndb ndb }
        ensures image { let ndb = ndb_of_folder self.now in
            image_of_node (node_of_folder self.now) ≡ image_of_ndb ndb }
        ensures kind { is_folder (top_of (node_of_folder self.now)) ≡ true }
        ensures sound { let ndb = ndb_of_folder self.now in
            typed_node_fault (table_of_ndb ndb) (nodes_of ndb) (roots_of (node_of_folder self.now))
            ≡ None }
        ensures folder { let ndb = ndb_of_folder self.now in
            IsAsTyped (table_of_ndb ndb) (nodes_of ndb) (roots_of (node_of_folder self.now)) }
    {}

    /// Its node.
    pub fn node(&self) -> Node<'a>
        ensures { result ≡ node_of_folder self.now }
    {
        self.node
    }

    /// The identifier of its node.
    pub fn nid(&self) -> u32
        ensures own { result ≡ nid_of (node_of_folder self.now) }
        ensures top { result ≡ top_of (node_of_folder self.now) }
    {
        self.node.nid()
    }

    /// Its properties.
    #[tactic(auto, using(crate::proofs::FolderLemmas::folder_properties))]
    pub fn pc(&self) -> Pc<'a>
        ensures { node_of_pc result ≡ node_of_folder self.now }
    {
        known_pc(self.node)
    }

    // A table of it, where it is there.
    #[tactic(auto, using(crate::proofs::FolderLemmas::folder_tables), unfolding(crate::specs::Shown::folder_table))]
    fn table(&self, items: Items) -> Option<Tc<'a>>
        ensures roots { let nodes = nodes_of (ndb_of_folder self.now) in
            option_map tc_roots result
            ≡ folder_table nodes items (top_of (node_of_folder self.now)) }
        ensures table { IfSome result (λ x.
            table_of_node (node_of_tc x) ≡ table_of_ndb (ndb_of_folder self.now)) }
        ensures image { IfSome result (λ x.
            image_of_node (node_of_tc x) ≡ image_of_ndb (ndb_of_folder self.now)) }
    {
        if !is_type(FOLDER, self.node.top()) {
            return None;
        }
        match self.ndb.node(listing_nid(self.node.top(), items)) {
            Some(table) => Some(known_tc(table)),
            None => None,
        }
    }

    /// The table of its subfolders; None exactly for a search folder, and where the file has no such node.
    pub fn hierarchy(&self) -> Option<Tc<'a>>
        ensures roots { let nodes = nodes_of (ndb_of_folder self.now) in
            let nid = top_of (node_of_folder self.now) in
            option_map tc_roots result ≡ folder_table nodes Subfolders nid }
        ensures table { IfSome result (λ x.
            table_of_node (node_of_tc x) ≡ table_of_ndb (ndb_of_folder self.now)) }
        ensures image { IfSome result (λ x.
            image_of_node (node_of_tc x) ≡ image_of_ndb (ndb_of_folder self.now)) }
    {
        self.table(Items::Subfolders)
    }

    /// The table of its messages; None exactly for a search folder, and where the file has no such node.
    pub fn contents(&self) -> Option<Tc<'a>>
        ensures roots { let nodes = nodes_of (ndb_of_folder self.now) in
            let nid = top_of (node_of_folder self.now) in
            option_map tc_roots result ≡ folder_table nodes Messages nid }
        ensures table { IfSome result (λ x.
            table_of_node (node_of_tc x) ≡ table_of_ndb (ndb_of_folder self.now)) }
        ensures image { IfSome result (λ x.
            image_of_node (node_of_tc x) ≡ image_of_ndb (ndb_of_folder self.now)) }
    {
        self.table(Items::Messages)
    }

    /// The table of the messages that belong to the folder itself; None exactly for a search folder, and where the file has no
    /// such node.
    pub fn associated(&self) -> Option<Tc<'a>>
        ensures roots { let nodes = nodes_of (ndb_of_folder self.now) in
            let nid = top_of (node_of_folder self.now) in
            option_map tc_roots result ≡ folder_table nodes Associated nid }
        ensures table { IfSome result (λ x.
            table_of_node (node_of_tc x) ≡ table_of_ndb (ndb_of_folder self.now)) }
        ensures image { IfSome result (λ x.
            image_of_node (node_of_tc x) ≡ image_of_ndb (ndb_of_folder self.now)) }
    {
        self.table(Items::Associated)
    }
}
