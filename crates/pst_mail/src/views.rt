//! The views of what is known to have no fault.

ghost use Rattle.std.specs.Prelude.{◌≡◌, true, None};
ghost use Rattle.pst_ndb.specs.Views.{image_of_node, image_of_ndb, table_of_node, table_of_ndb, nodes_of, top_of, nid_of, roots_of};
ghost use Rattle.pst_mail.specs.Fault.{message_fault, typed_node_fault};
ghost use Rattle.pst_mail.specs.NodeLaw.{NodeLaw};
ghost use Rattle.pst_mail.specs.Values.{is_folder};
ghost use Rattle.pst_mail.specs.View.{node_of_message, ndb_of_folder, node_of_folder};

use crate::folder_view::Folder;
use crate::message_view::Message;
use pst_ndb::{Ndb, Node};

/// The message of a node that is one: it has no first fault as a message.
pub fn known_message(node: Node<'_>) -> Message<'_>
    requires { message_fault (table_of_node node) (roots_of node) ≡ None }
    ensures { node_of_message result ≡ node.entry }
{
    Message::of(node)
}

/// The folder of a node of this node database that has no first fault, and whose type is that of a folder or a search folder.
pub fn known_folder<'a>(ndb: Ndb<'a>, node: Node<'a>) -> Folder<'a>
    requires table { table_of_node node ≡ table_of_ndb ndb }
    requires image { image_of_node node ≡ image_of_ndb ndb }
    requires own { nid_of node ≡ top_of node }
    requires kind { is_folder (top_of node) ≡ true }
    requires sound { typed_node_fault (table_of_ndb ndb) (nodes_of ndb) (roots_of node) ≡ None }
    ensures ndb { ndb_of_folder result ≡ ndb.entry }
    ensures node { node_of_folder result ≡ node.entry }
{
    Folder::of(ndb, node)
}

/// A node whose subnodes have no fault is what its type says exactly where it has no first fault.
#[tactic(auto, using(crate::proofs::ContentsLaws::node_law))]
pub fn nodes_decide()
    ensures { NodeLaw }
{}
