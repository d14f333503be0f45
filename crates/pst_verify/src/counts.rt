//! How many nodes there are of each kind.

ghost use Rattle.std.specs.Prelude.{◌≡◌, if◌then◌else◌, length};
ghost use Rattle.pst_ndb.specs.Roots.{all_roots};
ghost use Rattle.pst_ndb.specs.Views.{nodes_of};
ghost use Rattle.pst_reach.specs.pst_store.pst_msg.Values.{is_folder as folder_kind, is_message as message_kind};
ghost use Rattle.pst_verify.specs.Counts.{count_of};

use pst_ndb::Ndb;
use pst_reach::{is_folder, is_message};

/// How many nodes there are, and how many of them are folders and messages.
#[derive(Clone, Copy, Debug, PartialEq, Eq)]
pub(crate) struct Counts {
    pub(crate) nodes: u64,
    pub(crate) folders: u64,
    pub(crate) messages: u64,
}

// One, of what is counted; else none.
fn one_if(is: bool) -> u64
    ensures { result ≡ if is then 1 else 0 }
{
    u64::from(is)
}

/// Counts the nodes of a node database.
#[tactic(auto, using(crate::proofs::CountLemmas::room, crate::proofs::CountLemmas::none_left, crate::proofs::CountLemmas::all_counted))]
pub(crate) fn count_nodes(ndb: &Ndb) -> Counts
    ensures nodes { result.nodes ≡ length (nodes_of ndb.now) }
    ensures folders { result.folders ≡ count_of folder_kind (all_roots (nodes_of ndb.now)) }
    ensures messages { result.messages ≡ count_of message_kind (all_roots (nodes_of ndb.now)) }
{
    ndb.nodes_rise();
    let mut nodes = 0;
    let mut folders = 0;
    let mut messages = 0;
    let mut rest = ndb.nodes();
    while let Some(node) = rest.next() {
        let nid = node.top();
        nodes += 1;
        folders += one_if(is_folder(nid));
        messages += one_if(is_message(nid));
    }
    Counts {
        nodes,
        folders,
        messages,
    }
}
