//! The messages of a store, one after another.

ghost use Rattle.std.specs.Prelude.{◌≡◌, None};
ghost use Rattle.pst_fault.specs.Each.{first_of};
ghost use Rattle.pst_ndb.specs.Views.{image_of_ndb, table_of_ndb, nodes_of, roots_left, table_left, image_left};
ghost use Rattle.pst_msg.specs.Fault.{typed_node_fault};

use crate::sort::{Sort, next_of};
use pst_msg::{Message, known_message};
use pst_ndb::{Ndb, Nodes};

/// The messages that are left, also those that belong to a folder itself, their identifiers rising: a `Message` each. No memory is
/// taken.
#[derive(Clone, Copy)]
pub struct Messages<'a> {
    ndb: Ndb<'a>,
    rest: Nodes<'a>,
    ghost sound: { first_of (typed_node_fault (table_of_ndb ndb) (nodes_of ndb))
        (roots_left rest) ≡ None },
    ghost table: { table_left rest ≡ table_of_ndb ndb },
    ghost image: { image_left rest ≡ image_of_ndb ndb },
}

impl<'a> Iterator for Messages<'a> {
    ghost use Rattle.std.specs.Iterator.{item_count};
    ghost use Rattle.pst_store.specs.View.{messages_left, TakesMessage};

    type Item = Message<'a>;

    ghost next_gives = { TakesMessage };

    ghost remaining = { item_count messages_left };

    #[tactic(auto, using(crate::proofs::StoreLemmas::message_sound))]
    fn next(&mut self) -> Option<Message<'a>> {
        let (node, rest) = next_of(Sort::Messages, self.rest)?;
        self.rest = rest;
        Some(known_message(node))
    }
}

impl<'a> Messages<'a> {
    ghost use Rattle.std.specs.Prelude.{◌≡◌, None};
    ghost use Rattle.pst_fault.specs.Each.{first_of};
    ghost use Rattle.pst_ndb.specs.Roots.{all_roots};
    ghost use Rattle.pst_ndb.specs.Views.{table_of_ndb, nodes_of};
    ghost use Rattle.pst_msg.specs.Fault.{typed_node_fault};
    ghost use Rattle.pst_msg.specs.Values.{is_message};
    ghost use Rattle.pst_store.specs.Kind.{of_kind};
    ghost use Rattle.pst_store.specs.View.{messages_left, messages_ndb};

    // All messages of a node database whose nodes have no fault.
    pub(crate) fn all(ndb: Ndb<'a>) -> Messages<'a>
        requires { let nodes = nodes_of ndb in
            first_of (typed_node_fault (table_of_ndb ndb) nodes) (all_roots nodes) ≡ None }
        ensures left { messages_left result ≡ of_kind is_message (all_roots (nodes_of ndb.entry)) }
        ensures ndb { messages_ndb result ≡ ndb.entry }
    {
        Messages {
            ndb,
            rest: ndb.nodes(),
        }
    }
}
