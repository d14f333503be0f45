//! The messages among intact nodes, one after another.

ghost use Rattle.std.specs.Prelude.{◌≡◌, None};
ghost use Rattle.pst_fault.specs.Each.{first_of};
ghost use Rattle.pst_ndb.specs.NodeTable.{image_of_nodes, table_of_nodes, entries_of_nodes};
ghost use Rattle.pst_ndb.specs.Views.{roots_left, table_left, image_left};
ghost use Rattle.pst_intact.specs.Fault.{intact_node_fault};

use crate::sought::{Sought, next_of};
use pst_msg::{Message, known_message};
use pst_ndb::{NodeTable, Nodes};

/// The messages that are left, also those that belong to a folder itself, their identifiers rising. No memory is taken.
#[derive(Clone, Copy)]
pub struct IntactMessages<'a> {
    nodes: NodeTable<'a>,
    rest: Nodes<'a>,
    ghost sound: { first_of (intact_node_fault (table_of_nodes nodes) (entries_of_nodes nodes))
        (roots_left rest) ≡ None },
    ghost table: { table_left rest ≡ table_of_nodes nodes },
    ghost image: { image_left rest ≡ image_of_nodes nodes },
}

impl<'a> Iterator for IntactMessages<'a> {
    ghost use Rattle.std.specs.Iterator.{item_count};
    ghost use Rattle.pst_intact.specs.View.{intact_messages_left, TakesIntactMessage};

    type Item = Message<'a>;

    ghost next_gives = { TakesIntactMessage };

    ghost remaining = { item_count intact_messages_left };

    #[tactic(auto, using(crate::proofs::IntactLemmas::message_sound))]
    fn next(&mut self) -> Option<Message<'a>> {
        let (node, rest) = next_of(Sought::Messages, self.rest)?;
        self.rest = rest;
        Some(known_message(node))
    }
}

impl<'a> IntactMessages<'a> {
    ghost use Rattle.std.specs.Prelude.{◌≡◌, None};
    ghost use Rattle.pst_fault.specs.Each.{first_of};
    ghost use Rattle.pst_ndb.specs.NodeTable.{table_of_nodes, entries_of_nodes};
    ghost use Rattle.pst_ndb.specs.Roots.{all_roots};
    ghost use Rattle.pst_store.specs.pst_msg.Values.{is_message};
    ghost use Rattle.pst_store.specs.Kind.{of_kind};
    ghost use Rattle.pst_intact.specs.Fault.{intact_node_fault};
    ghost use Rattle.pst_intact.specs.View.{intact_messages_left, messages_beside};

    // All messages among nodes none of which has a fault.
    pub(crate) fn all(nodes: NodeTable<'a>) -> IntactMessages<'a>
        requires { let entries = entries_of_nodes nodes in
            first_of (intact_node_fault (table_of_nodes nodes) entries) (all_roots entries) ≡ None }
        ensures left { intact_messages_left result
            ≡ of_kind is_message (all_roots (entries_of_nodes nodes.entry)) }
        ensures beside { messages_beside result ≡ nodes.entry }
    {
        IntactMessages {
            nodes,
            rest: nodes.nodes(),
        }
    }
}
