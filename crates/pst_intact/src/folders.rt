//! The folders among intact nodes, one after another.

ghost use Rattle.std.specs.Prelude.{◌≡◌, None};
ghost use Rattle.pst_fault.specs.Each.{first_of};
ghost use Rattle.pst_ndb.specs.NodeTable.{image_of_nodes, table_of_nodes, entries_of_nodes};
ghost use Rattle.pst_ndb.specs.Views.{roots_left, table_left, image_left};
ghost use Rattle.pst_intact.specs.Fault.{intact_node_fault};

use crate::folder::IntactFolder;
use crate::sought::{Sought, next_of};
use pst_ndb::{NodeTable, Nodes};

/// The folders and search folders that are left, their identifiers rising. No memory is taken.
#[derive(Clone, Copy)]
pub struct IntactFolders<'a> {
    nodes: NodeTable<'a>,
    rest: Nodes<'a>,
    ghost sound: { first_of (intact_node_fault (table_of_nodes nodes) (entries_of_nodes nodes))
        (roots_left rest) ≡ None },
    ghost table: { table_left rest ≡ table_of_nodes nodes },
    ghost image: { image_left rest ≡ image_of_nodes nodes },
}

impl<'a> Iterator for IntactFolders<'a> {
    ghost use Rattle.std.specs.Iterator.{item_count};
    ghost use Rattle.pst_intact.specs.View.{intact_folders_left, TakesIntactFolder};

    type Item = IntactFolder<'a>;

    ghost next_gives = { TakesIntactFolder };

    ghost remaining = { item_count intact_folders_left };

    fn next(&mut self) -> Option<IntactFolder<'a>> {
        let (node, rest) = next_of(Sought::Folders, self.rest)?;
        self.rest = rest;
        Some(IntactFolder::of(self.nodes, node))
    }
}

impl<'a> IntactFolders<'a> {
    ghost use Rattle.std.specs.Prelude.{◌≡◌, None};
    ghost use Rattle.pst_fault.specs.Each.{first_of};
    ghost use Rattle.pst_ndb.specs.NodeTable.{table_of_nodes, entries_of_nodes};
    ghost use Rattle.pst_ndb.specs.Roots.{all_roots};
    ghost use Rattle.pst_store.specs.pst_msg.Values.{is_folder};
    ghost use Rattle.pst_store.specs.Kind.{of_kind};
    ghost use Rattle.pst_intact.specs.Fault.{intact_node_fault};
    ghost use Rattle.pst_intact.specs.View.{intact_folders_left, folders_beside};

    // All folders among nodes none of which has a fault.
    pub(crate) fn all(nodes: NodeTable<'a>) -> IntactFolders<'a>
        requires { let entries = entries_of_nodes nodes in
            first_of (intact_node_fault (table_of_nodes nodes) entries) (all_roots entries) ≡ None }
        ensures left { intact_folders_left result
            ≡ of_kind is_folder (all_roots (entries_of_nodes nodes.entry)) }
        ensures beside { folders_beside result ≡ nodes.entry }
    {
        IntactFolders {
            nodes,
            rest: nodes.nodes(),
        }
    }
}
