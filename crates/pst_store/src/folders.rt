//! The folders of a store, one after another.

ghost use Rattle.std.specs.Prelude.{◌≡◌, None};
ghost use Rattle.pst_fault.specs.Each.{first_of};
ghost use Rattle.pst_ndb.specs.Views.{image_of_ndb, table_of_ndb, nodes_of, roots_left, table_left, image_left};
ghost use Rattle.pst_msg.specs.Fault.{typed_node_fault};

use crate::sort::{Sort, next_of};
use pst_msg::{Folder, known_folder};
use pst_ndb::{Ndb, Nodes};

/// The folders and search folders that are left, their identifiers rising: a `Folder` each. No memory is taken.
#[derive(Clone, Copy)]
pub struct Folders<'a> {
    ndb: Ndb<'a>,
    rest: Nodes<'a>,
    ghost sound: { first_of (typed_node_fault (table_of_ndb ndb) (nodes_of ndb))
        (roots_left rest) ≡ None },
    ghost table: { table_left rest ≡ table_of_ndb ndb },
    ghost image: { image_left rest ≡ image_of_ndb ndb },
}

impl<'a> Iterator for Folders<'a> {
    ghost use Rattle.std.specs.Iterator.{item_count};
    ghost use Rattle.pst_store.specs.View.{folders_left, TakesFolder};

    type Item = Folder<'a>;

    ghost next_gives = { TakesFolder };

    ghost remaining = { item_count folders_left };

    fn next(&mut self) -> Option<Folder<'a>> {
        let (node, rest) = next_of(Sort::Folders, self.rest)?;
        self.rest = rest;
        Some(known_folder(self.ndb, node))
    }
}

impl<'a> Folders<'a> {
    ghost use Rattle.std.specs.Prelude.{◌≡◌, None};
    ghost use Rattle.pst_fault.specs.Each.{first_of};
    ghost use Rattle.pst_ndb.specs.Roots.{all_roots};
    ghost use Rattle.pst_ndb.specs.Views.{table_of_ndb, nodes_of};
    ghost use Rattle.pst_msg.specs.Fault.{typed_node_fault};
    ghost use Rattle.pst_msg.specs.Values.{is_folder};
    ghost use Rattle.pst_store.specs.Kind.{of_kind};
    ghost use Rattle.pst_store.specs.View.{folders_left, folders_ndb};

    // All folders of a node database whose nodes have no fault.
    pub(crate) fn all(ndb: Ndb<'a>) -> Folders<'a>
        requires { let nodes = nodes_of ndb in
            first_of (typed_node_fault (table_of_ndb ndb) nodes) (all_roots nodes) ≡ None }
        ensures left { folders_left result ≡ of_kind is_folder (all_roots (nodes_of ndb.entry)) }
        ensures ndb { folders_ndb result ≡ ndb.entry }
    {
        Folders {
            ndb,
            rest: ndb.nodes(),
        }
    }
}
