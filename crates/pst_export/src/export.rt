//! What an archive is made from.

ghost use Rattle.std.specs.Prelude.{◌≡◌, map, None};
ghost use Rattle.pst_btree.specs.Order.{Rises};
ghost use Rattle.pst_btree.specs.TreeProps.{Rises-prop};
ghost use Rattle.pst_json.specs.NamesIndex.{IsNamesIndex, IsNamesIndex-prop};
ghost use Rattle.pst_intact.specs.View.{table_of_intact, nodes_of_intact};
ghost use Rattle.pst_verify.specs.pst_reach.Levels.{reaches_of};
ghost use Rattle.pst_verify.specs.pst_reach.Path.{reach_nid};

use pst_json::{Intact, Lost, NamesIndex, Reach};

/// What an archive is made from: intact nodes, what is told of others and of what is broken, the folders among them that the root
/// folder reaches, and what finds the names of their properties.
#[derive(Drop)]
pub struct Export<'a> {
    pub(crate) intact: Intact<'a>,
    pub(crate) lost: Lost<'a>,
    pub(crate) damage: Option<Vec<u8>>,
    pub(crate) reached: Vec<Reach>,
    pub(crate) index: NamesIndex,
    ghost named: { IsNamesIndex (table_of_intact intact) (nodes_of_intact intact) index } by { IsNamesIndex-prop
        (table_of_intact intact) (nodes_of_intact intact) index },
    ghost reaches: { reached.items ≡ reaches_of (table_of_intact intact) (nodes_of_intact intact) },
    ghost rise: { Rises 0 None (map reach_nid reached.items) } by { Rises-prop 0 None
        (map reach_nid reached.items) },
}
