//! The names that a store's properties are shown with.

ghost use Rattle.std.specs.Prelude.{◌≡◌, Some, IfOk};
ghost use Rattle.pst_ndb.specs.Roots.{node_in};
ghost use Rattle.pst_ndb.specs.Views.{table_of_node};
ghost use Rattle.pst_intact.specs.View.{table_of_intact, nodes_of_intact};
ghost use Rattle.pst_value_json.specs.pst_names.Name.{store_name};
ghost use Rattle.pst_value_json.specs.pst_names.View.{node_of_names, names_roots};
ghost use Rattle.pst_value_json.specs.pst_names.declared.name_map.TheConstants.{NAME_MAP as name_map_nid};
ghost use Rattle.pst_value_json.specs.Props.{names_told};
ghost use Rattle.pst_ndb.specs.NodeIndexes.{AreNodeIndexes};
ghost use Rattle.pst_props.specs.NamesIndex.{IsEntriesIndex, IsNamesIndex};

use crate::lent::new_indexes;
use pst_intact::Intact;
use pst_mail::{known_names, known_pc};
use pst_ndb::NodeIndexes;
use pst_value_json::{NameIndex, NameMap};
use std::alloc::{AllocError, Global};

/// What finds the names of a store: an index of the entries of its name map, and those of the list of subnodes and of the data of the
/// map's node, by which its streams are found.
#[derive(Drop)]
pub struct NamesIndex {
    pub(crate) names: NameIndex,
    pub(crate) node: NodeIndexes,
}

// The name map among intact nodes, whose node is lent its indexes.
#[tactic(auto, using(pst_intact::proofs::IntactLemmas::names_properties, pst_intact::proofs::IntactLemmas::names_sound, pst_ndb::proofs::NodeIndexesLemmas::last_of))]
fn lent<'a>(intact: &Intact, map: NameMap<'a>, index: &'a NodeIndexes) -> NameMap<'a>
    requires known { AreNodeIndexes (table_of_intact intact.now) index.now }
    requires roots { Some (names_roots map) ≡ node_in (nodes_of_intact intact.now) name_map_nid }
    requires table { table_of_node (node_of_names map) ≡ table_of_intact intact.now }
    ensures roots { names_roots result ≡ names_roots map.entry }
    ensures table { table_of_node (node_of_names result) ≡ table_of_intact intact.now }
{
    intact.is_sound();
    known_names(&known_pc(index.lend(map.node())))
}

// The indexes of the list and the data of its node.
#[tactic(auto, using(pst_ndb::proofs::NodeIndexesLemmas::last_of))]
fn node_index(alloc: Global, intact: &Intact) -> Result<NodeIndexes, AllocError>
    ensures { IfOk result (AreNodeIndexes (table_of_intact intact.now)) }
{
    match intact.names() {
        Some(map) => NodeIndexes::of(alloc, map.node()),
        None => Ok(new_indexes(alloc)),
    }
}

// The index of its entries, whose streams are found by these.
fn entries_index(
    alloc: Global,
    intact: &Intact,
    node: &NodeIndexes,
) -> Result<NameIndex, AllocError>
    requires { AreNodeIndexes (table_of_intact intact.now) node.now }
    ensures { let i = intact.now in
        IfOk result (IsEntriesIndex (table_of_intact i) (nodes_of_intact i)) }
{
    match intact.names() {
        Some(map) => Ok(lent(intact, map, node).index(alloc)?),
        None => Ok(NameIndex::new(alloc)),
    }
}

/// An index of the names of a store, for `props_doc` and `props_line`: of n entries of its name map it is made in about n log n
/// steps. Where there is no name map, it notes nothing. AllocError where memory is refused.
#[tactic(auto, unfolding(crate::specs::NamesIndex::IsNamesIndex))]
pub fn names_index(alloc: Global, intact: &Intact) -> Result<NamesIndex, AllocError>
    ensures { let i = intact.now in
        IfOk result (IsNamesIndex (table_of_intact i) (nodes_of_intact i)) }
{
    let node = node_index(alloc, intact)?;
    let names = entries_index(alloc, intact, &node)?;
    Ok(NamesIndex { names, node })
}

/// The store's name map, which is lent such an index; None where there is no name map.
#[tactic(auto, unfolding(crate::specs::NamesIndex::IsNamesIndex))]
pub fn names_in<'a>(intact: &Intact<'a>, index: &'a NamesIndex) -> Option<NameMap<'a>>
    requires { let i = intact.now in
        IsNamesIndex (table_of_intact i) (nodes_of_intact i) index.now }
    ensures { let i = intact.now in
        names_told result ≡ store_name (table_of_intact i) (nodes_of_intact i) }
{
    match intact.names() {
        Some(map) => Some(lent(intact, map, &index.node).indexed(&index.names)),
        None => None,
    }
}
