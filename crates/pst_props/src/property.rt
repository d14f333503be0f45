//! One property of what a path leads to.

ghost use Rattle.std.specs.Prelude.{◌≡◌, IfOk};
ghost use Rattle.pst_intact.specs.View.{table_of_intact, nodes_of_intact, image_of_intact};
ghost use Rattle.pst_value_json.specs.pst_pc.View.{property_of};
ghost use Rattle.pst_props.specs.Told.{told_or_fault};
ghost use Rattle.pst_props.specs.Property.{property_by_path as property_told, IsLentAt};

use crate::fault::DocFault;
use crate::found::found_in;
use pst_intact::Intact;
use pst_value_json::Prop;

/// The property with an identifier of what a path leads to, lent from the file's own memory; no memory is taken. Paths are those of
/// `props_doc`, and its faults come first: NoNode where a step leads nowhere; Bad with the fault of `check_pc` where the node is
/// neither a message nor a property context; NoProperty where there is no property with the identifier.
#[tactic(auto, unfolding(crate::specs::Property::property_by_path), using(crate::proofs::PropertyLemmas::property_there, crate::proofs::PropertyLemmas::property_lent))]
pub fn property_at<'a>(intact: &Intact<'a>, path: &[u32], id: u16) -> Result<Prop<'a>, DocFault>
    ensures told { let i = intact.now in
        told_or_fault property_of result ≡ property_told (table_of_intact i) (nodes_of_intact i) path.now id }
    ensures lent { let i = intact.now in
        IfOk result (IsLentAt (image_of_intact i) (table_of_intact i) (nodes_of_intact i) path.now id) }
{
    match found_in(intact, path, None)?.pc().get(id) {
        Some(prop) => Ok(prop),
        None => Err(DocFault::NoProperty(id)),
    }
}
