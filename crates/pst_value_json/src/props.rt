//! The properties of a property context.

ghost use Rattle.std.specs.Prelude.{◌≡◌, IfOk, OnOk};
ghost use Rattle.serde_json.specs.View.{view};
ghost use Rattle.pst_ndb.specs.Views.{table_of_node, roots_of};
ghost use Rattle.pst_pc.specs.Values.{pc_records};
ghost use Rattle.pst_pc.specs.View.{node_of_pc};
ghost use Rattle.pst_value_json.specs.declared.filed.Filed.TheVariants.{Nothing};
ghost use Rattle.pst_text.specs.Parts.{list_data};
ghost use Rattle.pst_value_json.specs.Props.{record_data, names_told};

use crate::filed::Filed;
use crate::pens::Pen;
use crate::trees::only;
use crate::write_prop::write_shown;
use pst_names::NameMap;
use pst_pc::Pc;
use serde_json::Value as Doc;
use std::alloc::{AllocError, Global};

/// Writes the properties of a property context, as a list of objects, in order of their identifiers, each with its identifier, the
/// name and the set of names that the name map gives it, if it gives one, its type, and its value as `value_doc` gives it; where
/// that value has a file, the name of the file in its place. A name is a number or a text, and its set a GUID or null. Without a
/// name map no property has a name. With places, each has also a list of `[place,length]`: the pieces of its value in the file, in
/// order, but for those without bytes.
pub fn write_props<P: Pen>(
    alloc: Global,
    pc: &Pc,
    names: Option<NameMap>,
    filed: Filed,
    places: bool,
    pen: &mut P,
) -> Result<(), AllocError>
    ensures put { let node = node_of_pc pc.now in let t = table_of_node node in
        let r = roots_of node in
        let shown = record_data (names_told names.entry) filed places t r in
        OnOk result (P.Puts pen.old pen.new (list_data shown (pc_records t r))) }
    ensures kept { (base : P) → P.Keeps base pen.old → P.Keeps base pen.new }
{
    pen.open_list(alloc)?;
    let mut later = false;
    for prop in pc.props() {
        pen.comma(later)?;
        write_shown(alloc, names, filed, places, &prop, pen)?;
        pen.item(alloc)?;
        later = true;
    }
    pen.close_list(later)
}

/// The properties of a property context as a JSON array, as `write_props` shows them, each with its value.
pub fn pc_doc(
    alloc: Global,
    pc: &Pc,
    names: Option<NameMap>,
    places: bool,
) -> Result<Doc, AllocError>
    ensures { let node = node_of_pc pc.now in let t = table_of_node node in let r = roots_of node in
        let shown = record_data (names_told names.entry) Nothing places t r in
        IfOk result (λ d. view d ≡ list_data shown (pc_records t r)) }
{
    let mut docs = Vec::new(alloc);
    write_props(alloc, pc, names, Filed::Nothing, places, &mut docs)?;
    Ok(only(docs))
}
