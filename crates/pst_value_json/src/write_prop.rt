//! Properties, written with a pen.

ghost use Rattle.std.specs.Prelude.{◌≡◌, OnOk, codes, map, option_map};
ghost use Rattle.serde_json.specs.Data.{Members};
ghost use Rattle.pst_names.specs.View.{kind_parts, name_parts};
ghost use Rattle.pst_pc.specs.View.{property_of};
ghost use Rattle.pst_value_json.specs.Leaf.{leaf_data};
ghost use Rattle.pst_value_json.specs.Pen.{InObject, IsLast, and_member_if};
ghost use Rattle.pst_value_json.specs.Places.{places_in, places_data, if_asked};
ghost use Rattle.pst_value_json.specs.Props.{kind_data, set_data, called_data, set_of_data, prop_data, filed_data, filed_prop_data, names_told};

use crate::filed::{Filed, file_told};
use crate::leaf::Leaf;
use crate::pens::Pen;
use crate::write_places::write_places;
use crate::write_values::write_value;
use pst_datatree::Value;
use pst_names::{Name, NameKind, NameMap};
use pst_pc::Prop;
use std::alloc::{AllocError, Global};
use uuid::Uuid;

// A name within its set.
fn kind_leaf<'a>(kind: &'a NameKind<'a>) -> Leaf<'a>
    ensures { leaf_data result ≡ kind_data (kind_parts kind.now) }
{
    match kind {
        NameKind::Num(number) => Leaf::Natural(u64::from(*number)),
        NameKind::Text(text) => Leaf::Text(text),
    }
}

// The set that a name is of, or null.
fn set_leaf(set: Option<Uuid>) -> Leaf<'static>
    ensures { leaf_data result ≡ set_data set }
{
    match set {
        Some(guid) => Leaf::Guid(guid),
        None => Leaf::Null,
    }
}

// What a property is called; None where it has no name, or where there is no name map.
fn name_in<'a>(names: Option<NameMap<'a>>, id: u16) -> Option<Name<'a>>
    ensures { option_map name_parts result ≡ names_told names.entry id }
{
    match names {
        Some(map) => map.name(id),
        None => None,
    }
}

// Writes what a property is called, as a member behind others, where it has a name.
fn write_name_member<P: Pen>(
    alloc: Global,
    name: &Option<Name>,
    pen: &mut P,
) -> Result<(), AllocError>
    ensures put { let shown = option_map called_data (option_map name_parts name.now) in
        (base : P) (done : Members) → InObject P.Puts P.AtKey base pen.old done
        → IsLast done (codes "name") → OnOk result (InObject P.Puts P.AtKey base pen.new
        (and_member_if done (codes "name") shown)) }
    ensures kept { (base : P) → P.Keeps base pen.old → P.Keeps base pen.new }
{
    if let Some(name) = name {
        pen.next(alloc, "name", b",\"name\":")?;
        pen.leaf(alloc, &kind_leaf(&name.kind))?;
    }
    Ok(())
}

// Writes the set of the name of a property, as a member behind others, where it has a name.
fn write_set_member<P: Pen>(
    alloc: Global,
    name: &Option<Name>,
    pen: &mut P,
) -> Result<(), AllocError>
    ensures put { let shown = option_map set_of_data (option_map name_parts name.now) in
        (base : P) (done : Members) → InObject P.Puts P.AtKey base pen.old done
        → IsLast done (codes "set") → OnOk result (InObject P.Puts P.AtKey base pen.new
        (and_member_if done (codes "set") shown)) }
    ensures kept { (base : P) → P.Keeps base pen.old → P.Keeps base pen.new }
{
    if let Some(name) = name {
        pen.next(alloc, "set", b",\"set\":")?;
        pen.leaf(alloc, &set_leaf(name.set))?;
    }
    Ok(())
}

// Writes the places of a value, as a member behind others, where these are asked for.
fn write_places_member<P: Pen>(
    alloc: Global,
    places: bool,
    value: &Value,
    pen: &mut P,
) -> Result<(), AllocError>
    ensures put { let shown = option_map places_data (if_asked places (places_in value.now)) in
        (base : P) (done : Members) → InObject P.Puts P.AtKey base pen.old done
        → IsLast done (codes "places") → OnOk result (InObject P.Puts P.AtKey base pen.new
        (and_member_if done (codes "places") shown)) }
    ensures kept { (base : P) → P.Keeps base pen.old → P.Keeps base pen.new }
{
    if places {
        pen.next(alloc, "places", b",\"places\":")?;
        write_places(alloc, value, pen)?;
    }
    Ok(())
}

// Writes a property, as an object.
#[tactic(auto, unfolding(crate::specs::Props::prop_data))]
fn write_prop<P: Pen>(
    alloc: Global,
    name: &Option<Name>,
    places: bool,
    prop: &Prop,
    pen: &mut P,
) -> Result<(), AllocError>
    ensures put { let name = option_map name_parts name.now in
        let places = if_asked places (places_in prop.now.value) in
        OnOk result (P.Puts pen.old pen.new (prop_data name places (property_of prop.now))) }
    ensures kept { (base : P) → P.Keeps base pen.old → P.Keeps base pen.new }
{
    pen.first(alloc, "id", b"{\"id\":")?;
    pen.leaf(alloc, &Leaf::Id(prop.id))?;
    write_name_member(alloc, name, pen)?;
    write_places_member(alloc, places, &prop.value, pen)?;
    write_set_member(alloc, name, pen)?;
    pen.next(alloc, "type", b",\"type\":")?;
    pen.leaf(alloc, &Leaf::Id(prop.kind.0))?;
    pen.next(alloc, "value", b",\"value\":")?;
    write_value(alloc, prop.kind, &prop.value, pen)?;
    pen.close(alloc)
}

// Writes a property whose value has a file of its own, as an object.
#[tactic(auto, unfolding(crate::specs::Props::filed_data))]
fn write_filed_prop<P: Pen>(
    alloc: Global,
    file: &str,
    name: &Option<Name>,
    places: bool,
    prop: &Prop,
    pen: &mut P,
) -> Result<(), AllocError>
    ensures put { let name = option_map name_parts name.now in
        let places = if_asked places (places_in prop.now.value) in OnOk result
        (P.Puts pen.old pen.new (filed_data file.now name places (property_of prop.now))) }
    ensures kept { (base : P) → P.Keeps base pen.old → P.Keeps base pen.new }
{
    pen.first(alloc, "file", b"{\"file\":")?;
    pen.leaf(alloc, &Leaf::Word(file))?;
    pen.next(alloc, "id", b",\"id\":")?;
    pen.leaf(alloc, &Leaf::Id(prop.id))?;
    write_name_member(alloc, name, pen)?;
    write_places_member(alloc, places, &prop.value, pen)?;
    write_set_member(alloc, name, pen)?;
    pen.next(alloc, "type", b",\"type\":")?;
    pen.leaf(alloc, &Leaf::Id(prop.kind.0))?;
    pen.close(alloc)
}

/// Writes a property, as an object, where the values of these have files.
pub(crate) fn write_shown<P: Pen>(
    alloc: Global,
    names: Option<NameMap>,
    filed: Filed,
    places: bool,
    prop: &Prop,
    pen: &mut P,
) -> Result<(), AllocError>
    ensures put { let name = names_told names.entry prop.now.id in
        let places = if_asked places (places_in prop.now.value) in OnOk result
        (P.Puts pen.old pen.new (filed_prop_data filed name places (property_of prop.now))) }
    ensures kept { (base : P) → P.Keeps base pen.old → P.Keeps base pen.new }
{
    let name = name_in(names, prop.id);
    match file_told(alloc, filed, prop.id, prop.kind)? {
        Some(file) => write_filed_prop(alloc, &file, &name, places, prop, pen),
        None => write_prop(alloc, &name, places, prop, pen),
    }
}
