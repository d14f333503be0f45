//! Values of properties and cells, written with a pen.

ghost use Rattle.std.specs.Prelude.{◌≡◌, IfOk, OnOk};
ghost use Rattle.serde_json.specs.View.{view};
ghost use Rattle.pst_datatree.specs.Shown.{bytes_in};
ghost use Rattle.pst_value.specs.Elements.{elements_left};
ghost use Rattle.pst_text.specs.Parts.{list_data};
ghost use Rattle.pst_value_json.specs.Value.{single_data, value_data};

use crate::pens::Pen;
use crate::single::single;
use crate::trees::only;
use pst_datatree::Value;
use pst_value::{Elements, PropType, elements_from};
use serde_json::Value as Doc;
use std::alloc::{AllocError, Global};

// Writes single values of this type, as a list.
fn write_values<P: Pen>(
    alloc: Global,
    kind: PropType,
    values: Elements,
    pen: &mut P,
) -> Result<(), AllocError>
    ensures put { OnOk result (P.Puts pen.old pen.new
        (list_data (single_data kind.0) (elements_left values.entry))) }
    ensures kept { (base : P) → P.Keeps base pen.old → P.Keeps base pen.new }
{
    pen.open_list(alloc)?;
    let mut later = false;
    for value in values {
        pen.comma(later)?;
        pen.leaf(alloc, &single(kind, &value))?;
        pen.item(alloc)?;
        later = true;
    }
    pen.close_list(later)
}

/// Writes a value of this type.
#[tactic(auto, unfolding(crate::specs::Value::value_data))]
pub(crate) fn write_value<P: Pen>(
    alloc: Global,
    kind: PropType,
    value: &Value,
    pen: &mut P,
) -> Result<(), AllocError>
    ensures put { OnOk result (P.Puts pen.old pen.new (value_data kind.0 (bytes_in value.now))) }
    ensures kept { (base : P) → P.Keeps base pen.old → P.Keeps base pen.new }
{
    match elements_from(value, kind) {
        Some(values) => write_values(alloc, PropType(kind.0 % 0x1000), values, pen),
        None => pen.leaf(alloc, &single(kind, value)),
    }
}

/// The JSON value of a value of this type.
pub fn value_doc(alloc: Global, kind: PropType, value: Value) -> Result<Doc, AllocError>
    ensures { IfOk result (λ d. view d ≡ value_data kind.0 (bytes_in value.entry)) }
{
    let mut docs = Vec::new(alloc);
    write_value(alloc, kind, &value, &mut docs)?;
    Ok(only(docs))
}
