//! The texts among the properties of folders and messages.

ghost use Rattle.std.specs.Prelude.{OnOk};
ghost use Rattle.pst_ndb.specs.Views.{table_of_node, roots_of};
ghost use Rattle.pst_value_json.specs.pst_pc.View.{node_of_pc};
ghost use Rattle.pst_props.specs.Texts.{text_property};

use pst_value_json::{Leaf, Pc, Pen, PropType};
use std::alloc::{AllocError, Global};

/// The name of a folder (PidTagDisplayName).
pub const NAME: u16 = 0x3001;

/// The class of a message (PidTagMessageClass).
pub const CLASS: u16 = 0x001A;

/// The name of who sent a message (PidTagSenderName).
pub const SENDER: u16 = 0x0C1A;

/// The subject of a message (PidTagSubject).
pub const SUBJECT: u16 = 0x0037;

/// The type of texts of 16-bit units (PtypString).
pub const TEXT: PropType = PropType(0x001F);

/// Writes the text of the property with an identifier; null where there is none, or it has another type.
#[tactic(auto, unfolding(crate::specs::Texts::text_property))]
pub fn write_text_property<P: Pen>(
    alloc: Global,
    pc: &Pc,
    id: u16,
    pen: &mut P,
) -> Result<(), AllocError>
    ensures put { let node = node_of_pc pc.now in
        let shown = text_property (table_of_node node) (roots_of node) id in
        OnOk result (P.Puts pen.old pen.new shown) }
    ensures kept { (base : P) → P.Keeps base pen.old → P.Keeps base pen.new }
{
    match pc.get(id) {
        Some(prop) if prop.kind == TEXT => pen.leaf(alloc, &Leaf::Text(&prop.value)),
        _ => pen.leaf(alloc, &Leaf::Null),
    }
}
