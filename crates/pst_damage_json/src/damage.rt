//! All that is broken of a file as a document.

ghost use Rattle.std.specs.Prelude.{◌≡◌, IfOk, OnOk};
ghost use Rattle.pst_damage.specs.View.{damage_parts};
ghost use Rattle.pst_damage_json.specs.Damage.{whole_data, damage_data, damage_line as line_of_damage};

use crate::faults::write_fault_or_null;
use crate::lists::{write_faults, write_nodes};
use pst_damage::{Damage, Whole};
use pst_value_json::{Leaf, Pen, end_line, write_digest_member};
use std::alloc::{AllocError, Global};

// Writes how much is whole, as an object.
#[tactic(auto, unfolding(crate::specs::Damage::whole_data))]
fn write_whole<P: Pen>(alloc: Global, whole: &Whole, pen: &mut P) -> Result<(), AllocError>
    ensures put { OnOk result (P.Puts pen.old pen.new (whole_data whole.now)) }
    ensures kept { (base : P) → P.Keeps base pen.old → P.Keeps base pen.new }
{
    pen.first(alloc, "folders", b"{\"folders\":")?;
    pen.leaf(alloc, &Leaf::Natural(whole.folders as u64))?;
    pen.next(alloc, "messages", b",\"messages\":")?;
    pen.leaf(alloc, &Leaf::Natural(whole.messages as u64))?;
    pen.next(alloc, "nodes", b",\"nodes\":")?;
    pen.leaf(alloc, &Leaf::Natural(whole.nodes as u64))?;
    pen.close(alloc)
}

// Writes the document.
#[tactic(auto, unfolding(crate::specs::Damage::damage_data))]
fn write_damage<P: Pen>(
    alloc: Global,
    damage: &Damage,
    digest: Option<[u8; 32]>,
    pen: &mut P,
) -> Result<(), AllocError>
    ensures put { OnOk result (P.Puts pen.old pen.new
        (damage_data (damage_parts damage.now) digest)) }
    ensures kept { (base : P) → P.Keeps base pen.old → P.Keeps base pen.new }
{
    pen.first(alloc, "blocks", b"{\"blocks\":")?;
    write_faults(alloc, &damage.blocks, pen)?;
    pen.next(alloc, "header", b",\"header\":")?;
    write_fault_or_null(alloc, &damage.header, pen)?;
    pen.next(alloc, "maps", b",\"maps\":")?;
    write_fault_or_null(alloc, &damage.maps, pen)?;
    pen.next(alloc, "nodes", b",\"nodes\":")?;
    write_nodes(alloc, &damage.nodes, pen)?;
    pen.next(alloc, "pages", b",\"pages\":")?;
    write_faults(alloc, &damage.pages, pen)?;
    write_digest_member(alloc, digest, pen)?;
    pen.next(alloc, "whole", b",\"whole\":")?;
    write_whole(alloc, &damage.whole, pen)?;
    pen.close(alloc)
}

/// The line that shows all that is broken of a file: the compact text of a JSON object, whose keys stand in the order of their
/// bytes, and a line feed. The object has the faults of blocks, the fault of the header and that of the maps, each null where
/// there is none, the nodes that have a fault, the faults of pages, the SHA-256 of the file, where it is to be told, and how
/// many folders, messages and nodes are whole. A fault is an object of its place, offset and identifier of a block as numbers
/// and that of a node as a text, and of the name and the number of its kind. It is made fault by fault: beside the text,
/// memory is taken for one name at a time.
#[tactic(auto, unfolding(crate::specs::Damage::damage_line, pst_text::specs::Line::data_line))]
pub fn damage_line(
    alloc: Global,
    damage: &Damage,
    digest: Option<[u8; 32]>,
) -> Result<Vec<u8>, AllocError>
    ensures { IfOk result (λ t. t.items ≡ line_of_damage (damage_parts damage.now) digest) }
{
    let mut text = Vec::new(alloc);
    write_damage(alloc, damage, digest, &mut text)?;
    end_line(text)
}
