//! Lists of what is broken, as JSON.

ghost use Rattle.std.specs.Prelude.{OnOk};
ghost use Rattle.pst_value_json.specs.pst_text.Parts.{list_data};
ghost use Rattle.pst_damage_json.specs.Damage.{broken_data};
ghost use Rattle.pst_damage_json.specs.Faults.{fault_data};

use crate::faults::write_fault;
use pst_damage::BrokenNode;
use pst_fault::Fault;
use pst_value_json::{Leaf, Pen};
use std::alloc::{AllocError, Global};

/// Writes faults, as a list.
pub(crate) fn write_faults<P: Pen>(
    alloc: Global,
    faults: &[Fault],
    pen: &mut P,
) -> Result<(), AllocError>
    ensures put { OnOk result (P.Puts pen.old pen.new (list_data fault_data faults.now)) }
    ensures kept { (base : P) → P.Keeps base pen.old → P.Keeps base pen.new }
{
    pen.open_list(alloc)?;
    let mut later = false;
    for fault in faults {
        pen.comma(later)?;
        write_fault(alloc, fault, pen)?;
        pen.item(alloc)?;
        later = true;
    }
    pen.close_list(later)
}

// Writes a node with a fault, as an object.
#[tactic(auto, unfolding(crate::specs::Damage::broken_data))]
fn write_broken<P: Pen>(alloc: Global, broken: &BrokenNode, pen: &mut P) -> Result<(), AllocError>
    ensures put { OnOk result (P.Puts pen.old pen.new (broken_data broken.now)) }
    ensures kept { (base : P) → P.Keeps base pen.old → P.Keeps base pen.new }
{
    pen.first(alloc, "fault", b"{\"fault\":")?;
    write_fault(alloc, &broken.fault, pen)?;
    pen.next(alloc, "node", b",\"node\":")?;
    pen.leaf(alloc, &Leaf::Nid(Some(broken.nid)))?;
    pen.close(alloc)
}

/// Writes nodes with a fault, as a list.
pub(crate) fn write_nodes<P: Pen>(
    alloc: Global,
    nodes: &[BrokenNode],
    pen: &mut P,
) -> Result<(), AllocError>
    ensures put { OnOk result (P.Puts pen.old pen.new (list_data broken_data nodes.now)) }
    ensures kept { (base : P) → P.Keeps base pen.old → P.Keeps base pen.new }
{
    pen.open_list(alloc)?;
    let mut later = false;
    for broken in nodes {
        pen.comma(later)?;
        write_broken(alloc, broken, pen)?;
        pen.item(alloc)?;
        later = true;
    }
    pen.close_list(later)
}
