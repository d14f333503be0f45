//! Faults as JSON.

ghost use Rattle.std.specs.Prelude.{OnOk};
ghost use Rattle.pst_damage_json.specs.Faults.{fault_data, fault_or_null};

use pst_fault::Fault;
use pst_value_json::{Leaf, Pen};
use std::alloc::{AllocError, Global};

/// Writes a fault, as an object: where it is, and what it is by its name and its number.
#[tactic(auto, unfolding(crate::specs::Faults::fault_data))]
pub fn write_fault<P: Pen>(alloc: Global, fault: &Fault, pen: &mut P) -> Result<(), AllocError>
    ensures put { OnOk result (P.Puts pen.old pen.new (fault_data fault.now)) }
    ensures kept { (base : P) → P.Keeps base pen.old → P.Keeps base pen.new }
{
    let kind = fault.kind;
    let name = format!(in alloc; "{kind}")?;
    pen.first(alloc, "at", b"{\"at\":")?;
    pen.leaf(alloc, &Leaf::Natural(fault.place.at))?;
    pen.next(alloc, "bid", b",\"bid\":")?;
    pen.leaf(alloc, &Leaf::Natural(fault.place.bid))?;
    pen.next(alloc, "kind", b",\"kind\":")?;
    pen.leaf(alloc, &Leaf::Word(&name))?;
    pen.next(alloc, "nid", b",\"nid\":")?;
    pen.leaf(alloc, &Leaf::Nid(Some(fault.place.nid)))?;
    pen.next(alloc, "number", b",\"number\":")?;
    pen.leaf(alloc, &Leaf::Natural(u64::from(kind.number())))?;
    pen.close(alloc)
}

/// Writes a fault, or null where there is none.
pub(crate) fn write_fault_or_null<P: Pen>(
    alloc: Global,
    fault: &Option<Fault>,
    pen: &mut P,
) -> Result<(), AllocError>
    ensures put { OnOk result (P.Puts pen.old pen.new (fault_or_null fault.now)) }
    ensures kept { (base : P) → P.Keeps base pen.old → P.Keeps base pen.new }
{
    match fault {
        Some(fault) => write_fault(alloc, fault, pen),
        None => pen.leaf(alloc, &Leaf::Null),
    }
}
