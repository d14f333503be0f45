//! A node that is broken, and what is answered of a check where a fault is no refusal.

ghost use Rattle.std.specs.Prelude.{◌≡◌, ◌<◌, ◌++◌, [], length, map, None, IfOk, IfErr, OnOk, IsSome, Option, slice_get};
ghost use Rattle.pst_fault.specs.declared.fault.Fault.{Fault as SpecFault};
ghost use Rattle.pst_fault.specs.Fault.{no_memory};
ghost use Rattle.pst_fault.specs.First.{Tells};
ghost use Rattle.pst_btree.specs.Order.{Rises};
ghost use Rattle.pst_damage.specs.Judged.{told_node, own_of, place_after};
ghost use Rattle.pst_damage.specs.Laws.{told_nid, fault_told};

use pst_fault::{Fault, Kind};
use pst_page::NodeEntry;
use std::alloc::AllocError;

/// A node with a fault.
#[derive(Clone, Copy, Debug, PartialEq, Eq)]
pub struct BrokenNode {
    /// The identifier of the node.
    pub nid: u32,
    /// Its first fault.
    pub fault: Fault,
}

/// What a check found, as a value: None where there is no fault, else the first one; or memory is refused.
pub(crate) fn found(answer: Result<(), Fault>) -> Result<Option<Fault>, Fault>
    ensures exact { (first : Option SpecFault) → Tells answer first tt →
        IfOk result (λ o. o ≡ first) }
    ensures err { IfErr result (λ f. f ≡ no_memory) }
{
    match answer {
        Ok(()) => Ok(None),
        Err(fault) => match fault.kind {
            Kind::NoMemory => Err(Fault::at(Kind::NoMemory, 0)),
            _ => Ok(Some(fault)),
        },
    }
}

/// Adds a node to those that are told, where it has a fault. AllocError where memory is refused.
pub(crate) fn push_told(
    told: &mut Vec<BrokenNode>,
    entry: NodeEntry,
    fault: Option<Fault>,
) -> Result<(), AllocError>
    ensures { OnOk result (told.new.items ≡ told.old.items ++ told_node fault entry []) }
{
    let nid = entry.nid;
    if let Some(fault) = fault {
        told.push(BrokenNode { nid, fault })?;
    }
    Ok(())
}

// The fault of a node, where the one at a place of those that are told is this one.
fn told_at(told: &[BrokenNode], place: usize, nid: u32) -> Option<Fault>
    ensures value { result ≡ own_of nid (slice_get told.now place) }
    ensures within { IsSome result → place < length told.now }
{
    match told.get(place) {
        Some(node) if node.nid == nid => Some(node.fault),
        _ => None,
    }
}

/// The fault of the node with an identifier, where the one at a place of those that are told is this one; and then the place is that
/// of the next. So nodes that are gone through in order find what is told of them by one step each.
pub fn take_told(told: &[BrokenNode], place: &mut usize, nid: u32) -> Option<Fault>
    ensures value { result ≡ own_of nid (slice_get told.now place.old) }
    ensures next { place.new ≡ place_after result place.old }
{
    let fault = told_at(told, *place, nid);
    if fault.is_some() {
        *place += 1;
    }
    fault
}

/// The fault that is told of the node with an identifier, where these are told in the order of their identifiers: of n broken nodes
/// in about log n steps.
pub fn find_told(told: &[BrokenNode], nid: u32) -> Option<Fault>
    requires { Rises 0 None (map told_nid told.now) }
    ensures { result ≡ fault_told nid told.now }
{
    let place = told.partition_point(|node| node.nid < nid);
    if place == told.len() {
        return None;
    }
    let node = told[place];
    if node.nid == nid {
        Some(node.fault)
    } else {
        None
    }
}
