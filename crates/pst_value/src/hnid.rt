//! What an HNID is ([MS-PST] 2.3.3.2).

ghost use Rattle.std.specs.Prelude.{◌≡◌};
ghost use Rattle.pst_value.specs.Fault.{missing_at};
ghost use Rattle.pst_value.specs.Hnid.{hnid_of};

use pst_fault::{Fault, Kind};

/// What an HNID names.
#[derive(Clone, Copy, Debug, PartialEq, Eq)]
pub enum Hnid {
    /// Nothing, the empty value.
    Nothing,
    /// The item of the heap with an identifier (HID).
    Item(u32),
    /// The data of the subnode with an identifier (NID).
    Subnode(u32),
}

/// What an HNID names: nothing, where it is 0; an item of the heap, where its low five bits are 0; else a subnode.
#[inline]
#[tactic(auto, unfolding(crate::specs::Hnid::hnid_of))]
pub fn hnid_of(hnid: u32) -> Hnid
    ensures { result ≡ hnid_of hnid }
{
    if hnid == 0 {
        return Hnid::Nothing;
    }
    if hnid % 32 == 0 {
        Hnid::Item(hnid)
    } else {
        Hnid::Subnode(hnid)
    }
}

/// The fault of an HNID that names nothing: HeapId where it should name an item, else Subnode, at its four bytes in the
/// file. It is told of no node.
pub fn missing_at(named: u64, hnid: u32) -> Fault
    ensures { result ≡ missing_at named hnid }
{
    match hnid_of(hnid) {
        Hnid::Subnode(_) => Fault::at(Kind::Subnode, named),
        Hnid::Item(_) | Hnid::Nothing => Fault::at(Kind::HeapId, named),
    }
}
