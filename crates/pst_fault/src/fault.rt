//! A fault: what is wrong, and where.

ghost use Rattle.std.specs.Prelude.{◌≡◌, Some};
ghost use Rattle.pst_fault.specs.Fault.{fault_at, fault_in, at_node, no_memory, fault_text};

use crate::kind::Kind;
use std::alloc::{AllocError, AllocFailed};
use std::fmt;

/// Where a fault is. A field that says nothing is 0.
#[derive(Clone, Copy, Debug, PartialEq, Eq)]
pub struct Place {
    /// The offset in the file, in bytes from its start.
    pub at: u64,
    /// The identifier of a page or a block, or the one that a node names ([MS-PST] 2.2.2.2).
    pub bid: u64,
    /// The identifier of a node ([MS-PST] 2.2.2.1).
    pub nid: u32,
}

/// What is wrong, and where.
#[derive(Clone, Copy, Debug, PartialEq, Eq)]
pub struct Fault {
    /// What is wrong.
    pub kind: Kind,
    /// Where.
    pub place: Place,
}

impl Fault {
    /// A fault at an offset in the file, that names no block and no node.
    pub fn at(kind: Kind, at: u64) -> Fault
        ensures { result ≡ fault_at kind at }
    {
        Fault::within(kind, at, 0)
    }

    /// A fault at an offset in the file, in the page or block with this identifier.
    pub fn within(kind: Kind, at: u64, bid: u64) -> Fault
        ensures { result ≡ fault_in kind at bid }
    {
        Fault {
            kind,
            place: Place { at, bid, nid: 0 },
        }
    }

    /// The same fault, found under a node.
    pub fn at_node(self, nid: u32) -> Fault
        ensures { result ≡ at_node nid self }
    {
        Fault {
            kind: self.kind,
            place: Place { nid, ..self.place },
        }
    }
}

/// Memory that is refused is the fault NoMemory, at no place.
impl From<AllocError> for Fault {
    ghost from_gives = { λ _ f. f ≡ no_memory };

    fn from(_error: AllocError) -> Fault {
        Fault::at(Kind::NoMemory, 0)
    }
}

/// The same, where a value was handed back with the refusal.
impl<T: Drop> From<AllocFailed<T>> for Fault {
    ghost from_gives = { λ _ f. f ≡ no_memory };

    fn from(_error: AllocFailed<T>) -> Fault {
        Fault::at(Kind::NoMemory, 0)
    }
}

/// The line `no: N Name at 0xAT bid 0xBID nid 0xNID`, without a line feed: the kind's number and name, and the
/// place in lower-case hexadecimal digits without leading zeros.
impl fmt::Display for Fault {
    ghost output = { λ f. Some (fault_text f) };

    fn fmt<W: fmt::Write>(&self, f: &mut fmt::Formatter<W>) -> fmt::Result {
        let number = self.kind.number();
        let kind = self.kind;
        let at = self.place.at;
        let bid = self.place.bid;
        let nid = self.place.nid;
        write!(
            f,
            "no: {number} {kind} at 0x{at:x} bid 0x{bid:x} nid 0x{nid:x}"
        )
    }
}
