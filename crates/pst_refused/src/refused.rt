//! Why something was not answered.

use pst_fault::{Fault, Kind};
use pst_json::DocFault;
use pst_make::MakeFault;
use pst_run::LoadFault;
use std::alloc::{AllocError, AllocFailed};

/// Why something was not answered.
#[derive(Clone, Copy, Debug, PartialEq, Eq, Drop)]
pub(crate) enum Refused {
    /// Memory was refused, and the call said so.
    Memory,
    /// Anything else.
    Otherwise,
}

impl Refused {
    pub(crate) fn text(self) -> &'static str {
        match self {
            Refused::Memory => "memory was refused again",
            Refused::Otherwise => "answers otherwise",
        }
    }
}

/// Nothing, where something holds.
pub(crate) fn holds(is_so: bool) -> Result<(), Refused> {
    if is_so {
        Ok(())
    } else {
        Err(Refused::Otherwise)
    }
}

impl From<Fault> for Refused {
    fn from(fault: Fault) -> Refused {
        match fault.kind {
            Kind::NoMemory => Refused::Memory,
            _ => Refused::Otherwise,
        }
    }
}

impl From<AllocError> for Refused {
    fn from(_error: AllocError) -> Refused {
        Refused::Memory
    }
}

impl<T: Drop> From<AllocFailed<T>> for Refused {
    fn from(_error: AllocFailed<T>) -> Refused {
        Refused::Memory
    }
}

impl From<LoadFault> for Refused {
    fn from(fault: LoadFault) -> Refused {
        match fault {
            LoadFault::Memory => Refused::Memory,
            LoadFault::Read | LoadFault::TooLong => Refused::Otherwise,
        }
    }
}

impl From<DocFault> for Refused {
    fn from(fault: DocFault) -> Refused {
        match fault {
            DocFault::Memory => Refused::Memory,
            DocFault::Bad(fault) => Refused::from(fault),
            DocFault::NoFolder
            | DocFault::NoNode
            | DocFault::NoProperty(_)
            | DocFault::TooManyPaths => Refused::Otherwise,
        }
    }
}

impl From<MakeFault> for Refused {
    fn from(fault: MakeFault) -> Refused {
        match fault {
            MakeFault::Memory => Refused::Memory,
            _ => Refused::Otherwise,
        }
    }
}
