//! Why an archive was not written to its end.

ghost use Rattle.std.specs.Prelude.{◌≡◌};
ghost use Rattle.pst_export.specs.declared.fault.ExportFault.TheVariants.{Memory, Output};

use pst_json::EmitFault;
use std::alloc::AllocError;

/// Why an archive was not written to its end: a front of it was.
#[derive(Clone, Copy, Debug, PartialEq, Eq)]
pub enum ExportFault {
    /// The output could not be written.
    Output(EmitFault),
    /// Memory was refused.
    Memory,
}

impl From<EmitFault> for ExportFault {
    ghost from_gives = { λ e f. f ≡ Output e };

    fn from(fault: EmitFault) -> ExportFault {
        ExportFault::Output(fault)
    }
}

impl From<AllocError> for ExportFault {
    ghost from_gives = { λ _ f. f ≡ Memory };

    fn from(_error: AllocError) -> ExportFault {
        ExportFault::Memory
    }
}
