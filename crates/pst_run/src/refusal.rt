//! Why a run shows nothing.

ghost use Rattle.std.specs.Prelude.{◌≡◌};
ghost use Rattle.pst_run.specs.Refusal.{IsOfInput, fault_of, memory, output, refusal_of, refusal_for, refused_of, status_of, written_for};

use crate::input::LoadFault;
use pst_export::ExportFault;
use pst_fault::{Fault, Kind};
use pst_json::{DocFault, EmitFault};
use std::alloc::AllocError;

/// Why a run shows nothing.
#[derive(Clone, Copy, Debug)]
pub enum Refusal<'a> {
    /// The file is not what it has to be. The kind is not NoMemory.
    Fault(Fault),
    /// There is no such document or property, of the folder or at the path with these identifiers.
    Document(&'a [u32], DocFault),
    /// The file cannot be read, or is too long.
    Input,
    /// The output cannot be written. Where it is closed no line is written.
    Output(EmitFault),
    /// Memory was refused.
    Memory,
}

impl<'a> Refusal<'a> {
    /// The status with which the run ends.
    pub fn status(self) -> u8
        ensures { result ≡ status_of (refused_of self.entry) }
    {
        match self {
            Refusal::Fault(_) | Refusal::Document(..) => 1,
            Refusal::Input | Refusal::Output(_) => 3,
            Refusal::Memory => 4,
        }
    }

    /// The fault for which a file is refused, where that is why.
    pub fn fault(self) -> Option<Fault>
        ensures { result ≡ fault_of (refused_of self.entry) }
    {
        match self {
            Refusal::Fault(fault) => Some(fault),
            Refusal::Document(..) | Refusal::Input | Refusal::Output(_) | Refusal::Memory => None,
        }
    }

    /// The refusal for a folder or a path that has no such document or property.
    pub fn of_document(path: &'a [u32], fault: DocFault) -> Refusal<'a>
        ensures { refused_of result ≡ refusal_for path.now fault }
    {
        match fault {
            DocFault::Bad(fault) => Refusal::from(fault),
            DocFault::Memory => Refusal::Memory,
            DocFault::NoProperty(_) | DocFault::TooManyPaths => Refusal::Document(&[], fault),
            _ => Refusal::Document(path, fault),
        }
    }
}

/// The fault NoMemory says nothing of the file.
impl<'a> From<Fault> for Refusal<'a> {
    ghost from_gives = { λ f r. refused_of r ≡ refusal_of f };

    fn from(fault: Fault) -> Refusal<'a> {
        match fault.kind {
            Kind::NoMemory => Refusal::Memory,
            _ => Refusal::Fault(fault),
        }
    }
}

impl<'a> From<AllocError> for Refusal<'a> {
    ghost from_gives = { λ _ r. refused_of r ≡ memory };

    fn from(_error: AllocError) -> Refusal<'a> {
        Refusal::Memory
    }
}

impl<'a> From<LoadFault> for Refusal<'a> {
    ghost from_gives = { λ _ r. IsOfInput (refused_of r) };

    fn from(fault: LoadFault) -> Refusal<'a> {
        match fault {
            LoadFault::Read | LoadFault::TooLong => Refusal::Input,
            LoadFault::Memory => Refusal::Memory,
        }
    }
}

impl<'a> From<EmitFault> for Refusal<'a> {
    ghost from_gives = { λ f r. refused_of r ≡ output f };

    fn from(fault: EmitFault) -> Refusal<'a> {
        Refusal::Output(fault)
    }
}

impl<'a> From<ExportFault> for Refusal<'a> {
    ghost from_gives = { λ f r. refused_of r ≡ written_for f };

    fn from(fault: ExportFault) -> Refusal<'a> {
        match fault {
            ExportFault::Output(fault) => Refusal::Output(fault),
            ExportFault::Memory => Refusal::Memory,
        }
    }
}
