//! Why there is no document.

ghost use Rattle.std.specs.Prelude.{◌≡◌, Some};
ghost use Rattle.pst_props.specs.Told.{doc_fault_text};
ghost use Rattle.pst_props.specs.declared.fault.DocFault.TheVariants.{Memory};

use pst_fault::Fault;
use std::alloc::AllocError;
use std::error::Error;
use std::fmt;

/// Why there is no document.
#[derive(Clone, Copy, Debug, PartialEq, Eq)]
pub enum DocFault {
    /// The store has no folder with the identifier.
    NoFolder,
    /// The store has no node with the identifier, or a path leads nowhere.
    NoNode,
    /// The first fault as a property context of a node that is neither this nor a message; or what is told of a node that is broken.
    Bad(Fault),
    /// What a path leads to has no property with this identifier.
    NoProperty(u16),
    /// More paths lead to messages and attachments than there can be in a file that shares no blocks.
    TooManyPaths,
    /// Memory was refused.
    Memory,
}

/// What is said of it, without the path that was asked for and without a line feed.
impl fmt::Display for DocFault {
    ghost output = { λ f. Some (doc_fault_text f) };

    #[tactic(auto, using(pst_text::proofs::NameLemmas::id_digits))]
    fn fmt<W: fmt::Write>(&self, f: &mut fmt::Formatter<W>) -> fmt::Result {
        match self {
            DocFault::NoFolder => write!(f, "no folder"),
            DocFault::NoNode => write!(f, "no node"),
            DocFault::Bad(fault) => write!(f, "{fault}"),
            DocFault::NoProperty(id) => {
                let [high, low] = id.to_be_bytes();
                write!(f, "no property {high:02X}{low:02X}")
            }
            DocFault::TooManyPaths => write!(f, "too many paths"),
            DocFault::Memory => write!(f, "out of memory"),
        }
    }
}

impl Error for DocFault {}

impl From<AllocError> for DocFault {
    ghost from_gives = { λ _ f. f ≡ Memory };

    fn from(_error: AllocError) -> DocFault {
        DocFault::Memory
    }
}
