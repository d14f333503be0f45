//! How a run ends.

use pst_fault::Fault;

/// How a run ends.
#[derive(Clone, Copy, Debug, PartialEq, Eq)]
pub struct Ending {
    /// The status with which the program ends.
    pub status: u8,
    /// The fault for which the file is refused, where that is why.
    pub fault: Option<Fault>,
}
