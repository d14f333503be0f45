//! Why a file is no store of the profile, and where: the 28 kinds of fault, their places, and the line that each
//! prints.
//!
//! Begin with `Kind`, the list of what can be wrong, and with `Fault`, which is a kind and its `Place`. `Fault::at` and
//! `Fault::within` make one, `at_node` tells it of a node, and as text it is the line:
//!
//! ```text
//! let fault = Fault::within(Kind::HeapId, 0x4c50, 8).at_node(0x122);
//! let line = fault.to_string(alloc)?;
//! // no: 22 HeapId at 0x4c50 bid 0x8 nid 0x122
//! ```
#![tactic(auto)]

mod fault;
mod kind;

pub use fault::{Fault, Place};
pub use kind::Kind;
