//! BTHs ([MS-PST] 2.3.2): B-trees in the items of a heap, whose records are found by their keys.
//!
//! Begin with `check_bth_at`, which tells the first fault of the BTH whose header item has an identifier, or gives it as a `Bth`;
//! where that item is not there, the fault lies where the identifier stands. Look-ups cannot fail otherwise than by "there is no
//! such record", and take no memory:
//!
//! ```text
//! let heap = check_heap(node)?;
//! let bth = check_bth_at(&heap, heap.user_root_place(), heap.user_root(), 2, 6)?;
//! let data = bth.find(0x3001);
//! for (key, data) in bth.records() { .. }
//! ```
//!
//! `check_bth` is the same for an identifier that stands nowhere, and `known_bth` gives a BTH again that had no fault.
#![tactic(auto)]

mod bth;
mod check;
mod find;
mod item;
mod laws;
mod leaf;
mod records;
mod rows;
mod sizes;

pub use bth::Bth;
pub use check::{LEVELS, check_bth, check_bth_at, known_bth};
pub use laws::{bth_at_any_name, bth_decides, bth_is_a_map, bth_keys_rise};
pub use records::Records;
pub use sizes::Sizes;
