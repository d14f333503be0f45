//! Table contexts ([MS-PST] 2.3.4): the columns of a node's table, its rows, found by their identifiers, and their cells.
//!
//! Begin with `check_tc_with`, which answers a `Tc` or the first fault of a node's data as one, and remembers for its next calls
//! which page maps are good. What a `Tc` is asked cannot fail any more, takes no memory, and lends the file's own bytes:
//!
//! ```text
//! let mut maps = PageMaps::new(alloc);
//! let table = check_tc_with(node, &mut maps)?;
//! for row in table.rows() {
//!     let name = row.cell(0x3001_001F);
//!     ..
//! }
//! let folder = table.row(0x142);
//! ```
//!
//! `check_tc` remembers nothing, and `known_tc` gives a table again that had no fault.
#![tactic(auto)]

mod ask;
mod blocks;
mod cell;
mod check;
mod check_with;
mod columns;
mod front;
mod grid;
mod info;
mod laws;
mod matrix;
mod row;
mod rows;
mod tc;

pub use check::{check_tc, known_tc};
pub use check_with::check_tc_with;
pub use columns::{Column, Columns};
pub use laws::{tc_decides, tc_has_records, tc_ids_rise, tc_is_of_keys, tc_look_ups};
pub use row::Row;
pub use rows::Rows;
pub use tc::Tc;
