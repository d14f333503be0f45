//! The text of a time of a store: of a FILETIME ([MS-DTYP] 2.3.3), a number of steps of 100 nanoseconds since 1 January 1601.
//!
//! Begin with `time_bytes`, which takes no memory; None past the year 9999:
//!
//! ```text
//! time_bytes(132_000_000_000_000_000)  // 2019-04-17T18:40:00.0000000Z
//! ```
//!
//! `time_text` gives the same bytes as a string.
#![tactic(auto)]

mod calendar;
mod digits;
mod time;

pub use time::{time_bytes, time_text};
