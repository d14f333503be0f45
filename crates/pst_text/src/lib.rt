//! What is put behind a text of JSON: numbers, identifiers, times, bytes in hexadecimal, and texts between quotes.
//!
//! Begin with `put_text`, which puts the text of a value there, 16-bit units as properties have it ([MS-PST] 2.11.1.1, PtypString),
//! eight units at a time where they stand for themselves. Each call puts its own behind what stands there, and where memory is
//! refused the text begins with what it had:
//!
//! ```text
//! let mut text = Vec::new(alloc);
//! put_nid(0x21, &mut text)?;
//! ```
#![tactic(auto)]

mod compact;
mod digits;
mod docs;
mod eight;
mod escape;
mod names;
mod put;
mod time;
mod utf16;
mod values;

pub use compact::{line_text, text};
pub use digits::{put_hex, put_id, put_lower_bytes, put_nid, put_nid_or_null, put_tag};
pub use docs::{hex_doc, text_doc, text_of};
pub use names::{id_text, nid_text, tag_text};
pub use put::{put_integer, put_natural, put_null, put_plain, put_string, put_truth};
pub use time::{put_i32_or_null, put_time_or_null};
pub use utf16::put_units;
pub use values::{put_bytes, put_guid, put_text};
