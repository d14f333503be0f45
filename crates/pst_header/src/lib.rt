//! The header of a file ([MS-PST] 2.2.2.6): a good one is read, and a bad one is refused with its first fault.
//!
//! Begin with `read_header`, which gives the `Header` of a file, or its first fault. Its fields name the root pages of
//! the two B-trees; `end` tells where the mapped part of the file ends:
//!
//! ```text
//! let header = read_header(Image::new(bytes))?;
//! let root = header.nbt;
//! let end = header.end();
//! ```
#![tactic(auto)]

mod header;
mod laws;
mod read;

pub use header::{Bref, FIRST_AMAP, Header, REGION, UNIT};
pub use laws::{header_decides, header_ends_inside};
pub use read::{check_fields, is_amap_place, is_last_amap, read_fields, read_header};
