//! What is claimed of a file: a flag for each unit of 64 bytes of the mapped part ([MS-PST] 2.2.2.7.2), so that no
//! page or block lies on another.
//!
//! Begin with `Claims::new`, which claims the map pages of a file and takes all the memory. Then `claim` claims the
//! span of a page or a block, or tells the fault Overlap where a unit of it is claimed already. A span has to be whole
//! units of the mapped part, as `page_place` of pst_page gives it:
//!
//! ```text
//! let header = read_header(image)?;
//! let mut claims = Claims::new(alloc, &header)?;
//! let span = page_place(&header, header.nbt)?;
//! claims.claim(span)?;
//! ```
#![tactic(auto)]

mod bits;
mod claims;
mod laws;

pub use claims::Claims;
pub use laws::{claims_are_apart, claims_decide, map_pages_are_apart};
