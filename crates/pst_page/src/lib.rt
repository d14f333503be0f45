//! The pages of the two B-trees of a file ([MS-PST] 2.2.2.7.7): a good one of the right shape is read, any other is
//! refused with its first fault, and a page gives its entries.
//!
//! Begin with `page_place`, which tells whether the page that a reference names lies in its place, and `decode_page`, which
//! gives one that does as a `Page`, or its first fault, and counts it. An entry is asked for by its number: `child` gives the
//! page that one of a branch names, `block_entry` and `node_entry` give one of a leaf:
//!
//! ```text
//! let header = read_header(image)?;
//! let mut pages = 0;
//! let span = page_place(&header, header.nbt)?;
//! let page = decode_page(image, header.nbt, PageKind::Nbt, &mut pages)?;
//! if page.level() == 0 {
//!     for i in 0..page.count() {
//!         let node = page.node_entry(i);
//!         ..
//!     }
//! }
//! ```
//!
//! `open_page` is `decode_page` without the count, `read_page` both steps in one; `known_page` gives a page again that had no
//! fault.
#![tactic(auto)]

mod entry;
mod kind;
mod laws;
mod page;
mod read;
mod trailer;

pub use entry::{BlockEntry, NodeEntry, block_entry_at, child_at, node_entry_at};
pub use kind::PageKind;
pub use laws::page_decides;
pub use page::Page;
pub use read::{check_shape, decode_page, known_page, open_page, page_place, read_page};
pub use trailer::has_trailer;
