//! Heaps on nodes ([MS-PST] 2.3.1): the items that a node's data is divided into, each named by an identifier (HID).
//!
//! Begin with `check_heap`, which tells the first fault of a node's data as a heap, or gives it as a `Heap`. Its look-ups
//! cannot fail otherwise than by "there is no such item", take no memory, and lend the file's own bytes:
//!
//! ```text
//! let heap = check_heap(node)?;
//! let root = heap.item(heap.user_root())?;
//! ```
#![tactic(auto)]

mod alone;
mod check;
mod check_with;
mod heap;
mod items;
mod laws;
mod maps;
mod page_map;
mod told;

pub use check::{SPANS, check_client, check_heap, known_heap};
pub use check_with::check_heap_with;
pub use heap::Heap;
pub use items::Items;
pub use laws::{heap_decides, items_lie_in_spans};
pub use maps::PageMaps;
pub use pst_ndb::check_ndb;
pub use told::told_of;
