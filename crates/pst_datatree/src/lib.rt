//! Data trees ([MS-PST] 2.2.2.8.3): the bytes of a node's data, as the list of the spans that they lie in.
//!
//! Begin with `check_data`, which tells the first fault of the data tree of a block identifier. A `Seen` remembers what
//! was found without fault, so that it is passed over where it is met again. Of a tree without fault `value` gives the
//! bytes, in one slice or in pieces, and `leaf` the span with a number. They take no memory, and the bytes are the
//! file's own:
//!
//! ```text
//! let mut seen = Seen::new(alloc);
//! check_data(alloc, &blocks, node.bid_data, node.nid, &mut seen)?;
//! let data = value(&blocks, node.bid_data);
//! let len = data.len();
//! for slice in data.slices() { .. }
//! ```
#![tactic(auto)]

mod bid;
mod check;
mod found;
mod laws;
mod leaves;
mod lengths;
mod list;
mod look;
mod marks;
mod named;
mod number;
mod parts;
mod pass;
mod pieces;
mod position;
mod seen;
mod slices;
mod step;
mod value_view;
mod values;

pub use bid::{is_internal, is_no_block};
pub use check::check_data;
pub use laws::{data_decides, data_is_of_key, data_lies_inside, data_names_no_node};
pub use leaves::Leaves;
pub use lengths::missing_block;
pub use list::has_entries;
pub use look::leaf_count;
pub use parts::Parts;
pub use pieces::Pieces;
pub use seen::Seen;
pub use slices::Slices;
pub use step::leaf;
pub use value_view::Value;
pub use values::{empty_value, spans, value, value_at};
