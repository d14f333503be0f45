//! Values as JSON: of properties and of cells, the lists of both, and the pen that documents are written with.
//!
//! Begin with `write_props`, which writes the properties of a property context; `write_table` writes the rows of a table. What is
//! shown is written with a pen (`Pen`), once for all that it may become: a text behind what a text has, or a tree. A longer document
//! is an object of these, key by key, and each key is handed over with the marks around it, too:
//!
//! ```text
//! fn write_node<P: Pen>(
//!     alloc: Global,
//!     nid: u32,
//!     pc: &Pc,
//!     names: Option<NameMap>,
//!     pen: &mut P,
//! ) -> Result<(), AllocError> {
//!     pen.first(alloc, "nid", b"{\"nid\":")?;
//!     pen.leaf(alloc, &Leaf::Nid(Some(nid)))?;
//!     pen.next(alloc, "props", b",\"props\":")?;
//!     write_props(alloc, pc, names, Filed::Nothing, false, pen)?;
//!     pen.close(alloc)
//! }
//! ```
//!
//! Its text is what it writes into an empty `Vec<u8>`, and with a line feed behind it (`end_line`) its line; its tree what it writes
//! into an empty `Vec<Doc>` (`only`). `value_doc`, `pc_doc` and `table_doc` give trees: of a value, of properties, and of rows.
#![tactic(auto)]

mod cells;
mod digest;
mod filed;
mod laws;
mod leaf;
mod pens;
mod props;
mod put_values;
mod scalar;
mod single;
mod trees;
mod write_cells;
mod write_places;
mod write_prop;
mod write_values;

pub use cells::{table_doc, write_table};
pub use digest::write_digest_member;
pub use filed::{BODY, CONTENT, Filed, HEADERS, HTML, RTF, attachment_file, message_file};
pub use laws::{cell_places_hold, prop_places_hold};
pub use leaf::Leaf;
pub use pens::{Pen, end_line, write_nothing};
pub use props::{pc_doc, write_props};
pub use pst_datatree::Value;
pub use pst_names::{NameIndex, NameMap};
pub use pst_pc::{Pc, Prop, check_pc};
pub use pst_tc::{Row, Rows, Tc, check_tc, tc_ids_rise, tc_is_of_keys};
pub use pst_text::{
    hex_doc, line_text, nid_text, put_i32_or_null, put_natural, put_nid, put_null, put_text,
    put_time_or_null, text, text_doc, text_of,
};
pub use pst_value::PropType;
pub use put_values::put_leaf;
pub use trees::only;
pub use write_values::value_doc;
