//! The documents of a store, as JSON.
//!
//! All but `messages`, a text alone, have two calls: one gives the document as a tree of JSON, the other its line, the compact text of
//! that tree and a line feed. Begin with `nodes_line`, whose tree is `nodes_doc`; both are written by one function, with a pen. `emit`
//! writes a text.
//! `property_at` lends one property, whose value `emit_value` writes from the file's own memory:
//!
//! ```text
//! let line = nodes_line(alloc, &nodes)?;
//! emit(&line, &mut out)?;
//! ```
#![tactic(auto)]

mod check;
mod contents;
mod folder;
mod folder_rows;
mod folders;
mod head;
mod listed;
mod listings;
mod messages;
mod nid_lists;
mod nodes;
mod output;
mod row_counts;
mod row_ids;

pub use check::{check_doc, check_line};
pub use contents::{contents_doc, contents_line};
pub use folders::{folders_doc, folders_line};
pub use head::{head_doc, head_line};
pub use messages::messages_text;
pub use nodes::{nodes_doc, nodes_line};
pub use output::{EmitFault, emit, emit_value};
pub use pst_ndb::read_nodes;
pub use pst_props::{
    DocFault, DocumentIndexes, NamesIndex, TEXT, attachment_line, lend_message, lost_at,
    message_line, names_in, names_index, new_indexes, node_line, property_at, props_doc,
    props_line,
};
pub use pst_value_json::{
    Prop, PropType, Value, hex_doc, pc_doc, table_doc, text, text_of, value_doc,
};
pub use pst_verify::{Reach, Store, Verified, reach_among, verify};
pub use pst_whole::{Intact, Lost, WholeNodes, find_whole};
