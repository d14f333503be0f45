//! The way in for C: what the program answers to the words of a command line, over the caller's own bytes in place of a file.
//!
//! Begin with the export `pst_c_answer`, which hands what `answer_text` of pst_answer gives to C:
//!
//! ```text
//! let status = pst_c_answer(alloc, b"check\0-\0", bytes, &mut answer);
//! ```
#![tactic(auto)]

mod exported;

pub use exported::{PstAnswer, PstText, pst_c_answer, pst_c_decode};
