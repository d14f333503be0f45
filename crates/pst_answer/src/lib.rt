//! What the program answers to the words of a command line, over bytes in memory in place of a file.
//!
//! Begin with `answer_text`, which pst_c hands to C: it takes the words, each ended by a zero byte, and the bytes of the file, and
//! gives the status of the program's run, what that writes, and what it says on the error output. Nothing is kept between two
//! calls:
//!
//! ```text
//! let answer = answer_text(alloc, b"check\0-\0", bytes);
//! ```
#![tactic(auto)]

mod answer;
mod decoded;
mod kept;
mod shown;
mod words;

pub use answer::{Answer, answer_text};
