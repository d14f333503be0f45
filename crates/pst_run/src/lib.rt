//! One run of the program, over a reader and two writers: the answer to what is asked, and the status that it ends with.
//!
//! Begin with `answer_out`: it shows what a command answers to the bytes of a file, or says why not. `load` takes the bytes of
//! a reader, within limits; `carry_out` does one and then the other, and `run` first reads what the words after the program's
//! name ask for:
//!
//! ```text
//! let status = run(alloc, &words, &mut input, &mut out, &mut err);
//! ```
//!
//! `Source` is what a word of the command line names: a file, or standard input. On a terminal `say_what_helps` and `say_word` say
//! one line more than `carry_out` and `decline`.
#![tactic(auto)]

mod answers;
mod damaged;
mod ending;
mod hint;
mod input;
mod laws;
mod line;
mod outside;
mod progress;
mod read;
mod refusal;
mod running;
mod said;
mod shown;
mod source;
mod whole;

pub use answers::answer;
pub use damaged::decoded_damage;
pub use ending::Ending;
pub use hint::{say_what_helps, say_word};
pub use input::{LoadFault, MOST_BYTES, MOST_READS, Reads, load, load_counted};
pub use laws::whole_changes_no_store;
pub use line::{line_of, line_of_lack};
pub use progress::Progress;
pub use pst_export::{Export, emit_export};
pub use pst_json::emit_value;
pub use refusal::Refusal;
pub use running::{
    answer_out, carry_out, decline, digest_if, explain_out, is_decoded_damage, lack_text, run,
};
pub use said::refuse;
pub use shown::{Shown, Text};
pub use source::{Source, Watched, say_cause};
pub use whole::{is_of_whole, write_decoded_whole, write_whole};
