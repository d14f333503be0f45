//! The plain twin of an encoded file ([MS-PST] 2.2.2.6, 5.1, 5.2), made in the memory into which the file was read.
//!
//! Begin with `plain`, which makes it, and tells by which method it decoded how many blocks. A file that is not encoded is
//! its own twin, and stays as it is:
//!
//! ```text
//! let told = plain(alloc, &mut bytes)?;
//! let answer = verify(alloc, &bytes);
//! ```
//!
//! Its parts are there for a file that is damaged, of which other blocks are decoded: `method_of`, `set_method` and `decode_data`.
#![tactic(auto)]

mod blocks;
mod body;
mod head;
mod laws;
mod twin;
mod write;

pub use body::decode_data;
pub use head::{method_of, set_method};
pub use laws::{
    check_value_is_linear, check_values_stay, faults_stay, no_place_moves, plain_is_the_twin,
    twin_is_the_file,
};
pub use pst_encoding::{Codec, Method, Pairs};
pub use twin::{Decoding, plain};
