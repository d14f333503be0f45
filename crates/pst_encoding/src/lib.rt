//! The two encodings of the bodies of data blocks ([MS-PST] 5.1 and 5.2), in place.
//!
//! Begin with `Method::of`, which gives the method that bCryptMethod of a header says, and make it ready by `Codec::new`, which is
//! told how many bytes are to be decoded: many of them it decodes two at a time. Then `decode` decodes the body of a block, and
//! `encode` encodes it. They cannot fail, change how many bytes there are, or take memory:
//!
//! ```text
//! if let Some(method) = Method::of(image[513]) {
//!     let codec = Codec::new(alloc, method, image.len())?;
//!     codec.decode(bid, &mut image[at..end]);
//! }
//! ```
#![tactic(auto)]

mod codec;
mod cyclic;
mod laws;
mod method;
mod pairs;
mod permute;
mod tables;

pub use codec::{Codec, Turns};
pub use laws::{
    cyclic_undoes_itself, decoding_undoes_encoding, permutation_is_undone, tables_undo,
};
pub use method::Method;
pub use pairs::Pairs;
