//! Making the plain twin.

ghost use Rattle.std.specs.Prelude.{◌≡◌, ◌≤◌, length, Some, IfOk, OnOk, OnErr};
ghost use Rattle.std.specs.List.{All};
ghost use Rattle.pst_encoding.specs.Codec.{codec_method};
ghost use Rattle.pst_encoding.specs.Tables.{IsByte};
ghost use Rattle.pst_plain.specs.Twin.{method_of as method_in, twin_of, decoded_blocks};

use crate::blocks::data_blocks;
use crate::body::decode_data;
use crate::head::{method_of, set_method};
use pst_bytes::Image;
use pst_encoding::{Codec, Method};
use std::alloc::{AllocError, Global};

/// What was decoded to make the plain twin of a file.
#[derive(Clone, Copy, Debug, PartialEq, Eq)]
pub struct Decoding {
    /// The method by which the file is encoded; None where it is its own twin.
    pub method: Option<Method>,
    /// How many blocks were decoded.
    pub blocks: u64,
}

// That the bytes of a file are bytes.
fn are_bytes(file: &[u8])
    ensures { All IsByte file.now }
{}

// Decodes a file that is encoded by this method, and tells how many blocks it decoded.
fn decode_file(
    alloc: Global,
    method: Method,
    codec: &Codec,
    file: &mut [u8],
) -> Result<u64, AllocError>
    requires codec { codec_method codec.now ≡ method }
    requires long { 564 ≤ length file.old }
    requires method { method_in file.old ≡ Some method }
    ensures twin { OnOk result (file.new ≡ twin_of file.old) }
    ensures blocks { IfOk result (λ n.
        n ≡ length (decoded_blocks (method_in file.old) file.old)) }
    ensures same { OnErr result (file.new ≡ file.old) }
{
    are_bytes(file);
    set_method(0, file);
    match data_blocks(alloc, file) {
        Ok(entries) => Ok(decode_data(codec, &entries, file)),
        Err(error) => {
            set_method(method.number(), file);
            Err(error)
        }
    }
}

/// Makes the plain twin of a file in the file's own memory, and tells what was decoded. A file that is not encoded ([MS-PST]
/// 2.2.2.6, bCryptMethod), or that is no Unicode file, is its own twin. Else bCryptMethod becomes 0, and the bodies of the data
/// blocks are decoded, each once, in the order of their keys, up to the first block that does not lie where a block may or
/// overlaps what stands before it; none is where the header or one of the B-trees has a fault. Each check value is carried
/// over, so that it is right after exactly where it was right before. No length and no place changes. AllocError where memory
/// is refused: then the bytes are as they were.
pub fn plain(alloc: Global, file: &mut [u8]) -> Result<Decoding, AllocError>
    ensures twin { OnOk result (file.new ≡ twin_of file.old) }
    ensures method { IfOk result (λ p. p.method ≡ method_in file.old) }
    ensures blocks { IfOk result (λ p.
        p.blocks ≡ length (decoded_blocks (method_in file.old) file.old)) }
    ensures same { OnErr result (file.new ≡ file.old) }
{
    match method_of(Image::new(file)) {
        Some(method) => {
            let codec = Codec::new(alloc, method, file.len())?;
            let blocks = decode_file(alloc, method, &codec, file)?;
            Ok(Decoding {
                method: Some(method),
                blocks,
            })
        }
        None => Ok(Decoding {
            method: None,
            blocks: 0,
        }),
    }
}
