//! The plain twin of an encoded file, beside the caller's bytes.

ghost use Rattle.std.specs.Prelude.{◌≡◌, None, IfOk, IfNone, IfSome};
ghost use Rattle.pst_bytes.specs.Image.{bytes_of};
ghost use Rattle.pst_plain.specs.Twin.{method_of};
ghost use Rattle.pst_run.specs.Answer.{bytes_for};

use pst_bytes::Image;
use pst_plain::{Method, plain};
use std::alloc::{AllocError, Global};

// The method by which a file of this header can be encoded ([MS-PST] 2.2.2.6, bCryptMethod). None where it is not.
fn method_in(image: Image) -> Option<Method>
    ensures { IfNone result (method_of (bytes_of image.entry) ≡ None) }
{
    if image.len() < 564 {
        return None;
    }
    Method::of(image.number8(513))
}

/// The bytes of the plain twin, where decoding is asked for and the file can be encoded: in memory of their own, since the caller's
/// are only lent. None where the file is its own twin, or is not to be decoded: then nothing is copied.
#[tactic(auto, using(crate::proofs::DecodedLemmas::own_twin))]
pub fn decoded_if(alloc: Global, decode: bool, bytes: &[u8]) -> Result<Option<Vec<u8>>, AllocError>
    ensures twin { IfOk result (λ twin. IfSome twin (λ v. v.items ≡ bytes_for decode bytes.now)) }
    ensures file { IfOk result (λ twin. IfNone twin (bytes.now ≡ bytes_for decode bytes.now)) }
{
    if !decode {
        return Ok(None);
    }
    if method_in(Image::new(bytes)).is_none() {
        return Ok(None);
    }
    let mut twin = Vec::from_slice(alloc, bytes)?;
    plain(alloc, &mut twin)?;
    Ok(Some(twin))
}
