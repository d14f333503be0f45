//! Permutation ([MS-PST] 5.1): each byte is replaced by another.

ghost use Rattle.std.specs.Prelude.{◌≡◌};
ghost use Rattle.pst_encoding.specs.Permute.{permuted, unpermuted};

use crate::tables::{i_of, r_of};

/// Encodes bytes.
pub(crate) fn permute(bytes: &mut [u8])
    ensures { bytes.new ≡ permuted bytes.old }
{
    for byte in bytes.iter_mut() {
        *byte = r_of(*byte);
    }
}

/// Decodes bytes.
pub(crate) fn unpermute(bytes: &mut [u8])
    ensures { bytes.new ≡ unpermuted bytes.old }
{
    for byte in bytes.iter_mut() {
        *byte = i_of(*byte);
    }
}
