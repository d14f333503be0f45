//! The SHA-256 of a file.

ghost use Rattle.std.specs.Prelude.{OnOk, codes, option_map};
ghost use Rattle.serde_json.specs.Data.{Members};
ghost use Rattle.pst_value_json.specs.Pen.{InObject, IsLast, and_member_if};
ghost use Rattle.pst_text.specs.Text.{hex_data};

use crate::leaf::Leaf;
use crate::pens::Pen;
use std::alloc::{AllocError, Global};

/// Writes the SHA-256 of a file in lower-case hexadecimal, as a member behind others, where it is told.
pub fn write_digest_member<P: Pen>(
    alloc: Global,
    digest: Option<[u8; 32]>,
    pen: &mut P,
) -> Result<(), AllocError>
    ensures put { let shown = option_map hex_data digest in
        (base : P) (done : Members) → InObject P.Puts P.AtKey base pen.old done
        → IsLast done (codes "sha256") → OnOk result (InObject P.Puts P.AtKey base pen.new
        (and_member_if done (codes "sha256") shown)) }
    ensures kept { (base : P) → P.Keeps base pen.old → P.Keeps base pen.new }
{
    if let Some(digest) = digest {
        pen.next(alloc, "sha256", b",\"sha256\":")?;
        pen.leaf(alloc, &Leaf::Digest(digest))?;
    }
    Ok(())
}
