//! Files of which no more is looked at.

ghost use Rattle.std.specs.Prelude.{◌≡◌, ◌≤◌, length, Some, None, IfErr, OnOk};
ghost use Rattle.pst_bytes.specs.Image.{bytes_of};
ghost use Rattle.pst_run.specs.Outside.{is_outside as outside, outside_fault};

use pst_bytes::Image;
use pst_fault::{Fault, Kind};
use pst_header::read_header;

/// Whether a file with a fault of this kind is no .pst of the version that is read here, or is encoded: nothing else is said of it.
pub fn is_outside(kind: Kind) -> bool
    ensures { result ≡ outside kind }
{
    matches!(
        kind,
        Kind::Short | Kind::Magic | Kind::Version(_) | Kind::Encoded(_)
    )
}

/// Whether more of a file is looked at. If not, the first fault of its header says why, which is of one of those kinds ([MS-PST]
/// 2.2.2.6). Any other file has the bytes of a header.
#[tactic(auto, using(crate::proofs::OutsideLemmas::is_outside_fault, crate::proofs::OutsideLemmas::is_inside_too, crate::proofs::OutsideLemmas::header_there))]
pub fn check_inside(image: Image) -> Result<(), Fault>
    ensures fault { IfErr result (λ f. outside_fault (bytes_of image.entry) ≡ Some f) }
    ensures inside { OnOk result (outside_fault (bytes_of image.entry) ≡ None) }
    ensures long { OnOk result (564 ≤ length (bytes_of image.entry)) }
{
    match read_header(image) {
        Err(fault) if is_outside(fault.kind) => Err(fault),
        _ => Ok(()),
    }
}
