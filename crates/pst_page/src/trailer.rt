//! The trailer of a page, of a B-tree or of a map.

ghost use Rattle.std.specs.Prelude.{◌≡◌, ◌+◌, ◌≤◌, length};
ghost use Rattle.pst_bytes.specs.Image.{bytes_of};
ghost use Rattle.pst_page.specs.Trailer.{has_trailer as trailer};

use pst_bytes::{Image, Span};

// How many bytes of a page stand before its trailer.
const CHECKED: u64 = 496;

/// Whether the page at an offset has a trailer with this signature and this identifier, and a right check value ([MS-PST]
/// 2.2.2.7.1). Its type is not looked at.
#[tactic(auto, unfolding(crate::specs::Trailer::has_trailer))]
pub fn has_trailer(image: Image, at: u64, signature: u16, bid: u64) -> bool
    requires { at + 512 ≤ length (bytes_of image) }
    ensures { result ≡ trailer (bytes_of image.entry) at signature bid }
{
    image.number64(at + 504) == bid
        && image.number16(at + 498) == signature
        && image.number32(at + 500) == pst_crc::check(image.slice(Span { at, len: CHECKED }))
}
