//! The header of an encoded file.

ghost use Rattle.std.specs.Prelude.{◌≡◌, ◌≤◌, length, Bool, IfSome, OnSome};
ghost use Rattle.pst_bytes.specs.Image.{bytes_of, bytes_at};
ghost use Rattle.pst_crc.specs.Crc.{crc};
ghost use Rattle.pst_plain.specs.Twin.{is_unicode as unicode, method_of as method_in, with_method, full_span};

use crate::write::{carry, put_bytes};
use pst_bytes::{Image, Span};
use pst_encoding::Method;

// What dwMagic and wMagicClient have to be: `!BDN` and `SM`.
const MAGIC: u32 = 0x4e44_4221;

const MAGIC_CLIENT: u16 = 0x4d53;

// Whether a file begins as a Unicode file does.
#[tactic(auto, unfolding(crate::specs::Twin::is_unicode))]
fn is_unicode(image: Image) -> bool
    ensures { result ≡ unicode (bytes_of image.entry) }
{
    image.len() >= 564
        && image.number32(0) == MAGIC
        && image.number16(8) == MAGIC_CLIENT
        && image.number16(10) == 23
}

/// The method by which a file says that it is encoded ([MS-PST] 2.2.2.6, bCryptMethod); None where it is not, or is no Unicode
/// file. Nothing else is checked.
#[tactic(auto, unfolding(crate::specs::Twin::method_of, crate::specs::Twin::is_unicode))]
pub fn method_of(image: Image) -> Option<Method>
    ensures method { result ≡ method_in (bytes_of image.entry) }
    ensures long { OnSome result (564 ≤ length (bytes_of image.entry)) }
{
    if !is_unicode(image) {
        return None;
    }
    Method::of(image.number8(513))
}

// The check value of the bytes of which dwCRCFull is.
fn full_check(file: &[u8]) -> u32
    requires { 564 ≤ length file.now }
    ensures { result ≡ crc (bytes_at file.now full_span) }
{
    pst_crc::check(Image::new(file).slice(Span { at: 8, len: 516 }))
}

/// Makes bCryptMethod of a header ([MS-PST] 2.2.2.6) another number, and carries dwCRCFull over, so that it is right after exactly
/// where it was right before. Nothing else changes.
pub fn set_method(number: u8, file: &mut [u8])
    requires { 564 ≤ length file.old }
    ensures { file.new ≡ with_method number file.old }
{
    let old = full_check(file);
    put_bytes(file, 513, &[number]);
    let new = full_check(file);
    carry(file, 524, old ^ new);
}
