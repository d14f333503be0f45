//! Writing little-endian numbers and bytes at places of an image.

ghost use Rattle.std.specs.Prelude.{◌≡◌, ◌+◌, ◌≤◌, length};
ghost use Rattle.pst_bytes.specs.Image.{num};
ghost use Rattle.pst_make.specs.Elsewhere.{SameElsewhere, one_field, overwritten};

/// Writes bytes at a place, and nothing else.
#[tactic(auto, unfolding(crate::specs::Elsewhere::overwritten))]
pub(crate) fn put_bytes(image: &mut [u8], at: u64, bytes: &[u8])
    requires { at + length bytes.now ≤ length image.old }
    ensures { image.new ≡ overwritten image.old at bytes.now }
{
    let at = at as usize;
    image[at..at + bytes.len()].copy_from_slice(bytes);
}

/// Writes a number of 1 byte at a place, and nothing else.
pub(crate) fn put8(image: &mut [u8], at: u64, number: u8)
    requires { at + 1 ≤ length image.old }
    ensures value { num image.new at 1 ≡ number }
    ensures others { SameElsewhere image.old image.new (one_field at 1) }
{
    put_bytes(image, at, &number.to_le_bytes());
}

/// Writes a number of 2 bytes at a place, and nothing else.
pub(crate) fn put16(image: &mut [u8], at: u64, number: u16)
    requires { at + 2 ≤ length image.old }
    ensures value { num image.new at 2 ≡ number }
    ensures others { SameElsewhere image.old image.new (one_field at 2) }
{
    put_bytes(image, at, &number.to_le_bytes());
}

/// Writes a number of 4 bytes at a place, and nothing else.
pub(crate) fn put32(image: &mut [u8], at: u64, number: u32)
    requires { at + 4 ≤ length image.old }
    ensures value { num image.new at 4 ≡ number }
    ensures others { SameElsewhere image.old image.new (one_field at 4) }
{
    put_bytes(image, at, &number.to_le_bytes());
}

/// Writes a number of 8 bytes at a place, and nothing else.
pub(crate) fn put64(image: &mut [u8], at: u64, number: u64)
    requires { at + 8 ≤ length image.old }
    ensures value { num image.new at 8 ≡ number }
    ensures others { SameElsewhere image.old image.new (one_field at 8) }
{
    put_bytes(image, at, &number.to_le_bytes());
}
