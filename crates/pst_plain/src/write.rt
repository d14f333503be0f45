//! Writing bytes and check values in their places.

ghost use Rattle.std.specs.Prelude.{◌≡◌, ◌+◌, ◌≤◌, length, bit_xor};
ghost use Rattle.byteorder.specs.Endian.{little_bytes};
ghost use Rattle.pst_bytes.specs.Image.{num};
ghost use Rattle.pst_plain.specs.Written.{written};

use pst_bytes::Image;

/// Writes bytes at a place, and nothing else.
#[tactic(auto, unfolding(crate::specs::Written::written))]
pub(crate) fn put_bytes(file: &mut [u8], at: u64, bytes: &[u8])
    requires { at + length bytes.now ≤ length file.old }
    ensures { file.new ≡ written file.old at bytes.now }
{
    let at = at as usize;
    file[at..at + bytes.len()].copy_from_slice(bytes);
}

/// Carries the check value at a place over: it becomes itself exclusive or its change, which is the check value of the bytes
/// before exclusive or that of the bytes after.
pub(crate) fn carry(file: &mut [u8], at: u64, change: u32)
    requires { at + 4 ≤ length file.old }
    ensures { file.new ≡ written file.old at
        (little_bytes 4 (bit_xor (num file.old at 4) change)) }
{
    let check = Image::new(file).number32(at);
    let carried = check ^ change;
    put_bytes(file, at, &carried.to_le_bytes());
}
