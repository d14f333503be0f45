//! Numbers at an offset of a value.

ghost use Rattle.std.specs.Prelude.{◌≡◌, ◌≤◌, ◌+◌, ◌↔◌, IsTrue, length, take, slice_range};
ghost use Rattle.std.specs.List.{concat};
ghost use Rattle.pst_datatree.specs.Slices.{slices_in};

use crate::slices::Slices;
use crate::value_view::Value;
use pst_bytes::Image;

// The bytes of slices that have at most eight, and what they do not fill.
fn gather(slices: Slices) -> [u8; 8]
    requires { length (concat (slices_in slices)) ≤ 8 }
    ensures { take (length (concat (slices_in slices.entry))) result ≡
        concat (slices_in slices.entry) }
{
    let mut bytes = [0u8; 8];
    let mut count = 0usize;
    for slice in slices {
        let end = count + slice.len();
        bytes[count..end].copy_from_slice(slice);
        count = end;
    }
    bytes
}

impl<'a> Value<'a> {
    ghost use Rattle.pst_bytes.specs.Image.{number_at};
    ghost use Rattle.pst_datatree.specs.Shown.{bytes_in};

    // Whether so many bytes are there from an offset on.
    fn has(&self, at: u64, count: u64) -> bool
        ensures { IsTrue result ↔ (at + count ≤ length (bytes_in self.now)) }
    {
        let len = self.len();
        count <= len && at <= len - count
    }

    // So many bytes from an offset on, at most eight, and what they do not fill.
    #[tactic(auto, using(crate::proofs::SliceLemmas::front_is_range, crate::proofs::SliceLemmas::range_is_short))]
    fn front(&self, at: u64, count: u64) -> [u8; 8]
        requires few { count ≤ 8 }
        requires there { at + count ≤ length (bytes_in self.now) }
        ensures { take count result ≡ slice_range (bytes_in self.now) at (at + count) }
    {
        let _len = self.len();
        match self.part(at, at + count) {
            Some(part) => gather(part.slices()),
            None => unreachable!(),
        }
    }

    /// The little-endian number of the 2 bytes at an offset, across pieces; None exactly where they go past the end.
    #[tactic(auto, unfolding(pst_bytes::specs::Image::num))]
    pub fn number16(&self, at: u64) -> Option<u16>
        ensures { result ≡ number_at (bytes_in self.now) at 2 }
    {
        if !self.has(at, 2) {
            return None;
        }
        let bytes = self.front(at, 2);
        Image::new(&bytes).u16_at(0)
    }

    /// The little-endian number of the 4 bytes at an offset, across pieces; None exactly where they go past the end.
    #[tactic(auto, unfolding(pst_bytes::specs::Image::num))]
    pub fn number32(&self, at: u64) -> Option<u32>
        ensures { result ≡ number_at (bytes_in self.now) at 4 }
    {
        if !self.has(at, 4) {
            return None;
        }
        let bytes = self.front(at, 4);
        Image::new(&bytes).u32_at(0)
    }

    /// The little-endian number of the 8 bytes at an offset, across pieces; None exactly where they go past the end.
    #[tactic(auto, unfolding(pst_bytes::specs::Image::num))]
    pub fn number64(&self, at: u64) -> Option<u64>
        ensures { result ≡ number_at (bytes_in self.now) at 8 }
    {
        if !self.has(at, 8) {
            return None;
        }
        let bytes = self.front(at, 8);
        Image::new(&bytes).u64_at(0)
    }
}
