//! The bytes of a file, and the little-endian numbers in them.
//!
//! Begin with `Image::new`, which gives the `Image` of a file's bytes, without a copy. `u8_at` to `u64_at` read a
//! number at an offset, and `lend` lends the bytes of a `Span`; they answer None where some byte lies past the end.
//! `number8` to `number64` and `slice` test nothing, and are for bytes that the caller knows to be there:
//!
//! ```text
//! let image = Image::new(bytes);
//! let magic = image.u32_at(0)?;
//! let page = image.lend(Span { at: 0x4800, len: 512 })?;
//! ```
#![tactic(auto)]

ghost use Rattle.std.specs.Prelude.{◌≡◌, ◌+◌, ◌≤◌, ◌↔◌, [], length, option_map, IfSome, IsTrue};
ghost use Rattle.pst_bytes.specs.Image.{memory_of, bytes_of, bytes_at, num, number_at, lent, IsInside, IsPartOf};

mod span;

use byteorder::{ByteOrder, LittleEndian};
pub use span::Span;

/// The bytes of a file, borrowed for `'a`. Offsets are in bytes from the first one, and numbers are
/// little-endian ([MS-PST] 2.1).
#[derive(Clone, Copy)]
pub struct Image<'a> {
    bytes: &'a [u8],
}

// Readers that test whether the bytes are there.
impl<'a> Image<'a> {
    /// The image that these bytes are. Nothing is read or copied.
    pub fn new(bytes: &'a [u8]) -> Image<'a>
        ensures memory { memory_of result ≡ bytes.entry }
        ensures bytes { bytes_of result ≡ bytes.entry.now }
    {
        Image { bytes }
    }

    /// How many bytes the file has.
    pub fn len(self) -> u64
        ensures { result ≡ length (bytes_of self.entry) }
    {
        self.bytes.len() as u64
    }

    /// Whether the file has no byte.
    pub fn is_empty(self) -> bool
        ensures { IsTrue result ↔ (length (bytes_of self.entry) ≡ 0) }
    {
        self.bytes.is_empty()
    }

    /// The bytes of a span, in the file's own memory; None exactly where some of them lie past the end.
    pub fn lend(self, span: Span) -> Option<&'a [u8]>
        ensures value { option_map (λ s. s.now) result ≡ lent (bytes_of self.entry) span }
        ensures own { IfSome result (λ s. IsPartOf self.entry span s) }
    {
        let len = self.bytes.len() as u64;
        if span.at > len || span.len > len - span.at {
            return None;
        }
        Some(self.slice(span))
    }

    /// The byte at an offset; None exactly past the end.
    #[tactic(auto, unfolding(crate::specs::Image::num))]
    pub fn u8_at(self, at: u64) -> Option<u8>
        ensures { result ≡ number_at (bytes_of self.entry) at 1 }
    {
        let bytes = self.lend(Span { at, len: 1 })?;
        Some(bytes[0])
    }

    /// The number of the 2 bytes at an offset; None exactly where some of them lie past the end.
    #[tactic(auto, unfolding(crate::specs::Image::num))]
    pub fn u16_at(self, at: u64) -> Option<u16>
        ensures { result ≡ number_at (bytes_of self.entry) at 2 }
    {
        let bytes = self.lend(Span { at, len: 2 })?;
        Some(LittleEndian::read_u16(bytes))
    }

    /// The number of the 4 bytes at an offset; None exactly where some of them lie past the end.
    #[tactic(auto, unfolding(crate::specs::Image::num))]
    pub fn u32_at(self, at: u64) -> Option<u32>
        ensures { result ≡ number_at (bytes_of self.entry) at 4 }
    {
        let bytes = self.lend(Span { at, len: 4 })?;
        Some(LittleEndian::read_u32(bytes))
    }

    /// The number of the 8 bytes at an offset; None exactly where some of them lie past the end.
    #[tactic(auto, unfolding(crate::specs::Image::num))]
    pub fn u64_at(self, at: u64) -> Option<u64>
        ensures { result ≡ number_at (bytes_of self.entry) at 8 }
    {
        let bytes = self.lend(Span { at, len: 8 })?;
        Some(LittleEndian::read_u64(bytes))
    }
}

// Readers of bytes that the caller knows to be there: nothing is tested when they run.
impl<'a> Image<'a> {
    /// The byte at an offset inside the file.
    #[tactic(auto, unfolding(crate::specs::Image::num))]
    pub fn number8(self, at: u64) -> u8
        requires { at + 1 ≤ length (bytes_of self) }
        ensures { result ≡ num (bytes_of self.entry) at 1 }
    {
        self.bytes[at as usize]
    }

    /// The number of 2 bytes inside the file.
    #[tactic(auto, unfolding(crate::specs::Image::num))]
    pub fn number16(self, at: u64) -> u16
        requires { at + 2 ≤ length (bytes_of self) }
        ensures { result ≡ num (bytes_of self.entry) at 2 }
    {
        LittleEndian::read_u16(self.slice(Span { at, len: 2 }))
    }

    /// The number of 4 bytes inside the file.
    #[tactic(auto, unfolding(crate::specs::Image::num))]
    pub fn number32(self, at: u64) -> u32
        requires { at + 4 ≤ length (bytes_of self) }
        ensures { result ≡ num (bytes_of self.entry) at 4 }
    {
        LittleEndian::read_u32(self.slice(Span { at, len: 4 }))
    }

    /// The number of 8 bytes inside the file.
    #[tactic(auto, unfolding(crate::specs::Image::num))]
    pub fn number64(self, at: u64) -> u64
        requires { at + 8 ≤ length (bytes_of self) }
        ensures { result ≡ num (bytes_of self.entry) at 8 }
    {
        LittleEndian::read_u64(self.slice(Span { at, len: 8 }))
    }

    /// The bytes of a span inside the file, in the file's own memory.
    pub fn slice(self, span: Span) -> &'a [u8]
        requires { IsInside (bytes_of self) span }
        ensures value { result.now ≡ bytes_at (bytes_of self.entry) span }
        ensures own { IsPartOf self.entry span result }
    {
        let at = span.at as usize;
        let end = at + span.len as usize;
        &self.bytes[at..end]
    }
}
