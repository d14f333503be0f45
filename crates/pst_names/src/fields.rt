//! The fields of an entry.

ghost use Rattle.std.specs.Prelude.{◌≡◌, ◌↔◌, ◌+◌, ◌%◌, IsTrue, length};
ghost use Rattle.pst_bytes.specs.Image.{num};

use byteorder::{ByteOrder, LittleEndian};

/// The fields of an entry (NAMEID, [MS-PST] 2.4.7.1).
#[derive(Clone, Copy)]
pub(crate) struct Fields {
    /// The number that is the name, or where in the string stream the name stands (dwPropertyID).
    pub(crate) id: u32,
    /// Whether the name is a string (bit 0), and the set that it is of (bits 1 to 15).
    pub(crate) word: u16,
    /// Which property it names (wPropIdx).
    pub(crate) index: u16,
}

impl Fields {
    /// Those of an entry's 8 bytes.
    #[tactic(auto, unfolding(pst_bytes::specs::Image::num))]
    pub(crate) fn of(bytes: &[u8]) -> Fields
        requires { length bytes.now ≡ 8 }
        ensures id { result.id ≡ num bytes.now 0 4 }
        ensures word { result.word ≡ num bytes.now 4 2 }
        ensures index { result.index ≡ num bytes.now 6 2 }
    {
        Fields {
            id: LittleEndian::read_u32(&bytes[..4]),
            word: LittleEndian::read_u16(&bytes[4..6]),
            index: LittleEndian::read_u16(&bytes[6..]),
        }
    }

    /// Whether a property is the one that it names.
    pub(crate) fn is_for(self, id: u16) -> bool
        ensures { IsTrue result ↔ (0x8000 + self.index ≡ id) }
    {
        0x8000 + u32::from(self.index) == u32::from(id)
    }

    /// Whether the name is a string.
    pub(crate) fn is_text(self) -> bool
        ensures { IsTrue result ↔ (self.word % 2 ≡ 1) }
    {
        self.word % 2 == 1
    }
}
