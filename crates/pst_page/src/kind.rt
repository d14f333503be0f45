//! The two kinds of B-tree page.

ghost use Rattle.std.specs.Prelude.{◌≡◌, ◌+◌, ◌<◌, ◌≤◌, ◌^◌, length};
ghost use Rattle.pst_bytes.specs.Image.{bytes_of};
ghost use Rattle.pst_page.specs.Page.{page_type};
ghost use Rattle.pst_page.specs.Entry.{entry_size, key_of, key_at};

use pst_bytes::Image;

/// Which of the two B-trees a page belongs to ([MS-PST] 2.2.2.7.7).
#[derive(Clone, Copy, Debug, PartialEq, Eq)]
pub enum PageKind {
    /// The block B-tree: where each block lies.
    Bbt,
    /// The node B-tree: which blocks each node has.
    Nbt,
}

impl PageKind {
    /// The number of the kind, as ptype says it ([MS-PST] 2.2.2.7.1).
    pub fn page_type(self) -> u8
        ensures { result ≡ page_type self }
    {
        match self {
            PageKind::Bbt => 0x80,
            PageKind::Nbt => 0x81,
        }
    }

    /// How many bytes an entry has at least in a page of this level ([MS-PST] 2.2.2.7.7.2 to 2.2.2.7.7.4).
    pub fn entry_size(self, level: u8) -> u8
        ensures { result ≡ entry_size self level }
    {
        match (self, level) {
            (PageKind::Nbt, 0) => 32,
            _ => 24,
        }
    }

    /// The key of a number that an entry begins with: a block's identifier without its bit 0 ([MS-PST] 2.2.2.2), a
    /// node's low 32 bits (2.2.2.7.7.4).
    #[tactic(auto, unfolding(crate::specs::Entry::key_of))]
    pub fn key_of(self, number: u64) -> u64
        ensures value { result ≡ key_of self number }
        ensures small { result + 1 < 2 ^ 64 }
    {
        match self {
            PageKind::Bbt => number - number % 2,
            PageKind::Nbt => number % 0x1_0000_0000,
        }
    }

    /// The key of the entry at a place of the file.
    #[tactic(auto, unfolding(crate::specs::Entry::key_at))]
    pub fn key_at(self, image: Image, at: u64) -> u64
        requires { at + 8 ≤ length (bytes_of image) }
        ensures value { result ≡ key_at self (bytes_of image.entry) at }
        ensures small { result + 1 < 2 ^ 64 }
    {
        self.key_of(image.number64(at))
    }
}
