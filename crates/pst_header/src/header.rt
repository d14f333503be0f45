//! The fields of a header.

ghost use Rattle.std.specs.Prelude.{◌≡◌};
ghost use Rattle.pst_header.specs.Header.{end_of, amap_count_of};
ghost use Rattle.pst_header.specs.Place.{is_place};

use pst_bytes::Span;

/// Where the mapped part of a file begins, and with it the first allocation map ([MS-PST] 2.2.2.7.2).
pub const FIRST_AMAP: u64 = 0x4400;

/// How many bytes an allocation map maps, itself with them: so many lie between two maps ([MS-PST] 2.2.2.7.2).
pub const REGION: u64 = 253_952;

/// How many bytes each bit of an allocation map stands for ([MS-PST] 2.2.2.7.2). Pages and blocks begin at a multiple of it.
pub const UNIT: u64 = 64;

/// A reference to a page, a BREF ([MS-PST] 2.2.2.4).
#[derive(Clone, Copy, Debug, PartialEq, Eq)]
pub struct Bref {
    /// The identifier of the page.
    pub bid: u64,
    /// The page's offset in the file.
    pub ib: u64,
}

/// The fields of a header ([MS-PST] 2.2.2.6) and of its ROOT structure (2.2.2.5). Places are offsets in the file.
#[derive(Clone, Copy, Debug, PartialEq, Eq)]
pub struct Header {
    /// ibFileEof: the size of the file, in bytes.
    pub eof: u64,
    /// ibAMapLast: the place of the last allocation map.
    pub last_amap: u64,
    /// cbAMapFree: how many bytes all maps say are free. It is not checked.
    pub free: u64,
    /// BREFNBT: the root page of the node B-tree.
    pub nbt: Bref,
    /// BREFBBT: the root page of the block B-tree.
    pub bbt: Bref,
    /// fAMapValid: whether the allocation maps are valid, 1 or 2.
    pub maps_valid: u8,
    /// bidNextP: the identifier that the next page gets. It is not checked.
    pub next_page: u64,
    /// bidNextB: the identifier that the next block gets. It is not checked.
    pub next_block: u64,
    /// wVer: the version of the file format.
    pub version: u16,
}

impl Header {
    /// The end of the mapped part, as an offset in the file: of the file itself, or of what the last allocation map
    /// maps ([MS-PST] 2.2.2.7.2). The mapped part begins at `FIRST_AMAP`.
    pub fn end(&self) -> u64
        ensures { result ≡ end_of self.now }
    {
        self.eof.min(self.last_amap.saturating_add(REGION))
    }

    /// How many allocation maps there are ([MS-PST] 2.2.2.7.2).
    pub fn amap_count(&self) -> u64
        ensures { result ≡ amap_count_of self.now }
    {
        self.last_amap.saturating_sub(FIRST_AMAP) / REGION + 1
    }

    /// Whether a page or a block may lie in a span: it lies in the mapped part, which begins at `FIRST_AMAP` and ends at
    /// `end()`, and begins at a multiple of `UNIT` ([MS-PST] 2.2.2.7, 2.2.2.8).
    #[tactic(auto, unfolding(crate::specs::Place::is_place))]
    pub fn has_place(&self, span: Span) -> bool
        ensures { result ≡ is_place (end_of self.now) span }
    {
        let (at, end) = (span.at, self.end());
        at.is_multiple_of(UNIT) && at >= FIRST_AMAP && at <= end && end - at >= span.len
    }
}
