//! The kinds of fault.

ghost use Rattle.std.specs.Prelude.{◌≡◌, Some};
ghost use Rattle.pst_fault.specs.Kind.{number_of, kind_name, kind_text};

use std::fmt;

/// What is wrong, in the order of the numbers 1 to 28. Sections are those of [MS-PST].
#[derive(Clone, Copy, Debug, PartialEq, Eq)]
pub enum Kind {
    /// The file ends inside the header (2.2.2.6).
    Short,
    /// A magic number of the header is another one: dwMagic or wMagicClient (2.2.2.6).
    Magic,
    /// wVer is this number, and not 23 (2.2.2.6): an ANSI file, one with pages of 4 KiB, or another.
    Version(u16),
    /// bCryptMethod is this number, and not 0 (2.2.2.6): the data blocks are encoded.
    Encoded(u8),
    /// A check value of the header is wrong: dwCRCPartial or dwCRCFull (2.2.2.6).
    HeaderCheck,
    /// The ROOT structure names an end of file or a last allocation map that cannot be (2.2.2.5).
    Root,
    /// fAMapValid is neither 1 nor 2: the allocation maps are not to be trusted (2.2.2.5).
    MapsInvalid,
    /// A page lies where none may lie (2.2.2.7).
    PagePlace,
    /// The trailer of a page is not what it has to be (2.2.2.7.1).
    PageTrailer,
    /// The entries or the level of a B-tree page are not what they have to be (2.2.2.7.7.1).
    PageShape,
    /// A key of a B-tree page is out of order or out of the bounds above it (2.2.2.7.7).
    KeyOrder,
    /// A page or a block lies on another (2.2.2.7, 2.2.2.8).
    Overlap,
    /// A block lies where none may lie (2.2.2.8).
    BlockPlace,
    /// The trailer of a block is not what it has to be (2.2.2.8.1).
    BlockTrailer,
    /// A block is named that the block B-tree lacks (2.2.2.7.7.3).
    BlockMissing,
    /// An XBLOCK or XXBLOCK is not what it has to be (2.2.2.8.3.2).
    DataTree,
    /// An SLBLOCK or SIBLOCK is not what it has to be, or a subnode is missing (2.2.2.8.3.3).
    Subnode,
    /// Subnodes nest deeper than 256 lists below one another (2.2.2.8.3.3; the limit is this project's own).
    Nesting,
    /// An allocation map page is not what it has to be (2.2.2.7.2).
    MapPage,
    /// Space that is in use is marked as free (2.2.2.7.2).
    MapMissing,
    /// A heap on node is not what it has to be (2.3.1).
    Heap,
    /// A heap identifier names no item (2.3.1.1).
    HeapId,
    /// A B-tree on heap is not what it has to be (2.3.2).
    Bth,
    /// The value of a property or a cell is not what its type says (2.3.3).
    Property,
    /// A table context is not what it has to be (2.3.4).
    Table,
    /// A node is named that is not there (2.4).
    NodeMissing,
    /// A node is named that is of another type than it has to be (2.2.2.1).
    NodeKind,
    /// Memory ran out. It says nothing of the file.
    NoMemory,
}

impl Kind {
    /// The number under which the kind is printed, from 1 to 28.
    pub fn number(self) -> u8
        ensures { result ≡ number_of self }
    {
        match self {
            Kind::Short => 1,
            Kind::Magic => 2,
            Kind::Version(_) => 3,
            Kind::Encoded(_) => 4,
            Kind::HeaderCheck => 5,
            Kind::Root => 6,
            Kind::MapsInvalid => 7,
            Kind::PagePlace => 8,
            Kind::PageTrailer => 9,
            Kind::PageShape => 10,
            Kind::KeyOrder => 11,
            Kind::Overlap => 12,
            Kind::BlockPlace => 13,
            Kind::BlockTrailer => 14,
            Kind::BlockMissing => 15,
            Kind::DataTree => 16,
            Kind::Subnode => 17,
            Kind::Nesting => 18,
            Kind::MapPage => 19,
            Kind::MapMissing => 20,
            Kind::Heap => 21,
            Kind::HeapId => 22,
            Kind::Bth => 23,
            Kind::Property => 24,
            Kind::Table => 25,
            Kind::NodeMissing => 26,
            Kind::NodeKind => 27,
            Kind::NoMemory => 28,
        }
    }

    // The name alone, without the number that a kind may carry.
    fn name(self) -> &'static str
        ensures { result.now ≡ kind_name self }
    {
        match self {
            Kind::Short => "Short",
            Kind::Magic => "Magic",
            Kind::Version(_) => "Version",
            Kind::Encoded(_) => "Encoded",
            Kind::HeaderCheck => "HeaderCheck",
            Kind::Root => "Root",
            Kind::MapsInvalid => "MapsInvalid",
            Kind::PagePlace => "PagePlace",
            Kind::PageTrailer => "PageTrailer",
            Kind::PageShape => "PageShape",
            Kind::KeyOrder => "KeyOrder",
            Kind::Overlap => "Overlap",
            Kind::BlockPlace => "BlockPlace",
            Kind::BlockTrailer => "BlockTrailer",
            Kind::BlockMissing => "BlockMissing",
            Kind::DataTree => "DataTree",
            Kind::Subnode => "Subnode",
            Kind::Nesting => "Nesting",
            Kind::MapPage => "MapPage",
            Kind::MapMissing => "MapMissing",
            Kind::Heap => "Heap",
            Kind::HeapId => "HeapId",
            Kind::Bth => "Bth",
            Kind::Property => "Property",
            Kind::Table => "Table",
            Kind::NodeMissing => "NodeMissing",
            Kind::NodeKind => "NodeKind",
            Kind::NoMemory => "NoMemory",
        }
    }
}

/// The name, and in brackets the number that the file has there where the kind carries one, in decimal.
impl fmt::Display for Kind {
    ghost output = { λ k. Some (kind_text k) };

    fn fmt<W: fmt::Write>(&self, f: &mut fmt::Formatter<W>) -> fmt::Result {
        let name = self.name();
        match self {
            Kind::Version(n) => write!(f, "{name}({n})"),
            Kind::Encoded(n) => write!(f, "{name}({n})"),
            _ => write!(f, "{name}"),
        }
    }
}
