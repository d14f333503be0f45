//! Entries of the pages, read at their places in the file.

ghost use Rattle.std.specs.Prelude.{◌≡◌, ◌+◌, ◌≤◌, length};
ghost use Rattle.pst_bytes.specs.Image.{bytes_of};
ghost use Rattle.pst_page.specs.Entry.{child_at, block_entry_at, node_entry_at};

use crate::kind::PageKind;
use pst_bytes::Image;
use pst_header::Bref;

/// A leaf entry of the block B-tree, a BBTENTRY ([MS-PST] 2.2.2.7.7.3).
#[derive(Clone, Copy, Debug, PartialEq, Eq)]
pub struct BlockEntry {
    /// The identifier of the block, as it is written: with its bit 0.
    pub bid: u64,
    /// The block's offset in the file.
    pub ib: u64,
    /// cb: how many bytes of data the block has.
    pub cb: u16,
}

/// A leaf entry of the node B-tree, an NBTENTRY ([MS-PST] 2.2.2.7.7.4).
#[derive(Clone, Copy, Debug, PartialEq, Eq)]
pub struct NodeEntry {
    /// The identifier of the node: the low 32 bits of the key.
    pub nid: u32,
    /// The identifier of its data, or 0.
    pub bid_data: u64,
    /// The identifier of its subnodes, or 0.
    pub bid_sub: u64,
    /// nidParent: the node that it belongs to, or 0.
    pub parent: u32,
}

/// The leaf entry of the block B-tree at a place of the file.
#[tactic(auto, unfolding(crate::specs::Entry::block_entry_at))]
pub fn block_entry_at(image: Image, at: u64) -> BlockEntry
    requires { at + 24 ≤ length (bytes_of image) }
    ensures { result ≡ block_entry_at (bytes_of image.entry) at }
{
    BlockEntry {
        bid: image.number64(at),
        ib: image.number64(at + 8),
        cb: image.number16(at + 16),
    }
}

/// The leaf entry of the node B-tree at a place of the file.
#[tactic(auto, unfolding(crate::specs::Entry::node_entry_at, crate::specs::Entry::key_of))]
pub fn node_entry_at(image: Image, at: u64) -> NodeEntry
    requires { at + 32 ≤ length (bytes_of image) }
    ensures { result ≡ node_entry_at (bytes_of image.entry) at }
{
    NodeEntry {
        nid: PageKind::Nbt.key_of(image.number64(at)) as u32,
        bid_data: image.number64(at + 8),
        bid_sub: image.number64(at + 16),
        parent: image.number32(at + 24),
    }
}

/// The page that the branch entry at a place of the file names, a BTENTRY ([MS-PST] 2.2.2.7.7.2).
#[tactic(auto, unfolding(crate::specs::Entry::child_at))]
pub fn child_at(image: Image, at: u64) -> Bref
    requires { at + 24 ≤ length (bytes_of image) }
    ensures { result ≡ child_at (bytes_of image.entry) at }
{
    Bref {
        bid: image.number64(at + 8),
        ib: image.number64(at + 16),
    }
}
