//! A tree that was walked without fault.

ghost use Rattle.std.specs.Prelude.{◌≡◌, ◌≤◌, length, None};
ghost use Rattle.pst_bytes.specs.Image.{bytes_of};
ghost use Rattle.pst_btree.specs.Tree.{IsTreeAt, tree_at, pages_of};
ghost use Rattle.pst_btree.specs.TreeProps.{IsTreeAt-prop};

use pst_bytes::Image;
use pst_header::Bref;
use pst_page::PageKind;

/// A tree of pages of a file: each page is good and has its shape, and keys keep their bounds.
#[derive(Clone, Copy)]
pub struct TreeView<'a> {
    /// The file.
    pub image: Image<'a>,
    /// The end of its mapped part.
    pub end: u64,
    /// Which B-tree it is.
    pub kind: PageKind,
    /// The level of the root: 0 for a leaf.
    pub level: u8,
    /// The root.
    pub root: Bref,
    /// How many pages there are.
    pub pages: u64,
    ghost inside: { end ≤ length (bytes_of image) },
    ghost spelt: { IsTreeAt kind (bytes_of image) end level root 0 None } by { IsTreeAt-prop kind
        (bytes_of image) end level root 0 None },
    ghost counted: { pages ≡ length (pages_of (tree_at kind (bytes_of image) level root)) },
}
