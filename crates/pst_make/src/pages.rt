//! The pages of the two B-trees ([MS-PST] 2.2.2.7.7): the leaves, filled from left to right, and the branches above
//! them, level by level.

ghost use Rattle.std.specs.Prelude.{◌≡◌, ◌+◌, ◌≤◌, length};
ghost use Rattle.std.specs.List.{All};
ghost use Rattle.pst_make.specs.Layout.{IsBlockBelow, IsPageBelow};
ghost use Rattle.pst_make.specs.Pages.{capacity_of, entry_size_of};

use crate::layout::{Bref, CHILDREN, NODES_A_LEAF, PlacedBlock, pages_for};
use crate::number::{put16, put32, put64};
use crate::plan::NodePlan;
use crate::seal::seal_page;
use std::alloc::{AllocError, Global};

/// One of the two trees.
#[derive(Clone, Copy)]
pub(crate) enum Tree {
    /// The node B-tree.
    Nodes,
    /// The block B-tree.
    Blocks,
}

impl Tree {
    // ptype of its pages (2.2.2.7.1).
    fn page_type(self) -> u8 {
        match self {
            Tree::Nodes => 0x81,
            Tree::Blocks => 0x80,
        }
    }

    // How many entries a page has at most, and how many bytes each has: cEntMax and cbEnt.
    fn capacity(self, level: u8) -> (usize, u8)
        ensures entries { result.0 ≡ capacity_of self level }
        ensures size { result.1 ≡ entry_size_of self level }
    {
        match self {
            Tree::Nodes if level == 0 => (NODES_A_LEAF, 32),
            _ => (CHILDREN, 24),
        }
    }
}

/// An entry of a page.
#[derive(Clone, Copy)]
pub(crate) enum Entry {
    /// Of a branch: a BTENTRY (2.2.2.7.7.2), the least key below it and the page.
    Branch(u64, Bref),
    /// Of a leaf of the block B-tree: a BBTENTRY (2.2.2.7.7.3), the block and cb.
    Block(Bref, u16),
    /// Of a leaf of the node B-tree: an NBTENTRY (2.2.2.7.7.4).
    Node(NodePlan),
}

impl Entry {
    // What the entry is found by.
    fn key(&self) -> u64 {
        match self {
            Entry::Branch(key, _) => *key,
            Entry::Block(block, _) => block.bid,
            Entry::Node(node) => u64::from(node.nid),
        }
    }

    // Writes the entry; what it leaves out is 0.
    fn write(&self, image: &mut [u8], at: u64)
        requires { at + 32 ≤ length image.old }
    {
        match self {
            Entry::Branch(key, page) => {
                put64(image, at, *key);
                put64(image, at + 8, page.bid);
                put64(image, at + 16, page.ib);
            }
            Entry::Block(block, cb) => {
                put64(image, at, block.bid);
                put64(image, at + 8, block.ib);
                put16(image, at + 16, *cb);
                // cRef: one reference, and one more
                put16(image, at + 18, 2);
            }
            Entry::Node(node) => {
                put64(image, at, u64::from(node.nid));
                put64(image, at + 8, node.bid_data);
                put64(image, at + 16, node.bid_sub);
                put32(image, at + 24, node.parent);
            }
        }
    }
}

// Writes a page at its place, and seals it.
#[tactic(auto, using(crate::proofs::PageLemmas::entry_place))]
fn write_page(image: &mut [u8], tree: Tree, level: u8, page: Bref, entries: &[Entry])
    requires inside { IsPageBelow (length image.old) page }
    requires room { length entries.now ≤ capacity_of tree level }
{
    let at = page.ib;
    let (capacity, size) = tree.capacity(level);
    for (i, entry) in entries.iter().enumerate() {
        entry.write(image, at + i as u64 * u64::from(size));
    }
    // cEnt, cEntMax, cbEnt and cLevel of the BTPAGE (2.2.2.7.7.1)
    let end = at as usize + 488;
    image[end] = entries.len() as u8;
    image[end + 1] = capacity as u8;
    image[end + 2] = size;
    image[end + 3] = level;
    // ptype, ptypeRepeat and bid of the PAGETRAILER (2.2.2.7.1)
    image[end + 8] = tree.page_type();
    image[end + 9] = tree.page_type();
    put64(image, at + 504, page.bid);
    seal_page(image, at);
}

// Writes the pages of one level, and answers the entries of the level above.
fn write_level(
    alloc: Global,
    image: &mut [u8],
    tree: Tree,
    level: u8,
    entries: &[Entry],
    pages: &[Bref],
) -> Result<Vec<Entry>, AllocError>
    requires { All (IsPageBelow (length image.old)) pages.now }
{
    let (capacity, _) = tree.capacity(level);
    let mut parents = Vec::new(alloc);
    let mut rest = entries;
    for page in pages {
        let (here, others) = rest.split_at(rest.len().min(capacity));
        write_page(image, tree, level, *page, here);
        let key = here.first().map_or(0, |entry| entry.key());
        parents.push(Entry::Branch(key, *page))?;
        rest = others;
    }
    Ok(parents)
}

// Writes the pages of a tree over the entries of its leaves.
fn write_tree(
    alloc: Global,
    image: &mut [u8],
    tree: Tree,
    leaves: Vec<Entry>,
    pages: &[Bref],
) -> Result<(), AllocError>
    requires { All (IsPageBelow (length image.old)) pages.now }
{
    let mut entries = leaves;
    let mut pages = pages;
    for level in 0..16 {
        if pages.is_empty() {
            break;
        }
        let (capacity, _) = tree.capacity(level);
        let count = pages_for(capacity, entries.len()).min(pages.len());
        let (here, above) = pages.split_at(count);
        entries = write_level(alloc, image, tree, level, &entries, here)?;
        pages = above;
    }
    Ok(())
}

/// Writes the node B-tree.
pub(crate) fn write_nodes(
    alloc: Global,
    image: &mut [u8],
    nodes: &[NodePlan],
    pages: &[Bref],
) -> Result<(), AllocError>
    requires { All (IsPageBelow (length image.old)) pages.now }
{
    let mut leaves = Vec::with_capacity(alloc, nodes.len())?;
    for node in nodes {
        leaves.push(Entry::Node(*node))?;
    }
    write_tree(alloc, image, Tree::Nodes, leaves, pages)
}

/// Writes the block B-tree.
pub(crate) fn write_blocks(
    alloc: Global,
    image: &mut [u8],
    blocks: &[PlacedBlock],
    pages: &[Bref],
) -> Result<(), AllocError>
    requires pages { All (IsPageBelow (length image.old)) pages.now }
    requires blocks { All (IsBlockBelow (length image.old)) blocks.now }
{
    let mut leaves = Vec::with_capacity(alloc, blocks.len())?;
    for block in blocks {
        let bref = Bref {
            bid: block.bid,
            ib: block.ib,
        };
        leaves.push(Entry::Block(bref, block.body.len() as u16))?;
    }
    write_tree(alloc, image, Tree::Blocks, leaves, pages)
}
