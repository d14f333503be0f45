//! The walks of the two B-trees.

ghost use Rattle.std.specs.Prelude.{◌≡◌, ◌+◌, ◌≤◌, length, map, IfOk, All};
ghost use Rattle.pst_bytes.specs.Image.{bytes_of};
ghost use Rattle.pst_header.specs.Head.{Head};
ghost use Rattle.pst_page.specs.declared.kind.PageKind.TheVariants.{Bbt, Nbt};
ghost use Rattle.pst_page.specs.Entry.{block_entry_at as block_at, node_entry_at as node_at};
ghost use Rattle.pst_space.specs.Claimed.{unit_total};
ghost use Rattle.pst_btree.specs.Trees.{block_view, block_entries, node_view, node_entries};
ghost use Rattle.pst_btree.specs.Walked.{IsWalkOf};

use crate::block_tree::BlockTree;
use crate::node_tree::NodeTree;
use crate::walk::walk;
use pst_bytes::Image;
use pst_fault::Fault;
use pst_header::Header;
use pst_page::{BlockEntry, NodeEntry, PageKind, block_entry_at, node_entry_at};
use pst_space::Claims;
use std::alloc::{AllocError, Global};

// The entries of the block B-tree at some places.
fn blocks_at(alloc: Global, image: Image, places: &[u64]) -> Result<Vec<BlockEntry>, AllocError>
    requires { All (λ at. at + 24 ≤ length (bytes_of image)) places.now }
    ensures { IfOk result (λ v. v.items ≡ map (block_at (bytes_of image.entry)) places.now) }
{
    places
        .iter()
        .map(|at| block_entry_at(image, *at))
        .collect(alloc)
}

// The entries of the node B-tree at some places.
fn nodes_at(alloc: Global, image: Image, places: &[u64]) -> Result<Vec<NodeEntry>, AllocError>
    requires { All (λ at. at + 32 ≤ length (bytes_of image)) places.now }
    ensures { IfOk result (λ v. v.items ≡ map (node_at (bytes_of image.entry)) places.now) }
{
    places
        .iter()
        .map(|at| node_entry_at(image, *at))
        .collect(alloc)
}

/// Walks the block B-tree of a file whose header is this one, claims its pages, and gives it with its entries from left to
/// right. The claims have to be of the same file. Each page comes before its children, and children from left to right.
///
/// The first fault is told at the page, with the identifier of the reference that names it: PagePlace; Overlap, where the
/// page has a byte in common with what is claimed; PageTrailer; PageShape, also where a child is not one level below its
/// parent ([MS-PST] 2.2.2.7.7.1). Then KeyOrder, at the entry, with the identifier of its page: keys rise strictly, and
/// those below an entry of a branch are at least its key and below the next one's. NoMemory where memory is refused.
///
/// After a fault the pages that came before it are claimed, too.
pub fn walk_blocks<'a>(
    alloc: Global,
    image: Image<'a>,
    header: &Header,
    claims: &mut Claims,
) -> Result<(BlockTree<'a>, Vec<BlockEntry>), Fault>
    requires head { Head (bytes_of image) header.now }
    requires units { length claims.old ≡ unit_total header.now }
    ensures same_units { length claims.new ≡ length claims.old }

    // What a walk answers, and what is claimed then; and all entries of the tree.
    ensures walk { IsWalkOf Bbt image.entry header.now claims.old claims.new
        (λ x. block_view x.0) result }
    ensures entries { IfOk result (λ x. x.1.items ≡ block_entries x.0) }
{
    let (view, places) = walk(alloc, image, header, PageKind::Bbt, header.bbt, claims)?;
    let entries = blocks_at(alloc, image, &places)?;
    Ok((BlockTree { view }, entries))
}

/// Walks the node B-tree of a file whose header is this one, claims its pages, and gives it with its entries from left to
/// right; or its first fault, as `walk_blocks`.
pub fn walk_nodes<'a>(
    alloc: Global,
    image: Image<'a>,
    header: &Header,
    claims: &mut Claims,
) -> Result<(NodeTree<'a>, Vec<NodeEntry>), Fault>
    requires head { Head (bytes_of image) header.now }
    requires units { length claims.old ≡ unit_total header.now }
    ensures same_units { length claims.new ≡ length claims.old }

    // What a walk answers, and what is claimed then; and all entries of the tree.
    ensures walk { IsWalkOf Nbt image.entry header.now claims.old claims.new
        (λ x. node_view x.0) result }
    ensures entries { IfOk result (λ x. x.1.items ≡ node_entries x.0) }
{
    let (view, places) = walk(alloc, image, header, PageKind::Nbt, header.nbt, claims)?;
    let entries = nodes_at(alloc, image, &places)?;
    Ok((NodeTree { view }, entries))
}

/// The walk of the node B-tree, as `walk_nodes` says, without a list of its entries: whoever goes through them asks the
/// tree, and so less memory is taken.
pub fn walk_node_tree<'a>(
    alloc: Global,
    image: Image<'a>,
    header: &Header,
    claims: &mut Claims,
) -> Result<NodeTree<'a>, Fault>
    requires head { Head (bytes_of image) header.now }
    requires units { length claims.old ≡ unit_total header.now }
    ensures same_units { length claims.new ≡ length claims.old }

    // What a walk answers, and what is claimed then.
    ensures walk { IsWalkOf Nbt image.entry header.now claims.old claims.new node_view result }
{
    let (view, _) = walk(alloc, image, header, PageKind::Nbt, header.nbt, claims)?;
    Ok(NodeTree { view })
}
