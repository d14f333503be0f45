//! Both B-trees of a file: one walk of each, on which the check of a whole file and the list of its nodes stand.

ghost use Rattle.std.specs.Prelude.{◌≡◌, ◌+◌, ◌≤◌, length, IfOk, OnOk};
ghost use Rattle.pst_bytes.specs.Image.{bytes_of};
ghost use Rattle.pst_header.specs.Head.{Head};
ghost use Rattle.pst_space.specs.Claimed.{unit_total, with_spans, maps_claimed};
ghost use Rattle.pst_space.specs.Step.{GivesStepBy};
ghost use Rattle.pst_btree.specs.Trees.{block_view, node_view, block_entries, node_entries, file_of_blocks};
ghost use Rattle.pst_btree.specs.Tree.{pages_of};
ghost use Rattle.pst_btree.specs.View.{tree_of, found_in};
ghost use Rattle.pst_ndb.specs.Entries.{page_total, block_list, node_list};
ghost use Rattle.pst_ndb.specs.Trees.{trees_walk, trees_spans, listed, listed_nodes, ListsNodes};

use pst_btree::{BlockEntry, BlockTree, NodeTree, walk_blocks, walk_node_tree};
use pst_bytes::Image;
use pst_fault::Fault;
use pst_header::{Header, read_header};
use pst_space::Claims;
use std::alloc::Global;

/// What the walks of both trees find.
#[derive(Drop)]
pub(crate) struct Trees<'a> {
    /// The block B-tree.
    pub(crate) blocks: BlockTree<'a>,
    /// Its entries.
    pub(crate) entries: Vec<BlockEntry>,
    /// The node B-tree.
    pub(crate) nodes: NodeTree<'a>,
    /// How many pages both have.
    pub(crate) pages: u64,
}

// How many pages both trees have; they are no more than the file has bytes.
fn page_total(tree: &BlockTree, nodes: &NodeTree, eof: u64) -> u64
    requires { length (pages_of (tree_of (block_view tree.now))) + length
        (pages_of (tree_of (node_view nodes.now))) ≤ eof }
    ensures { result ≡ length (pages_of (tree_of (block_view tree.now))) + length
        (pages_of (tree_of (node_view nodes.now))) }
{
    tree.pages() + nodes.pages()
}

/// Walks both B-trees, and claims their pages.
#[tactic(auto, unfolding(crate::specs::Trees::trees_walk))]
pub(crate) fn walk_trees<'a>(
    alloc: Global,
    image: Image<'a>,
    header: &Header,
    claims: &mut Claims,
) -> Result<Trees<'a>, Fault>
    requires head { Head (bytes_of image) header.now }
    requires units { length claims.old ≡ unit_total header.now }
    ensures same_units { length claims.new ≡ length claims.old }
    ensures exact { GivesStepBy (λ t. found_in claims.new (node_view t.nodes)) result claims.new
        (trees_walk (bytes_of image.entry) header.now claims.old) }
    ensures entries { IfOk result (λ t. t.entries.items ≡ block_entries t.blocks) }
    ensures list { IfOk result (λ t.
        block_entries t.blocks ≡ block_list (bytes_of image.entry) header.now) }
    ensures nodes { IfOk result (λ t.
        node_entries t.nodes ≡ node_list (bytes_of image.entry) header.now) }
    ensures file { IfOk result (λ t. file_of_blocks t.blocks ≡ image.entry) }
    ensures image { IfOk result (λ t. (node_view t.nodes).image ≡ image.entry) }
    ensures claims { OnOk result (claims.new ≡
        with_spans claims.old (trees_spans (bytes_of image.entry) header.now)) }
    ensures pages { IfOk result (λ t. t.pages ≡ page_total (bytes_of image.entry) header.now) }
{
    let (blocks, entries) = walk_blocks(alloc, image, header, claims)?;
    let nodes = walk_node_tree(alloc, image, header, claims)?;
    let pages = page_total(&blocks, &nodes, header.eof);
    Ok(Trees {
        blocks,
        entries,
        nodes,
        pages,
    })
}

// The node B-tree of a file with this header.
fn nodes_under<'a>(alloc: Global, image: Image<'a>, header: &Header) -> Result<NodeTree<'a>, Fault>
    requires { Head (bytes_of image) header.now }
    ensures { ListsNodes result (listed (bytes_of image.entry)
        (trees_walk (bytes_of image.entry) header.now (maps_claimed header.now))) }
{
    let mut claims = Claims::new(alloc, header)?;
    let trees = walk_trees(alloc, image, header, &mut claims)?;
    Ok(trees.nodes)
}

/// The node B-tree of a file, or the first fault of its header, of the walk of the block B-tree, and of the walk of the
/// node B-tree, in this order ([MS-PST] 2.2.2.6 and 2.2.2.7.7). What the trees name is not looked at. NoMemory where
/// memory is refused.
#[tactic(auto, unfolding(crate::specs::Trees::listed_nodes))]
pub fn read_nodes<'a>(alloc: Global, image: Image<'a>) -> Result<NodeTree<'a>, Fault>
    ensures exact { ListsNodes result (listed_nodes (bytes_of image.entry)) }
{
    let header = read_header(image)?;
    nodes_under(alloc, image, &header)
}
