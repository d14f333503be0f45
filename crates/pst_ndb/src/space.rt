//! The space that a file uses: the pages of both B-trees and the blocks, and the allocation maps.

ghost use Rattle.std.specs.Prelude.{◌≡◌, length, None, IfOk, IfErr, OnOk};
ghost use Rattle.pst_bytes.specs.Image.{bytes_of};
ghost use Rattle.pst_fault.specs.First.{IsFirst};
ghost use Rattle.pst_header.specs.Head.{Head};
ghost use Rattle.pst_space.specs.Claimed.{unit_total, with_spans};
ghost use Rattle.pst_space.specs.Step.{GivesStep};
ghost use Rattle.pst_btree.specs.Trees.{node_entries};
ghost use Rattle.pst_block.specs.Blocks.{table_of, image_of};
ghost use Rattle.pst_amap.specs.Report.{IsReport};
ghost use Rattle.pst_ndb.specs.Entries.{page_total, block_list, node_list, block_table};
ghost use Rattle.pst_ndb.specs.Marks.{MapsMark};
ghost use Rattle.pst_ndb.specs.Space.{space_walk, space_spans, space_claimed, space_fault};

use crate::trees::walk_trees;
use pst_amap::{MapReport, compare};
use pst_block::{Blocks, sum_blocks};
use pst_btree::NodeTree;
use pst_bytes::Image;
use pst_fault::Fault;
use pst_header::Header;
use pst_space::Claims;
use std::alloc::Global;

/// What the walks of a file's space find.
#[derive(Clone, Copy)]
pub(crate) struct Space<'a> {
    /// The blocks.
    pub(crate) blocks: Blocks<'a>,
    /// The node B-tree.
    pub(crate) nodes: NodeTree<'a>,
    /// How many pages both B-trees have.
    pub(crate) pages: u64,
    /// How many blocks were check-summed.
    pub(crate) sums: u64,
}

/// Walks both B-trees and checks all blocks, and claims their space.
#[tactic(auto, unfolding(crate::specs::Space::space_walk))]
pub(crate) fn check_space<'a>(
    alloc: Global,
    image: Image<'a>,
    header: &Header,
    claims: &mut Claims,
) -> Result<Space<'a>, Fault>
    requires head { Head (bytes_of image) header.now }
    requires units { length claims.old ≡ unit_total header.now }
    ensures same_units { length claims.new ≡ length claims.old }
    ensures exact { GivesStep result claims.new claims.new
        (space_walk (bytes_of image.entry) header.now claims.old) }
    ensures image { IfOk result (λ s. image_of s.blocks ≡ image.entry) }
    ensures table { IfOk result (λ s.
        table_of s.blocks ≡ block_table (bytes_of image.entry) header.now) }
    ensures nodes { IfOk result (λ s.
        node_entries s.nodes ≡ node_list (bytes_of image.entry) header.now) }
    ensures claims { OnOk result (claims.new ≡
        with_spans claims.old (space_spans (bytes_of image.entry) header.now)) }
    ensures pages { IfOk result (λ s. s.pages ≡ page_total (bytes_of image.entry) header.now) }
    ensures sums { IfOk result (λ s.
        s.sums ≡ length (block_list (bytes_of image.entry) header.now)) }
{
    let trees = walk_trees(alloc, image, header, claims)?;
    let (blocks, sums) = sum_blocks(trees.blocks, header, &trees.entries, claims)?;
    Ok(Space {
        blocks,
        nodes: trees.nodes,
        pages: trees.pages,
        sums,
    })
}

/// Checks the space of a file, and compares it with the allocation maps.
#[tactic(auto, unfolding(crate::specs::Space::space_fault), using(pst_header::proofs::Head::head_mapped))]
pub(crate) fn check_maps<'a>(
    alloc: Global,
    image: Image<'a>,
    header: &Header,
) -> Result<(Space<'a>, MapReport), Fault>
    requires { Head (bytes_of image) header.now }
    ensures exact { IfErr result (IsFirst (space_fault (bytes_of image.entry) header.now)) }
    ensures none { OnOk result (space_fault (bytes_of image.entry) header.now ≡ None) }
    ensures report { IfOk result (λ x. IsReport (bytes_of image.entry) header.now
        (space_claimed (bytes_of image.entry) header.now) x.1) }
    ensures marks { IfOk result (λ x. MapsMark (bytes_of image.entry) header.now x.1) }
    ensures image { IfOk result (λ x. image_of x.0.blocks ≡ image.entry) }
    ensures table { IfOk result (λ x.
        table_of x.0.blocks ≡ block_table (bytes_of image.entry) header.now) }
    ensures nodes { IfOk result (λ x.
        node_entries x.0.nodes ≡ node_list (bytes_of image.entry) header.now) }
    ensures pages { IfOk result (λ x. x.0.pages ≡ page_total (bytes_of image.entry) header.now) }
    ensures sums { IfOk result (λ x.
        x.0.sums ≡ length (block_list (bytes_of image.entry) header.now)) }
{
    let mut claims = Claims::new(alloc, header)?;
    let space = check_space(alloc, image, header, &mut claims)?;
    let report = compare(alloc, image, header, &mut claims)?;
    Ok((space, report))
}
