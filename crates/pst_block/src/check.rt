//! The check of all blocks of a file.

ghost use Rattle.std.specs.Prelude.{◌≡◌, ◌⊎◌, ◌+◌, ◌^◌, ◌<◌, ◌≤◌, length, Some, IfOk, OnOk, IsOk};
ghost use Rattle.pst_bytes.specs.Image.{bytes_of};
ghost use Rattle.pst_header.specs.Head.{Head};
ghost use Rattle.pst_header.specs.Header.{end_of};
ghost use Rattle.pst_btree.specs.Trees.{block_entries, file_of_blocks};
ghost use Rattle.pst_space.specs.Claimed.{Claimed, IsUnits, claim_all, unit_total};
ghost use Rattle.pst_space.specs.Step.{ClaimsSome, claim_step, EndsStep};
ghost use Rattle.pst_block.specs.Block.{block_span};
ghost use Rattle.pst_block.specs.Table.{table_with};
ghost use Rattle.pst_block.specs.Blocks.{table_of, image_of, blocks_end};
ghost use Rattle.pst_block.specs.Walk.{block_step, blocks_walk, block_spans, AreGood};

use crate::blocks::Blocks;
use crate::read::{block_place, check_trailer};
use crate::source::Source;
use pst_btree::BlockTree;
use pst_bytes::{Image, Span};
use pst_fault::{Fault, Kind};
use pst_header::Header;
use pst_page::BlockEntry;
use pst_space::Claims;

// Claims a block, and names it where it overlaps.
fn claim_block(claims: &mut Claims, span: Span, entry: BlockEntry) -> Result<(), Fault>
    requires place { span ≡ block_span entry }
    requires units { IsUnits claims.old (block_span entry) }
    ensures same { length claims.new ≡ length claims.old }
    ensures ends { EndsStep result claims.new (claim_step (block_span entry) entry.bid claims.old) }
{
    match claims.claim(span) {
        Ok(()) => Ok(()),
        Err(_) => Err(Fault::within(Kind::Overlap, entry.ib, entry.bid)),
    }
}

// One block: its place, its claim, its trailer.
#[tactic(auto, unfolding(crate::specs::Walk::block_step), using(pst_header::proofs::Head::head_end, crate::proofs::BlockLemmas::size_large, crate::proofs::BlockLemmas::size_whole))]
fn check_block(
    image: Image,
    header: &Header,
    entry: BlockEntry,
    claims: &mut Claims,
    sums: &mut u64,
) -> Result<(), Fault>
    requires head { Head (bytes_of image) header.now }
    requires units { length claims.old ≡ unit_total header.now }
    requires room { sums.old + 1 < 2 ^ 64 }
    ensures same { length claims.new ≡ length claims.old }
    ensures ends { EndsStep result claims.new
        (block_step (end_of header.now) (bytes_of image.entry) claims.old entry) }
    ensures counted { OnOk result (sums.new ≡ sums.old + 1) }
{
    let span = block_place(header, entry)?;
    claim_block(claims, span, entry)?;
    check_trailer(image, entry, sums)
}

// All blocks, one after another: how many were summed.
fn check_each(
    image: Image,
    header: &Header,
    entries: &[BlockEntry],
    claims: &mut Claims,
) -> Result<u64, Fault>
    requires head { Head (bytes_of image) header.now }
    requires units { length claims.old ≡ unit_total header.now }
    ensures same { length claims.new ≡ length claims.old }
    ensures ends { EndsStep result claims.new
        (blocks_walk (end_of header.now) (bytes_of image.entry) claims.old entries.now) }
    ensures counted { IfOk result (λ sums. sums ≡ length entries.now) }
{
    let mut sums = 0;
    for entry in entries {
        check_block(image, header, *entry, claims, &mut sums)?;
    }
    Ok(sums)
}

/// The blocks of a file, as `check_blocks` says, and how many were check-summed: each once.
#[tactic(auto, using(pst_header::proofs::Head::head_end, crate::proofs::WalkLaws::walked_no_fault), unfolding(crate::specs::Source::file_in, crate::specs::Source::entries_in))]
pub fn sum_blocks<'a>(
    tree: BlockTree<'a>,
    header: &Header,
    entries: &[BlockEntry],
    claims: &mut Claims,
) -> Result<(Blocks<'a>, u64), Fault>
    requires head { Head (bytes_of (file_of_blocks tree)) header.now }
    requires units { length claims.old ≡ unit_total header.now }
    requires entries { entries.now ≡ block_entries tree }
    ensures same_units { length claims.new ≡ length claims.old }

    // Whether all are good and apart, and what is claimed; or which fault it is, and what is claimed by then.
    ensures exact { EndsStep result claims.new (blocks_walk (end_of header.now)
        (bytes_of (file_of_blocks tree.entry)) claims.old (block_entries tree.entry)) }

    // Then they are claimed, and so many were summed.
    ensures claims { OnOk result (claim_all claims.old (block_spans (block_entries tree.entry)) ≡
        Some claims.new) }
    ensures sums { IfOk result (λ x. x.1 ≡ length (block_entries tree.entry)) }

    // Which blocks they are.
    ensures image { IfOk result (λ x. image_of x.0 ≡ file_of_blocks tree.entry) }
    ensures table { IfOk result (λ x.
        table_of x.0 ≡ table_with (bytes_of (file_of_blocks tree.entry))
        (block_entries tree.entry)) }
    ensures end { IfOk result (λ x. blocks_end x.0 ≡ end_of header.now) }
{
    let image = tree.image();
    let sums = check_each(image, header, entries, claims)?;
    let end = header.end();
    let source = Source::Tree(tree);
    Ok((Blocks { source, end }, sums))
}

/// The blocks of a tree's file, whose header is this one, all checked. The entries are the tree's, from left to right, as
/// `walk_blocks` answered them; the claims are of the same file, and hold all pages. Block by
/// block, the first fault is told where the block lies, with the identifier of its entry: BlockPlace, as `read_block` says;
/// Overlap, where the block has a byte in common with what is claimed; BlockTrailer. Each block is check-summed once, and
/// no memory is taken.
///
/// After a fault the blocks that came before it are claimed, too.
pub fn check_blocks<'a>(
    tree: BlockTree<'a>,
    header: &Header,
    entries: &[BlockEntry],
    claims: &mut Claims,
) -> Result<Blocks<'a>, Fault>
    requires head { Head (bytes_of (file_of_blocks tree)) header.now }
    requires units { length claims.old ≡ unit_total header.now }
    requires entries { entries.now ≡ block_entries tree }
    ensures same_units { length claims.new ≡ length claims.old }

    // Whether all are good and apart, and what is claimed; or which fault it is, and what is claimed by then.
    ensures exact { EndsStep result claims.new (blocks_walk (end_of header.now)
        (bytes_of (file_of_blocks tree.entry)) claims.old (block_entries tree.entry)) }

    // Then all blocks are good, and claimed.
    ensures found { OnOk result (AreGood (bytes_of (file_of_blocks tree.entry))
        (end_of header.now) (block_entries tree.entry)) }
    ensures claims { OnOk result (claim_all claims.old (block_spans (block_entries tree.entry)) ≡
        Some claims.new) }

    // Good blocks that can be claimed are answered.
    ensures only { (new : Claimed) →
        AreGood (bytes_of (file_of_blocks tree.entry)) (end_of header.now)
        (block_entries tree.entry) →
        claim_all claims.old (block_spans (block_entries tree.entry)) ≡ Some new → IsOk result }

    // Whatever the answer, the blocks from the first up to some one are claimed.
    ensures some { ClaimsSome claims.old claims.new (block_spans (block_entries tree.entry)) }

    // Which blocks they are.
    ensures image { IfOk result (λ b. image_of b ≡ file_of_blocks tree.entry) }
    ensures table { IfOk result (λ b.
        table_of b ≡ table_with (bytes_of (file_of_blocks tree.entry))
        (block_entries tree.entry)) }
    ensures end { IfOk result (λ b. blocks_end b ≡ end_of header.now) }
{
    let (blocks, _) = sum_blocks(tree, header, entries, claims)?;
    Ok(blocks)
}
