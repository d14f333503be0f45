//! Which blocks of a file are encoded.

ghost use Rattle.std.specs.Prelude.{◌≡◌, ◌≢◌, ◌+◌, ◌%◌, ◌≤◌, [], ◌∷◌, ◌++◌, length, Some, None, IfOk, IfSome, OnOk, OnSome};
ghost use Rattle.std.specs.Bool.{OnTrue, OnFalse};
ghost use Rattle.std.specs.List.{All, filter};
ghost use Rattle.pst_bytes.specs.Image.{bytes_of};
ghost use Rattle.pst_fault.specs.Fault.{no_memory};
ghost use Rattle.pst_header.specs.Head.{Head};
ghost use Rattle.pst_header.specs.Header.{end_of};
ghost use Rattle.pst_header.specs.declared.header.TheConstants.{FIRST_AMAP, UNIT};
ghost use Rattle.pst_space.specs.Claimed.{IsUnits, unit_total};
ghost use Rattle.pst_space.specs.Step.{GivesStepBy};
ghost use Rattle.pst_block.specs.Block.{block_span, block_size as size_of};
ghost use Rattle.pst_plain.specs.Blocks.{is_data as has_data_bid, has_data, block_place as place_in, claimed_with, placed_data as data_placed, Listed, trees_listed, data_under, data_blocks as blocks_in, EndsBy};

use pst_block::{BlockEntry, block_size};
use pst_btree::{walk_blocks, walk_node_tree};
use pst_bytes::{Image, Span};
use pst_fault::{Fault, Kind};
use pst_header::{Header, read_header};
use pst_space::Claims;
use std::alloc::{AllocError, Global};

// How many bytes a body has at most.
const MOST: u16 = 8176;

/// Whether an identifier is that of a data block ([MS-PST] 2.2.2.2).
pub(crate) fn is_data(bid: u64) -> bool
    ensures { result ≡ has_data_bid bid }
{
    bid / 2 % 2 == 0
}

// The bytes of a block, where one may lie there.
#[tactic(auto, unfolding(crate::specs::Blocks::block_place, pst_header::specs::Place::is_place))]
fn block_place(header: &Header, entry: BlockEntry) -> Option<Span>
    ensures value { result ≡ place_in (end_of header.now) entry }
    ensures span { IfSome result (λ s. s ≡ block_span entry) }
    ensures whole_units { OnSome result (entry.ib % UNIT ≡ 0) }
    ensures mapped { OnSome result (FIRST_AMAP ≤ entry.ib) }
    ensures inside { OnSome result (entry.ib + size_of entry.cb ≤ end_of header.now) }
{
    let span = Span {
        at: entry.ib,
        len: block_size(entry.cb),
    };
    if entry.cb <= MOST && header.has_place(span) {
        Some(span)
    } else {
        None
    }
}

// Claims a block that lies where one may, and on nothing that is claimed; else nothing is claimed.
#[tactic(auto, unfolding(crate::specs::Blocks::claimed_with), using(pst_block::proofs::BlockLemmas::size_large, pst_block::proofs::BlockLemmas::size_whole))]
fn claim_block(header: &Header, entry: BlockEntry, claims: &mut Claims) -> bool
    requires units { length claims.old ≡ unit_total header.now }
    ensures same { length claims.new ≡ length claims.old }
    ensures made { OnTrue result
        (claimed_with (end_of header.now) claims.old entry ≡ Some claims.new) }
    ensures inside { OnTrue result (EndsBy (end_of header.now) entry) }
    ensures refused { OnFalse result
        (claimed_with (end_of header.now) claims.old entry ≡ None) }
{
    match block_place(header, entry) {
        Some(span) => claims.claim(span).is_ok(),
        None => false,
    }
}

// Adds a block to others, if it is a data block.
fn add_data(found: &mut Vec<BlockEntry>, entry: BlockEntry) -> Result<(), AllocError>
    ensures { OnOk result (found.new.items ≡
        found.old.items ++ filter has_data (entry ∷ [])) }
{
    if is_data(entry.bid) {
        found.push(entry)?;
    }
    Ok(())
}

// The data blocks before the first that does not lie where a block may, or overlaps.
fn placed_data(
    alloc: Global,
    header: &Header,
    entries: &[BlockEntry],
    claims: &mut Claims,
) -> Result<Vec<BlockEntry>, AllocError>
    requires { length claims.old ≡ unit_total header.now }
    ensures blocks { IfOk result (λ v.
        v.items ≡ data_placed (end_of header.now) claims.old entries.now) }
    ensures inside { IfOk result (λ v. All (EndsBy (end_of header.now)) v.items) }
{
    let mut found = Vec::new(alloc);
    for entry in entries {
        if !claim_block(header, *entry, claims) {
            return Ok(found);
        }
        add_data(&mut found, *entry)?;
    }
    Ok(found)
}

// Walks both trees, claims their pages, and gives the entries of the block B-tree.
#[tactic(auto, unfolding(crate::specs::Blocks::trees_listed))]
fn walk_trees(
    alloc: Global,
    image: Image,
    header: &Header,
    claims: &mut Claims,
) -> Result<Vec<BlockEntry>, Fault>
    requires head { Head (bytes_of image) header.now }
    requires units { length claims.old ≡ unit_total header.now }
    ensures same { length claims.new ≡ length claims.old }
    ensures exact { GivesStepBy
        (λ v. record { claimed = claims.new; entries = v.items }) result claims.new
        (trees_listed (bytes_of image.entry) header.now claims.old) }
{
    let (_, entries) = walk_blocks(alloc, image, header, claims)?;
    let _nodes = walk_node_tree(alloc, image, header, claims)?;
    Ok(entries)
}

// No blocks, unless the fault is that memory was refused.
fn none_at(alloc: Global, fault: Fault) -> Result<Vec<BlockEntry>, AllocError>
    ensures none { IfOk result (λ v. v.items ≡ []) }
    ensures of_the_file { IfOk result (λ _. fault ≢ no_memory) }
{
    if fault.kind == Kind::NoMemory {
        return Err(AllocError);
    }
    Ok(Vec::new(alloc))
}

// The data blocks of a file with this header.
#[tactic(auto, unfolding(crate::specs::Blocks::data_under))]
fn blocks_under(alloc: Global, image: Image, header: &Header) -> Result<Vec<BlockEntry>, AllocError>
    requires { Head (bytes_of image) header.now }
    ensures blocks { IfOk result (λ v.
        v.items ≡ data_under (bytes_of image.entry) header.now) }
    ensures inside { IfOk result (λ v. All (EndsBy (end_of header.now)) v.items) }
{
    let mut claims = Claims::new(alloc, header)?;
    match walk_trees(alloc, image, header, &mut claims) {
        Ok(entries) => placed_data(alloc, header, &entries, &mut claims),
        Err(fault) => none_at(alloc, fault),
    }
}

/// The data blocks of a file in the order of their keys, up to the first block that does not lie where a block may or
/// overlaps; none where the header or one of the trees has a fault. AllocError where memory is refused.
#[tactic(auto, unfolding(crate::specs::Blocks::data_blocks))]
pub(crate) fn data_blocks(alloc: Global, file: &[u8]) -> Result<Vec<BlockEntry>, AllocError>
    ensures blocks { IfOk result (λ v. v.items ≡ blocks_in file.now) }
    ensures inside { IfOk result (λ v. All (EndsBy (length file.now)) v.items) }
{
    let image = Image::new(file);
    match read_header(image) {
        Ok(header) => blocks_under(alloc, image, &header),
        Err(_) => Ok(Vec::new(alloc)),
    }
}
