//! Encoding the data blocks of a store ([MS-PST] 2.2.2.6, bCryptMethod; 5.1 and 5.2).

ghost use Rattle.std.specs.Prelude.{◌≡◌, ◌+◌, ◌≤◌, [], ◌∷◌, length, map, IfErr, OnOk, OnErr};
ghost use Rattle.std.specs.List.{All, filter};
ghost use Rattle.pst_bytes.specs.Image.{bytes_at};
ghost use Rattle.pst_encoding.specs.Codec.{codec_method};
ghost use Rattle.pst_encoding.specs.Method.{encoded};
ghost use Rattle.pst_make.specs.Elsewhere.{overwritten};
ghost use Rattle.pst_make.specs.Encoded.{AreEncoded, IsEncoded, IsEncodedBlock, IsEncodedHeader, place_of_body, holds_data, names_data as has_data_bid};
ghost use Rattle.pst_make.specs.Layout.{IsBlockBelow, place_of_block, plan_end, store_length};
ghost use Rattle.pst_make.specs.Made.{IsMakeFault};
ghost use Rattle.pst_make.specs.Sealed.{sealed_size};

use crate::layout::{BlockPlace, Layout, PlacedBlock};
use crate::number::put8;
use crate::plan::{MakeFault, Plan};
use crate::seal::{seal_block, seal_header};
use crate::store::has_long_body;
use pst_encoding::{Codec, Method};
use std::alloc::Global;

// Whether a block is a data block, by its identifier.
fn is_data(bid: u64) -> bool
    ensures { result ≡ has_data_bid bid }
{
    bid / 2 % 2 == 0
}

// Encodes the body of a block, and leaves the block unsealed.
#[tactic(auto, unfolding(crate::specs::Elsewhere::overwritten), using(crate::proofs::EncodeLemmas::length_encoded))]
fn encode_body(image: &mut [u8], codec: &Codec, block: BlockPlace)
    requires { block.ib + block.cb ≤ length image.old }
    ensures { image.new ≡ overwritten image.old block.ib
        (encoded (codec_method codec.now) block.bid (bytes_at image.old (place_of_body block))) }
{
    let at = block.ib as usize;
    let end = at + usize::from(block.cb);
    codec.encode(block.bid, &mut image[at..end]);
}

/// Encodes the body of a block for its identifier, whatever that is, and seals the block.
pub fn encode_block(image: &mut [u8], codec: &Codec, block: BlockPlace)
    requires { block.ib + sealed_size block.cb ≤ length image.old }
    ensures { IsEncodedBlock (codec_method codec.now) block image.old image.new }
{
    encode_body(image, codec, block);
    seal_block(image, block.ib, block.cb);
}

// The same of a data block alone: of no other is the body encoded.
#[tactic(auto, unfolding(crate::specs::Encoded::AreEncoded))]
fn encode_data(image: &mut [u8], codec: &Codec, block: BlockPlace)
    requires { block.ib + sealed_size block.cb ≤ length image.old }
    ensures { AreEncoded (codec_method codec.now) (filter holds_data (block ∷ []))
        image.old image.new }
{
    if is_data(block.bid) {
        encode_block(image, codec, block);
    }
}

// Encodes the data blocks among these, in their order.
fn encode_blocks(image: &mut [u8], codec: &Codec, blocks: &[PlacedBlock])
    requires { All (IsBlockBelow (length image.old)) blocks.now }
    ensures same { length image.new ≡ length image.old }
    ensures done { let places = filter holds_data (map place_of_block blocks.now) in
        AreEncoded (codec_method codec.now) places image.old image.new }
{
    for block in blocks {
        encode_data(image, codec, block.place());
    }
}

// Says in the header by which method its blocks are encoded, and seals it.
fn encode_header(image: &mut [u8], method: Method)
    requires { 564 ≤ length image.old }
    ensures { IsEncodedHeader method image.old image.new }
{
    put8(image, 513, method.number());
    seal_header(image);
}

/// Encodes a store of this plan by a method: the body of each data block, whose identifier has its bit 1 clear, once. Each
/// block and the header are sealed. It wants as many bytes as `build` makes of the plan, and looks at no tree: the blocks
/// lie where `build` lays them.
///
/// Answers as `build` where there is no such store, and nothing is changed then.
pub fn encode(alloc: Global, image: &mut [u8], plan: &Plan, method: Method) -> Result<(), MakeFault>
    requires { store_length (plan_end plan.now) ≤ length image.old }
    ensures done { OnOk result (IsEncoded method plan.now image.old image.new) }
    ensures fault { IfErr result (IsMakeFault plan.now) }
    ensures same { OnErr result (image.new ≡ image.old) }
{
    if has_long_body(&plan.blocks) {
        return Err(MakeFault::Body);
    }
    let layout = Layout::of(alloc, plan)?;
    let codec = Codec::new(alloc, method, 0)?;
    encode_blocks(image, &codec, &layout.blocks);
    encode_header(image, method);
    Ok(())
}
