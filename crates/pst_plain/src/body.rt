//! The bodies of encoded blocks.

ghost use Rattle.std.specs.Prelude.{◌≡◌, ◌+◌, ◌≤◌, [], ◌∷◌, length, bit_xor};
ghost use Rattle.std.specs.List.{All, filter};
ghost use Rattle.pst_bytes.specs.Image.{bytes_at, IsInside};
ghost use Rattle.pst_crc.specs.Crc.{crc};
ghost use Rattle.pst_encoding.specs.Codec.{codec_method};
ghost use Rattle.pst_encoding.specs.Method.{decoded};
ghost use Rattle.pst_block.specs.Block.{body_span as span_of};
ghost use Rattle.pst_plain.specs.Blocks.{has_data, EndsBy};
ghost use Rattle.pst_plain.specs.Written.{written};
ghost use Rattle.pst_plain.specs.Laws.{xor_each};
ghost use Rattle.pst_plain.specs.Twin.{with_body, data_decoded};

use crate::blocks::is_data;
use crate::write::carry;
use pst_block::{BlockEntry, block_size};
use pst_bytes::Span;
use pst_encoding::Codec;

// Where the body of a block lies.
fn body_span(entry: BlockEntry) -> Span
    ensures { result ≡ span_of entry }
{
    Span {
        at: entry.ib,
        len: u64::from(entry.cb),
    }
}

// How many bytes a block's cb can say that its body has, at most.
const ROOM: usize = 65_535;

// Each byte becomes itself exclusive or the other's.
fn xor_bytes(bytes: &mut [u8], others: &[u8])
    requires { length bytes.old ≡ length others.now }
    ensures { bytes.new ≡ xor_each bytes.old others.now }
{
    for i in 0..others.len() {
        bytes[i] ^= others[i];
    }
}

// Decodes the body of the block with an identifier, and tells what its check value before is exclusive or the one after. In
// as much room the bytes before are kept and made what differs: the check value of that is both, in one sum.
fn decode_body(codec: &Codec, bid: u64, body: &mut [u8], room: &mut [u8]) -> u32
    requires { length room.old ≡ length body.old }
    ensures body { body.new ≡ decoded (codec_method codec.now) bid body.old }
    ensures change { result ≡ bit_xor (crc body.old) (crc body.new) }
    ensures room { length room.new ≡ length room.old }
{
    room.copy_from_slice(body);
    codec.decode(bid, body);
    xor_bytes(room, body);
    pst_crc::check(room)
}

// The same of the bytes of a span.
#[tactic(auto, unfolding(crate::specs::Written::written), using(crate::proofs::WriteLemmas::length_decoded))]
fn decode_span(codec: &Codec, bid: u64, file: &mut [u8], span: Span, room: &mut [u8]) -> u32
    requires inside { IsInside file.old span }
    requires room { span.len ≤ length room.old }
    ensures file { file.new ≡ written file.old span.at
        (decoded (codec_method codec.now) bid (bytes_at file.old span)) }
    ensures change { result ≡ bit_xor (crc (bytes_at file.old span))
        (crc (decoded (codec_method codec.now) bid (bytes_at file.old span))) }
    ensures room { length room.new ≡ length room.old }
{
    let at = span.at as usize;
    let len = span.len as usize;
    decode_body(codec, bid, &mut file[at..at + len], &mut room[..len])
}

// Decodes the body of a block, and carries the check value of its trailer over.
fn decode_block(codec: &Codec, entry: BlockEntry, file: &mut [u8], room: &mut [u8])
    requires inside { EndsBy (length file.old) entry }
    requires room { length room.old ≡ ROOM }
    ensures file { file.new ≡
        with_body (decoded (codec_method codec.now) entry.bid) entry file.old }
    ensures room { length room.new ≡ length room.old }
{
    let span = body_span(entry);
    let change = decode_span(codec, entry.bid, file, span, room);
    carry(file, entry.ib + block_size(entry.cb) - 12, change);
}

// The same, if it is a data block. Tells how many blocks were decoded.
#[tactic(auto, unfolding(crate::specs::Twin::all_decoded))]
fn decode_if_data(codec: &Codec, entry: BlockEntry, file: &mut [u8], room: &mut [u8]) -> u64
    requires inside { EndsBy (length file.old) entry }
    requires room { length room.old ≡ ROOM }
    ensures file { file.new ≡
        data_decoded (codec_method codec.now) (entry ∷ []) file.old }
    ensures count { result ≡ length (filter has_data (entry ∷ [])) }
    ensures room { length room.new ≡ length room.old }
{
    if is_data(entry.bid) {
        decode_block(codec, entry, file, room);
        1
    } else {
        0
    }
}

/// Decodes the bodies of the data blocks among some ([MS-PST] 5.1, 5.2), one after another, and carries the check values of
/// their trailers over. Each block has to end within the file. Tells how many were decoded.
pub fn decode_data(codec: &Codec, entries: &[BlockEntry], file: &mut [u8]) -> u64
    requires inside { All (EndsBy (length file.old)) entries.now }
    ensures file { file.new ≡ data_decoded (codec_method codec.now) entries.now file.old }
    ensures count { result ≡ length (filter has_data entries.now) }
{
    let mut room = [0; ROOM];
    let mut blocks = 0;
    for entry in entries {
        blocks += decode_if_data(codec, *entry, file, &mut room);
    }
    blocks
}
