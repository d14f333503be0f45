//! The bodies of blocks that name others: XBLOCKs and XXBLOCKs ([MS-PST] 2.2.2.8.3.2), and the front that lists of subnodes have
//! likewise (2.2.2.8.3.3).

ghost use Rattle.std.specs.Prelude.{◌≡◌, ◌+◌, ◌*◌, ◌≤◌, IsTrue, length};
ghost use Rattle.pst_bytes.specs.Image.{bytes_of};
ghost use Rattle.pst_block.specs.Table.{body_of, IsWithin};
ghost use Rattle.pst_block.specs.Blocks.{table_of};
ghost use Rattle.pst_datatree.specs.List.{count_in, bid_in, is_list_body, is_block_list as block_list, has_level_two};

use pst_block::{BlockEntry, Blocks};
use pst_bytes::Image;

// The body of a block, as bytes to read numbers of.
pub(crate) fn body_in<'a>(blocks: &Blocks<'a>, entry: BlockEntry) -> Image<'a>
    requires { IsWithin (table_of blocks.now).image entry }
    ensures { bytes_of result ≡ body_of (table_of blocks.now) entry }
{
    Image::new(blocks.body_at(entry))
}

/// Whether a body is that of a list, of blocks or of subnodes, whose btype and cLevel are these, and its entries, each of so
/// many bytes, fit in it ([MS-PST] 2.2.2.8.3.2, 2.2.2.8.3.3).
pub fn has_entries(body: Image, btype: u8, level: u8, size: u8) -> bool
    ensures value { result ≡ is_list_body btype level size (bytes_of body.entry) }
    ensures fits { IsTrue result →
        8 + size * count_in (bytes_of body.entry) ≤ length (bytes_of body.entry) }
{
    body.len() >= 8
        && body.number8(0) == btype
        && body.number8(1) == level
        && 8 + u64::from(size) * u64::from(body.number16(2)) <= body.len()
}

// Whether a body is that of a list of blocks with this level, whose identifiers fit.
#[tactic(auto, unfolding(crate::specs::List::is_block_list))]
pub(crate) fn is_block_list(level: u8, body: Image) -> bool
    ensures value { result ≡ block_list level (bytes_of body.entry) }
    ensures fits { IsTrue result →
        8 + 8 * count_in (bytes_of body.entry) ≤ length (bytes_of body.entry) }
{
    has_entries(body, 1, level, 8)
}

// Whether the level of an internal block is 2, an XXBLOCK's.
#[tactic(auto, unfolding(crate::specs::List::has_level_two))]
pub(crate) fn is_xxblock(body: Image) -> bool
    ensures { result ≡ has_level_two (bytes_of body.entry) }
{
    body.len() >= 2 && body.number8(1) == 2
}

// The block identifier with a number.
pub(crate) fn bid_at(body: Image, i: u16) -> u64
    requires { 16 + 8 * i ≤ length (bytes_of body) }
    ensures { result ≡ bid_in (bytes_of body.entry) i }
{
    body.number64(8 + 8 * u64::from(i))
}
