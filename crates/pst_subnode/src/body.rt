//! The bodies of SLBLOCKs and SIBLOCKs ([MS-PST] 2.2.2.8.3.3).

ghost use Rattle.std.specs.Prelude.{◌≡◌, ◌+◌, ◌*◌, ◌≤◌, length};
ghost use Rattle.pst_bytes.specs.Image.{bytes_of};
ghost use Rattle.pst_block.specs.Table.{body_of, IsWithin};
ghost use Rattle.pst_block.specs.Blocks.{table_of};
ghost use Rattle.pst_subnode.specs.Body.{sub_in, leaf_bid_in, has_level_one as level_one};

use crate::sub::Sub;
use pst_block::{BlockEntry, Blocks};
use pst_bytes::Image;
use pst_page::PageKind;

// The body of a block, as bytes to read numbers of.
pub(crate) fn body_in<'a>(blocks: &Blocks<'a>, entry: BlockEntry) -> Image<'a>
    requires { IsWithin (table_of blocks.now).image entry }
    ensures { bytes_of result ≡ body_of (table_of blocks.now) entry }
{
    Image::new(blocks.body_at(entry))
}

// Whether the level of a block is 1, an SIBLOCK's.
#[tactic(auto, unfolding(crate::specs::Body::has_level_one))]
pub(crate) fn has_level_one(body: Image) -> bool
    ensures { result ≡ level_one (bytes_of body.entry) }
{
    body.len() >= 2 && body.number8(1) == 1
}

// The SLENTRY with a number.
#[tactic(auto, unfolding(crate::specs::Body::sub_in, pst_page::specs::Entry::key_of))]
pub(crate) fn sub_at(body: Image, i: u16) -> Sub
    requires { 32 + 24 * i ≤ length (bytes_of body) }
    ensures { result ≡ sub_in (bytes_of body.entry) i }
{
    let at = 8 + 24 * u64::from(i);
    Sub {
        nid: PageKind::Nbt.key_of(body.number64(at)) as u32,
        bid_data: body.number64(at + 8),
        bid_sub: body.number64(at + 16),
    }
}

// The identifier of the subnode of the SLENTRY with a number.
#[tactic(auto, unfolding(crate::specs::Body::sub_in, pst_page::specs::Entry::key_of))]
pub(crate) fn nid_at(body: Image, i: u16) -> u32
    requires { 32 + 24 * i ≤ length (bytes_of body) }
    ensures { result ≡ (sub_in (bytes_of body.entry) i).nid }
{
    PageKind::Nbt.key_of(body.number64(8 + 24 * u64::from(i))) as u32
}

// The block identifier of the SIENTRY with a number.
pub(crate) fn bid_at(body: Image, i: u16) -> u64
    requires { 24 + 16 * i ≤ length (bytes_of body) }
    ensures { result ≡ leaf_bid_in (bytes_of body.entry) i }
{
    body.number64(16 + 16 * u64::from(i))
}
