//! What the check of a block is made of, and blocks that were gathered.

use super::*;
use crate::told::is;
use pst_btree::BlockList;

// Where the second block lies, or a block of its length at another place.
fn place_at<R: Abort>(rt: &R, bytes: &[u8], ib: u64) -> Result<Span, Fault> {
    let Ok(header) = read_header(Image::new(bytes)) else {
        rt.panic("no header");
    };
    block_place(&header, BlockEntry { ib, ..SECOND })
}

#[test]
fn a_block_has_a_place(rt: HostRuntime) {
    let bytes = small(&rt, rt.alloc());
    for ib in [0x4c40, 0x4400, 271_296] {
        is(&rt, place_at(&rt, &bytes, ib), Ok(Span { at: ib, len: 64 }));
    }
    for ib in [0x4c48, 0x43c0, 271_360] {
        let fault = fault_of(Kind::BlockPlace, BlockEntry { ib, ..SECOND });
        is(&rt, place_at(&rt, &bytes, ib), Err(fault));
    }
}

// The fault of a block's trailer, and the count of sums then, which was 3.
fn summed<R: Abort>(rt: &R, bytes: &[u8], entry: BlockEntry) -> (Option<Fault>, u64) {
    let image = Image::new(bytes);
    let size = block_size(entry.cb);
    if image.len() < size || entry.ib > image.len() - size {
        rt.panic("no block");
    }
    let mut sums = 3;
    let fault = check_trailer(image, entry, &mut sums).err();
    (fault, sums)
}

// A block is summed, and counted, whatever the answer is.
#[test]
fn a_block_is_summed_and_counted(rt: HostRuntime) {
    let bytes = small(&rt, rt.alloc());
    let other = BlockEntry { bid: 12, ..SECOND };
    is(&rt, summed(&rt, &bytes, SECOND), (None, 4));
    let fault = fault_of(Kind::BlockTrailer, other);
    is(&rt, summed(&rt, &bytes, other), (Some(fault), 4));
    let bytes = changed(&rt, rt.alloc(), &[Change::Flip(0x4c40)]);
    let fault = fault_of(Kind::BlockTrailer, SECOND);
    is(&rt, summed(&rt, &bytes, SECOND), (Some(fault), 4));
}

// Blocks of no entries.
#[tactic(auto, unfolding(pst_block::specs::Walk::blocks_fault))]
fn no_blocks<'a>(image: &'a [u8]) -> Blocks<'a> {
    Blocks::known(Image::new(image), 0, BlockList::of(&[]))
}

#[test]
fn no_blocks_were_gathered(rt: HostRuntime) {
    let bytes = small(&rt, rt.alloc());
    let blocks = no_blocks(&bytes);
    is(&rt, blocks.entry(4), None);
    is(&rt, blocks.body(4), None);
    is(&rt, blocks.image().len(), 271_360);
}
