//! Allocation maps and page maps ([MS-PST] 2.2.2.7.2, 2.2.2.7.3). An allocation map has a bit for each 64 bytes of
//! its region, the most significant bit of a byte first; a set bit says that they are in use.

ghost use Rattle.std.specs.Prelude.{◌+◌, ◌*◌, ◌≤◌, ◌<◌, length};
ghost use Rattle.std.specs.List.{All};
ghost use Rattle.pst_make.specs.Layout.{IsPageBelow, IsBlockBelow};

use crate::layout::{Bref, FIRST_MAP, PlacedBlock, REGION, amap_place, has_page_map};
use crate::number::put64;
use crate::seal::{block_size, seal_page};

// Marks the 64 bytes at a place as in use.
fn mark_unit(image: &mut [u8], at: u64)
    requires from { FIRST_MAP ≤ at }
    requires inside { at < length image.old }
{
    let inside = (at - FIRST_MAP) % REGION;
    let map = at - inside;
    let unit = inside / 64;
    image[(map + unit / 8) as usize] |= 0x80 >> (unit % 8);
}

// Marks a structure of so many bytes as in use.
fn mark(image: &mut [u8], at: u64, size: u64)
    requires from { FIRST_MAP ≤ at }
    requires inside { at + size ≤ length image.old }
{
    for unit in 0..size / 64 {
        mark_unit(image, at + 64 * unit);
    }
}

/// Marks pages as in use.
pub(crate) fn mark_pages(image: &mut [u8], pages: &[Bref])
    requires { All (IsPageBelow (length image.old)) pages.now }
{
    for page in pages {
        mark(image, page.ib, 512);
    }
}

/// Marks blocks as in use.
pub(crate) fn mark_blocks(image: &mut [u8], blocks: &[PlacedBlock])
    requires { All (IsBlockBelow (length image.old)) blocks.now }
{
    for block in blocks {
        mark(image, block.ib, block_size(block.body.len() as u16));
    }
}

// Writes the trailer of a map page, whose identifier is its own place, and seals the page.
fn end_page(image: &mut [u8], at: u64, page_type: u8)
    requires { at + 512 ≤ length image.old }
{
    let trailer = at as usize + 496;
    image[trailer] = page_type;
    image[trailer + 1] = page_type;
    put64(image, at + 504, at);
    seal_page(image, at);
}

/// Writes the maps of a region: the allocation map, in which all but the maps is marked already, and the page map
/// where there is one, of FF bytes.
pub(crate) fn write_maps(image: &mut [u8], region: u64)
    requires small { region < 16 }
    requires inside { FIRST_MAP + REGION * (region + 1) ≤ length image.old }
{
    let at = amap_place(region);
    mark(image, at, 512);
    if has_page_map(region) {
        let page_map = at + 512;
        mark(image, page_map, 512);
        let from = page_map as usize;
        image[from..from + 496].fill(0xff);
        end_page(image, page_map, 0x83);
    }
    end_page(image, at, 0x84);
}

/// How many bytes of a region its allocation map says are free.
pub(crate) fn free_bytes(image: &[u8], region: u64) -> u64
    requires small { region < 16 }
    requires inside { FIRST_MAP + REGION * (region + 1) ≤ length image.now }
    ensures { result ≤ REGION }
{
    let at = amap_place(region) as usize;
    let mut units = 0;
    for byte in &image[at..at + 496] {
        units += u64::from(byte.count_zeros());
    }
    64 * units
}
