//! The pages of the two B-trees, the allocation maps and the header ([MS-PST] 2.2.2.6 and 2.2.2.7).

use crate::image::{FIRST_MAP, Image, PAGE_BODY, REGION, put_over};
use std::alloc::{AllocError, Global};

// The types of pages.
const BLOCK_TREE: u8 = 0x80;

const NODE_TREE: u8 = 0x81;

const PAGE_MAP: u8 = 0x83;

const ALLOCATION_MAP: u8 = 0x84;

// How many bytes the entries of a page of a B-tree have, and those of one that is no leaf.
const ENTRIES: usize = 488;

const ABOVE: usize = 24;

// The most levels that a B-tree has.
const LEVELS: u8 = 16;

// Where a page stands, and its identifier.
#[derive(Clone, Copy)]
struct Page {
    bid: u64,
    place: u64,
}

// What stands of a page: its body, and its trailer (2.2.2.7.1).
fn sealed(
    alloc: Global,
    kind: u8,
    body: &[u8],
    signature: u16,
    bid: u64,
) -> Result<Vec<u8>, AllocError> {
    let mut page = Vec::with_capacity(alloc, 512)?;
    page.extend_from_slice(body)?;
    page.extend_from_slice(&[kind, kind])?;
    page.extend_from_slice(&signature.to_le_bytes())?;
    page.extend_from_slice(&pst_crc::check(body).to_le_bytes())?;
    page.extend_from_slice(&bid.to_le_bytes())?;
    Ok(page)
}

// One page of a B-tree (2.2.2.7.7.1) with these entries.
fn tree_page(
    image: &mut Image,
    kind: u8,
    level: u8,
    width: usize,
    entries: &[u8],
) -> Result<Page, AllocError> {
    let place = image.place(512, 512)?;
    let bid = image.next_page;
    image.next_page = image.next_page.saturating_add(4);
    let count = entries.len().checked_div(width).unwrap_or(0);
    let most = ENTRIES.checked_div(width).unwrap_or(0);
    let mut body = Vec::with_capacity(image.alloc, PAGE_BODY)?;
    body.extend_from_slice(entries)?;
    for _ in entries.len()..ENTRIES {
        body.push(0)?;
    }
    for byte in [count, most, width] {
        body.push(u8::try_from(byte).unwrap_or(0))?;
    }
    body.extend_from_slice(&[level, 0, 0, 0, 0])?;
    let page = sealed(
        image.alloc,
        kind,
        &body,
        pst_crc::signature(place, bid),
        bid,
    )?;
    image.bytes.extend_from_slice(&page)?;
    Ok(Page { bid, place })
}

// The pages of one level, over entries of this width; gives the entries of the level above.
fn level_of(
    image: &mut Image,
    kind: u8,
    level: u8,
    width: usize,
    entries: &[u8],
) -> Result<Vec<u8>, AllocError> {
    let most = ENTRIES
        .checked_div(width)
        .unwrap_or(1)
        .saturating_mul(width)
        .max(1);
    let mut above = Vec::new(image.alloc);
    for some in entries.chunks(most) {
        let page = tree_page(image, kind, level, width, some)?;
        above.extend_from_slice(some.get(..8).unwrap_or(&[]))?;
        above.extend_from_slice(&page.bid.to_le_bytes())?;
        above.extend_from_slice(&page.place.to_le_bytes())?;
    }
    Ok(above)
}

// Writes a B-tree over the entries of its leaves; gives the reference to its root, 16 bytes.
fn tree(image: &mut Image, kind: u8, width: usize, leaves: Vec<u8>) -> Result<Vec<u8>, AllocError> {
    let mut entries = level_of(image, kind, 0, width, &leaves)?;
    for level in 1..LEVELS {
        if entries.len() <= ABOVE {
            break;
        }
        entries = level_of(image, kind, level, ABOVE, &entries)?;
    }
    Vec::from_slice(image.alloc, entries.get(8..24).unwrap_or(&[]))
}

// The entries of the node B-tree (2.2.2.7.7.4), in order of their identifiers.
fn node_entries(image: &mut Image) -> Result<Vec<u8>, AllocError> {
    image.nodes.sort()?;
    let mut entries = Vec::with_capacity(image.alloc, image.nodes.len().saturating_mul(32))?;
    for (nid, data, sub, parent) in &image.nodes {
        for number in [*nid, *data, *sub, *parent] {
            entries.extend_from_slice(&number.to_le_bytes())?;
        }
    }
    Ok(entries)
}

// Writes a page over the zero bytes that were left for it.
fn put_page(image: &mut Image, place: u64, page: &[u8]) {
    put_over(&mut image.bytes, place as usize, page);
}

// The allocation map of a region (2.2.2.7.2).
fn map_of(image: &Image, region: u64, place: u64) -> Result<Vec<u8>, AllocError> {
    let first = (region as usize).saturating_mul(PAGE_BODY);
    match image.marks.get(first..first.saturating_add(PAGE_BODY)) {
        Some(marks) => sealed(image.alloc, ALLOCATION_MAP, marks, 0, place),
        None => Ok(Vec::new(image.alloc)),
    }
}

// Writes the allocation map of a region, and behind every eighth a page map that says nothing (2.2.2.7.3).
fn put_maps(image: &mut Image, region: u64) -> Result<(), AllocError> {
    let place = FIRST_MAP.saturating_add(region.saturating_mul(REGION));
    let map = map_of(image, region, place)?;
    put_page(image, place, &map);
    if region % 8 == 0 {
        let place = place.saturating_add(512);
        let map = sealed(image.alloc, PAGE_MAP, &[0xff; PAGE_BODY], 0, place)?;
        put_page(image, place, &map);
    }
    Ok(())
}

// How many bytes the maps say are free.
fn free_bytes(image: &Image) -> u64 {
    let mut free = 0_u64;
    for byte in &image.marks {
        free = free.saturating_add(u64::from(byte.count_zeros()).saturating_mul(64));
    }
    free
}

fn zeros_to(bytes: &mut Vec<u8>, length: usize) -> Result<(), AllocError> {
    for _ in bytes.len()..length {
        bytes.push(0)?;
    }
    Ok(())
}

// The bytes of the header from the eighth to its second check value.
fn header_body(
    image: &Image,
    nodes: &[u8],
    blocks: &[u8],
    method: u8,
) -> Result<Vec<u8>, AllocError> {
    let mut body = Vec::with_capacity(image.alloc, 516)?;
    body.extend_from_slice(b"SM")?;
    body.extend_from_slice(&[23, 0, 19, 0, 1, 1])?;
    zeros_to(&mut body, 24)?;
    body.extend_from_slice(&image.next_page.to_le_bytes())?;
    zeros_to(&mut body, 176)?;
    let last = FIRST_MAP.saturating_add(image.regions.saturating_sub(1).saturating_mul(REGION));
    for number in [image.regions_end(), last, free_bytes(image), 0] {
        body.extend_from_slice(&number.to_le_bytes())?;
    }
    body.extend_from_slice(nodes)?;
    body.extend_from_slice(blocks)?;
    body.push(2)?;
    zeros_to(&mut body, 248)?;
    body.extend_from_slice(&[0xff; 256])?;
    body.extend_from_slice(&[0x80, method])?;
    zeros_to(&mut body, 508)?;
    body.extend_from_slice(&image.next_block.to_le_bytes())?;
    Ok(body)
}

/// Writes the two B-trees, the maps and the header; gives the bytes of the store. `method` is the encoding that its data has.
pub(crate) fn finished(mut image: Image, method: u8) -> Result<Vec<u8>, AllocError> {
    let entries = node_entries(&mut image)?;
    let nodes = tree(&mut image, NODE_TREE, 32, entries)?;
    let entries = Vec::from_slice(image.alloc, &image.blocks)?;
    let blocks = tree(&mut image, BLOCK_TREE, 24, entries)?;
    image.fill()?;
    for region in 0..image.regions {
        put_maps(&mut image, region)?;
    }
    let body = header_body(&image, &nodes, &blocks, method)?;
    let partial = pst_crc::check(body.get(..471).unwrap_or(&[]));
    let mut header = Vec::with_capacity(image.alloc, 564)?;
    header.extend_from_slice(b"!BDN")?;
    header.extend_from_slice(&partial.to_le_bytes())?;
    header.extend_from_slice(&body)?;
    header.extend_from_slice(&pst_crc::check(&body).to_le_bytes())?;
    put_page(&mut image, 0, &header);
    Ok(image.bytes)
}
