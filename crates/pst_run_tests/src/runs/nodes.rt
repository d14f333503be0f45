//! `nodes` over small stores, from the words to the status. The lines are those of another program.

use super::outcome_of;
use pst_make::{BlockPlan, Change, NodePlan, Plan, build, m0, m1, set};
use std::alloc::Global;
use std::process::Abort;
use std::test::Fail;

// The offsets of the root pages of M0 and M1.
const NBT: u64 = 0x4800;

const BBT: u64 = 0x4a00;

const M0_LINE: &str =
    "{\"nodes\":[{\"data_bid\":4,\"nid\":\"0x21\",\"parent\":\"0x0\",\"sub_bid\":0},{\"data_bid\":8,\"nid\":\"0x122\",\"parent\":\"0x122\",\"sub_bid\":0}]}\n";

const M1_LINE: &str =
    "{\"nodes\":[{\"data_bid\":4,\"nid\":\"0x21\",\"parent\":\"0x0\",\"sub_bid\":0},{\"data_bid\":8,\"nid\":\"0x122\",\"parent\":\"0x122\",\"sub_bid\":0},{\"data_bid\":12,\"nid\":\"0x12d\",\"parent\":\"0x0\",\"sub_bid\":0},{\"data_bid\":8,\"nid\":\"0x142\",\"parent\":\"0x122\",\"sub_bid\":0}]}\n";

// The nodes of samples/mail.pst, each with its identifier, its two blocks and its parent, and their line.
const MAIL_NODES: [(u32, u64, u64, u32); 26] = [
    (0x21, 4, 0, 0),
    (0x61, 8, 0, 0),
    (0x122, 100, 0, 0x122),
    (0x12d, 104, 0, 0),
    (0x12e, 108, 0, 0),
    (0x12f, 112, 0, 0),
    (0x8022, 116, 0, 0x122),
    (0x802d, 120, 0, 0),
    (0x802e, 124, 0, 0),
    (0x802f, 128, 0, 0),
    (0x8042, 132, 0, 0x122),
    (0x804d, 136, 0, 0),
    (0x804e, 140, 0, 0),
    (0x804f, 144, 0, 0),
    (0x8062, 148, 0, 0x8022),
    (0x806d, 152, 0, 0),
    (0x806e, 156, 0, 0),
    (0x806f, 160, 0, 0),
    (0x8082, 164, 0, 0x8022),
    (0x808d, 168, 0, 0),
    (0x808e, 172, 0, 0),
    (0x808f, 176, 0, 0),
    (0x400004, 12, 30, 0x8082),
    (0x400024, 32, 66, 0x8082),
    (0x400044, 68, 86, 0x8082),
    (0x400064, 88, 98, 0x8082),
];

const MAIL_LINE: &str =
    "{\"nodes\":[{\"data_bid\":4,\"nid\":\"0x21\",\"parent\":\"0x0\",\"sub_bid\":0},{\"data_bid\":8,\"nid\":\"0x61\",\"parent\":\"0x0\",\"sub_bid\":0},{\"data_bid\":100,\"nid\":\"0x122\",\"parent\":\"0x122\",\"sub_bid\":0},{\"data_bid\":104,\"nid\":\"0x12d\",\"parent\":\"0x0\",\"sub_bid\":0},{\"data_bid\":108,\"nid\":\"0x12e\",\"parent\":\"0x0\",\"sub_bid\":0},{\"data_bid\":112,\"nid\":\"0x12f\",\"parent\":\"0x0\",\"sub_bid\":0},{\"data_bid\":116,\"nid\":\"0x8022\",\"parent\":\"0x122\",\"sub_bid\":0},{\"data_bid\":120,\"nid\":\"0x802d\",\"parent\":\"0x0\",\"sub_bid\":0},{\"data_bid\":124,\"nid\":\"0x802e\",\"parent\":\"0x0\",\"sub_bid\":0},{\"data_bid\":128,\"nid\":\"0x802f\",\"parent\":\"0x0\",\"sub_bid\":0},{\"data_bid\":132,\"nid\":\"0x8042\",\"parent\":\"0x122\",\"sub_bid\":0},{\"data_bid\":136,\"nid\":\"0x804d\",\"parent\":\"0x0\",\"sub_bid\":0},{\"data_bid\":140,\"nid\":\"0x804e\",\"parent\":\"0x0\",\"sub_bid\":0},{\"data_bid\":144,\"nid\":\"0x804f\",\"parent\":\"0x0\",\"sub_bid\":0},{\"data_bid\":148,\"nid\":\"0x8062\",\"parent\":\"0x8022\",\"sub_bid\":0},{\"data_bid\":152,\"nid\":\"0x806d\",\"parent\":\"0x0\",\"sub_bid\":0},{\"data_bid\":156,\"nid\":\"0x806e\",\"parent\":\"0x0\",\"sub_bid\":0},{\"data_bid\":160,\"nid\":\"0x806f\",\"parent\":\"0x0\",\"sub_bid\":0},{\"data_bid\":164,\"nid\":\"0x8082\",\"parent\":\"0x8022\",\"sub_bid\":0},{\"data_bid\":168,\"nid\":\"0x808d\",\"parent\":\"0x0\",\"sub_bid\":0},{\"data_bid\":172,\"nid\":\"0x808e\",\"parent\":\"0x0\",\"sub_bid\":0},{\"data_bid\":176,\"nid\":\"0x808f\",\"parent\":\"0x0\",\"sub_bid\":0},{\"data_bid\":12,\"nid\":\"0x400004\",\"parent\":\"0x8082\",\"sub_bid\":30},{\"data_bid\":32,\"nid\":\"0x400024\",\"parent\":\"0x8082\",\"sub_bid\":66},{\"data_bid\":68,\"nid\":\"0x400044\",\"parent\":\"0x8082\",\"sub_bid\":86},{\"data_bid\":88,\"nid\":\"0x400064\",\"parent\":\"0x8082\",\"sub_bid\":98}]}\n";

const NO_NODES: &str = "{\"nodes\":[]}\n";

// Runs `nodes` over an image.
fn nodes_of<R: Abort + AllocGlobal>(
    rt: &R,
    image: &[u8],
    status: u8,
    out: &str,
    err: &str,
) -> Result<(), Fail> {
    let mut input = image;
    outcome_of(rt, "nodes", &mut input, status, out, err)
}

// Runs `nodes` over M0 with other bytes in a page, whose check value is made right again.
fn refused_with<R: Abort + AllocGlobal>(
    rt: &R,
    page: u64,
    offset: usize,
    bytes: &[u8],
    line: &str,
) -> Result<(), Fail> {
    let mut image = m0(rt.alloc())?;
    set(&mut image, (page as usize).saturating_add(offset), bytes)?;
    Change::Page(page).apply(&mut image)?;
    nodes_of(rt, &image, 1, "", line)
}

// A store of blocks of no bytes with these identifiers, and of these nodes.
fn store_of(alloc: Global, bids: &[u64], rows: &[(u32, u64, u64, u32)]) -> Result<Vec<u8>, Fail> {
    let mut blocks = Vec::new(alloc);
    for bid in bids {
        let body = Vec::new(alloc);
        blocks.push(BlockPlan { bid: *bid, body })?;
    }
    let mut nodes = Vec::new(alloc);
    for (nid, bid_data, bid_sub, parent) in rows {
        nodes.push(NodePlan {
            nid: *nid,
            bid_data: *bid_data,
            bid_sub: *bid_sub,
            parent: *parent,
        })?;
    }
    Ok(build(alloc, &Plan { blocks, nodes })?)
}

#[test]
fn nodes_lists_the_nodes(rt: HostRuntime) -> Result<(), Fail> {
    nodes_of(&rt, &m0(rt.alloc())?, 0, M0_LINE, "")?;
    nodes_of(&rt, &m1(rt.alloc())?, 0, M1_LINE, "")?;
    let none = store_of(rt.alloc(), &[], &[])?;
    nodes_of(&rt, &none, 0, NO_NODES, "")
}

// The node B-tree has a branch page over two leaves.
#[test]
fn nodes_of_a_higher_tree_are_in_order(rt: HostRuntime) -> Result<(), Fail> {
    let image = store_of(rt.alloc(), &[4], &MAIL_NODES)?;
    nodes_of(&rt, &image, 0, MAIL_LINE, "")
}

// A byte of a block is changed, so that its check value is wrong.
#[test]
fn nodes_are_listed_where_blocks_are_damaged(rt: HostRuntime) -> Result<(), Fail> {
    let mut image = m0(rt.alloc())?;
    set(&mut image, 0x4c05, &[0xff])?;
    nodes_of(&rt, &image, 0, M0_LINE, "")
}

#[test]
fn the_header_is_looked_at_first(rt: HostRuntime) -> Result<(), Fail> {
    let mut image = m0(rt.alloc())?;
    set(&mut image, BBT as usize, &[0xff])?;
    set(&mut image, 300, &[1])?;
    let line = "no: 5 HeaderCheck at 0x4 bid 0x0 nid 0x0\n";
    nodes_of(&rt, &image, 1, "", line)
}

// Both root pages are damaged.
#[test]
fn the_block_tree_is_walked_first(rt: HostRuntime) -> Result<(), Fail> {
    let mut image = m0(rt.alloc())?;
    set(&mut image, NBT as usize, &[0xff])?;
    set(&mut image, BBT as usize, &[0xff])?;
    let line = "no: 9 PageTrailer at 0x4a00 bid 0x8 nid 0x0\n";
    nodes_of(&rt, &image, 1, "", line)
}

#[test]
fn keys_that_do_not_rise_are_refused(rt: HostRuntime) -> Result<(), Fail> {
    let line = "no: 11 KeyOrder at 0x4a18 bid 0x8 nid 0x0\n";
    refused_with(&rt, BBT, 24, &[5], line)?;
    let line = "no: 11 KeyOrder at 0x4820 bid 0x4 nid 0x0\n";
    refused_with(&rt, NBT, 32, &[0x21, 0], line)
}

#[test]
fn a_page_that_is_no_page_of_the_tree_is_refused(rt: HostRuntime) -> Result<(), Fail> {
    let line = "no: 10 PageShape at 0x4800 bid 0x4 nid 0x0\n";
    refused_with(&rt, NBT, 491, &[16], line)?;
    let line = "no: 9 PageTrailer at 0x4800 bid 0x4 nid 0x0\n";
    refused_with(&rt, NBT, 496, &[0x80, 0x80], line)
}

// The first entry of the page is read as one of a branch.
#[test]
fn a_leaf_with_the_level_of_a_branch_is_refused(rt: HostRuntime) -> Result<(), Fail> {
    let line = "no: 8 PagePlace at 0x0 bid 0x4 nid 0x0\n";
    refused_with(&rt, NBT, 491, &[1], line)
}

// The offset that the header gives for the root of the node B-tree is changed.
#[test]
fn a_root_that_cannot_be_there_is_refused(rt: HostRuntime) -> Result<(), Fail> {
    let rows: [(&[u8], &str); 2] = [
        (&[0x01, 0x48], "no: 8 PagePlace at 0x4801 bid 0x4 nid 0x0\n"),
        (&[0x00, 0x4a], "no: 12 Overlap at 0x4a00 bid 0x4 nid 0x0\n"),
    ];
    for (place, line) in rows {
        let mut image = m0(rt.alloc())?;
        set(&mut image, 224, place)?;
        Change::Header.apply(&mut image)?;
        nodes_of(&rt, &image, 1, "", line)?;
    }
    Ok(())
}

// A branch page of the block B-tree over three leaves. The last key of the second leaf is 320; the third begins at 328.
#[test]
fn keys_keep_the_bounds_of_the_pages_above(rt: HostRuntime) -> Result<(), Fail> {
    let mut bids = [0; 60];
    for (i, bid) in bids.iter_mut().enumerate() {
        *bid = (i as u64).saturating_add(1).saturating_mul(8);
    }
    let mut image = store_of(rt.alloc(), &bids, &[])?;
    nodes_of(&rt, &image, 0, NO_NODES, "")?;
    set(&mut image, 0x4dc8, &328u64.to_le_bytes())?;
    Change::Page(0x4c00).apply(&mut image)?;
    let line = "no: 11 KeyOrder at 0x4dc8 bid 0xc nid 0x0\n";
    nodes_of(&rt, &image, 1, "", line)?;
    set(&mut image, 0x4dc8, &324u64.to_le_bytes())?;
    Change::Page(0x4c00).apply(&mut image)?;
    nodes_of(&rt, &image, 0, NO_NODES, "")
}

// M0 cut after some bytes, with the header's end of file set to where it is cut.
#[test]
fn fronts_of_a_store(rt: HostRuntime) -> Result<(), Fail> {
    let short = "no: 1 Short at 0x0 bid 0x0 nid 0x0\n";
    let root = "no: 6 Root at 0xc0 bid 0x0 nid 0x0\n";
    let place = "no: 8 PagePlace at 0x4a00 bid 0x8 nid 0x0\n";
    let rows: [(u32, u8, &str, &str); 14] = [
        (0, 1, "", short),
        (64, 1, "", short),
        (512, 1, "", short),
        (576, 1, "", root),
        (17_408, 1, "", root),
        (18_368, 1, "", root),
        (18_432, 1, "", place),
        (18_944, 1, "", place),
        (19_392, 1, "", place),
        (19_456, 0, M0_LINE, ""),
        (19_520, 0, M0_LINE, ""),
        (19_584, 0, M0_LINE, ""),
        (271_296, 0, M0_LINE, ""),
        (271_360, 0, M0_LINE, ""),
    ];
    for (len, status, out, err) in rows {
        let mut image = m0(rt.alloc())?;
        set(&mut image, 184, &len.to_le_bytes())?;
        Change::Header.apply(&mut image)?;
        let front = image.get(..len as usize).expect(&rt, "too short");
        nodes_of(&rt, front, status, out, err)?;
    }
    Ok(())
}
