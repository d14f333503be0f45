//! Parts that are broken and that several nodes share: the fault is told of each node, as of that node.

use super::*;
use pst_make::BlockPlan;

// Properties that are a table, of search folders and of messages; a table that is properties, and one whose row names what is
// missing, of two folders; and one that a folder has for its subfolders and another for its messages.
const SHARED: [(u8, &[Node], &str); 5] = [
    (
        0x42,
        &[STORE, ROOT, (0x143, 12), (0x163, 12)],
        "0x143 Heap 0x4c80 0xc 0x143, 0x163 Heap 0x4c80 0xc 0x163, whole 2 1 0",
    ),
    (
        0x42,
        &[STORE, ROOT, (0x144, 12), (0x164, 12)],
        "0x144 Heap 0x4c80 0xc 0x144, 0x164 Heap 0x4c80 0xc 0x164, whole 2 1 0",
    ),
    (
        0x42,
        &[STORE, ROOT, (0x12d, 8), (0x162, 8), (0x16d, 8)],
        "0x122 Heap 0x4c40 0x8 0x12d, 0x162 Heap 0x4c40 0x8 0x16d, whole 3 0 0",
    ),
    (
        0x42,
        &[STORE, ROOT, SUBFOLDERS, (0x162, 8), (0x16d, 12)],
        "0x122 NodeMissing 0x4cba 0xc 0x142, 0x162 NodeMissing 0x4cba 0xc 0x142, whole 3 0 0",
    ),
    (
        0x42,
        &[
            STORE,
            ROOT,
            (0x12e, 12),
            (0x142, 8),
            (0x162, 8),
            (0x16d, 12),
        ],
        "0x122 NodeKind 0x4cba 0xc 0x142, whole 5 2 0",
    ),
];

#[test]
fn what_nodes_share_is_told_of_each(rt: HostRuntime) -> Result<(), Fail> {
    for (case, (row, nodes, line)) in SHARED.iter().enumerate() {
        let plan = with_row(rt.alloc(), *row, nodes)?;
        let image = changed(rt.alloc(), &plan, &[])?;
        is_told(&rt, rt.alloc(), case, &image, line)?;
    }
    Ok(())
}

// A block of these bytes and numbers.
fn add_block(
    alloc: Global,
    plan: &mut Plan,
    bid: u64,
    head: &[u8],
    numbers: &[u64],
) -> Result<(), Fail> {
    let mut body = Vec::from_slice(alloc, head)?;
    for number in numbers {
        body.extend_from_slice(&number.to_le_bytes())?;
    }
    plan.blocks.push(BlockPlan { bid, body })?;
    Ok(())
}

// The blocks of m1, an XBLOCK over the first of them and one that is missing, and a list of two subnodes, of which the second has
// that one; and two nodes with the former, and two with the latter.
fn with_trees(alloc: Global) -> Result<Plan, Fail> {
    let mut plan = with_row(alloc, 0x42, &[STORE, ROOT])?;
    add_block(
        alloc,
        &mut plan,
        0x12,
        &[1, 1, 2, 0, 100, 0, 0, 0],
        &[4, 0x10],
    )?;
    let entries = [0x41f, 8, 0, 0x43f, 0x10, 0];
    add_block(alloc, &mut plan, 0x16, &[2, 0, 2, 0, 0, 0, 0, 0], &entries)?;
    let nodes = [
        (0x13f, 0x12, 0),
        (0x15f, 0x12, 0),
        (0x17f, 4, 0x16),
        (0x19f, 8, 0x16),
    ];
    for (nid, bid_data, bid_sub) in nodes {
        plan.nodes.push(NodePlan {
            nid,
            bid_data,
            bid_sub,
            parent: 0,
        })?;
    }
    Ok(plan)
}

#[test]
fn trees_that_nodes_share(rt: HostRuntime) -> Result<(), Fail> {
    let plan = with_trees(rt.alloc())?;
    let image = changed(rt.alloc(), &plan, &[])?;
    let line =
        "0x13f BlockMissing 0x0 0x10 0x13f, 0x15f BlockMissing 0x0 0x10 0x15f, 0x17f BlockMissing 0x0 0x10 0x17f, 0x19f BlockMissing 0x0 0x10 0x19f, whole 2 1 0";
    is_told(&rt, rt.alloc(), 0, &image, line)
}

// Search folders that have a table for properties, each under a list of subnodes of its own.
fn with_lists(alloc: Global) -> Result<Plan, Fail> {
    let mut plan = with_row(alloc, 0x42, &[STORE, ROOT])?;
    let head = [2, 0, 1, 0, 0, 0, 0, 0];
    for (bid, sub) in [(0x12, 0x41f), (0x16, 0x43f)] {
        add_block(alloc, &mut plan, bid, &head, &[sub, 8, 0])?;
    }
    for (nid, bid_sub) in [(0x143, 0x12), (0x163, 0x16)] {
        plan.nodes.push(NodePlan {
            nid,
            bid_data: 12,
            bid_sub,
            parent: 0,
        })?;
    }
    Ok(plan)
}

#[test]
fn data_that_lists_share(rt: HostRuntime) -> Result<(), Fail> {
    let plan = with_lists(rt.alloc())?;
    let image = changed(rt.alloc(), &plan, &[])?;
    let line = "0x143 Heap 0x4c80 0xc 0x143, 0x163 Heap 0x4c80 0xc 0x163, whole 2 1 0";
    is_told(&rt, rt.alloc(), 0, &image, line)
}

// The properties of an attachment that embeds the message which is its subnode 0x200024; and attachment tables of one row, 0x8025,
// and of two, 0x8025 and 0x8045.
const EMBEDS: [u8; 56] = [
    0x2c, 0, 0xec, 0xbc, 0x20, 0, 0, 0, 0, 0, 0, 0, 0xb5, 2, 6, 0, 0x40, 0, 0, 0, 0x01, 0x37, 0x0d,
    0, 0x60, 0, 0, 0, 0x05, 0x37, 3, 0, 5, 0, 0, 0, 0x24, 0, 0x20, 0, 8, 0, 0, 0, 3, 0, 0, 0, 12,
    0, 20, 0, 36, 0, 44, 0,
];

const ONE_ROW: [u8; 78] = [
    0x40, 0, 0xec, 0x7c, 0x20, 0, 0, 0, 0, 0, 0, 0, 0x7c, 1, 4, 0, 4, 0, 4, 0, 5, 0, 0x40, 0, 0, 0,
    0x60, 0, 0, 0, 0, 0, 0, 0, 3, 0, 0xf2, 0x67, 0, 0, 4, 0, 0xb5, 4, 4, 0, 0x80, 0, 0, 0, 0x25,
    0x80, 0, 0, 0x80, 0x25, 0x80, 0, 0, 0, 0, 0, 0, 0, 4, 0, 0, 0, 12, 0, 42, 0, 50, 0, 55, 0, 63,
    0,
];

const TWO_ROWS: [u8; 90] = [
    0x4c, 0, 0xec, 0x7c, 0x20, 0, 0, 0, 0, 0, 0, 0, 0x7c, 1, 4, 0, 4, 0, 4, 0, 5, 0, 0x40, 0, 0, 0,
    0x60, 0, 0, 0, 0, 0, 0, 0, 3, 0, 0xf2, 0x67, 0, 0, 4, 0, 0xb5, 4, 4, 0, 0x80, 0, 0, 0, 0x25,
    0x80, 0, 0, 0x80, 0x45, 0x80, 0, 0, 0x80, 0x25, 0x80, 0, 0, 0, 0, 0, 0, 0x45, 0x80, 0, 0, 1, 0,
    0, 0, 4, 0, 0, 0, 12, 0, 42, 0, 50, 0, 60, 0, 76, 0,
];

// Lists of subnodes: of a message whose second attachment is a table; of two attachments, which embed it by properties of its own
// each; of three messages that hold these; of one with an attachment that is whole; and of two with one that is that table.
const LISTS: [(u64, u8, &[u64]); 9] = [
    (0x1e, 3, &[0x671, 24, 0, 0x8025, 8, 0, 0x8045, 12, 0]),
    (0x22, 1, &[0x20_0024, 8, 0x1e]),
    (0x26, 1, &[0x20_0024, 4, 0x1e]),
    (0x2a, 2, &[0x671, 20, 0, 0x8025, 16, 0x22]),
    (0x2e, 2, &[0x671, 20, 0, 0x8025, 16, 0x22]),
    (0x32, 2, &[0x671, 20, 0, 0x8025, 16, 0x26]),
    (0x36, 2, &[0x671, 20, 0, 0x8025, 8, 0]),
    (0x3a, 2, &[0x671, 20, 0, 0x8025, 12, 0]),
    (0x3e, 2, &[0x671, 20, 0, 0x8025, 12, 0]),
];

// Messages with these lists: the holders, the one that they embed, as a node of its own, and the last three.
const MESSAGES: [(u32, u64); 7] = [
    (0x20_0024, 0x2a),
    (0x20_0044, 0x2e),
    (0x20_0064, 0x32),
    (0x20_0084, 0x1e),
    (0x20_00a4, 0x36),
    (0x20_00c4, 0x3a),
    (0x20_00e4, 0x3e),
];

// The blocks of m1 with these, and these messages.
fn with_holders(alloc: Global) -> Result<Plan, Fail> {
    let mut plan = with_row(alloc, 0x42, &[STORE, ROOT])?;
    add_block(alloc, &mut plan, 16, &EMBEDS, &[])?;
    add_block(alloc, &mut plan, 20, &ONE_ROW, &[])?;
    add_block(alloc, &mut plan, 24, &TWO_ROWS, &[])?;
    for (bid, count, entries) in LISTS {
        add_block(
            alloc,
            &mut plan,
            bid,
            &[2, 0, count, 0, 0, 0, 0, 0],
            entries,
        )?;
    }
    for (nid, bid_sub) in MESSAGES {
        plan.nodes.push(NodePlan {
            nid,
            bid_data: 8,
            bid_sub,
            parent: 0,
        })?;
    }
    Ok(plan)
}

// What holders with lists of their own embed is broken once, and told of each holder as of that node.
#[test]
fn messages_that_holders_share(rt: HostRuntime) -> Result<(), Fail> {
    let plan = with_holders(rt.alloc())?;
    let image = changed(rt.alloc(), &plan, &[])?;
    let line =
        "0x200024 Heap 0x4c80 0xc 0x200024, 0x200044 Heap 0x4c80 0xc 0x200044, 0x200064 Heap 0x4c80 0xc 0x200064, 0x200084 Heap 0x4c80 0xc 0x200084, 0x2000c4 Heap 0x4c80 0xc 0x2000c4, 0x2000e4 Heap 0x4c80 0xc 0x2000e4, whole 3 1 1";
    is_told(&rt, rt.alloc(), 0, &image, line)
}
