//! Nodes, and what is asked of them.

use super::*;
use pst_damage::judge_nodes;
use pst_remains::find_remains;

// The low byte of the row's identifier; the nodes; and what is told.
type Row<'a> = (u8, &'a [Node], &'a str);

// Nodes that every store has: one is missing, the other, both, or one and the other is no property context. The name map is a table.
const REQUIRED: [Row<'static>; 6] = [
    (0x42, &[ROOT], "0x21 NodeMissing 0x0 0x0 0x21, whole 1 1 0"),
    (
        0x42,
        &[STORE],
        "0x122 NodeMissing 0x0 0x0 0x122, whole 1 0 0",
    ),
    (
        0x42,
        &[(0x61, 12), (0x142, 8)],
        "0x21 NodeMissing 0x0 0x0 0x21, 0x61 Heap 0x4c80 0xc 0x61, 0x122 NodeMissing 0x0 0x0 0x122, whole 1 1 0",
    ),
    (
        0x42,
        &[(0x21, 12), (0x12d, 12), (0x142, 8)],
        "0x21 Heap 0x4c80 0xc 0x21, 0x122 NodeMissing 0x0 0x0 0x122, whole 2 1 0",
    ),
    (
        0x42,
        &[STORE, (0x122, 12), (0x142, 8)],
        "0x122 Heap 0x4c80 0xc 0x122, whole 2 1 0",
    ),
    (0x42, &[STORE, (0x61, 4), ROOT], "whole 3 1 0"),
];

// A table of the root folder: what it names is missing, is of another type, is broken; the table is broken, and is no table.
// Folders go on, each with its own fault. A message that is none.
const ASKED: [Row<'static>; 8] = [
    (
        0x42,
        &[STORE, ROOT, SUBFOLDERS],
        "0x122 NodeMissing 0x4cba 0xc 0x142, whole 2 0 0",
    ),
    (
        0x44,
        &[STORE, ROOT, SUBFOLDERS, (0x144, 8)],
        "0x122 NodeKind 0x4cba 0xc 0x144, whole 3 0 1",
    ),
    (
        0x42,
        &[STORE, ROOT, SUBFOLDERS, (0x142, 16)],
        "0x142 BlockMissing 0x0 0x10 0x142, whole 3 1 0",
    ),
    (
        0x42,
        &[STORE, ROOT, (0x12d, 16), (0x142, 8)],
        "0x12d BlockMissing 0x0 0x10 0x12d, whole 3 2 0",
    ),
    (
        0x42,
        &[STORE, ROOT, (0x12f, 8)],
        "0x122 Heap 0x4c40 0x8 0x12f, whole 2 0 0",
    ),
    (
        0x42,
        &[STORE, ROOT, SUBFOLDERS, (0x162, 8), (0x16d, 13)],
        "0x122 NodeMissing 0x4cba 0xc 0x142, 0x162 NodeMissing 0x4cba 0xd 0x142, whole 3 0 0",
    ),
    (
        0x42,
        &[STORE, ROOT, (0x144, 12), (0x148, 8)],
        "0x144 Heap 0x4c80 0xc 0x144, whole 3 1 1",
    ),
    (
        0x42,
        &[STORE, ROOT, (0x143, 12), (0x163, 8)],
        "0x143 Heap 0x4c80 0xc 0x143, whole 3 2 0",
    ),
];

#[test]
fn what_is_told_of_nodes(rt: HostRuntime) -> Result<(), Fail> {
    for rows in [REQUIRED.as_slice(), ASKED.as_slice()] {
        for (case, (row, nodes, line)) in rows.iter().enumerate() {
            let plan = with_row(rt.alloc(), *row, nodes)?;
            let image = changed(rt.alloc(), &plan, &[])?;
            is_told(&rt, rt.alloc(), case, &image, line)?;
        }
    }
    Ok(())
}

// How many nodes are broken, over the blocks and the nodes that are left.
fn judged(alloc: Global, image: &[u8]) -> Result<(usize, usize), Fail> {
    let image = Image::new(image);
    if image.len() < 564 {
        return Err(Fail::from("no header"));
    }
    let Ok(remains) = find_remains(alloc, image) else {
        return Err(Fail::from("refused"));
    };
    match judge_nodes(
        alloc,
        remains.good_blocks(),
        remains.node_list(),
        &remains.broken,
    ) {
        Ok(nodes) => Ok((nodes.broken.len(), nodes.whole.nodes)),
        Err(_) => Err(Fail::from("refused")),
    }
}

#[test]
fn nodes_alone(rt: HostRuntime) -> Result<(), Fail> {
    let plan = with_row(rt.alloc(), 0x42, &[STORE, ROOT, SUBFOLDERS])?;
    let image = changed(rt.alloc(), &plan, &[])?;
    is_at(&rt, 0, judged(rt.alloc(), &image)?, (1, 2));
    Ok(())
}
