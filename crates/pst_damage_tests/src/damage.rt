//! Damaged files: small stores with bytes changed, and what is told of them.

mod behind;
mod nodes;
mod parts;
mod shared;

use crate::told::is_at;
use pst_bytes::Image;
use pst_damage::{BrokenNode, Damage, find_damage};
use pst_fault::Fault;
use pst_make::{Change, NodePlan, Plan, build, change_all, m1_plan};
use std::alloc::Global;
use std::process::Abort;
use std::test::Fail;

// All that is broken of a file that has all bytes of a header.
fn damage_of(alloc: Global, image: &[u8]) -> Result<Damage, Fail> {
    let image = Image::new(image);
    if image.len() < 564 {
        return Err(Fail::from("no header"));
    }
    match find_damage(alloc, image) {
        Ok(damage) => Ok(damage),
        Err(_) => Err(Fail::from("refused")),
    }
}

// Puts a fault behind a line: its kind, its place, and the identifiers of the page or block and of the node.
fn put_fault(alloc: Global, line: &mut String, part: &str, fault: Fault) -> Result<(), Fail> {
    let (kind, place) = (fault.kind, fault.place);
    let (at, bid, nid) = (place.at, place.bid, place.nid);
    line.push_str(&format!(in alloc; "{part} {kind} 0x{at:x} 0x{bid:x} 0x{nid:x}, ")?)?;
    Ok(())
}

fn put_faults(alloc: Global, line: &mut String, part: &str, faults: &[Fault]) -> Result<(), Fail> {
    for fault in faults {
        put_fault(alloc, line, part, *fault)?;
    }
    Ok(())
}

fn put_some(
    alloc: Global,
    line: &mut String,
    part: &str,
    fault: Option<Fault>,
) -> Result<(), Fail> {
    match fault {
        Some(fault) => put_fault(alloc, line, part, fault),
        None => Ok(()),
    }
}

fn put_node(alloc: Global, line: &mut String, node: BrokenNode) -> Result<(), Fail> {
    let nid = node.nid;
    let part = format!(in alloc; "0x{nid:x}")?;
    put_fault(alloc, line, &part, node.fault)
}

fn put_nodes(alloc: Global, line: &mut String, nodes: &[BrokenNode]) -> Result<(), Fail> {
    for node in nodes {
        put_node(alloc, line, *node)?;
    }
    Ok(())
}

// All that is told, in a line: each fault, part by part, those of nodes behind the node; and how many nodes, folders and messages
// are whole.
fn line_of(alloc: Global, damage: &Damage) -> Result<String, Fail> {
    let mut line = String::new(alloc);
    put_some(alloc, &mut line, "header", damage.header)?;
    put_faults(alloc, &mut line, "page", &damage.pages)?;
    put_faults(alloc, &mut line, "block", &damage.blocks)?;
    put_some(alloc, &mut line, "maps", damage.maps)?;
    put_nodes(alloc, &mut line, &damage.nodes)?;
    let whole = damage.whole;
    let (nodes, folders, messages) = (whole.nodes, whole.folders, whole.messages);
    line.push_str(&format!(in alloc; "whole {nodes} {folders} {messages}")?)?;
    Ok(line)
}

// Whether this line is told of a file; the case is named where another is.
fn is_told<R: Abort>(
    rt: &R,
    alloc: Global,
    case: usize,
    image: &[u8],
    wanted: &str,
) -> Result<(), Fail> {
    let damage = damage_of(alloc, image)?;
    let line = line_of(alloc, &damage)?;
    is_at(rt, case, line.as_str(), wanted);
    Ok(())
}

// The image of a plan, with changes.
fn changed(alloc: Global, plan: &Plan, changes: &[Change]) -> Result<Vec<u8>, Fail> {
    let Ok(mut image) = build(alloc, plan) else {
        return Err(Fail::from("not made"));
    };
    change_all(&mut image, changes)?;
    Ok(image)
}

// A node, by its identifier and the block of its data.
type Node = (u32, u64);

const STORE: Node = (0x21, 4);

const ROOT: Node = (0x122, 8);

// The table of one row, whose record of the row index is 58 bytes behind its start, as a table of the root folder.
const SUBFOLDERS: Node = (0x12d, 12);

// A store of the blocks of m1: properties of a store and of a folder, and that table, whose row names the node with this low byte
// and with 1 as the next one; and of these nodes.
fn with_row(alloc: Global, row: u8, nodes: &[Node]) -> Result<Plan, Fail> {
    let mut plan = m1_plan(alloc)?;
    let table = plan.blocks.get_mut(2).ok_or("no block")?;
    for at in [58, 66] {
        let byte = table.body.get_mut(at).ok_or("past the end")?;
        *byte = row;
    }
    plan.nodes = Vec::new(alloc);
    for (nid, bid_data) in nodes {
        plan.nodes.push(NodePlan {
            nid: *nid,
            bid_data: *bid_data,
            bid_sub: 0,
            parent: 0,
        })?;
    }
    Ok(plan)
}
