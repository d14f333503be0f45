//! The layers up to the node database, and messaging, by their own calls.

ghost use Rattle.pst_block.specs.Blocks.{table_of};
ghost use Rattle.pst_subnode.specs.Known.{AreBothTrue};

use crate::refused::Refused;
use pst_amap::compare;
use pst_block::{Blocks, check_blocks};
use pst_btree::{NodeEntry, NodeTree, walk_blocks, walk_nodes};
use pst_bytes::Image;
use pst_datatree::{Seen, check_data};
use pst_fault::{Fault, Kind};
use pst_header::read_header;
use pst_msg::check_messaging;
use pst_ndb::check_ndb;
use pst_space::Claims;
use pst_subnode::{Heights, check_sub};
use std::alloc::Global;

// What is remembered of data trees and lists.
#[derive(Drop)]
struct Known {
    seen: Seen,
    heights: Heights,
}

// A node's data.
fn check_tree(
    alloc: Global,
    blocks: &Blocks,
    entry: NodeEntry,
    known: &mut Known,
) -> Result<(), Fault>
    requires { AreBothTrue (table_of blocks.now) known.old.seen known.old.heights }
    ensures { AreBothTrue (table_of blocks.now) known.new.seen known.new.heights }
{
    check_data(alloc, blocks, entry.bid_data, entry.nid, &mut known.seen)
}

// A node's subnodes.
fn check_list(
    alloc: Global,
    blocks: &Blocks,
    entry: NodeEntry,
    known: &mut Known,
) -> Result<(), Fault>
    requires { AreBothTrue (table_of blocks.now) known.old.seen known.old.heights }
    ensures { AreBothTrue (table_of blocks.now) known.new.seen known.new.heights }
{
    check_sub(
        alloc,
        blocks,
        entry.bid_sub,
        entry.nid,
        &mut known.seen,
        &mut known.heights,
    )?;
    Ok(())
}

// Both. Where memory is refused, the same call is made again with all that is remembered by then: it is true, whatever was
// refused.
fn check_trees(
    alloc: Global,
    blocks: &Blocks,
    entry: NodeEntry,
    known: &mut Known,
) -> Result<(), Refused>
    requires { AreBothTrue (table_of blocks.now) known.old.seen known.old.heights }
    ensures { AreBothTrue (table_of blocks.now) known.new.seen known.new.heights }
{
    match check_tree(alloc, blocks, entry, known) {
        Err(fault) if fault.kind == Kind::NoMemory => check_tree(alloc, blocks, entry, known)?,
        answer => answer?,
    }
    match check_list(alloc, blocks, entry, known) {
        Err(fault) if fault.kind == Kind::NoMemory => check_list(alloc, blocks, entry, known)?,
        answer => answer?,
    }
    Ok(())
}

// Those of each node.
fn trees(alloc: Global, blocks: &Blocks, nodes: &NodeTree) -> Result<(), Refused> {
    let mut known = Known {
        seen: Seen::new(alloc),
        heights: Heights::new(alloc),
    };
    for entry in nodes.nodes() {
        check_trees(alloc, blocks, entry, &mut known)?;
    }
    Ok(())
}

/// `Claims::new`, `walk_blocks`, `walk_nodes`, `compare`, and of each node `check_data` and `check_sub`.
pub(crate) fn answer(alloc: Global, bytes: &[u8]) -> Result<(), Refused> {
    let image = Image::new(bytes);
    let header = read_header(image)?;
    let mut claims = Claims::new(alloc, &header)?;
    let (tree, entries) = walk_blocks(alloc, image, &header, &mut claims)?;
    let (nodes, _) = walk_nodes(alloc, image, &header, &mut claims)?;
    let blocks = check_blocks(tree, &header, &entries, &mut claims)?;
    compare(alloc, image, &header, &mut claims)?;
    trees(alloc, &blocks, &nodes)
}

/// `check_ndb`, and then `check_messaging`; where the latter is refused memory it is made again of the same node database.
pub(crate) fn database(alloc: Global, bytes: &[u8]) -> Result<(), Refused> {
    let checked = check_ndb(alloc, Image::new(bytes))?;
    let ndb = checked.ndb;
    let mut work = checked.work;
    match check_messaging(alloc, &ndb, &mut work) {
        Err(fault) if fault.kind == Kind::NoMemory => {
            let mut work = check_ndb(alloc, Image::new(bytes))?.work;
            check_messaging(alloc, &ndb, &mut work)?;
        }
        answer => answer?,
    }
    Ok(())
}
