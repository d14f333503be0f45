//! The contexts of each node, by the calls that remember page maps, with an index of its subnodes.

ghost use Rattle.pst_ndb.specs.Views.{table_of_ndb};
ghost use Rattle.pst_heap.specs.PageMaps.{AreMapsTrue};

use crate::refused::Refused;
use pst_bytes::Image;
use pst_fault::{Fault, Kind};
use pst_heap::{PageMaps, check_heap_with};
use pst_names::check_names;
use pst_ndb::{Ndb, check_ndb};
use pst_pc::check_pc_with;
use pst_tc::check_tc_with;
use std::alloc::Global;

// A file, and what is remembered of its page maps: it is true, whatever was refused.
#[derive(Drop)]
struct Known<'a> {
    ndb: Ndb<'a>,
    maps: PageMaps,
    ghost known: { AreMapsTrue (table_of_ndb ndb) maps },
}

// What a node's data is, is not asked: a fault of the file is no refusal.
fn passed(fault: Option<Fault>) -> Result<(), Refused> {
    match fault {
        Some(fault) if fault.kind == Kind::NoMemory => Err(Refused::Memory),
        _ => Ok(()),
    }
}

// `check_heap_with` of a node.
fn check_heap(known: &mut Known, nid: u32) -> Result<(), Refused> {
    let Some(node) = known.ndb.node(nid) else {
        return Ok(());
    };
    passed(check_heap_with(node, &mut known.maps).err())
}

// `check_pc_with` of a node, with nothing remembered, `Pc::asks`, and `check_names`.
fn check_pc(alloc: Global, ndb: Ndb, nid: u32) -> Result<(), Refused> {
    let Some(node) = ndb.node(nid) else {
        return Ok(());
    };
    let index = node.index(alloc)?;
    let mut maps = PageMaps::new(alloc);
    match check_pc_with(node.indexed(&index), &mut maps) {
        Ok(pc) => {
            passed(pc.asks(alloc).err())?;
            passed(check_names(alloc, &pc).err())
        }
        Err(fault) => passed(Some(fault)),
    }
}

// `check_tc_with` of a node, with nothing remembered, and `Tc::asks`.
fn check_tc(alloc: Global, ndb: Ndb, nid: u32) -> Result<(), Refused> {
    let Some(node) = ndb.node(nid) else {
        return Ok(());
    };
    let index = node.index(alloc)?;
    let mut maps = PageMaps::new(alloc);
    match check_tc_with(node.indexed(&index), &mut maps) {
        Ok(tc) => passed(tc.asks(alloc).err()),
        Err(fault) => passed(Some(fault)),
    }
}

// All three. Where memory is refused, a heap is checked again with all that is remembered by then.
fn check_contexts(alloc: Global, known: &mut Known, nid: u32) -> Result<(), Refused> {
    match check_heap(known, nid) {
        Err(Refused::Memory) => check_heap(known, nid)?,
        answer => answer?,
    }
    check_pc(alloc, known.ndb, nid)?;
    check_tc(alloc, known.ndb, nid)
}

/// `Node::index`, `check_heap_with`, `check_pc_with` and `check_tc_with` of each node, what the contexts ask, and `check_names`.
pub(crate) fn contexts(alloc: Global, bytes: &[u8]) -> Result<(), Refused> {
    let ndb = check_ndb(alloc, Image::new(bytes))?.ndb;
    let mut known = Known {
        ndb,
        maps: PageMaps::new(alloc),
    };
    for node in ndb.nodes() {
        check_contexts(alloc, &mut known, node.top())?;
    }
    Ok(())
}
