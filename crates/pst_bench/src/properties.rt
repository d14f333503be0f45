//! Property contexts ([MS-PST] 2.3.3).

use crate::heap::{Heap, LONGEST_ITEM};
use crate::laid::Tree;
use std::alloc::{AllocError, Global};

/// The types of properties.
pub(crate) const INTEGER32: u16 = 0x0003;

pub(crate) const BOOLEAN: u16 = 0x000b;

pub(crate) const OBJECT: u16 = 0x000d;

pub(crate) const STRING: u16 = 0x001f;

pub(crate) const TIME: u16 = 0x0040;

pub(crate) const BINARY: u16 = 0x0102;

/// The type of the identifiers of subnodes that hold a value (2.2.2.1).
pub(crate) const VALUE: u32 = 0x1f;

/// A value that stands in a subnode.
#[derive(Drop)]
pub(crate) struct Held {
    pub(crate) nid: u32,
    pub(crate) tree: Tree,
}

/// What a context was written as: its data, and the values that stand in subnodes.
#[derive(Drop)]
pub(crate) struct Written {
    pub(crate) tree: Tree,
    pub(crate) held: Vec<Held>,
}

/// The properties of an object, set in order of their identifiers.
#[derive(Drop)]
pub(crate) struct Properties {
    alloc: Global,
    encoded: bool,
    heap: Heap,
    records: Vec<u8>,
    held: Vec<Held>,
}

/// A value in the heap, or, where it is too long for an item, in a subnode; gives its identifier (HNID, 2.3.3.2).
pub(crate) fn name_of(
    alloc: Global,
    heap: &mut Heap,
    held: &mut Vec<Held>,
    value: &[u8],
    encoded: bool,
) -> Result<u32, AllocError> {
    if value.len() <= LONGEST_ITEM {
        return heap.add(value);
    }
    let number = u32::try_from(held.len()).unwrap_or(0);
    let nid = number
        .saturating_add(0x100)
        .saturating_mul(32)
        .saturating_add(VALUE);
    let tree = Tree::of_bytes(alloc, value, encoded)?;
    held.push(Held { nid, tree })?;
    Ok(nid)
}

impl Properties {
    /// None yet.
    pub(crate) fn new(alloc: Global, encoded: bool) -> Result<Properties, AllocError> {
        let mut heap = Heap::new(alloc, 0xbc);
        heap.add(&[0; 8])?;
        Ok(Properties {
            alloc,
            encoded,
            heap,
            records: Vec::new(alloc),
            held: Vec::new(alloc),
        })
    }

    /// Sets a property by the number that stands in its record (2.3.3.3).
    pub(crate) fn number(&mut self, id: u16, kind: u16, number: u32) -> Result<(), AllocError> {
        self.records.extend_from_slice(&id.to_le_bytes())?;
        self.records.extend_from_slice(&kind.to_le_bytes())?;
        self.records.extend_from_slice(&number.to_le_bytes())
    }

    /// Sets a property to these bytes.
    pub(crate) fn bytes(&mut self, id: u16, kind: u16, value: &[u8]) -> Result<(), AllocError> {
        let name = name_of(
            self.alloc,
            &mut self.heap,
            &mut self.held,
            value,
            self.encoded,
        )?;
        self.number(id, kind, name)
    }

    /// The context.
    pub(crate) fn written(mut self) -> Result<Written, AllocError> {
        let header = self.heap.add_records(&self.records, 2, 6)?;
        self.heap.put_first(&header);
        let tree = Tree::of_bodies(self.alloc, self.heap.bodies(0x20)?, self.encoded)?;
        Ok(Written {
            tree,
            held: self.held,
        })
    }
}
