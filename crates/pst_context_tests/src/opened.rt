//! What is opened in a store: a node, and the heap that its data is.

use crate::made::MEMORY;
use pst_bytes::Image;
use pst_fault::Fault;
use pst_heap::{Heap, check_heap};
use pst_ndb::{Ndb, Node, check_ndb};
use std::alloc::Global;
use std::process::Abort;

/// The node database of a file.
pub(crate) fn ndb_in<'a, R: Abort>(rt: &R, alloc: Global, image: &'a [u8]) -> Ndb<'a> {
    check_ndb(alloc, Image::new(image))
        .expect(rt, "refused")
        .ndb
}

/// A node of a file.
pub(crate) fn node_in<'a, R: Abort>(rt: &R, alloc: Global, image: &'a [u8], nid: u32) -> Node<'a> {
    ndb_in(rt, alloc, image).node(nid).expect(rt, "no node")
}

/// The heap of a node of a file.
pub(crate) fn heap_in<'a, R: Abort>(rt: &R, alloc: Global, image: &'a [u8], nid: u32) -> Heap<'a> {
    check_heap(node_in(rt, alloc, image, nid)).expect(rt, "no heap")
}

/// The line of a fault.
pub(crate) fn line_of_fault<R: Abort>(rt: &R, alloc: Global, fault: Fault) -> String {
    format!(in alloc; "{fault}").expect(rt, MEMORY)
}
