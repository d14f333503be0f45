//! Spans of a node that was lent an index of them.

use super::*;
use crate::told::is;
use pst_ndb::SpanIndexes;

/// Three data blocks, XBLOCKs of none of them, of the first two and of the last, and an XXBLOCK that names these by turns, 33 in all:
/// every three have three spans.
pub(super) const BY_TURNS: Blocks<'static> = &[
    (4, b"x", &[]),
    (8, b"yy", &[]),
    (12, b"zzzz", &[]),
    (0x12, &[1, 1, 0, 0, 0, 0, 0, 0], &[]),
    (0x16, &[1, 1, 2, 0, 3, 0, 0, 0], &[4, 8]),
    (0x1a, &[1, 1, 1, 0, 4, 0, 0, 0], &[12]),
    (
        0x1e,
        &[1, 2, 33, 0, 77, 0, 0, 0],
        &[
            0x12, 0x16, 0x1a, 0x12, 0x16, 0x1a, 0x12, 0x16, 0x1a, 0x12, 0x16, 0x1a, 0x12, 0x16,
            0x1a, 0x12, 0x16, 0x1a, 0x12, 0x16, 0x1a, 0x12, 0x16, 0x1a, 0x12, 0x16, 0x1a, 0x12,
            0x16, 0x1a, 0x12, 0x16, 0x1a,
        ],
    ),
];

// The span with a number: the first block lies at 0x4c00, each other one 64 bytes behind the one before it.
fn span_at(n: u64) -> Option<Span> {
    match n % 3 {
        _ if n >= 33 => None,
        0 => Some(Span { at: 0x4c00, len: 1 }),
        1 => Some(Span { at: 0x4c40, len: 2 }),
        _ => Some(Span { at: 0x4c80, len: 4 }),
    }
}

/// Stops the test where a node has not these spans: without an index and with one in order, and with one that is kept backwards.
pub(super) fn has_spans<R: Abort>(rt: &R, alloc: Global, node: Node) {
    let Ok(index) = node.span_index(alloc) else {
        rt.panic(MEMORY);
    };
    let lent = node.span_indexed(&index);
    for n in 0..35 {
        is(rt, lent.leaf(n), span_at(n));
        is(rt, node.leaf(n), span_at(n));
    }
    let mut indexes = SpanIndexes::new(alloc);
    if indexes.turn(alloc, node).is_err() {
        rt.panic(MEMORY);
    }
    let lent = indexes.lend(node);
    for i in 0..35 {
        is(rt, lent.leaf(34 - i), span_at(34 - i));
    }
}
