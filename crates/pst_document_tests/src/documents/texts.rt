//! Texts put behind a text, in one slice and in pieces.

use super::values::{Row, store_of};
use super::*;
use crate::told::is;
use pst_datatree::Value;
use pst_value_json::{put_text, text_doc};

// The JSON strings are what Python's `json.dumps` makes of what its `utf-16-le` reads, a wrong unit as U+FFFD. The last four, where
// half a unit stands at the end, are written by hand: it is left out.
const TEXTS: [Row; 20] = [
    (0x001F, &[], "\"\""),
    (0x001F, b"R\0e\0:\0 \0a\0 \0~\0b\0", "\"Re: a ~b\""),
    (0x001F, b"\"\0a\0\"\0\\\0", "\"\\\"a\\\"\\\\\""),
    (0x001F, b"\"\0", "\"\\\"\""),
    (
        0x001F,
        b"\0\0\x01\0\x08\0\x09\0\x0a\0\x0b\0\x0c\0\x0d\0\x1f\0 \0",
        "\"\\u0000\\u0001\\b\\t\\n\\u000b\\f\\r\\u001f \"",
    ),
    (0x001F, b"a\0\x7f\0", "\"a\u{7F}\""),
    (0x001F, b"\x80\0a\0b\0", "\"\u{80}ab\""),
    (0x001F, b"a\0\x80\0b\0", "\"a\u{80}b\""),
    (0x001F, b"a\0b\0\x80\0", "\"ab\u{80}\""),
    (0x001F, b"\"\0\xe9\0\"\0\x0a\0", "\"\\\"\u{E9}\\\"\\n\""),
    (
        0x001F,
        b"L\0A\x01\0\x01\0\".\0",
        "\"L\u{141}\u{100}\u{2200}.\"",
    ),
    (0x001F, b"a\0=\xd8\0\xdeb\0", "\"a\u{1F600}b\""),
    (0x001F, b"=\xd8a\0b\0", "\"\u{FFFD}ab\""),
    (0x001F, b"a\0\0\xdeb\0", "\"a\u{FFFD}b\""),
    (0x001F, b"a\0b\0=\xd8", "\"ab\u{FFFD}\""),
    (0x001F, b"a\0b\0\0\xde=\xd8", "\"ab\u{FFFD}\u{FFFD}\""),
    (0x001F, b"a", "\"\""),
    (0x001F, b"a\0b\0c", "\"ab\""),
    (0x001F, b"a\0\xe9\0\0", "\"a\u{E9}\""),
    (0x001F, b"a\0\"", "\"a\""),
];

// Whether a text is put so, whole and in pieces.
fn are_put<R: Abort>(rt: &R, alloc: Global, whole: Value, pieces: Value, shown: &str) {
    let mut text = Vec::from_slice(alloc, b"[").expect(rt, MEMORY);
    put_text(alloc, &whole, &mut text).expect(rt, MEMORY);
    text.push(b',').expect(rt, MEMORY);
    put_text(alloc, &pieces, &mut text).expect(rt, MEMORY);
    let wanted = format!(in alloc; "[{shown},{shown}").expect(rt, MEMORY);
    is(rt, text.as_slice(), wanted.as_bytes());
}

fn is_put<R: Abort>(rt: &R, alloc: Global, ndb: &Ndb, nid: u32, row: &Row) {
    let (_, bytes, shown) = *row;
    let whole = Value::Whole(0, bytes);
    let pieces = ndb.node(nid).expect(rt, "no node").bytes();
    are_put(rt, alloc, whole, pieces, shown);
    let doc = text_doc(alloc, whole).expect(rt, MEMORY);
    is_shown(rt, alloc, &doc, shown);
}

fn all_are_put<R: Abort>(rt: &R, alloc: Global, rows: &[Row]) {
    let image = store_of(rt, alloc, rows);
    let ndb = ndb_of(rt, alloc, &image);
    let mut nid: u32 = 0x21;
    for row in rows {
        is_put(rt, alloc, &ndb, nid, row);
        nid = nid.saturating_add(0x20);
    }
}

#[test]
fn texts_are_put(rt: HostRuntime) {
    all_are_put(&rt, rt.alloc(), &TEXTS);
}
