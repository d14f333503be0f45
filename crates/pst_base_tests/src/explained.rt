//! The kinds of fault in plain words, and the words that name them.

use crate::told::{is, is_at};
use pst_explain::{Kind, explanation, kind_named};

const BLOCK_TRAILER: &str =
    "14 BlockTrailer: the last 16 bytes of a block do not fit the block and its entry: one of these is damaged or overwritten
  at: the block, where its entry says
  bid: that of its entry
  nid: 0x0, nothing
  to do: Take the file from a backup; damage lists the nodes that this breaks, and messages --whole and export --whole give what is whole
  [MS-PST]: 2.2.2.8.1
";

// Words, and the kind that each names.
const NAMED: [(&str, Option<Kind>); 31] = [
    ("1", Some(Kind::Short)),
    ("Short", Some(Kind::Short)),
    ("4", Some(Kind::Encoded(0))),
    ("Version", Some(Kind::Version(0))),
    ("14", Some(Kind::BlockTrailer)),
    ("BlockTrailer", Some(Kind::BlockTrailer)),
    ("28", Some(Kind::NoMemory)),
    ("blocktrailer", Some(Kind::BlockTrailer)),
    ("HEAP", Some(Kind::Heap)),
    ("heapid", Some(Kind::HeapId)),
    ("Encoded(1)", Some(Kind::Encoded(0))),
    ("version(36)", Some(Kind::Version(0))),
    ("14 BlockTrailer", Some(Kind::BlockTrailer)),
    ("no: 14 BlockTrailer", Some(Kind::BlockTrailer)),
    ("No: 4 Encoded(1)", Some(Kind::Encoded(0))),
    ("no: 21 Heap at 0x4c80 bid 0xc nid 0x12d", Some(Kind::Heap)),
    ("no: 14", Some(Kind::BlockTrailer)),
    ("no: Heap", Some(Kind::Heap)),
    ("0", None),
    ("01", None),
    ("29", None),
    ("", None),
    ("no: ", None),
    ("no:14", None),
    (" 14", None),
    ("14 Heap", None),
    ("14 ", None),
    ("14(1)", None),
    ("BlockTraile", None),
    ("BlockTrailers", None),
    ("no: no: 14", None),
];

#[test]
fn a_kind_is_named_as_it_is_typed_or_printed(rt: HostRuntime) {
    for (word, kind) in &NAMED {
        is_at(&rt, *word, kind_named(word), *kind);
    }
}

#[test]
fn a_kind_is_explained(rt: HostRuntime) {
    is(&rt, explanation(kind_named("14")), BLOCK_TRAILER);
}

// The number of the kind that the first word of a line names.
fn number_of(line: &str) -> Option<u8> {
    let word = line.split(' ').next().unwrap_or("");
    match kind_named(word) {
        Some(kind) => Some(kind.number()),
        None => None,
    }
}

#[test]
fn all_kinds_have_a_line(rt: HostRuntime) {
    let mut number: u8 = 0;
    for line in explanation(None).lines() {
        number = number.saturating_add(1);
        is_at(&rt, line, number_of(line), Some(number));
    }
    is(&rt, number, 28);
}
