//! The words that name a node, a path or a property.

use super::{lacks, words_of};
use crate::told::is_at;
use pst_ask::{Lack, lacking_word, read_nid, read_path, read_property_id};
use std::process::Abort;

// Words, and the node that each names.
const NIDS: [(&str, u32); 6] = [
    ("0x0", 0),
    ("0x21", 0x21),
    ("0x00000122", 0x122),
    ("0xabcdef", 0x00ab_cdef),
    ("0xABCDEF", 0x00ab_cdef),
    ("0xffffffff", u32::MAX),
];

#[test]
fn hexadecimal_digits_name_a_node(rt: HostRuntime) {
    for (word, nid) in NIDS {
        is_at(&rt, word, read_nid(word), Some(nid));
    }
}

// Compares what words lack that have this one where a node is to be named.
fn names_no_node<R: Abort + AllocGlobal>(rt: &R, word: &str) {
    for words in [
        &["contents", "a.pst", word][..],
        &["props", "a.pst", word],
        &["props", "a.pst", "0x21", word],
        &["value", "a.pst", word, "0037"],
    ] {
        lacks(rt, words, Lack::Nid);
    }
}

// Words that name no node.
const NO_NIDS: [&str; 10] = [
    "",
    "21",
    "0x",
    "0x123456789",
    "0xg",
    "0X21",
    "x21",
    "0x+1",
    "0x 1",
    "١",
];

#[test]
fn other_words_name_no_node(rt: HostRuntime) {
    for word in NO_NIDS {
        is_at(&rt, word, read_nid(word), None);
        names_no_node(&rt, word);
    }
}

fn is_path<R: Abort + AllocGlobal>(rt: &R, word: &str, nids: &[u32]) {
    let Ok(path) = read_path(rt.alloc(), word) else {
        rt.panic("refused");
    };
    is_at(rt, word, &path.nids[..], nids);
}

// Words, and the path that each names.
const PATHS: [(&str, &[u32]); 3] = [
    ("0x0", &[0]),
    ("0x21/0x8025", &[0x21, 0x8025]),
    ("0x1/0x2/0x3/0x00000004", &[1, 2, 3, 4]),
];

// Words that name no path.
const NO_PATHS: [&str; 9] = [
    "/",
    "/0x21",
    "0x21/",
    "0x21//0x22",
    "0x21/22",
    "0x21/0x",
    "0x21/0x123456789",
    "0x21\\0x22",
    "0x21 /0x22",
];

#[test]
fn slashes_stand_between_the_nodes_of_a_path(rt: HostRuntime) {
    for (word, nids) in PATHS {
        is_path(&rt, word, nids);
    }
    for word in NO_PATHS {
        names_no_node(&rt, word);
    }
    lacks(&rt, &["contents", "a.pst", "0x122/0x21"], Lack::Nid);
}

// Words, and the property that each names.
const PROPERTIES: [(&str, u16); 5] = [
    ("0000", 0),
    ("0037", 0x37),
    ("0e1F", 0xe1f),
    ("ffff", u16::MAX),
    ("FFFF", u16::MAX),
];

// Words that name no property.
const NO_PROPERTIES: [&str; 11] = [
    "", "37", "037", "00037", "0x37", "0x0037", "003g", "+037", " 037", "é37", "00٣",
];

#[test]
fn four_hexadecimal_digits_name_a_property(rt: HostRuntime) {
    for (word, id) in PROPERTIES {
        is_at(&rt, word, read_property_id(word), Some(id));
    }
    for word in NO_PROPERTIES {
        is_at(&rt, word, read_property_id(word), None);
        lacks(&rt, &["value", "a.pst", "0x400024", word], Lack::Property);
    }
    // a bad path is told first
    lacks(&rt, &["value", "a.pst", "zz", "37"], Lack::Nid);
}

// Words, what they lack, and the word that is told of.
const LACKING: [(&[&str], Lack, Option<&str>); 10] = [
    (&["contents", "a.pst", "Inbox"], Lack::Nid, Some("Inbox")),
    (
        &["contents", "a", "0x122/0x21"],
        Lack::Nid,
        Some("0x122/0x21"),
    ),
    (&["contents", "--decode", "-", "21"], Lack::Nid, Some("21")),
    (
        &["props", "a", "0x21", "0x21/", "x"],
        Lack::Nid,
        Some("0x21/"),
    ),
    (
        &["props", "a", "0x1/0x2", "--places", "y"],
        Lack::Nid,
        Some("y"),
    ),
    (&["value", "a", "0X21", "37"], Lack::Nid, Some("0X21")),
    (
        &["value", "a", "0x21", "0x1000"],
        Lack::Property,
        Some("0x1000"),
    ),
    (
        &["value", "--text", "a", "0x21", "37"],
        Lack::Property,
        Some("37"),
    ),
    (&["explain", "Inbox"], Lack::Kind, Some("Inbox")),
    (&["contents", "--", "-a.pst", "21"], Lack::Nid, None),
];

fn is_lacking<R: Abort + AllocGlobal>(rt: &R, words: &[&str], lack: Lack, word: Option<&str>) {
    lacks(rt, words, lack);
    let all = words_of(rt, rt.alloc(), words);
    is_at(rt, words, lacking_word(rt.alloc(), &all, lack), word);
}

#[test]
fn the_word_that_names_nothing_is_told(rt: HostRuntime) {
    for (words, lack, word) in LACKING {
        is_lacking(&rt, words, lack, word);
    }
}
