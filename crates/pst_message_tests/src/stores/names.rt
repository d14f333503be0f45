//! What the properties of a store are called.

use super::{Name, NameKind, NameMap, Store, store_of};
use crate::told::{MEMORY, holds, is};
use pst_make::{m0, m2};
use pst_value::bytes_from;
use std::alloc::Global;
use std::process::Abort;

fn put_byte<R: Abort>(rt: &R, alloc: Global, line: &mut String, byte: u8) {
    let digits = format!(in alloc; "{byte:02x}").expect(rt, MEMORY);
    line.push_str(&digits).expect(rt, MEMORY);
}

fn put_number<R: Abort>(rt: &R, alloc: Global, line: &mut String, number: u32) {
    let text = format!(in alloc; " {number}").expect(rt, MEMORY);
    line.push_str(&text).expect(rt, MEMORY);
}

// A name: the GUID of its set, and the number or the bytes of the string.
fn put_name<R: Abort>(rt: &R, alloc: Global, line: &mut String, name: Name) {
    if let Some(set) = name.set {
        line.push_str(" ").expect(rt, MEMORY);
        for byte in set.as_bytes() {
            put_byte(rt, alloc, line, *byte);
        }
    }
    match name.kind {
        NameKind::Num(number) => put_number(rt, alloc, line, number),
        NameKind::Text(value) => {
            line.push_str(" text ").expect(rt, MEMORY);
            for byte in bytes_from(value) {
                put_byte(rt, alloc, line, byte);
            }
        }
    }
}

// What a property is called by the store.
fn called<R: Abort>(rt: &R, alloc: Global, store: &Store, id: u16) -> String {
    let mut line = String::from_str(alloc, "called").expect(rt, MEMORY);
    if let Some(name) = store.name(id) {
        put_name(rt, alloc, &mut line, name);
    }
    line
}

// The same by its name map.
fn called_in<R: Abort>(rt: &R, alloc: Global, names: NameMap, id: u16) -> String {
    let mut line = String::from_str(alloc, "called").expect(rt, MEMORY);
    if let Some(name) = names.name(id) {
        put_name(rt, alloc, &mut line, name);
    }
    line
}

const NAMES: [(u16, &str); 4] = [
    (
        0x8000,
        "called 33221100554477668899aabbccddeeff text 48006900",
    ),
    (0x8001, "called 0002032900000000c000000000000046 34049"),
    (0x8002, "called"),
    (0x0001, "called"),
];

fn is_called<R: Abort + AllocGlobal>(rt: &R, store: &Store, names: NameMap, row: (u16, &str)) {
    let (id, line) = row;
    let told = called(rt, rt.alloc(), store, id);
    is(rt, told.as_str(), line);
    let told = called_in(rt, rt.alloc(), names, id);
    is(rt, told.as_str(), line);
}

fn are_called<R: Abort + AllocGlobal>(rt: &R, store: &Store, names: NameMap) {
    for row in &NAMES {
        is_called(rt, store, names, *row);
    }
}

#[test]
fn properties_are_called(rt: HostRuntime) {
    let image = m2(rt.alloc()).expect(&rt, MEMORY);
    let store = store_of(&rt, rt.alloc(), &image);
    let names = store.names().expect(&rt, "no name map");
    is(&rt, names.node().nid(), 0x61);
    are_called(&rt, &store, names);
    let image = m0(rt.alloc()).expect(&rt, MEMORY);
    let store = store_of(&rt, rt.alloc(), &image);
    holds(&rt, store.names().is_none());
    holds(&rt, store.name(0x8000).is_none());
}
