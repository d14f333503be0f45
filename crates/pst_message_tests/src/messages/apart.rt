//! Messages that share their data or their tables, each by a list of subnodes of its own.

use super::are_answered;
use crate::makers::Body::{Apart, Bytes, List, Properties};
use crate::makers::{Entry, Record};
use crate::told::MEMORY;
use std::alloc::Global;
use std::process::Abort;

// Two messages, and three.
const TWO: [Entry; 2] = [(0x20_0024, 12, 30), (0x20_0044, 12, 34)];

const THREE: [Entry; 3] = [
    (0x20_0024, 12, 30),
    (0x20_0044, 12, 34),
    (0x20_0064, 12, 38),
];

// The records of a property context of 2,410 bytes and more: the first value, a GUID, is in subnode 0x41, all others are numbers.
fn many_records<R: Abort>(rt: &R, alloc: Global) -> Vec<Record> {
    let mut records = Vec::new(alloc);
    records.push((1, 0x48, 0x41)).expect(rt, MEMORY);
    for id in 2..302_u16 {
        records.push((id, 3, 7)).expect(rt, MEMORY);
    }
    records
}

// Messages that share these. In the first two lists subnode 0x41 has the data 16; the third has one subnode, with this data.
fn share_data<R: Abort + AllocGlobal>(rt: &R, nid: u32, data: u64, messages: &[Entry], line: &str) {
    let records = many_records(rt, rt.alloc());
    let blocks = [
        (12, Properties(&records, &[])),
        (16, Bytes(&[7; 16])),
        (20, Bytes(&[7; 4])),
        (30, List(&[(0x41, 16, 0)])),
        (34, List(&[(0x21, 20, 0), (0x41, 16, 0)])),
        (38, List(&[(nid, data, 0)])),
    ];
    are_answered(rt, &blocks, messages, line);
}

#[test]
fn data_by_lists_of_their_own(rt: HostRuntime) {
    share_data(&rt, 0x41, 16, &TWO, "yes 4");
    share_data(&rt, 0x41, 16, &THREE, "yes 5");
    // The third list has no such subnode, or one whose data is too short.
    let line = "no: 17 Subnode at 0x4c98 bid 0xc nid 0x200064";
    share_data(&rt, 0x61, 16, &THREE, line);
    let line = "no: 24 Property at 0x4c94 bid 0xc nid 0x200064";
    share_data(&rt, 0x41, 20, &THREE, line);
}

// Messages that share the table of two recipients, whose row matrix is subnode 0x41. In the first two lists of the table that has
// the data 16, in the third one this: 24 has another row in place of the second one.
fn share_a_table<R: Abort + AllocGlobal>(
    rt: &R,
    nid: u32,
    data: u64,
    messages: &[Entry],
    line: &str,
) {
    let blocks = [
        (12, Properties(&[], &[])),
        (16, Bytes(&[1, 0, 0, 0, 0x80, 2, 0, 0, 0, 0x80])),
        (20, Apart(&[1, 2])),
        (24, Bytes(&[1, 0, 0, 0, 0x80, 3, 0, 0, 0, 0x80])),
        (30, List(&[(0x692, 20, 42)])),
        (34, List(&[(0x692, 20, 46)])),
        (38, List(&[(0x692, 20, 50)])),
        (42, List(&[(0x41, 16, 0)])),
        (46, List(&[(0x41, 17, 0)])),
        (50, List(&[(nid, data, 0)])),
    ];
    are_answered(rt, &blocks, messages, line);
}

#[test]
fn tables_by_lists_of_their_own(rt: HostRuntime) {
    share_a_table(&rt, 0x41, 16, &TWO, "yes 6");
    share_a_table(&rt, 0x41, 16, &THREE, "yes 8");
    // The third list has no matrix, or another one, whose second row is not that of the record.
    let line = "no: 17 Subnode at 0x4d1a bid 0x14 nid 0x200064";
    share_a_table(&rt, 0x61, 16, &THREE, line);
    let line = "no: 25 Table at 0x4d44 bid 0x14 nid 0x200064";
    share_a_table(&rt, 0x41, 24, &THREE, line);
}

// Two messages that share a table of two attachments, 0x8025 and 0x8045, whose row matrix is subnode 0x41. Both are an attachment
// without properties; in the list of the second message the second one has this identifier.
fn share_attachments<R: Abort + AllocGlobal>(rt: &R, nid: u32, line: &str) {
    let blocks = [
        (12, Properties(&[], &[])),
        (16, Bytes(&[0x25, 0x80, 0, 0, 0x80, 0x45, 0x80, 0, 0, 0x80])),
        (20, Apart(&[0x8025, 0x8045])),
        (
            30,
            List(&[(0x671, 20, 42), (0x8025, 12, 0), (0x8045, 12, 0)]),
        ),
        (34, List(&[(0x671, 20, 46), (0x8025, 12, 0), (nid, 12, 0)])),
        (42, List(&[(0x41, 16, 0)])),
        (46, List(&[(0x41, 17, 0)])),
    ];
    are_answered(rt, &blocks, &TWO, line);
}

#[test]
fn attachments_by_lists_of_their_own(rt: HostRuntime) {
    share_attachments(&rt, 0x8045, "yes 7");
    // The list of the second message has another one than the second row names.
    let line = "no: 26 NodeMissing at 0x4d44 bid 0x14 nid 0x8045";
    share_attachments(&rt, 0x8065, line);
}

// Folders that share the data of a table of one subfolder, whose row matrix is subnode 0x41, each under a list of its own: in the
// second one that has this data.
fn share_a_listing<R: Abort + AllocGlobal>(rt: &R, data: u64, line: &str) {
    let blocks = [
        (12, Apart(&[0x142])),
        (16, Bytes(&[0x42, 1, 0, 0, 0x80])),
        (20, Bytes(&[0x43, 1, 0, 0, 0x80])),
        (30, List(&[(0x41, 16, 0)])),
        (34, List(&[(0x41, data, 0)])),
    ];
    let nodes = [(0x12d, 12, 30), (0x142, 8, 0), (0x14d, 12, 34)];
    are_answered(rt, &blocks, &nodes, line);
}

#[test]
fn listings_by_lists_of_their_own(rt: HostRuntime) {
    share_a_listing(&rt, 16, "yes 4");
    // The second list has another matrix, whose row is not that of the record.
    let line = "no: 25 Table at 0x4cb7 bid 0xc nid 0x14d";
    share_a_listing(&rt, 20, line);
}
