//! The kinds of fault, and their lines.

use crate::stores::MEMORY;
use crate::told::is;
use pst_fault::*;
use std::alloc::Global;
use std::process::Abort;

fn line_of<R: Abort>(rt: &R, alloc: Global, fault: Fault) -> String {
    fault.to_string(alloc).expect(rt, MEMORY)
}

// The line of each kind, in the order of the numbers.
const KINDS: [(Kind, &str); 28] = [
    (Kind::Short, "no: 1 Short at 0x4c40 bid 0x8 nid 0x12d"),
    (Kind::Magic, "no: 2 Magic at 0x4c40 bid 0x8 nid 0x12d"),
    (
        Kind::Version(15),
        "no: 3 Version(15) at 0x4c40 bid 0x8 nid 0x12d",
    ),
    (
        Kind::Encoded(1),
        "no: 4 Encoded(1) at 0x4c40 bid 0x8 nid 0x12d",
    ),
    (
        Kind::HeaderCheck,
        "no: 5 HeaderCheck at 0x4c40 bid 0x8 nid 0x12d",
    ),
    (Kind::Root, "no: 6 Root at 0x4c40 bid 0x8 nid 0x12d"),
    (
        Kind::MapsInvalid,
        "no: 7 MapsInvalid at 0x4c40 bid 0x8 nid 0x12d",
    ),
    (
        Kind::PagePlace,
        "no: 8 PagePlace at 0x4c40 bid 0x8 nid 0x12d",
    ),
    (
        Kind::PageTrailer,
        "no: 9 PageTrailer at 0x4c40 bid 0x8 nid 0x12d",
    ),
    (
        Kind::PageShape,
        "no: 10 PageShape at 0x4c40 bid 0x8 nid 0x12d",
    ),
    (
        Kind::KeyOrder,
        "no: 11 KeyOrder at 0x4c40 bid 0x8 nid 0x12d",
    ),
    (Kind::Overlap, "no: 12 Overlap at 0x4c40 bid 0x8 nid 0x12d"),
    (
        Kind::BlockPlace,
        "no: 13 BlockPlace at 0x4c40 bid 0x8 nid 0x12d",
    ),
    (
        Kind::BlockTrailer,
        "no: 14 BlockTrailer at 0x4c40 bid 0x8 nid 0x12d",
    ),
    (
        Kind::BlockMissing,
        "no: 15 BlockMissing at 0x4c40 bid 0x8 nid 0x12d",
    ),
    (
        Kind::DataTree,
        "no: 16 DataTree at 0x4c40 bid 0x8 nid 0x12d",
    ),
    (Kind::Subnode, "no: 17 Subnode at 0x4c40 bid 0x8 nid 0x12d"),
    (Kind::Nesting, "no: 18 Nesting at 0x4c40 bid 0x8 nid 0x12d"),
    (Kind::MapPage, "no: 19 MapPage at 0x4c40 bid 0x8 nid 0x12d"),
    (
        Kind::MapMissing,
        "no: 20 MapMissing at 0x4c40 bid 0x8 nid 0x12d",
    ),
    (Kind::Heap, "no: 21 Heap at 0x4c40 bid 0x8 nid 0x12d"),
    (Kind::HeapId, "no: 22 HeapId at 0x4c40 bid 0x8 nid 0x12d"),
    (Kind::Bth, "no: 23 Bth at 0x4c40 bid 0x8 nid 0x12d"),
    (
        Kind::Property,
        "no: 24 Property at 0x4c40 bid 0x8 nid 0x12d",
    ),
    (Kind::Table, "no: 25 Table at 0x4c40 bid 0x8 nid 0x12d"),
    (
        Kind::NodeMissing,
        "no: 26 NodeMissing at 0x4c40 bid 0x8 nid 0x12d",
    ),
    (
        Kind::NodeKind,
        "no: 27 NodeKind at 0x4c40 bid 0x8 nid 0x12d",
    ),
    (
        Kind::NoMemory,
        "no: 28 NoMemory at 0x4c40 bid 0x8 nid 0x12d",
    ),
];

const PLACE: Place = Place {
    at: 0x4c40,
    bid: 8,
    nid: 0x12d,
};

fn has_line<R: Abort + AllocGlobal>(rt: &R, number: usize, kind: Kind, line: &str) {
    is(rt, usize::from(kind.number()), number);
    let text = line_of(rt, rt.alloc(), Fault { kind, place: PLACE });
    is(rt, text.as_str(), line);
}

#[test]
fn each_kind_prints_its_line(rt: HostRuntime) {
    for (i, (kind, line)) in KINDS.iter().enumerate() {
        has_line(&rt, i + 1, *kind, line);
    }
}

// Numbers have no leading zeros, and are printed whole.
const WHOLE: [(Kind, u64, u64, u32, &str); 4] = [
    (Kind::Short, 0, 0, 0, "no: 1 Short at 0x0 bid 0x0 nid 0x0"),
    (
        Kind::Version(65535),
        10,
        0,
        0,
        "no: 3 Version(65535) at 0xa bid 0x0 nid 0x0",
    ),
    (
        Kind::Encoded(255),
        513,
        0,
        0,
        "no: 4 Encoded(255) at 0x201 bid 0x0 nid 0x0",
    ),
    (
        Kind::Nesting,
        u64::MAX,
        u64::MAX,
        u32::MAX,
        "no: 18 Nesting at 0xffffffffffffffff bid 0xffffffffffffffff nid 0xffffffff",
    ),
];

fn is_whole<R: Abort + AllocGlobal>(rt: &R, row: (Kind, u64, u64, u32, &str)) {
    let (kind, at, bid, nid, line) = row;
    let place = Place { at, bid, nid };
    let text = line_of(rt, rt.alloc(), Fault { kind, place });
    is(rt, text.as_str(), line);
}

#[test]
fn places_are_printed_whole(rt: HostRuntime) {
    for row in &WHOLE {
        is_whole(&rt, *row);
    }
}

#[test]
fn faults_are_made_at_their_places(rt: HostRuntime) {
    let fault = Fault::within(Kind::BlockTrailer, 0x4c00, 4).at_node(0x21);
    let place = Place {
        at: 0x4c00,
        bid: 4,
        nid: 0x21,
    };
    is(
        &rt,
        fault,
        Fault {
            kind: Kind::BlockTrailer,
            place,
        },
    );
    is(
        &rt,
        Fault::at(Kind::Root, 192).place,
        Place {
            at: 192,
            bid: 0,
            nid: 0,
        },
    );
}
