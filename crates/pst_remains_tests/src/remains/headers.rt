//! Headers that are wrong, and files that end early.

use super::*;
use pst_make::Change::{Cut, Grow, Header, Set};
use pst_make::{m1, m2};

// What another program tells of these files: the small stores as they are, three with a byte of the header changed, and the
// second one cut off before its first allocation map ends.
const OTHERS: [Row<'static>; 4] = [
    (&[], "left 2 blocks 2 nodes"),
    (
        &[Set(248, &[0])],
        "header HeaderCheck 0x4 0x0, left 2 blocks 2 nodes",
    ),
    (
        &[Set(4, &[5])],
        "header HeaderCheck 0x4 0x0, left 2 blocks 2 nodes",
    ),
    (
        &[Set(524, &[0xbb])],
        "header HeaderCheck 0x20c 0x0, left 2 blocks 2 nodes",
    ),
];

#[test]
fn what_another_program_tells(rt: HostRuntime) {
    are_told(&rt, rt.alloc(), &OTHERS);
    let mut second = m1(rt.alloc()).expect(&rt, MEMORY);
    is_told(&rt, rt.alloc(), 0, &second, "left 3 blocks 4 nodes");
    is_told(
        &rt,
        rt.alloc(),
        0,
        &m2(rt.alloc()).expect(&rt, MEMORY),
        "left 3 blocks 3 nodes",
    );
    Cut(17_920).apply(&mut second).expect(&rt, "past the end");
    let line =
        "header Root 0xb8 0x0, page PagePlace 0x4a00 0x8, page PagePlace 0x4800 0x4, left 0 blocks 0 nodes";
    is_told(&rt, rt.alloc(), 17_920, &second, line);
}

// fAMapValid 0; ibFileEof a byte behind the file, and within a block, with right check values and without; ibAMapLast where no
// map may stand.
const FIELDS: [Row<'static>; 6] = [
    (
        &[Set(248, &[0]), Header],
        "header MapsInvalid 0xf8 0x0, left 2 blocks 2 nodes",
    ),
    (
        &[Set(184, &[0x01, 0x24, 0x04]), Header],
        "header Root 0xb8 0x0, left 2 blocks 2 nodes",
    ),
    (
        &[Set(184, &[0x70, 0x4c, 0x00]), Header],
        "block BlockPlace 0x4c40 0x8, left 1 blocks 2 nodes",
    ),
    (
        &[Set(184, &[0x70, 0x4c, 0x00])],
        "header HeaderCheck 0x4 0x0, left 2 blocks 2 nodes",
    ),
    (
        &[Set(184, &[0x70, 0x4c, 0x00]), Set(248, &[0]), Header],
        "header MapsInvalid 0xf8 0x0, block BlockPlace 0x4c40 0x8, left 1 blocks 2 nodes",
    ),
    (
        &[Set(192, &[0x00, 0x46]), Header],
        "header Root 0xc0 0x0, left 2 blocks 2 nodes",
    ),
];

#[test]
fn fields_of_the_header(rt: HostRuntime) {
    are_told(&rt, rt.alloc(), &FIELDS);
}

// A file that goes on, one that ends within the second block, at its start, within the first allocation map, within the page
// map behind it, and with its header.
const ENDS: [Row<'static>; 6] = [
    (&[Grow(1000)], "left 2 blocks 2 nodes"),
    (
        &[Cut(0x4c7f)],
        "header Root 0xb8 0x0, block BlockPlace 0x4c40 0x8, left 1 blocks 2 nodes",
    ),
    (
        &[Cut(0x4c00)],
        "header Root 0xb8 0x0, block BlockPlace 0x4c00 0x4, block BlockPlace 0x4c40 0x8, left 0 blocks 2 nodes",
    ),
    (
        &[Cut(0x4800)],
        "header Root 0xb8 0x0, page PagePlace 0x4a00 0x8, page PagePlace 0x4800 0x4, left 0 blocks 0 nodes",
    ),
    (
        &[Cut(0x47ff)],
        "header Root 0xb8 0x0, page PagePlace 0x4a00 0x8, page PagePlace 0x4800 0x4, left 0 blocks 0 nodes",
    ),
    (
        &[Cut(564)],
        "header Root 0xb8 0x0, page PagePlace 0x4a00 0x8, page PagePlace 0x4800 0x4, left 0 blocks 0 nodes",
    ),
];

#[test]
fn files_that_end_early(rt: HostRuntime) {
    are_told(&rt, rt.alloc(), &ENDS);
}
