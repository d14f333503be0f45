//! Values of a million spans, and numbers across pieces.

use super::*;
use crate::told::{holds, is};

// An XXBLOCK 0x0e that names one XBLOCK 1,021 times, which names one body 1,021 times: an empty one, and one of a byte.
const EMPTY_BODY: Bodies<'static> = &[(4, 0x63, 0)];

const EMPTY: Lists<'static> = &[(0x0a, 1, 0, &[(4, 1021)]), (0x0e, 2, 0, &[(0x0a, 1021)])];

const SHORT_BODY: Bodies<'static> = &[(4, 0x63, 1)];

const SHORT: Lists<'static> = &[
    (0x0a, 1, 1021, &[(4, 1021)]),
    (0x0e, 2, 1_042_441, &[(0x0a, 1021)]),
];

#[test]
fn a_million_empty_spans(rt: HostRuntime) {
    let alloc = rt.alloc();
    let image = store(&rt, alloc, EMPTY_BODY, EMPTY);
    let tree = Tree::read(&rt, alloc, Image::new(&image), 0x0e);
    is(&rt, tree.leaf_count(), 1_042_441);
    is(&rt, tree.leaf(1_042_440), Some(Span { at: 0x4c00, len: 0 }));
    is(&rt, tree.leaf(1_042_441), None);
    let empty = tree.value();
    is(&rt, shown(&empty), (true, 0, 0, [None; 2]));
    is(
        &rt,
        shown(&part_of(&rt, &empty, 0, 0)),
        (true, 0, 0, [None; 2]),
    );
    is(&rt, number(&empty, 0, 2), None);
    has_slices(&rt, &empty, &[0]);
}

#[test]
fn a_million_spans_of_one_byte(rt: HostRuntime) {
    let alloc = rt.alloc();
    let image = store(&rt, alloc, SHORT_BODY, SHORT);
    let long = Tree::read(&rt, alloc, Image::new(&image), 0x0e).value();
    is(&rt, extent(&long), (false, 1_042_441, 0x4c00));
    has_bytes(&rt, &long, &[(1_042_440, Some(0x63)), (1_042_441, None)]);
    ends_short(&rt, &long);
    is(&rt, len_of_all(long.slices()), 1_042_441);
}

fn ends_short<R: Abort>(rt: &R, long: &Value) {
    is(rt, number(long, 1_042_439, 2), Some(0x6363));
    is(rt, number(long, 1_042_440, 2), None);
    let last = part_of(rt, long, 1_040_441, 1_042_441);
    is(rt, extent(&last), (false, 2000, 0x4c00));
    let one = part_of(rt, long, 1_042_440, 1_042_441);
    is(rt, extent(&one), (true, 1, 0x4c00));
}

// How many bytes slices have in all.
fn len_of_all(slices: Slices) -> u64 {
    let mut total = 0u64;
    for slice in slices {
        total = total.saturating_add(slice.len() as u64);
    }
    total
}

// One body with bytes, named once in the middle of a million empty spans.
const ONE_OF_ALL: Bodies<'static> = &[(4, 0, 0), (8, 0x41, 3)];

const IN_THE_MIDDLE: Lists<'static> = &[
    (0x0a, 1, 0, &[(4, 1021)]),
    (0x0e, 1, 3, &[(4, 510), (8, 1), (4, 510)]),
    (0x12, 2, 3, &[(0x0a, 510), (0x0e, 1), (0x0a, 510)]),
];

#[test]
fn one_span_with_bytes_among_a_million(rt: HostRuntime) {
    let alloc = rt.alloc();
    let image = store(&rt, alloc, ONE_OF_ALL, IN_THE_MIDDLE);
    let tree = Tree::read(&rt, alloc, Image::new(&image), 0x12);
    is(&rt, tree.leaf(521_220), Some(Span { at: 0x4c40, len: 3 }));
    let three = tree.value();
    is(&rt, shown(&three), (true, 3, 0x4c40, [Some(0x41); 2]));
    has_bytes(&rt, &three, &[(2, Some(0x41)), (3, None)]);
    let part = part_of(&rt, &three, 1, 3);
    is(&rt, part.at(), 0x4c41);
    is(&rt, number(&three, 1, 2), Some(0x4141));
    is(&rt, number(&three, 0, 4), None);
}

// The first span and the last of a million have a byte each, and no other has one.
const TWO_OF_ALL: Bodies<'static> = &[(4, 0, 0), (8, 0x41, 1)];

const AT_BOTH_ENDS: Lists<'static> = &[
    (0x0a, 1, 0, &[(4, 1021)]),
    (0x0e, 1, 1, &[(8, 1), (4, 1020)]),
    (0x12, 1, 1, &[(4, 1020), (8, 1)]),
    (0x16, 2, 2, &[(0x0e, 1), (0x0a, 1019), (0x12, 1)]),
];

#[test]
fn spans_with_bytes_alone(rt: HostRuntime) {
    let alloc = rt.alloc();
    let image = store(&rt, alloc, TWO_OF_ALL, AT_BOTH_ENDS);
    let few = with_bytes_of(&Tree::read(&rt, alloc, Image::new(&image), 0x16));
    is(&rt, few.len(), 2);
    has_bytes(&rt, &few, &[(1, Some(0x41)), (2, None)]);
    has_slices(&rt, &few, &[1, 1]);
}

// The value of a tree, without the spans that have no bytes.
fn with_bytes_of<'a>(tree: &Tree<'a>) -> Value<'a> {
    tree.value().with_bytes()
}

// The number of so many bytes at an offset.
fn number(value: &Value, at: u64, size: u8) -> Option<u64> {
    match size {
        2 => value.number16(at).map(u64::from),
        4 => value.number32(at).map(u64::from),
        _ => value.number64(at),
    }
}

// Offsets and sizes, and the numbers that stand there in eight bytes 11, 22 22 and 33 33 33 33 33.
const NUMBERS: [(u64, u8, Option<u64>); 9] = [
    (0, 8, Some(0x3333_3333_3322_2211)),
    (0, 4, Some(0x3322_2211)),
    (4, 4, Some(0x3333_3333)),
    (5, 4, None),
    (0, 2, Some(0x2211)),
    (2, 2, Some(0x3322)),
    (7, 2, None),
    (1, 8, None),
    (u64::MAX, 8, None),
];

const THREE_BODIES: Bodies<'static> = &[(4, 0x11, 1), (8, 0x22, 2), (12, 0x33, 5)];

const OF_THREE: Lists<'static> = &[(0x12, 1, 8, &[(4, 1), (8, 1), (12, 1)])];

// Numbers whose bytes lie in several bodies.
#[test]
fn numbers_across_pieces(rt: HostRuntime) {
    let alloc = rt.alloc();
    let image = store(&rt, alloc, THREE_BODIES, OF_THREE);
    let image = Image::new(&image);
    let tree = Tree::read(&rt, alloc, image, 0x12);
    has_numbers(&rt, &tree.value());
    let two = value_of_leaf(&rt, &tree, image, 1);
    is(&rt, shown(&two), (true, 2, 0x4c40, [Some(0x22); 2]));
    is(&rt, number(&two, 0, 2), Some(0x2222));
    holds(&rt, empty_value(image).is_empty());
}

fn has_numbers<R: Abort>(rt: &R, eight: &Value) {
    for (at, size, wanted) in NUMBERS {
        is(rt, number(eight, at, size), wanted);
    }
}

// The value of the span with a number.
fn value_of_leaf<'a, R: Abort>(rt: &R, tree: &Tree<'a>, image: Image<'a>, n: u64) -> Value<'a> {
    let span = tree.leaf(n).expect(rt, "no leaf");
    let Some(_) = image.lend(span) else {
        rt.panic("no bytes");
    };
    value_at(image, span)
}
