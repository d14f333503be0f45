//! What the readers say of bytes, in one piece and in several.

use super::*;
use crate::told::{holds, is, is_at};

// How many values there are, of a type, in so many bytes.
const COUNTS: [(u16, &[u8], Option<u32>); 20] = [
    (0x1002, &[], Some(0)),
    (0x1002, &[1, 2, 3], None),
    (0x1002, &[1, 2, 3, 4], Some(2)),
    (0x1003, &[1, 2, 3, 4], Some(1)),
    (0x1004, &[1, 2, 3, 4, 5, 6, 7, 8], Some(2)),
    (0x1005, &[1, 2, 3, 4, 5, 6, 7, 8], Some(1)),
    (0x1006, &[1, 2, 3, 4], None),
    (0x1007, &[1, 2, 3, 4, 5, 6, 7, 8], Some(1)),
    (0x1014, &[1, 2, 3, 4, 5, 6, 7, 8], Some(1)),
    (0x1040, &[1, 2, 3, 4, 5, 6, 7, 8], Some(1)),
    (0x1048, &[1, 2, 3, 4, 5, 6, 7, 8], None),
    (0x0003, &[1, 2, 3, 4], None),
    (0x101E, &[], Some(0)),
    (0x101F, &[0, 0, 0], None),
    (0x1102, &[0, 0, 0, 0], Some(0)),
    (0x1102, &[1, 0, 0, 0, 8, 0, 0, 0], Some(1)),
    (0x1102, &[1, 0, 0, 0, 7, 0, 0, 0], None),
    (0x1102, &[1, 0, 0, 0, 9, 0, 0, 0], None),
    (0x101E, &[2, 0, 0, 0, 13, 0, 0, 0, 12, 0, 0, 0, 65], None),
    (0x101F, &[255, 255, 255, 255], None),
];

// The bytes of each value of a value of several, one after another, each behind its length.
fn listed<R: Abort>(rt: &R, alloc: Global, value: Value, kind: u16) -> Vec<u8> {
    let mut all = Vec::new(alloc);
    let Some(elements) = elements_from(&value, PropType(kind)) else {
        rt.panic("no list");
    };
    for one in elements {
        all.push((one.len() % 256) as u8).expect(rt, MEMORY);
        for byte in bytes_from(one) {
            all.push(byte).expect(rt, MEMORY);
        }
    }
    all
}

const HIGH: [u8; 8] = [0xfe, 0xff, 0xff, 0xff, 0xff, 0xff, 0xff, 0xff];

// Numbers and truth values of bytes in one piece.
fn numbers_of_bytes<R: Abort>(rt: &R) {
    is(rt, as_i16(&Value::Whole(0, &HIGH[..2])), Some(-2));
    is(rt, as_i32(&Value::Whole(0, &HIGH[..4])), Some(-2));
    is(rt, as_i64(&Value::Whole(0, &HIGH)), Some(-2));
    is(rt, as_u32(&Value::Whole(0, &HIGH[..4])), Some(0xffff_fffe));
    is(
        rt,
        as_u64(&Value::Whole(0, &HIGH)),
        Some(0xffff_ffff_ffff_fffe),
    );
    is(rt, as_bool(&Value::Whole(0, &HIGH[..1])), Some(true));
    is(rt, as_bool(&Value::Whole(0, &[0])), Some(false));
}

#[test]
fn bytes_are_read(rt: HostRuntime) {
    numbers_of_bytes(&rt);
    let text = Value::Whole(0, &[0x41, 0, 0, 0xd8, 0x42]);
    is(&rt, units16(text).next(), Some(0x41));
    is(&rt, units16(text).count(), 2);
    for (kind, bytes, count) in COUNTS {
        let value = Value::Whole(0, bytes);
        is_at(&rt, kind, multi_count(&value, PropType(kind)), count);
    }
}

// The bytes of a value from one number to another, which it has.
fn part<'a, R: Abort>(rt: &R, whole: Value<'a>, from: u64, to: u64) -> Value<'a> {
    whole.part(from, to).expect(rt, "no part")
}

// Numbers of parts of the GUID, which lie in several pieces.
fn parts_are_read<R: Abort>(rt: &R, whole: Value) {
    is(rt, as_i16(&part(rt, whole, 2, 4)), Some(2));
    is(rt, as_i32(&part(rt, whole, 1, 5)), Some(0x203));
    is(rt, as_u32(&part(rt, whole, 1, 5)), Some(0x203));
    is(rt, as_i64(&part(rt, whole, 0, 8)), Some(0x20328));
    is(
        rt,
        as_u64(&part(rt, whole, 1, 9)),
        Some(0xc000_0000_0000_0203),
    );
    is(rt, units16(part(rt, whole, 1, 4)).next(), Some(0x203));
    is(rt, as_object(&whole), Some((0x20328, 0)));
    is(rt, as_bool(&whole), None);
}

// The GUID, and its bytes as two numbers of 8.
fn guid_is_read<R: Abort>(rt: &R, alloc: Global, whole: Value) {
    let guid = as_guid(&whole).expect(rt, "no GUID");
    let text = format!(in alloc; "{guid}").expect(rt, MEMORY);
    is(rt, text.as_str(), "00020328-0000-0000-c000-000000000046");
    let numbers = listed(rt, alloc, whole, 0x1014);
    is(rt, numbers.as_slice(), NUMBERS.as_slice());
}

const NUMBERS: [u8; 18] = [
    8, 0x28, 3, 2, 0, 0, 0, 0, 0, 8, 0xc0, 0, 0, 0, 0, 0, 0, 0x46,
];

// The two texts.
fn texts_are_read<R: Abort>(rt: &R, alloc: Global, texts: Value) {
    is(rt, multi_count(&texts, PropType(0x101F)), Some(2));
    let both = listed(rt, alloc, texts, 0x101F);
    let wanted = [2, b'A', 0, 4, b'B', 0, b'C', 0];
    is(rt, both.as_slice(), wanted.as_slice());
    let last = multi(texts, PropType(0x101F), 1).expect(rt, "no text");
    is(rt, units16(last).next(), Some(u16::from(b'B')));
    holds(rt, multi(texts, PropType(0x101F), 2).is_none());
}

#[test]
fn pieces_are_read(rt: HostRuntime) {
    let alloc = rt.alloc();
    let image = store(&rt, alloc);
    let heap = heap_in(&rt, alloc, &image, 0x21);
    let whole = named(&rt, &heap, 10);
    holds(&rt, matches!(whole, Value::Pieces(_)));
    parts_are_read(&rt, whole);
    guid_is_read(&rt, alloc, whole);
    let texts = named(&rt, &heap, 13);
    texts_are_read(&rt, alloc, texts);
}
