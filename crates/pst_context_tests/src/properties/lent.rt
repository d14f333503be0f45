//! What a property context lends: its properties by their identifiers, their bytes in the file's own memory.

use crate::made::MEMORY;
use crate::told::{holds, holds_at, is};
use pst_datatree::Value;
use pst_pc::Pc;
use pst_value::{PropType, as_guid, as_i32, units16};
use std::alloc::Global;
use std::process::Abort;

// Identifiers that no property has.
const ABSENT: [u16; 7] = [0, 0x36, 0x38, 0x1001, 0x3700, 0x3702, 0xffff];

pub(super) fn absent<R: Abort>(rt: &R, pc: &Pc) {
    for id in ABSENT {
        holds_at(rt, id, pc.get(id).is_none());
    }
}

// The subject, in one piece.
pub(super) fn subject<R: Abort>(rt: &R, pc: &Pc) {
    let subject = pc.get(0x37).expect(rt, "no subject");
    let Value::Whole(_, bytes) = subject.value else {
        rt.panic("in pieces");
    };
    is(rt, bytes, [0x41, 0, 0, 0xd8].as_slice());
}

pub(super) fn guid<R: Abort>(rt: &R, alloc: Global, pc: &Pc) {
    let value = pc.get(0x3701).expect(rt, "no GUID").value;
    let guid = as_guid(&value).expect(rt, "no GUID");
    let text = format!(in alloc; "{guid}").expect(rt, MEMORY);
    is(rt, text.as_str(), "00020328-0000-0000-c000-000000000046");
}

// The body, in two pieces.
pub(super) fn body<R: Abort>(rt: &R, pc: &Pc) {
    let body = pc.get(0x1000).expect(rt, "no body");
    is(rt, body.kind, PropType(0x1f));
    holds(rt, matches!(body.value, Value::Pieces(_)));
    let mut units = units16(body.value);
    is(rt, units.next(), Some(u16::from(b'P')));
    is(rt, units.next(), Some(u16::from(b'S')));
    is(rt, units.next(), None);
    is(rt, as_i32(&body.value), None);
}
