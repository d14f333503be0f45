//! The method that a header names, changed alone.

use crate::told::{MEMORY, is_at};
use pst_make::{Change, m0, set};
use pst_plain::set_method;
use std::process::Abort;

// Makes bCryptMethod another number.
fn put_method<R: Abort>(rt: &R, image: &mut [u8], number: u8) {
    if image.len() < 564 {
        rt.panic("no header");
    }
    set_method(number, image);
}

// A header with another number has the check values of one that was made with it, and with 0 again it is as it was.
#[test]
fn a_method_is_set(rt: HostRuntime) {
    for number in [1, 2, 3, 255] {
        let mut image = m0(rt.alloc()).expect(&rt, MEMORY);
        let mut made = m0(rt.alloc()).expect(&rt, MEMORY);
        set(&mut made, 513, &[number]).expect(&rt, "past the end");
        Change::Header.apply(&mut made).expect(&rt, "past the end");
        put_method(&rt, &mut image, number);
        is_at(&rt, number, image.as_slice() == made.as_slice(), true);
        put_method(&rt, &mut image, 0);
        is_at(
            &rt,
            number,
            image.as_slice() == m0(rt.alloc()).expect(&rt, MEMORY).as_slice(),
            true,
        );
    }
}
