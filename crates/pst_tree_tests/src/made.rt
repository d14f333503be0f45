//! The small store, changed. What goes wrong here ends the test, so that no caller has a way out to prove.

use pst_make::{Change, change_all, m0};
use std::alloc::Global;
use std::process::Abort;

/// What a test ends with where memory was refused.
pub(crate) const MEMORY: &str = "no memory";

/// The small store.
pub(crate) fn small<R: Abort>(rt: &R, alloc: Global) -> Vec<u8> {
    m0(alloc).expect(rt, MEMORY)
}

/// Changes an image.
pub(crate) fn change<R: Abort>(rt: &R, image: &mut Vec<u8>, changes: &[Change]) {
    change_all(image, changes).expect(rt, "past the end");
}

/// The small store, changed.
pub(crate) fn changed<R: Abort>(rt: &R, alloc: Global, changes: &[Change]) -> Vec<u8> {
    let mut image = small(rt, alloc);
    change(rt, &mut image, changes);
    image
}
