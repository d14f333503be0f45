//! The small store, changed, and the digests of images. What goes wrong here ends the test, so that no caller has a way out to prove.

use pst_make::{Change, change_all, m0};
use sha2::{Digest, Sha256};
use std::alloc::Global;
use std::process::Abort;

/// What a test ends with where memory was refused.
pub(crate) const MEMORY: &str = "no memory";

/// The small store.
pub(crate) fn small<R: Abort>(rt: &R, alloc: Global) -> Vec<u8> {
    m0(alloc).expect(rt, MEMORY)
}

/// The small store, changed.
pub(crate) fn changed<R: Abort>(rt: &R, alloc: Global, changes: &[Change]) -> Vec<u8> {
    let mut image = small(rt, alloc);
    change_all(&mut image, changes).expect(rt, "past the end");
    image
}

/// The SHA-256 of bytes, in hexadecimal.
pub(crate) fn digest_of<R: Abort>(rt: &R, alloc: Global, bytes: &[u8]) -> String {
    let digest: [u8; 32] = Sha256::digest(bytes);
    hex::encode(alloc, digest.as_slice()).expect(rt, MEMORY)
}
