//! Runs over encoded stores, with `--decode` and without.

use super::check_good::{M0_YES, M1_YES};
use super::run_of;
use pst_make::{Method, build, encode, flip, m0, m1_plan};
use std::alloc::Global;
use std::process::Abort;
use std::test::Fail;

const FOLDERS: &str =
    "{\"folders\":[{\"associated\":0,\"messages\":0,\"name\":null,\"nid\":\"0x122\",\"path\":[\"0x122\"],\"subfolders\":[\"0x142\"]},{\"associated\":0,\"messages\":0,\"name\":null,\"nid\":\"0x142\",\"path\":[\"0x122\",\"0x142\"],\"subfolders\":[]}]}\n";

/// M1, encoded by a method.
pub(super) fn encoded(alloc: Global, method: Method) -> Result<Vec<u8>, Fail> {
    let plan = m1_plan(alloc)?;
    let mut image = build(alloc, &plan).map_err(|_| "no store")?;
    encode(alloc, &mut image, &plan, method).map_err(|_| "not encoded")?;
    Ok(image)
}

/// Runs words over bytes.
pub(super) fn is_run<R: Abort + AllocGlobal>(
    rt: &R,
    words: &[&str],
    bytes: &[u8],
    status: u8,
    out: &str,
    err: &str,
) -> Result<(), Fail> {
    let mut input = bytes;
    run_of(rt, words, &mut input, status, out, err)
}

#[test]
fn an_encoded_store_is_decoded_where_that_is_asked_for(rt: HostRuntime) -> Result<(), Fail> {
    for (method, refused) in [
        (
            Method::Permute,
            "no: 4 Encoded(1) at 0x201 bid 0x0 nid 0x0\n",
        ),
        (
            Method::Cyclic,
            "no: 4 Encoded(2) at 0x201 bid 0x0 nid 0x0\n",
        ),
    ] {
        let bytes = encoded(rt.alloc(), method)?;
        is_run(&rt, &["check", "a.pst"], &bytes, 1, "", refused)?;
        is_run(&rt, &["check", "--decode", "a.pst"], &bytes, 0, M1_YES, "")?;
        is_run(
            &rt,
            &["folders", "a.pst", "--decode"],
            &bytes,
            0,
            FOLDERS,
            "",
        )?;
        let none = "no node 0x999\n";
        is_run(
            &rt,
            &["props", "--decode", "a.pst", "0x999"],
            &bytes,
            1,
            "",
            none,
        )?;
    }
    Ok(())
}

// Decoding hides no damage: the place is that in the file.
#[test]
fn a_byte_that_changed_is_found_in_an_encoded_store(rt: HostRuntime) -> Result<(), Fail> {
    let mut bytes = encoded(rt.alloc(), Method::Cyclic)?;
    flip(&mut bytes, 0x4c5e)?;
    let fault = "no: 14 BlockTrailer at 0x4c40 bid 0x8 nid 0x0\n";
    is_run(&rt, &["check", "--decode", "a.pst"], &bytes, 1, "", fault)
}

#[test]
fn a_plain_store_is_its_own_twin(rt: HostRuntime) -> Result<(), Fail> {
    let bytes = m0(rt.alloc())?;
    is_run(&rt, &["check", "--decode", "a.pst"], &bytes, 0, M0_YES, "")
}
