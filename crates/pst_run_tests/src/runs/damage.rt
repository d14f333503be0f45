//! Runs of `damage`: over whole stores, broken headers and files that were cut off the answers are those of another program.

use super::encoded::{encoded, is_run};
use pst_make::{Method, flip, m0, m1, set};
use std::test::Fail;

const M0_WHOLE: &str =
    "{\"blocks\":[],\"header\":null,\"maps\":null,\"nodes\":[],\"pages\":[],\"whole\":{\"folders\":1,\"messages\":0,\"nodes\":2}}\n";

const M1_WHOLE: &str =
    "{\"blocks\":[],\"header\":null,\"maps\":null,\"nodes\":[],\"pages\":[],\"whole\":{\"folders\":2,\"messages\":0,\"nodes\":4}}\n";

const M0_DIGEST: &str =
    "{\"blocks\":[],\"header\":null,\"maps\":null,\"nodes\":[],\"pages\":[],\"sha256\":\"fad9565623624ccd53baedac897c48ca75dbda38b419cb8b6967b97ea848d681\",\"whole\":{\"folders\":1,\"messages\":0,\"nodes\":2}}\n";

const M1_PERMUTED: &str =
    "{\"blocks\":[],\"header\":null,\"maps\":null,\"nodes\":[],\"pages\":[],\"sha256\":\"9115834182a5c7eedb13d83d9cace5e92d785e7a1bf7b41ae14bf22a1e6722c2\",\"whole\":{\"folders\":2,\"messages\":0,\"nodes\":4}}\n";

// M0 with a wrong first check value, and with a wrong second one.
const FIRST_CHECK: &str =
    "{\"blocks\":[],\"header\":{\"at\":4,\"bid\":0,\"kind\":\"HeaderCheck\",\"nid\":\"0x0\",\"number\":5},\"maps\":null,\"nodes\":[],\"pages\":[],\"whole\":{\"folders\":1,\"messages\":0,\"nodes\":2}}\n";

const SECOND_CHECK: &str =
    "{\"blocks\":[],\"header\":{\"at\":524,\"bid\":0,\"kind\":\"HeaderCheck\",\"nid\":\"0x0\",\"number\":5},\"maps\":null,\"nodes\":[],\"pages\":[],\"whole\":{\"folders\":1,\"messages\":0,\"nodes\":2}}\n";

// M1, cut off before its trees.
const CUT: &str =
    "{\"blocks\":[],\"header\":{\"at\":184,\"bid\":0,\"kind\":\"Root\",\"nid\":\"0x0\",\"number\":6},\"maps\":null,\"nodes\":[],\"pages\":[{\"at\":18944,\"bid\":8,\"kind\":\"PagePlace\",\"nid\":\"0x0\",\"number\":8},{\"at\":18432,\"bid\":4,\"kind\":\"PagePlace\",\"nid\":\"0x0\",\"number\":8}],\"whole\":{\"folders\":0,\"messages\":0,\"nodes\":0}}\n";

// M1 with a byte changed in the block that is the data of both folders.
const NO_FOLDER: &str =
    "{\"blocks\":[{\"at\":19520,\"bid\":8,\"kind\":\"BlockTrailer\",\"nid\":\"0x0\",\"number\":14}],\"header\":null,\"maps\":null,\"nodes\":[{\"fault\":{\"at\":0,\"bid\":8,\"kind\":\"BlockMissing\",\"nid\":\"0x122\",\"number\":15},\"node\":\"0x122\"},{\"fault\":{\"at\":0,\"bid\":8,\"kind\":\"BlockMissing\",\"nid\":\"0x142\",\"number\":15},\"node\":\"0x142\"}],\"pages\":[],\"whole\":{\"folders\":0,\"messages\":0,\"nodes\":2}}\n";

#[test]
fn of_a_store_nothing_is_broken(rt: HostRuntime) -> Result<(), Fail> {
    let bytes = m0(rt.alloc())?;
    is_run(&rt, &["damage", "a.pst"], &bytes, 0, M0_WHOLE, "")?;
    is_run(
        &rt,
        &["damage", "--decode", "a.pst"],
        &bytes,
        0,
        M0_WHOLE,
        "",
    )?;
    is_run(
        &rt,
        &["damage", "a.pst", "--digest"],
        &bytes,
        0,
        M0_DIGEST,
        "",
    )?;
    let bytes = m1(rt.alloc())?;
    is_run(&rt, &["damage", "a.pst"], &bytes, 0, M1_WHOLE, "")
}

#[test]
fn a_broken_header_stops_nothing(rt: HostRuntime) -> Result<(), Fail> {
    for (at, byte, told) in [
        (248, 0, FIRST_CHECK),
        (4, 5, FIRST_CHECK),
        (524, 0xbb, SECOND_CHECK),
    ] {
        let mut bytes = m0(rt.alloc())?;
        set(&mut bytes, at, &[byte])?;
        is_run(&rt, &["damage", "a.pst"], &bytes, 1, told, "")?;
    }
    Ok(())
}

#[test]
fn of_a_file_that_was_cut_off_pages_are_broken(rt: HostRuntime) -> Result<(), Fail> {
    let bytes = m1(rt.alloc())?;
    let cut = bytes.get(..17_920).expect(&rt, "too short");
    is_run(&rt, &["damage", "a.pst"], cut, 1, CUT, "")
}

#[test]
fn a_broken_block_is_told_with_the_nodes_that_lack_it(rt: HostRuntime) -> Result<(), Fail> {
    let mut bytes = m1(rt.alloc())?;
    flip(&mut bytes, 0x4c5e)?;
    is_run(&rt, &["damage", "a.pst"], &bytes, 1, NO_FOLDER, "")?;
    for method in [Method::Permute, Method::Cyclic] {
        let mut bytes = encoded(rt.alloc(), method)?;
        flip(&mut bytes, 0x4c5e)?;
        is_run(
            &rt,
            &["damage", "--decode", "a.pst"],
            &bytes,
            1,
            NO_FOLDER,
            "",
        )?;
    }
    Ok(())
}

// The digest is of the file as it is stored.
#[test]
fn an_encoded_store_is_whole_where_it_is_decoded(rt: HostRuntime) -> Result<(), Fail> {
    let bytes = encoded(rt.alloc(), Method::Permute)?;
    let words = &["damage", "--decode", "--digest", "a.pst"];
    is_run(&rt, words, &bytes, 0, M1_PERMUTED, "")?;
    let bytes = encoded(rt.alloc(), Method::Cyclic)?;
    is_run(
        &rt,
        &["damage", "a.pst", "--decode"],
        &bytes,
        0,
        M1_WHOLE,
        "",
    )
}

#[test]
fn a_file_outside_is_refused(rt: HostRuntime) -> Result<(), Fail> {
    let words = &["damage", "a.pst"];
    let line = "no: 1 Short at 0x0 bid 0x0 nid 0x0\n";
    is_run(&rt, words, &[], 1, "", line)?;
    for (at, byte, line) in [
        (0, b'?', "no: 2 Magic at 0x0 bid 0x0 nid 0x0\n"),
        (8, b'?', "no: 2 Magic at 0x8 bid 0x0 nid 0x0\n"),
        (10, 15, "no: 3 Version(15) at 0xa bid 0x0 nid 0x0\n"),
        (513, 2, "no: 4 Encoded(2) at 0x201 bid 0x0 nid 0x0\n"),
    ] {
        let mut bytes = m0(rt.alloc())?;
        set(&mut bytes, at, &[byte])?;
        is_run(&rt, words, &bytes, 1, "", line)?;
        if at < 513 {
            is_run(&rt, &["damage", "--decode", "a.pst"], &bytes, 1, "", line)?;
        }
    }
    Ok(())
}
