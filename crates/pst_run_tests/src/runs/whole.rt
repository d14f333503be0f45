//! Runs with `--whole`: over damaged files the answers are those of another program.

use super::encoded::{encoded, is_run};
use pst_make::{Method, flip, m0, m1, set};
use std::test::Fail;

// M1 with a byte changed in the block of the hierarchy table of the root folder: that is shown, but for its rows, and leads nowhere.
const NO_ROWS: &str =
    "{\"folders\":[{\"associated\":0,\"messages\":0,\"name\":null,\"nid\":\"0x122\",\"path\":[\"0x122\"],\"subfolders\":null},{\"associated\":0,\"messages\":0,\"name\":null,\"nid\":\"0x142\",\"path\":null,\"subfolders\":[]}]}\n";

// M1 with a table there that breaks a rule: the root folder is broken by it.
const NO_ROOT: &str =
    "{\"folders\":[{\"associated\":0,\"messages\":0,\"name\":null,\"nid\":\"0x142\",\"path\":null,\"subfolders\":[]}]}\n";

const BOTH: &str =
    "{\"folders\":[{\"associated\":0,\"messages\":0,\"name\":null,\"nid\":\"0x122\",\"path\":[\"0x122\"],\"subfolders\":[\"0x142\"]},{\"associated\":0,\"messages\":0,\"name\":null,\"nid\":\"0x142\",\"path\":[\"0x122\",\"0x142\"],\"subfolders\":[]}]}\n";

const TWO_NODES: &str =
    "{\"nid\":\"0x21\",\"props\":[{\"id\":\"3001\",\"type\":\"001F\",\"value\":\"M0\"}]}\n{\"nid\":\"0x142\",\"props\":[{\"id\":\"3602\",\"type\":\"0003\",\"value\":5}]}\n";

#[test]
fn of_a_store_it_changes_nothing(rt: HostRuntime) -> Result<(), Fail> {
    let bytes = m1(rt.alloc())?;
    for words in [
        &["folders", "a.pst"][..],
        &["folders", "--whole", "a.pst"],
        &["folders", "a.pst", "--decode", "--whole"],
    ] {
        is_run(&rt, words, &bytes, 0, BOTH, "")?;
    }
    for method in [Method::Permute, Method::Cyclic] {
        let bytes = encoded(rt.alloc(), method)?;
        let words = &["folders", "--whole", "--decode", "a.pst"];
        is_run(&rt, words, &bytes, 0, BOTH, "")?;
    }
    Ok(())
}

#[test]
fn a_table_with_a_broken_block_is_null(rt: HostRuntime) -> Result<(), Fail> {
    let mut bytes = m1(rt.alloc())?;
    set(&mut bytes, 19_657, &[0x1a])?;
    is_run(
        &rt,
        &["folders", "--whole", "a.pst"],
        &bytes,
        0,
        NO_ROWS,
        "",
    )?;
    let line = "no: 15 BlockMissing at 0x0 bid 0xc nid 0x12d\n";
    let words = &["props", "--whole", "a.pst", "0x12D"];
    is_run(&rt, words, &bytes, 1, "", line)?;
    let words = &["props", "a.pst", "0x21", "--whole", "0x142"];
    is_run(&rt, words, &bytes, 0, TWO_NODES, "")?;
    let line = "no: 14 BlockTrailer at 0x4c80 bid 0xc nid 0x0\n";
    is_run(&rt, &["folders", "a.pst"], &bytes, 1, "", line)
}

#[test]
fn a_broken_folder_is_left_out_and_its_fault_told(rt: HostRuntime) -> Result<(), Fail> {
    let mut bytes = m1(rt.alloc())?;
    set(&mut bytes, 19_642, &[0x43])?;
    set(&mut bytes, 19_700, &[0x77, 0xca, 0x12, 0xe8])?;
    is_run(
        &rt,
        &["folders", "--whole", "a.pst"],
        &bytes,
        0,
        NO_ROOT,
        "",
    )?;
    let line = "no: 25 Table at 0x4cba bid 0xc nid 0x12d\n";
    for words in [
        &["contents", "--whole", "a.pst", "0x122"],
        &["props", "--whole", "a.pst", "0x122"],
    ] {
        is_run(&rt, words, &bytes, 1, "", line)?;
    }
    let words = &["contents", "a.pst", "--whole", "0x142"];
    let empty = "{\"folder\":\"0x142\",\"messages\":[]}\n";
    is_run(&rt, words, &bytes, 0, empty, "")
}

#[test]
fn values_of_whole_nodes_are_written(rt: HostRuntime) -> Result<(), Fail> {
    let mut bytes = m0(rt.alloc())?;
    flip(&mut bytes, 19_575)?;
    let words = &["value", "--text", "--whole", "a.pst", "0x21", "3001"];
    is_run(&rt, words, &bytes, 0, "M0", "")?;
    let words = &["value", "--whole", "a.pst", "0x122", "3602"];
    let line = "no: 15 BlockMissing at 0x0 bid 0x8 nid 0x122\n";
    is_run(&rt, words, &bytes, 1, "", line)?;
    let words = &["value", "--whole", "a.pst", "0x21", "3002"];
    is_run(&rt, words, &bytes, 1, "", "no property 3002\n")
}

#[test]
fn of_a_file_that_was_cut_off_nothing_is_whole(rt: HostRuntime) -> Result<(), Fail> {
    let bytes = m1(rt.alloc())?;
    let cut = bytes.get(..17_920).expect(&rt, "too short");
    let none = "{\"folders\":[]}\n";
    is_run(&rt, &["folders", "--whole", "a.pst"], cut, 0, none, "")?;
    is_run(&rt, &["messages", "--whole", "a.pst"], cut, 0, "", "")
}

#[test]
fn a_file_outside_is_refused_as_ever(rt: HostRuntime) -> Result<(), Fail> {
    let line = "no: 1 Short at 0x0 bid 0x0 nid 0x0\n";
    is_run(&rt, &["folders", "--whole", "a.pst"], &[], 1, "", line)?;
    let bytes = encoded(rt.alloc(), Method::Cyclic)?;
    let line = "no: 4 Encoded(2) at 0x201 bid 0x0 nid 0x0\n";
    is_run(&rt, &["messages", "a.pst", "--whole"], &bytes, 1, "", line)
}
