//! `check` over fronts of a store, forged trailers, and files with two faults: the first one is told.

use super::check_cases::Answer::{No, Yes};
use super::check_cases::{Answer, Case, Store, is_answered, store_of};
use super::check_files::{BLOCK_TREES, BLOCKS, HEADERS, MAPS, NODE_TREES};
use super::check_good::{M0_YES, M1_YES};
use super::check_nodes::NODES;
use pst_make::Change::{Flip, Page, Set};
use pst_make::{Change, change_all, flip, set};
use std::process::Abort;
use std::test::Fail;

const SHORT: Answer<'static> = No("no: 1 Short at 0x0 bid 0x0 nid 0x0\n");

// The small store cut after each unit of 64 bytes. The header says where the file ends.
#[test]
fn fronts_are_refused(rt: HostRuntime) -> Result<(), Fail> {
    let image = store_of(rt.alloc(), Store::M0)?;
    for n in 0..4240_usize {
        let front = image.get(..64 * n).expect(&rt, "too short");
        let answer = if n <= 8 {
            SHORT
        } else {
            No("no: 6 Root at 0xb8 bid 0x0 nid 0x0\n")
        };
        is_answered(&rt, front, answer, "a front")?;
    }
    Ok(())
}

// What is answered where the header says that the small store ends after so many bytes.
fn answer_at(len: usize) -> Answer<'static> {
    match len {
        0..=512 => SHORT,
        513..=18_368 => No("no: 6 Root at 0xc0 bid 0x0 nid 0x0\n"),
        18_369..=19_392 => No("no: 8 PagePlace at 0x4a00 bid 0x8 nid 0x0\n"),
        19_393..=19_456 => No("no: 13 BlockPlace at 0x4c00 bid 0x4 nid 0x0\n"),
        19_457..=19_520 => No("no: 13 BlockPlace at 0x4c40 bid 0x8 nid 0x0\n"),
        _ => Yes(M0_YES),
    }
}

// The same fronts, and the whole store, where the header says that the file ends there.
#[test]
fn fronts_that_say_so_are_good_behind_the_last_block(rt: HostRuntime) -> Result<(), Fail> {
    let mut image = store_of(rt.alloc(), Store::M0)?;
    for n in 0..=4240_usize {
        let len = 64 * n;
        if len >= 576 {
            set(&mut image, 184, &(len as u64).to_le_bytes())?;
            Change::Header.apply(&mut image)?;
        }
        let front = image.get(..len).expect(&rt, "too short");
        is_answered(&rt, front, answer_at(len), "a front that says so")?;
    }
    Ok(())
}

// M1 with the lowest bit flipped of each of some fields of a trailer.
fn each_counts<R: Abort + AllocGlobal>(
    rt: &R,
    trailer: usize,
    fields: &[usize],
    answer: Answer,
) -> Result<(), Fail> {
    for field in fields {
        let mut image = store_of(rt.alloc(), Store::M1)?;
        flip(&mut image, trailer.saturating_add(*field))?;
        is_answered(rt, &image, answer, "a trailer")?;
    }
    Ok(())
}

// ptype, ptypeRepeat, wSig, dwCRC and bid of the pages: roots of the trees, allocation map, page map. Then cb, wSig, dwCRC and bid
// of the blocks.
#[test]
fn each_field_of_each_trailer_counts(rt: HostRuntime) -> Result<(), Fail> {
    for (trailer, answer) in [
        (0x49f0, No("no: 9 PageTrailer at 0x4800 bid 0x4 nid 0x0\n")),
        (0x4bf0, No("no: 9 PageTrailer at 0x4a00 bid 0x8 nid 0x0\n")),
        (0x45f0, No("no: 19 MapPage at 0x4400 bid 0x0 nid 0x0\n")),
        (0x47f0, Yes(M1_YES)),
    ] {
        each_counts(&rt, trailer, &[0, 1, 2, 4, 8], answer)?;
    }
    for (trailer, answer) in [
        (
            0x4c30,
            No("no: 14 BlockTrailer at 0x4c00 bid 0x4 nid 0x0\n"),
        ),
        (
            0x4c70,
            No("no: 14 BlockTrailer at 0x4c40 bid 0x8 nid 0x0\n"),
        ),
        (
            0x4cf0,
            No("no: 14 BlockTrailer at 0x4c80 bid 0xc nid 0x0\n"),
        ),
    ] {
        each_counts(&rt, trailer, &[0, 2, 4, 8], answer)?;
    }
    Ok(())
}

// The steps that can end with a fault of the file below its messages, in order, each with its cases.
const STEPS: [&[Case<'static>]; 6] = [&HEADERS, &BLOCK_TREES, &NODE_TREES, &BLOCKS, &MAPS, &NODES];

// For each of those steps a fault of the next one, and what is answered where it is the only one: the check value of the root of the
// block B-tree and of the node B-tree, a block that is too long, the check value of the map, a list of subnodes that is none, and
// no message store.
const LATER: [(&[Change<'static>], &str); 6] = [
    (
        &[Flip(0x4bf4)],
        "no: 9 PageTrailer at 0x4a00 bid 0x8 nid 0x0\n",
    ),
    (
        &[Flip(0x49f4)],
        "no: 9 PageTrailer at 0x4800 bid 0x4 nid 0x0\n",
    ),
    (
        &[Set(0x4a10, &[0xf1, 0x1f]), Page(0x4a00)],
        "no: 13 BlockPlace at 0x4c00 bid 0x4 nid 0x0\n",
    ),
    (
        &[Flip(0x45f4)],
        "no: 19 MapPage at 0x4400 bid 0x0 nid 0x0\n",
    ),
    (
        &[Set(0x4830, &[4]), Page(0x4800)],
        "no: 17 Subnode at 0x4c00 bid 0x4 nid 0x122\n",
    ),
    (
        &[Set(0x4800, &[0x20]), Page(0x4800)],
        "no: 26 NodeMissing at 0x0 bid 0x0 nid 0x21\n",
    ),
];

// A case in whose file there are other faults, too.
fn is_told<R: Abort + AllocGlobal>(rt: &R, case: &Case, others: &[Change]) -> Result<(), Fail> {
    let mut image = store_of(rt.alloc(), case.store)?;
    change_all(&mut image, others)?;
    change_all(&mut image, case.changes)?;
    is_answered(rt, &image, case.answer, case.what)
}

#[test]
fn the_fault_of_the_earlier_step_is_told(rt: HostRuntime) -> Result<(), Fail> {
    for (step, cases) in STEPS.iter().enumerate() {
        for (others, _) in LATER.iter().skip(step) {
            for case in *cases {
                is_told(&rt, case, others)?;
            }
        }
    }
    Ok(())
}

#[test]
fn each_of_the_later_faults_is_one(rt: HostRuntime) -> Result<(), Fail> {
    for (changes, line) in LATER {
        let mut image = store_of(rt.alloc(), Store::M0)?;
        change_all(&mut image, changes)?;
        is_answered(&rt, &image, No(line), "a later fault")?;
    }
    Ok(())
}
