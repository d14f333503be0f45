//! Each kind of fault is provoked by one of the cases.

use super::check_cases::{Answer, Case};
use super::check_contexts::{CELLS, PROPERTIES};
use super::check_files::{BLOCK_TREES, BLOCKS, HEADERS, MAPS, NODE_TREES};
use super::check_folders::FOLDERS;
use super::check_messages::MESSAGES;
use super::check_nodes::NODES;
use crate::told::holds_at;
use std::test::Fail;

const ALL: [&[Case<'static>]; 10] = [
    &HEADERS,
    &BLOCK_TREES,
    &NODE_TREES,
    &BLOCKS,
    &MAPS,
    &NODES,
    &PROPERTIES,
    &CELLS,
    &FOLDERS,
    &MESSAGES,
];

// Whether the line of a case begins with this.
fn provokes(case: &Case, front: &str) -> bool {
    match case.answer {
        Answer::No(line) => line.starts_with(front),
        Answer::Yes(_) => false,
    }
}

// Whether the line of one of the cases does.
fn is_provoked(front: &str) -> bool {
    for cases in &ALL {
        for case in *cases {
            if provokes(case, front) {
                return true;
            }
        }
    }
    false
}

// Want of memory, 28, comes from no file.
#[test]
fn every_kind_is_provoked(rt: HostRuntime) -> Result<(), Fail> {
    for number in 1..28 {
        let front = format!(in rt.alloc(); "no: {number} ")?;
        holds_at(&rt, front.as_str(), is_provoked(&front));
    }
    Ok(())
}
