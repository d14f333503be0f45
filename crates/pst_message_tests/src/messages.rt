//! The check of the messaging of small stores: its first fault, and how many contexts it counts.

mod apart;
mod attachments;
mod folders;
mod messages;
mod nested;

use crate::makers::{Blocks, Entry, plan_of};
use crate::told::{MEMORY, is};
use pst_bytes::Image;
use pst_fault::Fault;
use pst_make::{Plan, build};
use pst_msg::*;
use pst_ndb::check_ndb;
use std::alloc::Global;
use std::process::Abort;

// The count of contexts, or the first fault.
fn contexts_of(alloc: Global, image: &[u8]) -> Result<u64, Fault> {
    let checked = check_ndb(alloc, Image::new(image))?;
    let ndb = checked.ndb;
    let mut work = checked.work;
    check_messaging(alloc, &ndb, &mut work)?;
    Ok(work.contexts)
}

// The same as a line.
fn line_of<R: Abort>(rt: &R, alloc: Global, image: &[u8]) -> String {
    match contexts_of(alloc, image) {
        Ok(contexts) => format!(in alloc; "yes {contexts}").expect(rt, MEMORY),
        Err(fault) => format!(in alloc; "{fault}").expect(rt, MEMORY),
    }
}

// Whether the messaging of a plan is answered with a line.
fn is_answered<R: Abort + AllocGlobal>(rt: &R, plan: &Plan, line: &str) {
    let image = build(rt.alloc(), plan).expect(rt, "not made");
    let told = line_of(rt, rt.alloc(), &image);
    is(rt, told.as_str(), line);
}

// Whether that of the small store with these blocks and nodes is.
fn are_answered<R: Abort + AllocGlobal>(rt: &R, blocks: Blocks, nodes: &[Entry], line: &str) {
    let plan = plan_of(rt, rt.alloc(), blocks, nodes);
    is_answered(rt, &plan, line);
}
