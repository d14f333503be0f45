//! Runs of the program, from the words to the status: over small images, and over readers and writers that fail.

mod all_messages;
mod archives;
mod check_cases;
mod check_contexts;
mod check_files;
mod check_folders;
mod check_good;
mod check_kinds;
mod check_messages;
mod check_nodes;
mod check_order;
mod damage;
mod digests;
mod documents;
mod encoded;
mod folders;
mod head;
mod heaps;
mod hints;
mod loading;
mod messages;
mod names;
mod nodes;
mod one_value;
mod outlook;
mod reading;
mod shared_lists;
mod values;
mod whole;
mod words;
mod writing;

use crate::told::is;
use pst_run::run;
use std::alloc::Global;
use std::io::{Read, Write};
use std::process::Abort;
use std::test::Fail;

// What `head` prints of the small store.
const SMALL_LINE: &str =
    "{\"bbt\":{\"bid\":8,\"ib\":18944},\"eof\":271360,\"free\":251776,\"last_amap\":17408,\"maps_valid\":2,\"nbt\":{\"bid\":4,\"ib\":18432},\"next_block\":12,\"next_page\":12,\"version\":23}\n";

fn words_of(alloc: Global, words: &[&str]) -> Result<Vec<String>, Fail> {
    let mut all = Vec::new(alloc);
    for word in words {
        all.push(String::from_str(alloc, word)?)?;
    }
    Ok(all)
}

// Runs words over a reader and two writers, and gives the status.
fn ran<I: Read, W: Write, E: Write>(
    alloc: Global,
    words: &[&str],
    input: &mut I,
    out: &mut W,
    err: &mut E,
) -> Result<u8, Fail> {
    let words = words_of(alloc, words)?;
    Ok(run(alloc, &words, input, out, err))
}

// Runs a command over a reader, and compares the status and both outputs.
fn outcome_of<R: Abort + AllocGlobal, I: Read>(
    rt: &R,
    command: &str,
    input: &mut I,
    status: u8,
    out: &str,
    err: &str,
) -> Result<(), Fail> {
    run_of(rt, &[command, "store.pst"], input, status, out, err)
}

// Runs words over a reader, and compares the status and both outputs.
fn run_of<R: Abort + AllocGlobal, I: Read>(
    rt: &R,
    words: &[&str],
    input: &mut I,
    status: u8,
    out: &str,
    err: &str,
) -> Result<(), Fail> {
    let alloc = rt.alloc();
    let (mut written, mut said) = (Vec::new(alloc), Vec::new(alloc));
    let got = ran(alloc, words, input, &mut written, &mut said)?;
    is(rt, said.as_slice(), err.as_bytes());
    is(rt, written.as_slice(), out.as_bytes());
    is(rt, got, status);
    Ok(())
}

// Runs `head` over a reader, and compares the status and both outputs.
fn head_of<R: Abort + AllocGlobal, I: Read>(
    rt: &R,
    input: &mut I,
    status: u8,
    out: &str,
    err: &str,
) -> Result<(), Fail> {
    outcome_of(rt, "head", input, status, out, err)
}
