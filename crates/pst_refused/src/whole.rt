//! Images that are made, the plain twin of a file, what a reader gives, and a run of the program.

use crate::refused::{Refused, holds};
use pst_make::{build, m0, m0_plan, m1, m1_plan, m2, m2_plan};
use pst_plain::plain;
use pst_run::{load, run};
use std::alloc::Global;

/// The plans of the three images, `build`, and the images.
pub(crate) fn images(alloc: Global) -> Result<(), Refused> {
    let built = build(alloc, &m0_plan(alloc)?)?;
    holds(built.as_slice() == m0(alloc)?.as_slice())?;
    let built = build(alloc, &m1_plan(alloc)?)?;
    holds(built.as_slice() == m1(alloc)?.as_slice())?;
    let built = build(alloc, &m2_plan(alloc)?)?;
    holds(built.as_slice() == m2(alloc)?.as_slice())
}

/// The plain twin of a file, by `plain`; where that is refused memory, the bytes are looked at: they have to be as they were.
pub(crate) fn twin(alloc: Global, bytes: &[u8]) -> Result<Vec<u8>, Refused> {
    let mut twin = Vec::from_slice(alloc, bytes)?;
    match plain(alloc, &mut twin) {
        Ok(_) => Ok(twin),
        Err(_) => {
            holds(twin.as_slice() == bytes)?;
            Err(Refused::Memory)
        }
    }
}

/// `load`: all bytes of a reader, with and without their number told before.
pub(crate) fn loads(alloc: Global, bytes: &[u8]) -> Result<(), Refused> {
    for expected in [0, bytes.len()] {
        let mut input = bytes;
        let loaded = load(alloc, &mut input, expected)?;
        holds(loaded.as_slice() == bytes)?;
    }
    Ok(())
}

// Where the words and both outputs are kept, memory is no part of the run.
fn words_of(alloc: Global) -> Result<Vec<String>, Refused> {
    let mut words = Vec::new(alloc);
    for word in ["check", "-"] {
        words.push(String::from_str(alloc, word)?)?;
    }
    Ok(words)
}

/// `run`, and with it what it stands on: status 0 and no line on standard error; or 4, `out of memory`, and no output.
pub(crate) fn run_of(alloc: Global, bytes: &[u8]) -> Result<(), Refused> {
    let words = words_of(alloc)?;
    let (mut out, mut err) = (
        Vec::with_capacity(alloc, 4096)?,
        Vec::with_capacity(alloc, 4096)?,
    );
    let mut input = bytes;
    let status = run(alloc, &words, &mut input, &mut out, &mut err);
    if status == 4 && out.is_empty() && err.as_slice() == "out of memory\n".as_bytes() {
        return Err(Refused::Memory);
    }
    holds(status == 0 && err.is_empty() && !out.is_empty())
}
