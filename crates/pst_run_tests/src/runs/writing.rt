//! Writers that fail or take little: what is left of a line, and the status.

use super::{SMALL_LINE, ran};
use crate::told::{holds, is};
use pst_json::{EmitFault, emit};
use pst_make::m0;
use std::alloc::Global;
use std::io;
use std::io::{ErrorKind, Write};
use std::process::Abort;
use std::test::Fail;

// How a writer fails.
#[derive(Clone, Copy)]
pub(super) enum Fault {
    Fails(ErrorKind),
    TakesNothing,
}

// A writer that takes one byte at each write, but for some writes in a row that go wrong.
#[derive(Drop)]
pub(super) struct Slow {
    /// The bytes that it took.
    pub taken: Vec<u8>,
    good: u32,
    bad: u32,
    fault: Fault,
}

impl Slow {
    pub fn new(alloc: Global, good: u32, bad: u32, fault: Fault) -> Slow {
        Slow {
            taken: Vec::new(alloc),
            good,
            bad,
            fault,
        }
    }
}

impl Write for Slow {
    fn write(&mut self, buf: &[u8]) -> io::Result<usize> {
        if self.good == 0 && self.bad > 0 {
            self.bad -= 1;
            return match self.fault {
                Fault::Fails(kind) => Err(io::Error::from(kind)),
                Fault::TakesNothing => Ok(0),
            };
        }
        self.good = self.good.saturating_sub(1);
        let Some(byte) = buf.first() else {
            return Ok(0);
        };
        match self.taken.push(*byte) {
            Ok(()) => Ok(1),
            Err(_) => Err(io::Error::from(ErrorKind::OutOfMemory)),
        }
    }

    fn flush(&mut self) -> io::Result<()> {
        Ok(())
    }
}

#[test]
fn a_front_is_left_where_a_write_fails(rt: HostRuntime) -> Result<(), Fail> {
    let line = SMALL_LINE.as_bytes();
    for (good, _) in line.iter().enumerate() {
        for fault in [Fault::Fails(ErrorKind::StorageFull), Fault::TakesNothing] {
            let count = u32::try_from(good).map_err(|_| "too many")?;
            let mut out = Slow::new(rt.alloc(), count, 1, fault);
            is(&rt, emit(line, &mut out), Err(EmitFault::Failed));
            is(&rt, Some(out.taken.as_slice()), line.get(..good));
        }
    }
    Ok(())
}

#[test]
fn interrupted_writes_are_made_again(rt: HostRuntime) {
    let line = SMALL_LINE.as_bytes();
    let interrupted = Fault::Fails(ErrorKind::Interrupted);
    let mut out = Slow::new(rt.alloc(), 5, 1_024, interrupted);
    is(&rt, emit(line, &mut out), Ok(()));
    is(&rt, out.taken.as_slice(), line);
    let mut out = Slow::new(rt.alloc(), 5, 1_025, interrupted);
    is(&rt, emit(line, &mut out), Err(EmitFault::Failed));
    is(&rt, Some(out.taken.as_slice()), line.get(..5));
}

// Runs words over an image, with a device that is full after three bytes.
fn ends_with_a_line<R: Abort + AllocGlobal>(
    rt: &R,
    image: &[u8],
    words: &[&str],
) -> Result<(), Fail> {
    let alloc = rt.alloc();
    let mut out = Slow::new(alloc, 3, u32::MAX, Fault::Fails(ErrorKind::StorageFull));
    let mut said = Vec::new(alloc);
    let mut input = image;
    is(rt, ran(alloc, words, &mut input, &mut out, &mut said)?, 3);
    is(rt, out.taken.len(), 3);
    is(rt, said.as_slice(), b"cannot write\n".as_slice());
    Ok(())
}

#[test]
fn an_output_that_cannot_be_written(rt: HostRuntime) -> Result<(), Fail> {
    let image = m0(rt.alloc())?;
    for words in [&["head", "store.pst"][..], &["--help"], &["--version"]] {
        ends_with_a_line(&rt, &image, words)?;
    }
    Ok(())
}

// Runs words over a file of no bytes, with an error output that takes nothing.
fn ends_unheard<R: Abort + AllocGlobal>(rt: &R, words: &[&str], status: u8) -> Result<(), Fail> {
    let alloc = rt.alloc();
    let mut out = Vec::new(alloc);
    let mut err = Slow::new(alloc, 0, u32::MAX, Fault::TakesNothing);
    let mut input: &[u8] = &[];
    is(
        rt,
        ran(alloc, words, &mut input, &mut out, &mut err)?,
        status,
    );
    holds(rt, out.is_empty());
    Ok(())
}

// A line that cannot be written changes no status.
#[test]
fn an_error_output_that_fails(rt: HostRuntime) -> Result<(), Fail> {
    for (words, status) in [(&["head", "store.pst"][..], 1), (&["nothing"], 2)] {
        ends_unheard(&rt, words, status)?;
    }
    Ok(())
}
