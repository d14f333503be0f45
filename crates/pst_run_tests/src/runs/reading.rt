//! Reads and writes that fail, are interrupted or give little, and what is said of them.

use super::loading::{Failing, missing};
use super::writing::{Fault, Slow};
use super::{ran, run_of};
use crate::told::{holds, is, is_at};
use pst_json::{EmitFault, emit};
use pst_make::m0;
use pst_run::{LoadFault, Source, Watched, load, say_cause};
use std::alloc::Global;
use std::io;
use std::io::{ErrorKind, Read, Write};
use std::process::Abort;
use std::test::Fail;

// The line of `check` for the store that `m0` makes.
const CHECK_LINE: &[u8] =
    b"{\"blocks\":2,\"folders\":1,\"lost\":[],\"messages\":0,\"nodes\":2,\"order\":\"high\",\"pages\":2,\"verdict\":\"yes\"}\n";

// A writer that takes one byte at a time, each after some interruptions, of which there are only so many.
#[derive(Drop)]
struct Interrupting {
    taken: Vec<u8>,
    a_byte: u32,
    waited: u32,
    left: u32,
}

impl Interrupting {
    fn new(alloc: Global, a_byte: u32, left: u32) -> Interrupting {
        Interrupting {
            taken: Vec::new(alloc),
            a_byte,
            waited: 0,
            left,
        }
    }
}

impl Write for Interrupting {
    fn write(&mut self, buf: &[u8]) -> io::Result<usize> {
        if self.left > 0 && self.waited < self.a_byte {
            self.left -= 1;
            self.waited += 1;
            return Err(io::Error::from(ErrorKind::Interrupted));
        }
        self.waited = 0;
        let Some(byte) = buf.first() else {
            return Ok(0);
        };
        match self.taken.push(*byte) {
            Ok(()) => Ok(1),
            Err(_) => Err(io::Error::from(ErrorKind::OutOfMemory)),
        }
    }

    fn flush(&mut self) -> io::Result<()> {
        Ok(())
    }
}

// Eleven interruptions before each of 93 bytes, and one before the next.
#[test]
fn interruptions_are_counted_over_the_whole_call(rt: HostRuntime) {
    let mut out = Interrupting::new(rt.alloc(), 11, 1_024);
    is(&rt, emit(CHECK_LINE, &mut out), Ok(()));
    is(&rt, out.taken.as_slice(), CHECK_LINE);
    is(&rt, out.left, 0);
    let mut out = Interrupting::new(rt.alloc(), 11, 1_025);
    is(&rt, emit(CHECK_LINE, &mut out), Err(EmitFault::Failed));
    is(&rt, Some(out.taken.as_slice()), CHECK_LINE.get(..93));
}

// Runs words over an image, with a pipe that is closed after three bytes.
fn ends_quietly<R: Abort + AllocGlobal>(rt: &R, image: &[u8], words: &[&str]) -> Result<(), Fail> {
    let alloc = rt.alloc();
    let mut out = Slow::new(alloc, 3, u32::MAX, Fault::Fails(ErrorKind::BrokenPipe));
    let mut said = Vec::new(alloc);
    let mut input = image;
    is(rt, ran(alloc, words, &mut input, &mut out, &mut said)?, 3);
    is(rt, out.taken.len(), 3);
    holds(rt, said.is_empty());
    Ok(())
}

// Of a pipe that is closed nothing is said, whatever was to be written.
#[test]
fn a_run_whose_output_is_closed(rt: HostRuntime) -> Result<(), Fail> {
    let image = m0(rt.alloc())?;
    for words in [&["check", "a.pst"][..], &["--help"], &["--version"]] {
        ends_quietly(&rt, &image, words)?;
    }
    Ok(())
}

// The nth write fails, and the n - 1 bytes before are left.
#[test]
fn a_front_of_the_report_is_left(rt: HostRuntime) -> Result<(), Fail> {
    for (good, _) in CHECK_LINE.iter().enumerate() {
        for kind in [ErrorKind::StorageFull, ErrorKind::BrokenPipe] {
            let count = u32::try_from(good).map_err(|_| "too many")?;
            let mut out = Slow::new(rt.alloc(), count, 1, Fault::Fails(kind));
            let error = io::Error::from(kind);
            is(&rt, emit(CHECK_LINE, &mut out), Err(EmitFault::of(error)));
            is(&rt, Some(out.taken.as_slice()), CHECK_LINE.get(..good));
        }
    }
    Ok(())
}

// Checks an image, with an output that takes so many bytes.
fn ends_after<R: Abort + AllocGlobal>(
    rt: &R,
    image: &[u8],
    count: u32,
    front: Option<&[u8]>,
) -> Result<(), Fail> {
    let alloc = rt.alloc();
    let mut out = Slow::new(alloc, count, 1, Fault::TakesNothing);
    let mut said = Vec::new(alloc);
    let mut input = image;
    let words = ["check", "a.pst"];
    is(rt, ran(alloc, &words, &mut input, &mut out, &mut said)?, 3);
    is(rt, Some(out.taken.as_slice()), front);
    is(rt, said.as_slice(), b"cannot write\n".as_slice());
    Ok(())
}

#[test]
fn a_run_whose_output_fails(rt: HostRuntime) -> Result<(), Fail> {
    let image = m0(rt.alloc())?;
    for (count, good) in [(0, 0), (1, 1), (98, 98)] {
        ends_after(&rt, &image, count, CHECK_LINE.get(..good))?;
    }
    Ok(())
}

#[test]
fn a_run_whose_input_never_ends(rt: HostRuntime) -> Result<(), Fail> {
    let mut input = Watched::new(Failing::new(1, ErrorKind::Interrupted), None);
    let words = ["check", "a.pst"];
    run_of(&rt, &words, &mut input, 3, "", "cannot read the file\n")?;
    is_explained(&rt, &input, "16777216 reads did not show its end")
}

// Compares what is said of a reader that was read.
fn is_explained<R: Abort + AllocGlobal, I>(
    rt: &R,
    input: &Watched<I>,
    reason: &str,
) -> Result<(), Fail> {
    let error = input.fault().expect(rt, "no fault");
    let mut said = Vec::new(rt.alloc());
    say_cause(rt.alloc(), "a.pst", error, &mut said);
    let line = format!(in rt.alloc(); "  a.pst: {reason}\n")?;
    is(rt, said.as_slice(), line.as_bytes());
    Ok(())
}

// A reader of as many bytes as are asked for, so many times.
#[derive(Drop)]
struct Long {
    left: u32,
}

impl Read for Long {
    fn read(&mut self, buf: &mut [u8]) -> io::Result<usize> {
        if self.left == 0 {
            return Ok(0);
        }
        self.left -= 1;
        let n = buf.len();
        Ok(n)
    }
}

// 262,144 reads of 65,536 bytes are 16 GiB.
#[test]
fn the_end_of_a_reader_is_remembered(rt: HostRuntime) -> Result<(), Fail> {
    let mut piece = vec![in rt.alloc(); 0u8; 65_536]?;
    let mut input = Watched::new(Long { left: 262_145 }, None);
    for count in 1u32..=262_145 {
        is_at(&rt, count, input.fault().is_some(), false);
        holds(&rt, input.read(&mut piece).is_ok());
    }
    is_explained(&rt, &input, "larger than 17179869184 bytes")?;
    holds(&rt, input.read(&mut piece).is_ok());
    holds(&rt, input.fault().is_none());
    Ok(())
}

// A read that fails is told by the system's words, however often others were interrupted before.
#[test]
fn the_error_of_a_read_is_remembered(rt: HostRuntime) -> Result<(), Fail> {
    let rows = [
        (2, "No such file or directory"),
        (5, "Input/output error"),
        (13, "Permission denied"),
        (21, "Is a directory"),
    ];
    for (code, reason) in rows {
        let error = io::Error::from_raw_os_error(code);
        let mut input = Watched::new(missing(error), None);
        let got = load(rt.alloc(), &mut input, 0).map(|bytes| bytes.len());
        is(&rt, got, Err(LoadFault::Read));
        is_explained(&rt, &input, reason)?;
    }
    Ok(())
}

// No name of a file moves a terminal's cursor.
#[test]
fn control_characters_of_a_name_are_escaped(rt: HostRuntime) -> Result<(), Fail> {
    let mut said = Vec::new(rt.alloc());
    let error = io::Error::from_raw_os_error(2);
    say_cause(rt.alloc(), "a\u{1b}[31m\n\u{7}\u{e4}.pst", error, &mut said);
    let line = "  a\\u{1b}[31m\\n\\u{7}\u{e4}.pst: No such file or directory\n";
    is(&rt, said.as_slice(), line.as_bytes());
    Ok(())
}

#[test]
fn a_word_names_what_is_read(rt: HostRuntime) -> Result<(), Fail> {
    holds(&rt, matches!(Source::named(&rt, "-"), Source::Input(_)));
    let mut input = Watched::new(Source::named(&rt, "no such folder/a.pst"), None);
    holds(&rt, load(rt.alloc(), &mut input, 0).is_err());
    is_explained(&rt, &input, "No such file or directory")?;
    let mut input = Watched::new(Source::named(&rt, "."), None);
    holds(&rt, load(rt.alloc(), &mut input, 0).is_err());
    is_explained(&rt, &input, "Is a directory")?;
    let image = m0(rt.alloc())?;
    let line = std::str::from_utf8(CHECK_LINE).map_err(|_| "no text")?;
    run_of(&rt, &["check", "-"], &mut image.as_slice(), 0, line, "")
}
