//! Where the bytes come from that a word names, and why no more of them came.

use crate::input::{MOST_BYTES, MOST_READS, Reads};
use crate::progress::Progress;
use std::alloc::{AllocError, Global};
use std::fs::File;
use std::io::{ErrorKind, Read, Stdin, Write};
use std::{fs, io};

// The word that names standard input.
const STANDARD_INPUT: &str = "-";

/// What a word names, by the readers of a file and of standard input.
#[derive(Drop)]
pub enum Source<F, I> {
    /// A file, open, and how many bytes it says that it has; 0 where it is no regular one.
    File(F, usize),
    /// Standard input.
    Input(I),
    /// Nothing that can be read, and why: each read fails so.
    Missing(io::Error),
}

impl Source<File, Stdin> {
    /// What a word names: `-` standard input, and any other word a file.
    pub fn named(rt: &HostRuntime, name: &str) -> Source<File, Stdin> {
        if name == STANDARD_INPUT {
            return Source::Input(rt.stdin());
        }
        match open(rt, name) {
            Ok((file, len)) => Source::File(file, len),
            Err(error) => Source::Missing(error),
        }
    }
}

impl<F, I> Source<F, I> {
    /// How many bytes it says that it has; 0 where it does not say.
    pub fn expected(&self) -> usize {
        match self {
            Source::File(_, len) => *len,
            Source::Input(_) | Source::Missing(_) => 0,
        }
    }
}

// A file, open, and how many bytes it says that it has. A regular one that says that it is too long is not read.
fn open(rt: &HostRuntime, name: &str) -> io::Result<(File, usize)> {
    let file = fs::open(rt, name)?;
    match file.metadata() {
        Ok(about) if about.is_file() && about.len() > MOST_BYTES as u64 => Err(too_long()),
        Ok(about) if about.is_file() => Ok((file, about.len() as usize)),
        _ => Ok((file, 0)),
    }
}

fn too_long() -> io::Error {
    io::Error::new(ErrorKind::FileTooLarge, "larger than 17179869184 bytes")
}

fn endless() -> io::Error {
    io::Error::new(ErrorKind::TimedOut, "16777216 reads did not show its end")
}

/// The bytes are those of the reader that it has, whatever reader that is; of none that is missing.
impl<F: Read, I: Read> Read for Source<F, I> {
    ghost use Rattle.pst_run.specs.Loading.{bytes_in_source};

    ghost remaining = { bytes_in_source F.remaining I.remaining };

    fn read(&mut self, buf: &mut [u8]) -> io::Result<usize> {
        match self {
            Source::File(file, _) => file.read(buf),
            Source::Input(input) => input.read(buf),
            Source::Missing(error) => Err(*error),
        }
    }
}

/// A reader that remembers how its reads went, and says how far they are where there is somebody to look at it.
#[derive(Drop)]
pub struct Watched<R> {
    reader: R,
    reads: Reads,
    is_at_end: bool,
    error: Option<io::Error>,
    progress: Option<Progress>,
}

impl<R> Watched<R> {
    /// A reader that was not read yet.
    pub fn new(reader: R, progress: Option<Progress>) -> Watched<R> {
        Watched {
            reader,
            reads: Reads { count: 0, bytes: 0 },
            is_at_end: false,
            error: None,
            progress,
        }
    }

    /// Why `load` could not take all of its bytes: the error of a read, or the limit that was reached before the end.
    /// None where it was read to its end.
    pub fn fault(&self) -> Option<io::Error> {
        if self.error.is_some() || self.is_at_end {
            self.error
        } else if self.reads.bytes > MOST_BYTES as u64 {
            Some(too_long())
        } else if self.reads.count >= MOST_READS {
            Some(endless())
        } else {
            None
        }
    }
}

// Says how far a file is read, where there is somebody to look at it; and that no other read will be made.
fn tell(progress: &mut Option<Progress>, reads: Reads, ends: bool) {
    match progress {
        Some(progress) if ends => progress.wipe(),
        Some(progress) => progress.tell(reads.bytes),
        None => {}
    }
}

/// The bytes are those of the reader.
impl<R: Read> Read for Watched<R> {
    ghost remaining = { λ w. R.remaining w.reader };

    fn read(&mut self, buf: &mut [u8]) -> io::Result<usize> {
        let got = self.reader.read(buf);
        self.reads.count = self.reads.count.saturating_add(1);
        match got {
            Ok(n) => {
                self.reads.bytes = self.reads.bytes.saturating_add(n as u64);
                self.is_at_end = n == 0;
            }
            Err(error) if error.kind() == ErrorKind::Interrupted => {}
            Err(error) => self.error = Some(error),
        }
        let ends = self.is_at_end || self.error.is_some() || self.reads.count >= MOST_READS;
        tell(&mut self.progress, self.reads, ends);
        got
    }
}

// The text of an error without the number that the system has for it.
fn without_number(text: &str) -> &str {
    match text.split_once(" (os error ") {
        Some((words, _)) => words,
        None => text,
    }
}

// A name as it is said: a character that would move a terminal's cursor, or ring its bell, as an escape.
fn name_said(alloc: Global, name: &str) -> Result<String, AllocError> {
    let mut text = String::new(alloc);
    for c in name.chars() {
        if c.is_control() {
            for part in c.escape_default() {
                text.push(part)?;
            }
        } else {
            text.push(c)?;
        }
    }
    Ok(text)
}

// The name and why its bytes did not come.
fn cause_of(alloc: Global, name: &str, error: &io::Error) -> Result<String, AllocError> {
    let name = name_said(alloc, name)?;
    let text = format!(in alloc; "{error}")?;
    format!(in alloc; "  {name}: {}", without_number(text.as_str()))
}

/// Says below the line of a refusal why the bytes of a file of this name did not come: control characters of the name stand as
/// escapes. Where memory is refused for that, the reason stands alone. A line that cannot be written changes nothing.
pub fn say_cause<E: Write>(alloc: Global, name: &str, error: io::Error, err: &mut E) {
    let _ = match cause_of(alloc, name, &error) {
        Ok(text) => writeln!(err, "{text}"),
        Err(_) => writeln!(err, "  {error}"),
    };
}
