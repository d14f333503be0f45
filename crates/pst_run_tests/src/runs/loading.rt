//! Readers that fail, are interrupted or never end, and how many reads and bytes `load` takes of good ones.

use super::{SMALL_LINE, head_of};
use crate::told::{is, is_at};
use pst_make::m0;
use pst_run::{LoadFault, Reads, Source, load, load_counted};
use std::fs::File;
use std::io;
use std::io::{ErrorKind, Read, Stdin};
use std::test::Fail;

// A reader that gives so many bytes, one at each read, and then fails at each read.
#[derive(Drop)]
pub(super) struct Failing {
    good: u32,
    kind: ErrorKind,
    /// How many reads were made.
    pub reads: u32,
}

impl Failing {
    pub fn new(good: u32, kind: ErrorKind) -> Failing {
        Failing {
            good,
            kind,
            reads: 0,
        }
    }
}

impl Read for Failing {
    fn read(&mut self, buf: &mut [u8]) -> io::Result<usize> {
        self.reads = self.reads.saturating_add(1);
        if self.good == 0 {
            return Err(io::Error::from(self.kind));
        }
        let Some(byte) = buf.first_mut() else {
            return Ok(0);
        };
        *byte = 7;
        self.good -= 1;
        Ok(1)
    }
}

// A reader of bytes, whose first read is interrupted.
#[derive(Drop)]
struct Interrupted<'a> {
    bytes: &'a [u8],
    is_interrupted: bool,
}

impl<'a> Read for Interrupted<'a> {
    fn read(&mut self, buf: &mut [u8]) -> io::Result<usize> {
        if self.is_interrupted {
            return self.bytes.read(buf);
        }
        self.is_interrupted = true;
        Err(io::Error::from(ErrorKind::Interrupted))
    }
}

/// What is named and cannot be read, for a reason.
pub(super) fn missing(error: io::Error) -> Source<File, Stdin> {
    Source::Missing(error)
}

// The bytes of a source are those of the reader that it has.
#[test]
fn a_source_gives_the_bytes_of_its_reader(rt: HostRuntime) -> Result<(), Fail> {
    let image = m0(rt.alloc())?;
    let mut file = Source::<&[u8], &[u8]>::File(image.as_slice(), image.len());
    is(&rt, file.expected(), image.len());
    head_of(&rt, &mut file, 0, SMALL_LINE, "")?;
    let mut input = Source::<&[u8], &[u8]>::Input(image.as_slice());
    is(&rt, input.expected(), 0);
    head_of(&rt, &mut input, 0, SMALL_LINE, "")
}

#[test]
fn a_file_that_cannot_be_read(rt: HostRuntime) -> Result<(), Fail> {
    let line = "cannot read the file\n";
    let error = io::Error::from(ErrorKind::NotFound);
    head_of(&rt, &mut missing(error), 3, "", line)?;
    for good in [0, 1, 563, 564, 100_000] {
        let mut input = Failing::new(good, ErrorKind::PermissionDenied);
        head_of(&rt, &mut input, 3, "", line)?;
        is(&rt, input.reads, good.saturating_add(1));
    }
    Ok(())
}

#[test]
fn a_reader_that_fails_gives_nothing(rt: HostRuntime) {
    for good in [0, 1, 70_000] {
        let mut input = Failing::new(good, ErrorKind::PermissionDenied);
        let got = load(rt.alloc(), &mut input, 0).map(|bytes| bytes.len());
        is(&rt, got, Err(LoadFault::Read));
    }
}

#[test]
fn a_reader_that_never_ends_is_too_long(rt: HostRuntime) {
    let mut input = Failing::new(0, ErrorKind::Interrupted);
    let got = load(rt.alloc(), &mut input, 0).map(|bytes| bytes.len());
    is(&rt, got, Err(LoadFault::TooLong));
    is(&rt, input.reads, 16_777_216);
}

#[test]
fn an_interrupted_read_is_made_again(rt: HostRuntime) -> Result<(), Fail> {
    let image = m0(rt.alloc())?;
    let mut input = Interrupted {
        bytes: &image,
        is_interrupted: false,
    };
    head_of(&rt, &mut input, 0, SMALL_LINE, "")
}

#[test]
fn all_bytes_are_loaded(rt: HostRuntime) -> Result<(), Fail> {
    for (len, count) in [
        (0, 1),
        (1, 2),
        (65_535, 2),
        (65_536, 2),
        (65_537, 3),
        (200_000, 5),
    ] {
        let mut image = vec![in rt.alloc(); 0u8; len]?;
        for (i, byte) in image.iter_mut().enumerate() {
            *byte = (i % 251) as u8;
        }
        // Fewer bytes come than are expected, as many, more; and so many are expected that there is no room for them.
        for expected in [len + 1, len, len / 2, usize::MAX] {
            let mut input = image.as_slice();
            let got = load(rt.alloc(), &mut input, expected).map_err(|_| "refused")?;
            is_at(&rt, expected, got.as_slice(), image.as_slice());
        }
        let mut input = image.as_slice();
        let (got, reads) = load_counted(rt.alloc(), &mut input, len);
        is(&rt, got.map(|bytes| bytes.len()), Ok(len));
        let bytes = len as u64;
        is(&rt, reads, Reads { count, bytes });
    }
    Ok(())
}
