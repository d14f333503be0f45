//! What a run writes, in memory.

ghost use Rattle.std.specs.Prelude.{◌≡◌, Some, []};

use std::alloc::Global;
use std::io;
use std::io::Write;

/// A writer into memory that knows whether a write was refused some, also where whoever wrote does not look.
#[derive(Drop)]
pub struct Kept {
    /// What was written.
    pub bytes: Vec<u8>,
    /// Whether a write was refused memory.
    pub is_refused: bool,
}

impl Kept {
    /// One to which nothing was written.
    pub fn new(alloc: Global) -> Kept
        ensures { result.bytes.items ≡ [] }
    {
        Kept {
            bytes: Vec::new(alloc),
            is_refused: false,
        }
    }
}

/// What was written is what it holds.
impl Write for Kept {
    ghost contents = { λ k. Some k.bytes.items };

    fn write(&mut self, buf: &[u8]) -> io::Result<usize> {
        let written = self.bytes.write(buf);
        if written.is_err() {
            self.is_refused = true;
        }
        written
    }

    fn flush(&mut self) -> io::Result<()> {
        Ok(())
    }
}
