//! How far a long file is read, on a terminal.

use std::io::{IsTerminal, Stderr, Write};

/// How many bytes a file has at least of which it is told how far it is read.
pub const LONG: usize = 256_000_000;

/// A line on standard error that says how far a file is read, where that is a terminal and the file is long. It is wiped before
/// anything else is said there. A line that cannot be written changes nothing.
#[derive(Drop)]
pub struct Progress {
    err: Stderr,
    expected: u64,
    percent: Option<u64>,
    ends: bool,
}

impl Progress {
    /// The line for a file that says it has so many bytes; None where it is short, or standard error is no terminal.
    pub fn on_terminal(rt: &HostRuntime, expected: usize) -> Option<Progress> {
        let err = rt.stderr();
        if expected <= LONG || !err.is_terminal() {
            return None;
        }
        Some(Progress {
            err,
            expected: expected as u64,
            percent: None,
            ends: false,
        })
    }

    /// Says that so many bytes are read; where these are all, the line is wiped.
    pub fn tell(&mut self, read: u64) {
        if read >= self.expected {
            return self.wipe();
        }
        let percent = read.checked_div(self.expected / 100);
        if self.ends || self.percent == percent {
            return;
        }
        self.percent = percent;
        if let Some(percent) = percent {
            let _ = write!(self.err, "\rreading: {percent} %");
        }
    }

    /// Wipes the line, for good.
    pub fn wipe(&mut self) {
        if !self.ends && self.percent.is_some() {
            let _ = write!(self.err, "\r\x1b[K");
        }
        self.ends = true;
    }
}
