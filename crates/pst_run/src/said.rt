//! What is said on the error output.

ghost use Rattle.std.specs.Prelude.{◌≡◌, ◌++◌, true, Some, IfSome};
ghost use Rattle.std.specs.Io.KnownBytes.{Appends};
ghost use Rattle.pst_json.specs.Output.{AppendsFront};
ghost use Rattle.pst_json.specs.Told.{doc_fault_text};
ghost use Rattle.pst_run.specs.Refusal.{line_of_text, output, path_text, refused_of, status_of, step_text};
ghost use Rattle.pst_run.specs.Run.{Says, SaysLine};

use crate::refusal::Refusal;
use arrayvec::ArrayString;
use pst_json::{DocFault, EmitFault, emit};
use std::fmt;
use std::fmt::{Display, Write as _};
use std::io::Write;

// Room for a text on the error output that is written at once: the longest is a fault's line, of at most 92 bytes.
const LINE: usize = 128;

// A text as a line, where there is room for it.
fn line_of<D: Display + Drop>(text: D) -> Option<ArrayString<LINE>>
    ensures { IfSome result (λ made. IfSome (D.output text) (λ line.
        made.bytes ≡ line_of_text line)) }
{
    let mut line = ArrayString::<LINE>::new();
    match writeln!(line, "{text}") {
        Ok(()) => Some(line),
        Err(_) => None,
    }
}

/// Says a line on the error output. It is made first, so that what a writer that fails has taken is a front of it.
#[tactic(auto, using(crate::proofs::SaidLemmas::front_is))]
pub(crate) fn say<D: Display + Drop, E: Write>(text: D, err: &mut E)
    ensures said { IfSome (D.output text) (λ line.
        SaysLine line (E.contents err.old) (E.contents err.new)) }
{
    if let Some(line) = line_of(text) {
        let _ = emit(line.as_str().as_bytes(), err);
    }
}

// A text alone, where there is room for it.
fn piece_of<D: Display + Drop>(text: D) -> Option<ArrayString<LINE>>
    ensures { IfSome result (λ made. IfSome (D.output text) (λ bytes. made.bytes ≡ bytes)) }
{
    let mut piece = ArrayString::<LINE>::new();
    match write!(piece, "{text}") {
        Ok(()) => Some(piece),
        Err(_) => None,
    }
}

// Writes a text, and tells whether all of it was written.
#[tactic(auto, using(crate::proofs::SaidLemmas::piece_front, crate::proofs::SaidLemmas::piece_all))]
fn put<D: Display + Drop, E: Write>(text: D, err: &mut E) -> bool
    ensures all { result ≡ true → IfSome (D.output text) (λ bytes.
        Appends (E.contents err.old) (E.contents err.new) bytes) }
    ensures front { IfSome (D.output text) (λ bytes.
        AppendsFront (E.contents err.old) (E.contents err.new) bytes) }
{
    match piece_of(text) {
        Some(piece) => emit(piece.as_str().as_bytes(), err).is_ok(),
        None => false,
    }
}

/// An identifier of a path: behind a blank the first, each other behind a slash.
#[derive(Clone, Copy)]
pub(crate) struct Step {
    /// Whether it is the first.
    pub first: bool,
    /// The identifier.
    pub nid: u32,
}

impl fmt::Display for Step {
    ghost output = { λ s. Some (step_text s.first s.nid) };

    fn fmt<W: fmt::Write>(&self, f: &mut fmt::Formatter<W>) -> fmt::Result {
        let nid = self.nid;
        if self.first {
            write!(f, " 0x{nid:x}")
        } else {
            write!(f, "/0x{nid:x}")
        }
    }
}

// Writes a path identifier by identifier, since it may be long, and tells whether all of it was written.
fn put_path<E: Write>(path: &[u32], err: &mut E) -> bool
    ensures all { result ≡ true →
        Appends (E.contents err.old) (E.contents err.new) (path_text true path.now) }
    ensures front { AppendsFront (E.contents err.old) (E.contents err.new)
        (path_text true path.now) }
{
    let mut first = true;
    for nid in path {
        if !put(Step { first, nid: *nid }, err) {
            return false;
        }
        first = false;
    }
    true
}

// Says that there is no document of a folder, or at a path.
fn say_none<E: Write>(fault: DocFault, path: &[u32], err: &mut E)
    ensures { SaysLine (doc_fault_text fault ++ path_text true path.now)
        (E.contents err.old) (E.contents err.new) }
{
    if !put(fault, err) {
        return;
    }
    if !put_path(path, err) {
        return;
    }
    let _ = emit(b"\n", err);
}

/// Says on the error output why nothing is shown, and gives the status for it. A line that cannot be written changes
/// nothing. Of an output that is closed nothing is said.
pub fn refuse<E: Write>(refusal: Refusal, err: &mut E) -> u8
    ensures status { result ≡ status_of (refused_of refusal.entry) }
    ensures said { Says (refused_of refusal.entry) (E.contents err.old) (E.contents err.new) }
    ensures closed { refused_of refusal.entry ≡ output EmitFault.Closed → err.new ≡ err.old }
{
    match refusal {
        Refusal::Fault(fault) => say(fault, err),
        Refusal::Document(path, fault) => say_none(fault, path, err),
        Refusal::Input => say("cannot read the file", err),
        Refusal::Output(EmitFault::Closed) => {}
        Refusal::Output(fault) => say(fault, err),
        Refusal::Memory => say("out of memory", err),
    }
    refusal.status()
}
