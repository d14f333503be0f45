//! What a command shows, and the writing of it.

ghost use Rattle.std.specs.Prelude.{◌≡◌, IsErrOf, OnOk, true};
ghost use Rattle.std.specs.Io.KnownBytes.{Appends};
ghost use Rattle.pst_json.specs.Output.{AppendsFront};
ghost use Rattle.pst_run.specs.Answer.{bytes_shown, is_streamed};

use pst_datatree::Value;
use pst_export::{Export, ExportFault, emit_export};
use pst_json::{emit, emit_value};
use std::alloc::Global;
use std::io::Write;

/// What a command writes.
#[derive(Drop)]
pub enum Text<'a> {
    /// A text that was made, in memory.
    Made(Vec<u8>),
    /// Bytes of the file, where they lie.
    Lent(Value<'a>),
    /// Files of a store, in an archive that is made as it is written.
    Archive(Export<'a>),
}

/// What a command shows.
#[derive(Drop)]
pub struct Shown<'a> {
    /// What it writes.
    pub text: Text<'a>,
    /// Whether the run ends with status 1 all the same: where a check is strict, and space is lost, and where something is broken.
    pub fails: bool,
}

impl<'a> Shown<'a> {
    ghost use Rattle.std.specs.Prelude.{◌≡◌};
    ghost use Rattle.pst_run.specs.Answer.{told_in, plain};

    /// A text that was made, with which the run does not fail.
    pub fn made(text: Vec<u8>) -> Shown<'a>
        ensures { told_in result ≡ plain text.items }
    {
        Shown {
            text: Text::Made(text),
            fails: false,
        }
    }
}

/// Writes all of it: a text as one, bytes of the file piece by piece, for which no memory is taken, and an archive file by file, for
/// which memory may be refused. After a fault the writer holds a front of it.
pub fn emit_text<W: Write>(alloc: Global, text: &Text, out: &mut W) -> Result<(), ExportFault>
    ensures all { OnOk result (Appends (W.contents out.old) (W.contents out.new)
        (bytes_shown text.now)) }
    ensures front { AppendsFront (W.contents out.old) (W.contents out.new) (bytes_shown text.now) }
    ensures memory { IsErrOf result ExportFault.Memory → is_streamed text.now ≡ true }
{
    match text {
        Text::Made(text) => Ok(emit(text, out)?),
        Text::Lent(value) => Ok(emit_value(*value, out)?),
        Text::Archive(export) => emit_export(alloc, export, out),
    }
}
