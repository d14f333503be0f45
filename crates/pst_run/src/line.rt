//! The line of a refusal, in memory: for a caller who has no error output.

ghost use Rattle.std.specs.Prelude.{◌≡◌, ◌++◌, true, IfOk, string_bytes};
ghost use Rattle.pst_json.specs.Told.{doc_fault_text};
ghost use Rattle.pst_run.specs.Run.{lack_text as text_of_lack};
ghost use Rattle.pst_run.specs.Refusal.{path_text, refusal_text, refused_of, line_of_text, step_text};

use crate::refusal::Refusal;
use crate::running::lack_text;
use crate::said::Step;
use pst_ask::Lack;
use pst_json::DocFault;
use std::alloc::{AllocError, Global};

// An identifier of a path.
fn step_of(alloc: Global, first: bool, nid: u32) -> Result<String, AllocError>
    ensures { IfOk result (λ t. string_bytes t ≡ step_text first nid) }
{
    let step = Step { first, nid };
    format!(in alloc; "{step}")
}

// A text with a path behind it.
fn with_path(alloc: Global, mut text: String, path: &[u32]) -> Result<String, AllocError>
    ensures { IfOk result (λ t. string_bytes t ≡ string_bytes text ++ path_text true path.now) }
{
    let mut first = true;
    for nid in path {
        let step = step_of(alloc, first, *nid)?;
        text.push_str(step.as_str())?;
        first = false;
    }
    Ok(text)
}

// What is said of a document that there is not, of the folder or at the path with these identifiers.
fn document_text(alloc: Global, fault: DocFault, path: &[u32]) -> Result<String, AllocError>
    ensures { IfOk result (λ t. string_bytes t ≡ doc_fault_text fault ++ path_text true path.now) }
{
    let text = format!(in alloc; "{fault}")?;
    with_path(alloc, text, path)
}

// What is said of a refusal, without a line feed.
fn refusal_said(alloc: Global, refusal: Refusal) -> Result<String, AllocError>
    ensures { IfOk result (λ t. string_bytes t ≡ refusal_text (refused_of refusal.entry)) }
{
    match refusal {
        Refusal::Fault(fault) => format!(in alloc; "{fault}"),
        Refusal::Document(path, fault) => document_text(alloc, fault, path),
        Refusal::Input => String::from_str(alloc, "cannot read the file"),
        Refusal::Output(fault) => format!(in alloc; "{fault}"),
        Refusal::Memory => String::from_str(alloc, "out of memory"),
    }
}

// A text as a line.
fn as_line(mut text: String) -> Result<Vec<u8>, AllocError>
    ensures { IfOk result (λ line. line.items ≡ line_of_text (string_bytes text)) }
{
    text.push_str("\n")?;
    Ok(text.into_bytes())
}

/// The line that `refuse` says of a refusal, in memory; of an output that is closed, too, of which `refuse` says nothing.
pub fn line_of(alloc: Global, refusal: Refusal) -> Result<Vec<u8>, AllocError>
    ensures { let said = refusal_text (refused_of refusal.entry) in
        IfOk result (λ line. line.items ≡ line_of_text said) }
{
    as_line(refusal_said(alloc, refusal)?)
}

/// The line that `decline` says of words that lack something, in memory.
pub fn line_of_lack(alloc: Global, lack: Lack) -> Result<Vec<u8>, AllocError>
    ensures { IfOk result (λ line. line.items ≡ line_of_text (text_of_lack lack)) }
{
    as_line(String::from_str(alloc, lack_text(lack))?)
}
