//! One run of the program.

ghost use Rattle.std.specs.Prelude.{◌≡◌, ◌≢◌, ◌⊎◌, [], Option, Err, IfOk, IfSome, true};
ghost use Rattle.pst_ask.specs.Ask.{Asked, request_of, show, explain, wanted_of};
ghost use Rattle.pst_ask.specs.Words.{IsAsked, asked, show_app, texts};
ghost use Rattle.pst_ask.specs.clap.Words.{fault_of, kind_of};
ghost use Rattle.pst_ask.specs.declared.words.NoOrder.TheVariants.{Lacks};
ghost use Rattle.pst_plain.specs.Twin.{method_of};
ghost use Rattle.pst_run.specs.Answer.{answer_to, answer_with, bytes_for, decoded_damage as answer_decoded, digest_for, is_decoded_damage as damage_wanted, is_of_whole as whole_wanted, method_for, whole_by};
ghost use Rattle.pst_run.specs.Refusal.{memory};
ghost use Rattle.pst_fault.specs.declared.kind.Kind.{Kind as FaultKind};
ghost use Rattle.pst_run.specs.Run.{Answers, CarriesOut, EndsShowing, EndsAs, Explains, IsLacking, IsOutOfMemory, IsWordsStatus, IsStatusOf, MatchNone, Says, SaysLine, TellsFault, lack_text as text_of_lack, outputs};

use crate::answers::answer;
use crate::damaged::decoded_damage;
use crate::ending::Ending;
use crate::input::load_counted;
use crate::refusal::Refusal;
use crate::said::{refuse, say};
use crate::shown::emit_text;
use crate::whole::{is_of_whole, write_decoded_whole, write_whole};
use pst_ask::{Ask, ErrorKind, Kind, Lack, NoOrder, Order, Request, parse};
use pst_explain::explanation;
use pst_json::{EmitFault, emit};
use pst_plain::plain;
use sha2::{Digest, Sha256};
use std::alloc::{AllocError, Global};
use std::io::{Read, Write};

/// The SHA-256 of the bytes as they lie in a file, where it is asked for.
pub fn digest_if(ask: &Ask, bytes: &[u8]) -> Option<[u8; 32]>
    ensures { result ≡ digest_for (wanted_of ask.now) bytes.now }
{
    match ask {
        Ask::Check { digest: true, .. } => Some(Sha256::digest(bytes)),
        Ask::Damage { digest: true } => Some(Sha256::digest(bytes)),
        _ => None,
    }
}

// Decodes an encoded file in the memory into which it was read, where that is asked for.
fn decode_if(alloc: Global, decode: bool, mut bytes: Vec<u8>) -> Result<Vec<u8>, AllocError>
    ensures { IfOk result (λ v. v.items ≡ bytes_for decode bytes.items) }
{
    if decode {
        plain(alloc, &mut bytes)?;
    }
    Ok(bytes)
}

/// Whether all that is broken is asked for, of a file that is to be decoded.
pub fn is_decoded_damage(request: &Request) -> bool
    ensures { result ≡ damage_wanted (request_of request.now) }
{
    matches!(request.ask, Ask::Damage { .. }) && request.decode
}

// Writes all that is broken of a file that may be encoded, and tells whether something is.
#[tactic(auto, using(crate::proofs::RunLemmas::ends_written))]
fn write_decoded_damage<W: Write>(
    alloc: Global,
    digest: Option<[u8; 32]>,
    mut bytes: Vec<u8>,
    out: &mut W,
) -> Result<bool, Refusal<'static>>
    ensures { EndsShowing result (answer_decoded (method_of bytes.items) digest bytes.items)
        (W.contents out.old) (W.contents out.new) }
{
    let shown = decoded_damage(alloc, digest, &mut bytes)?;
    emit_text(alloc, &shown.text, out)?;
    Ok(shown.fails)
}

// Writes what a command answers to these bytes of a file, with this digest, or to those of its plain twin, where it is to be
// decoded; and tells whether the run fails all the same.
#[tactic(auto, using(crate::proofs::RunLemmas::ends_written))]
fn write_shown<'a, W: Write>(
    alloc: Global,
    request: &'a Request,
    digest: Option<[u8; 32]>,
    bytes: Vec<u8>,
    out: &mut W,
) -> Result<bool, Refusal<'a>>
    ensures { EndsShowing result (answer_with (wanted_of request.now.ask) digest
        (bytes_for request.now.decode bytes.items))
        (W.contents out.old) (W.contents out.new) }
{
    let bytes = decode_if(alloc, request.decode, bytes)?;
    let shown = answer(alloc, &request.ask, digest, &bytes)?;
    emit_text(alloc, &shown.text, out)?;
    Ok(shown.fails)
}

// Writes what a command shows of what is whole of these bytes of a file, and tells whether the run fails all the same.
fn write_whole_of<'a, W: Write>(
    alloc: Global,
    request: &'a Request,
    mut bytes: Vec<u8>,
    out: &mut W,
) -> Result<bool, Refusal<'a>>
    requires { whole_wanted (request_of request.now) ≡ true }
    ensures { EndsShowing result (whole_by (method_for request.now.decode bytes.items)
        (wanted_of request.now.ask) bytes.items)
        (W.contents out.old) (W.contents out.new) }
{
    if request.decode {
        return write_decoded_whole(alloc, &request.ask, &mut bytes, out);
    }
    write_whole(alloc, &request.ask, &bytes, out)
}

// Writes what a command answers to these bytes of a file, and tells whether the run fails all the same. The digest is taken
// before anything is decoded.
fn write_answer<'a, W: Write>(
    alloc: Global,
    request: &'a Request,
    bytes: Vec<u8>,
    out: &mut W,
) -> Result<bool, Refusal<'a>>
    ensures { EndsShowing result (answer_to (request_of request.now) bytes.items)
        (W.contents out.old) (W.contents out.new) }
{
    let digest = digest_if(&request.ask, &bytes);
    if is_decoded_damage(request) {
        return write_decoded_damage(alloc, digest, bytes, out);
    }
    if is_of_whole(request) {
        return write_whole_of(alloc, request, bytes, out);
    }
    write_shown(alloc, request, digest, bytes, out)
}

/// What is said of words that are accepted and ask for nothing that can be done, without its line feed.
pub fn lack_text(lack: Lack) -> &'static str
    ensures { result.now ≡ text_of_lack lack }
{
    match lack {
        Lack::Nid => "bad node id",
        Lack::Property => "bad property id",
        Lack::Kind => "bad kind",
        Lack::Nothing => "nothing is asked for",
    }
}

/// Says why nothing is done, and gives the status for it: help and the version on the output, all else on the error output.
pub fn decline<W: Write, E: Write>(none: NoOrder, out: &mut W, err: &mut E) -> u8
    ensures status { MatchNone none (λ e. IsStatusOf (kind_of e) result) (result ≡ 2) }
    ensures lacking { (lack : Lack) → none ≡ Lacks lack →
        SaysLine (text_of_lack lack) (E.contents err.old) (E.contents err.new) }
    ensures quiet { (result ≡ 2) ⊎ (result ≡ 4) → out.new ≡ out.old }
    ensures silent { result ≡ 0 → err.new ≡ err.old }
    ensures memory { result ≡ 4 → Says memory (E.contents err.old) (E.contents err.new) }
{
    match none {
        NoOrder::Words(error) => {
            if error.kind() == ErrorKind::OutOfMemory {
                refuse(Refusal::Memory, err)
            } else if error.use_stderr() {
                let _ = write!(err, "{error}");
                2
            } else {
                match write!(out, "{error}") {
                    Ok(()) => 0,
                    Err(error) => refuse(Refusal::from(EmitFault::of(error)), err),
                }
            }
        }
        NoOrder::Lacks(lack) => {
            say(lack_text(lack), err);
            2
        }
    }
}

/// Shows what is asked for of these bytes of a file, and gives the status with which the program ends: 0 where it is shown, 1
/// where the file is refused, or has no such folder, node or property, or too many paths for an archive, or has lost space and the
/// check is strict, or where `damage` found something broken, 3 where the output cannot be written, 4 where memory is refused. Each
/// other status than 0 comes with a line on `err`, but for lost space, what is broken and an output that is closed; a fault of `err`
/// changes nothing. With the status comes the fault for which the file is refused, where that is why.
#[tactic(auto, using(crate::proofs::RunLemmas::tells_shown, crate::proofs::RunLemmas::tells_refused))]
pub fn answer_out<W: Write, E: Write>(
    alloc: Global,
    request: &Request,
    bytes: Vec<u8>,
    out: &mut W,
    err: &mut E,
) -> Ending
    // The status, what is written and what is said are the answer to the bytes, decoded where that is asked for.
    ensures answered { Answers (answer_to (request_of request.now) bytes.items) result.status
        (outputs (W.contents out.old) (E.contents err.old))
        (outputs (W.contents out.new) (E.contents err.new)) }
    ensures told { TellsFault (answer_to (request_of request.now) bytes.items) result }

    // It is not that of words that are refused.
    ensures accepted { result.status ≢ 2 }
{
    match write_answer(alloc, request, bytes, out) {
        Ok(false) => Ending {
            status: 0,
            fault: None,
        },
        Ok(true) => Ending {
            status: 1,
            fault: None,
        },
        Err(refusal) => Ending {
            status: refuse(refusal, err),
            fault: refusal.fault(),
        },
    }
}

/// Shows what is asked for of what the reader gives, and gives the status with which the program ends, as `run` says, and the
/// fault for which the file is refused, where that is why. So many bytes are expected of the reader, as `load` says.
pub fn carry_out<R: Read, W: Write, E: Write>(
    alloc: Global,
    request: &Request,
    input: &mut R,
    expected: usize,
    out: &mut W,
    err: &mut E,
) -> Ending
    // The status, what is written and what is said are the answer to the bytes that came, decoded where that is asked for.
    ensures answered { EndsAs (request_of request.now) (R.remaining input.old) result
        (outputs (W.contents out.old) (E.contents err.old))
        (outputs (W.contents out.new) (E.contents err.new)) }

    // It is not that of words that are refused.
    ensures accepted { result.status ≢ 2 }
{
    match load_counted(alloc, input, expected).0 {
        Ok(bytes) => answer_out(alloc, request, bytes, out, err),
        Err(fault) => Ending {
            status: refuse(Refusal::from(fault), err),
            fault: None,
        },
    }
}

/// Explains a kind of fault, or all of them in a line each, and gives the status with which the program ends: 0 where it is
/// written, and 3 where the output cannot be, which is said on `err`. No file is read.
pub fn explain_out<W: Write, E: Write>(kind: Option<Kind>, out: &mut W, err: &mut E) -> u8
    ensures { Explains kind result (outputs (W.contents out.old) (E.contents err.old))
        (outputs (W.contents out.new) (E.contents err.new)) }
{
    match emit(explanation(kind).as_bytes(), out) {
        Ok(()) => 0,
        Err(fault) => refuse(Refusal::from(fault), err),
    }
}

/// Runs what the words after the program's name ask for, and gives the status with which the program ends: 0 where it
/// is shown (or help, or the version), 1 where the file is refused, or has no such folder, node or property, or too many paths for
/// an archive, or has lost space and the check is strict, or where `damage` found something broken, 2 where the words are refused, 3
/// where the file cannot be read or the output cannot be written, 4 where memory is refused. Each other status than 0 comes with a
/// line on `err`, but for lost space, what is broken and an output that is closed; a fault of `err` changes nothing.
pub fn run<R: Read, W: Write, E: Write>(
    alloc: Global,
    words: &[String],
    input: &mut R,
    out: &mut W,
    err: &mut E,
) -> u8
    // Where the words are accepted and ask for something of a file, the status, what is written and what is said are
    // the answer to the bytes of the file, decoded where the words ask for it.
    ensures answered { (a : Asked) → IsAsked (texts words.entry.now) (show a) →
        CarriesOut a (R.remaining input.old) result
        (outputs (W.contents out.old) (E.contents err.old))
        (outputs (W.contents out.new) (E.contents err.new)) }

    // Where they ask what a kind of fault is, that is written, or memory was refused; and nothing is read.
    ensures explained { (k : Option FaultKind) → IsAsked (texts words.entry.now) (explain k) →
        let old = outputs (W.contents out.old) (E.contents err.old) in
        let new = outputs (W.contents out.new) (E.contents err.new) in
        (Explains k result old new ⊎ IsOutOfMemory result old new) × (input.new ≡ input.old) }

    // Where the words are refused, or ask for help or the version, nothing is read.
    ensures refused { fault_of show_app (texts words.entry.now) ≢ [] →
        IsWordsStatus (fault_of show_app (texts words.entry.now)) result }
    ensures unread { fault_of show_app (texts words.entry.now) ≢ [] → input.new ≡ input.old }

    // The same where they are accepted and ask for nothing that can be done, as for a node that no word names.
    ensures lacks { (lack : Lack) → fault_of show_app (texts words.entry.now) ≡ [] →
        asked (texts words.entry.now) ≡ Err lack
        → IsLacking lack result (E.contents err.old) (E.contents err.new)
        × (input.new ≡ input.old) × (out.new ≡ out.old) }

    // Nothing is written to the output where the words are refused.
    ensures quiet { result ≡ 2 → out.new ≡ out.old }
    ensures still { fault_of show_app (texts words.entry.now) ≢ [] →
        (result ≡ 2) ⊎ (result ≡ 4) → out.new ≡ out.old }
{
    match parse(alloc, words) {
        Ok(Order::Show(request)) => carry_out(alloc, &request, input, 0, out, err).status,
        Ok(Order::Explain(kind)) => explain_out(kind, out, err),
        Err(none) => decline(none, out, err),
    }
}
