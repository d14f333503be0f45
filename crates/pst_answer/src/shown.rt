//! What is shown of the caller's bytes.

ghost use Rattle.std.specs.Prelude.{◌≡◌, IfOk, Some, true};
ghost use Rattle.pst_ask.specs.Ask.{request_of, wanted_of};
ghost use Rattle.pst_datatree.specs.Shown.{bytes_in};
ghost use Rattle.pst_plain.specs.Twin.{method_of as method_in};
ghost use Rattle.pst_run.specs.Answer.{answer_to, answer_with, bytes_for, bytes_shown, decoded_damage as answer_decoded, is_decoded_damage as damage_wanted, is_of_whole as whole_wanted, method_for, whole_by};
ghost use Rattle.pst_run.specs.Export.{archive_in};
ghost use Rattle.pst_run.specs.Refusal.{refused_of};
ghost use Rattle.pst_run.specs.Run.{EndsShowing};
ghost use Rattle.pst_answer.specs.Answer.{Yields, refused_in_memory};

use crate::decoded::decoded_if;
use pst_ask::{Ask, Request};
use pst_bytes::Image;
use pst_datatree::Value;
use pst_plain::method_of;
use pst_run::{
    Export, Refusal, Text, answer, decoded_damage, digest_if, emit_export, emit_value,
    is_decoded_damage, is_of_whole, write_decoded_whole, write_whole,
};
use std::alloc::{AllocError, Global};

// The bytes of a value, in memory of their own.
fn copied(alloc: Global, value: Value) -> Result<Vec<u8>, AllocError>
    ensures { IfOk result (λ v. v.items ≡ bytes_in value.entry) }
{
    let mut bytes = Vec::new(alloc);
    match emit_value(value, &mut bytes) {
        Ok(()) => Ok(bytes),
        Err(_) => Err(AllocError),
    }
}

// An archive, in memory.
fn archived(alloc: Global, export: &Export) -> Result<Vec<u8>, AllocError>
    ensures { IfOk result (λ v. v.items ≡ archive_in export.now) }
{
    let mut bytes = Vec::new(alloc);
    match emit_export(alloc, export, &mut bytes) {
        Ok(()) => Ok(bytes),
        Err(_) => Err(AllocError),
    }
}

// A text that outlives the bytes that it is of.
fn text_of(alloc: Global, text: Text) -> Result<Vec<u8>, AllocError>
    ensures { IfOk result (λ v. v.items ≡ bytes_shown text.entry) }
{
    match text {
        Text::Made(text) => Ok(text),
        Text::Lent(value) => copied(alloc, value),
        Text::Archive(export) => archived(alloc, &export),
    }
}

// What a command shows of these bytes with this digest, and whether the run fails all the same; or why it refuses them.
fn shown_with<'p>(
    alloc: Global,
    ask: &'p Ask,
    digest: Option<[u8; 32]>,
    bytes: &[u8],
) -> Result<(Vec<u8>, bool), Refusal<'p>>
    ensures { Yields result (answer_with (wanted_of ask.now) digest bytes.now) }
{
    let shown = answer(alloc, ask, digest, bytes)?;
    let text = text_of(alloc, shown.text)?;
    Ok((text, shown.fails))
}

// All that is broken of a file that may be encoded, and whether something is: of a copy, since the caller's bytes are only lent. A
// file that is not encoded is not copied.
#[tactic(auto, using(crate::proofs::DamageLemmas::plain_damage))]
fn damage_of<'p>(
    alloc: Global,
    request: &'p Request,
    digest: Option<[u8; 32]>,
    bytes: &[u8],
) -> Result<(Vec<u8>, bool), Refusal<'p>>
    requires { damage_wanted (request_of request.now) ≡ true }
    ensures { Yields result (answer_decoded (method_in bytes.now) digest bytes.now) }
{
    if method_of(Image::new(bytes)).is_none() {
        return shown_with(alloc, &request.ask, digest, bytes);
    }
    let mut copy = Vec::from_slice(alloc, bytes)?;
    let shown = decoded_damage(alloc, digest, &mut copy)?;
    let text = text_of(alloc, shown.text)?;
    Ok((text, shown.fails))
}

// Writes what a command shows of what is whole of these bytes: of a copy, where they are to be decoded, since the caller's are only
// lent.
fn write_whole_of<'p>(
    alloc: Global,
    request: &'p Request,
    bytes: &[u8],
    text: &mut Vec<u8>,
) -> Result<bool, Refusal<'p>>
    requires { whole_wanted (request_of request.now) ≡ true }
    ensures { EndsShowing result (whole_by (method_for request.now.decode bytes.now)
        (wanted_of request.now.ask) bytes.now)
        (Some text.old.items) (Some text.new.items) }
{
    if !request.decode || method_of(Image::new(bytes)).is_none() {
        return write_whole(alloc, &request.ask, bytes, text);
    }
    let mut copy = Vec::from_slice(alloc, bytes)?;
    write_decoded_whole(alloc, &request.ask, &mut copy, text)
}

// Why nothing is shown, where the text is made in memory: such an output fails for want of memory alone.
fn in_memory(refusal: Refusal<'_>) -> Refusal<'_>
    ensures { refused_of result ≡ refused_in_memory (refused_of refusal.entry) }
{
    match refusal {
        Refusal::Output(_) => Refusal::Memory,
        _ => refusal,
    }
}

// What a command shows of what is whole of these bytes, and whether the run fails all the same.
#[tactic(auto, using(crate::proofs::WholeLemmas::yields_shown, crate::proofs::WholeLemmas::yields_none))]
fn whole_of<'p>(
    alloc: Global,
    request: &'p Request,
    bytes: &[u8],
) -> Result<(Vec<u8>, bool), Refusal<'p>>
    requires { whole_wanted (request_of request.now) ≡ true }
    ensures { Yields result (whole_by (method_for request.now.decode bytes.now)
        (wanted_of request.now.ask) bytes.now) }
{
    let mut text = Vec::new(alloc);
    match write_whole_of(alloc, request, bytes, &mut text) {
        Ok(fails) => Ok((text, fails)),
        Err(refusal) => Err(in_memory(refusal)),
    }
}

// What a command shows of these bytes with this digest, or of their plain twin, where they are to be decoded.
fn twin_shown<'p>(
    alloc: Global,
    request: &'p Request,
    digest: Option<[u8; 32]>,
    bytes: &[u8],
) -> Result<(Vec<u8>, bool), Refusal<'p>>
    ensures { Yields result (answer_with (wanted_of request.now.ask) digest
        (bytes_for request.now.decode bytes.now)) }
{
    match decoded_if(alloc, request.decode, bytes)? {
        Some(twin) => shown_with(alloc, &request.ask, digest, &twin),
        None => shown_with(alloc, &request.ask, digest, bytes),
    }
}

/// What is asked for of these bytes, and whether the run fails all the same; or why they are refused. The digest is taken before
/// anything is decoded.
pub fn shown_of<'p>(
    alloc: Global,
    request: &'p Request,
    bytes: &[u8],
) -> Result<(Vec<u8>, bool), Refusal<'p>>
    ensures { Yields result (answer_to (request_of request.now) bytes.now) }
{
    let digest = digest_if(&request.ask, bytes);
    if is_decoded_damage(request) {
        return damage_of(alloc, request, digest, bytes);
    }
    if is_of_whole(request) {
        return whole_of(alloc, request, bytes);
    }
    twin_shown(alloc, request, digest, bytes)
}
