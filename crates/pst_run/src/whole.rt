//! `--whole`: what commands show of what is whole of a damaged file.

ghost use Rattle.std.specs.Prelude.{◌≡◌, None, true};
ghost use Rattle.pst_ask.specs.Ask.{request_of, wanted_of};
ghost use Rattle.pst_plain.specs.Twin.{method_of as method_in};
ghost use Rattle.pst_remains.specs.View.{parts_in};
ghost use Rattle.pst_run.specs.Answer.{is_of_whole as whole_wanted, read_left, reads, whole_by};
ghost use Rattle.pst_run.specs.Run.{EndsShowing};

use crate::damaged::broken_if;
use crate::outside::check_inside;
use crate::read::{read_answer, reads_nodes};
use crate::refusal::Refusal;
use crate::shown::emit_text;
use pst_ask::{Ask, Request};
use pst_bytes::Image;
use pst_json::find_whole;
use pst_plain::method_of;
use pst_remains::{Remains, find_decoded_remains, find_remains};
use std::alloc::Global;
use std::io::Write;

/// Whether what is whole is asked for, by a command that reads nodes.
pub fn is_of_whole(request: &Request) -> bool
    ensures { result ≡ whole_wanted (request_of request.now) }
{
    request.whole && reads_nodes(&request.ask)
}

// Writes what a command shows of the nodes without fault that are left of a file of so many bytes, and tells whether the run fails all the same.
#[tactic(auto, using(crate::proofs::RunLemmas::ends_written))]
fn write_left<'p, W: Write>(
    alloc: Global,
    ask: &'p Ask,
    size: u64,
    remains: Remains<'_>,
    out: &mut W,
) -> Result<bool, Refusal<'p>>
    requires { reads (wanted_of ask.now) ≡ true }
    ensures { EndsShowing result (read_left (wanted_of ask.now) size (parts_in remains.entry))
        (W.contents out.old) (W.contents out.new) }
{
    let damage = broken_if(alloc, ask, &remains)?;
    let whole = find_whole(alloc, remains)?;
    let pages = whole.pages(alloc)?;
    let (intact, lost) = (whole.intact(), whole.lost(&pages));
    let shown = read_answer(alloc, ask, size, damage, &intact, &lost)?;
    emit_text(alloc, &shown.text, out)?;
    Ok(shown.fails)
}

/// Writes what a command shows of what is whole of a file as it is stored, and tells whether the run fails all the same.
pub fn write_whole<'p, W: Write>(
    alloc: Global,
    ask: &'p Ask,
    bytes: &[u8],
    out: &mut W,
) -> Result<bool, Refusal<'p>>
    requires { reads (wanted_of ask.now) ≡ true }
    ensures { EndsShowing result (whole_by None (wanted_of ask.now) bytes.now)
        (W.contents out.old) (W.contents out.new) }
{
    let image = Image::new(bytes);
    check_inside(image)?;
    let size = bytes.len() as u64;
    write_left(alloc, ask, size, find_remains(alloc, image)?, out)
}

/// The same of a file that may be encoded. It is judged as it is stored, and then its blocks without fault are decoded, in place. A file
/// that is not encoded stays as it is.
pub fn write_decoded_whole<'p, W: Write>(
    alloc: Global,
    ask: &'p Ask,
    bytes: &mut [u8],
    out: &mut W,
) -> Result<bool, Refusal<'p>>
    requires { reads (wanted_of ask.now) ≡ true }
    ensures { EndsShowing result (whole_by (method_in bytes.old) (wanted_of ask.now) bytes.old)
        (W.contents out.old) (W.contents out.new) }
{
    let Some(method) = method_of(Image::new(bytes)) else {
        return write_whole(alloc, ask, bytes, out);
    };
    let size = bytes.len() as u64;
    let remains = find_decoded_remains(alloc, method, bytes)?;
    write_left(alloc, ask, size, remains, out)
}
