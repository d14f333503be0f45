//! What each command answers to the bytes of a file.

ghost use Rattle.std.specs.Prelude.{◌≡◌, ℕ, Bool, List, map, Option};
ghost use Rattle.pst_ask.specs.Ask.{report, head, nodes, folders, contents, messages, props, value, export, nids_of, wanted_of};
ghost use Rattle.pst_run.specs.Answer.{Gives, answer_with};

use crate::damaged::damage_answer;
use crate::read::{archive_shown, contents_shown, props_shown, value_shown};
use crate::refusal::Refusal;
use crate::shown::{Shown, Text};
use pst_ask::{Ask, Path};
use pst_bytes::Image;
use pst_header::read_header;
use pst_json::{
    Intact, Lost, check_line, folders_line, head_line, messages_text, nodes_line, read_nodes,
    verify,
};
use std::alloc::Global;

// `check`: the report of the check.
#[tactic(auto, using(crate::proofs::AnswerLemmas::check_told, crate::proofs::AnswerLemmas::check_refused))]
fn check_answer(
    alloc: Global,
    strict: bool,
    digest: Option<[u8; 32]>,
    bytes: &[u8],
) -> Result<Shown<'static>, Refusal<'static>>
    ensures { (digested : Bool)
        → Gives result (answer_with (report strict digested) digest bytes.now) }
{
    let verified = verify(alloc, bytes)?;
    let text = check_line(alloc, &verified.report, digest)?;
    let fails = strict && !verified.report.lost.is_empty();
    Ok(Shown {
        text: Text::Made(text),
        fails,
    })
}

// `head`: the fields of the header.
#[tactic(auto, unfolding(crate::specs::Answer::answer_with))]
fn head_answer(alloc: Global, bytes: &[u8]) -> Result<Shown<'static>, Refusal<'static>>
    ensures { (digest : Option (List ℕ)) → Gives result (answer_with head digest bytes.now) }
{
    let header = read_header(Image::new(bytes))?;
    let text = head_line(alloc, &header)?;
    Ok(Shown::made(text))
}

// `nodes`: the entries of the node B-tree.
#[tactic(auto, unfolding(crate::specs::Answer::answer_with))]
fn nodes_answer(alloc: Global, bytes: &[u8]) -> Result<Shown<'static>, Refusal<'static>>
    ensures { (digest : Option (List ℕ)) → Gives result (answer_with nodes digest bytes.now) }
{
    let tree = read_nodes(alloc, Image::new(bytes))?;
    let text = nodes_line(alloc, &tree)?;
    Ok(Shown::made(text))
}

// `folders`: the folders of a store.
#[tactic(auto, unfolding(crate::specs::Answer::answer_with, crate::specs::Answer::read_with))]
fn folders_answer(alloc: Global, bytes: &[u8]) -> Result<Shown<'static>, Refusal<'static>>
    ensures { (digest : Option (List ℕ)) → Gives result (answer_with folders digest bytes.now) }
{
    let verified = verify(alloc, bytes)?;
    verified.store.is_sound();
    verified.is_sound();
    let intact = Intact::of(&verified.store);
    let text = folders_line(alloc, &intact, &Lost::Nothing, &verified.report.reached)?;
    Ok(Shown::made(text))
}

// `contents`: the messages of a folder.
#[tactic(auto, unfolding(crate::specs::Answer::answer_with, crate::specs::Answer::read_with))]
fn contents_answer<'p>(
    alloc: Global,
    nid: &'p u32,
    bytes: &[u8],
) -> Result<Shown<'static>, Refusal<'p>>
    ensures { (digest : Option (List ℕ))
        → Gives result (answer_with (contents nid.now) digest bytes.now) }
{
    let store = verify(alloc, bytes)?.store;
    store.is_sound();
    contents_shown(alloc, nid, &Intact::of(&store), &Lost::Nothing)
}

// `messages`: all messages of a store.
#[tactic(auto, unfolding(crate::specs::Answer::answer_with, crate::specs::Answer::read_with))]
fn messages_answer(alloc: Global, bytes: &[u8]) -> Result<Shown<'static>, Refusal<'static>>
    ensures { (digest : Option (List ℕ)) → Gives result (answer_with messages digest bytes.now) }
{
    let store = verify(alloc, bytes)?.store;
    store.is_sound();
    let text = messages_text(alloc, &Intact::of(&store))?;
    Ok(Shown::made(text))
}

// `props`: the properties of what paths lead to, one after another.
#[tactic(auto, unfolding(crate::specs::Answer::answer_with, crate::specs::Answer::read_with))]
fn props_answer<'p>(
    alloc: Global,
    places: bool,
    paths: &'p [Path],
    bytes: &[u8],
) -> Result<Shown<'static>, Refusal<'p>>
    ensures { (digest : Option (List ℕ)) → Gives result
        (answer_with (props places (map nids_of paths.now)) digest bytes.now) }
{
    let store = verify(alloc, bytes)?.store;
    store.is_sound();
    props_shown(alloc, places, paths, &Intact::of(&store), &Lost::Nothing)
}

// `value`: the value of one property of what a path leads to.
#[tactic(auto, unfolding(crate::specs::Answer::answer_with, crate::specs::Answer::read_with))]
fn value_answer<'p, 'a>(
    alloc: Global,
    text: bool,
    path: &'p Path,
    id: u16,
    bytes: &'a [u8],
) -> Result<Shown<'a>, Refusal<'p>>
    ensures { (digest : Option (List ℕ)) → Gives result
        (answer_with (value text (nids_of path.now) id) digest bytes.now) }
{
    let store = verify(alloc, bytes)?.store;
    store.is_sound();
    value_shown(alloc, text, path, id, &Intact::of(&store), &Lost::Nothing)
}

// `export`: all files of a store, in an archive.
#[tactic(auto, unfolding(crate::specs::Answer::answer_with, crate::specs::Answer::read_with))]
fn export_answer<'a>(alloc: Global, bytes: &'a [u8]) -> Result<Shown<'a>, Refusal<'static>>
    ensures { (digest : Option (List ℕ)) → Gives result (answer_with export digest bytes.now) }
{
    let verified = verify(alloc, bytes)?;
    verified.store.is_sound();
    verified.is_sound();
    let intact = Intact::of(&verified.store);
    let reached = verified.report.reached;
    let size = bytes.len() as u64;
    archive_shown(alloc, size, None, &intact, &Lost::Nothing, reached)
}

/// What a command shows of a file with these bytes, and with this digest where it shows one; or why it refuses them. The fault
/// NoMemory comes as want of memory, and not as a refusal of the file.
pub fn answer<'p, 'a>(
    alloc: Global,
    ask: &'p Ask,
    digest: Option<[u8; 32]>,
    bytes: &'a [u8],
) -> Result<Shown<'a>, Refusal<'p>>
    ensures { Gives result (answer_with (wanted_of ask.now) digest bytes.now) }
{
    match ask {
        Ask::Check { strict, .. } => check_answer(alloc, *strict, digest, bytes),
        Ask::Damage { .. } => damage_answer(alloc, digest, bytes),
        Ask::Head => head_answer(alloc, bytes),
        Ask::Nodes => nodes_answer(alloc, bytes),
        Ask::Folders => folders_answer(alloc, bytes),
        Ask::Contents(nid) => contents_answer(alloc, nid, bytes),
        Ask::Messages => messages_answer(alloc, bytes),
        Ask::Props { places, paths } => props_answer(alloc, *places, paths, bytes),
        Ask::Value { text, path, id } => value_answer(alloc, *text, path, *id, bytes),
        Ask::Export => export_answer(alloc, bytes),
    }
}
