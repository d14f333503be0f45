//! The answer to words and bytes.

ghost use Rattle.std.specs.Prelude.{◌≡◌, ◌⊎◌, MatchResult, []};
ghost use Rattle.pst_ask.specs.Ask.{request_of};
ghost use Rattle.pst_ask.specs.Words.{texts};
ghost use Rattle.pst_ask.specs.declared.words.NoOrder.TheVariants.{Words};
ghost use Rattle.pst_run.specs.Refusal.{refused_of};
ghost use Rattle.pst_answer.specs.Answer.{AnswersCall, AnswersWords, Declined, AnswersKind, Is, IsMemory, Refuses, AnswersRequest, WordlessBy};

use crate::kept::Kept;
use crate::shown::shown_of;
use crate::words::{NoWords, words_in};
use pst_ask::{Error, Kind, NoOrder, Order, Request, parse};
use pst_run::{MOST_BYTES, Refusal, decline, explain_out, line_of, line_of_lack};
use std::alloc::{AllocError, Global};

/// What is answered to words and the bytes of a file.
#[derive(Drop)]
pub struct Answer {
    /// The status with which the program ends.
    pub status: u8,
    /// What it writes.
    pub text: Vec<u8>,
    /// What it says on the error output.
    pub line: Vec<u8>,
}

// The answer where memory is refused: nothing is said, since a line would take some.
fn of_memory(alloc: Global) -> Answer
    ensures { IsMemory result }
{
    Answer {
        status: Refusal::Memory.status(),
        text: Vec::new(alloc),
        line: Vec::new(alloc),
    }
}

// A line alone, with its status; or want of memory.
fn said(alloc: Global, status: u8, line: Result<Vec<u8>, AllocError>) -> Answer
    ensures { MatchResult line (λ l. Is status [] l.items result) (λ _. IsMemory result) }
{
    match line {
        Ok(line) => Answer {
            status,
            text: Vec::new(alloc),
            line,
        },
        Err(_) => of_memory(alloc),
    }
}

// The answer where nothing is shown.
fn refused(alloc: Global, refusal: Refusal) -> Answer
    ensures { Refuses (refused_of refusal.entry) result }
{
    match refusal {
        Refusal::Memory => of_memory(alloc),
        _ => said(alloc, refusal.status(), line_of(alloc, refusal)),
    }
}

// What is asked for of a file with these bytes.
fn shown(alloc: Global, request: &Request, bytes: &[u8]) -> Answer
    ensures { AnswersRequest (request_of request.now) bytes.now result }
{
    if bytes.len() > MOST_BYTES {
        return refused(alloc, Refusal::Input);
    }
    match shown_of(alloc, request, bytes) {
        Ok((text, fails)) => Answer {
            status: u8::from(fails),
            text,
            line: Vec::new(alloc),
        },
        Err(refusal) => refused(alloc, refusal),
    }
}

// What a kind of fault says, or all of them.
fn explained(alloc: Global, kind: Option<Kind>) -> Answer
    ensures { AnswersKind kind result }
{
    let (mut text, mut line) = (Vec::new(alloc), Vec::new(alloc));
    match explain_out(kind, &mut text, &mut line) {
        0 => Answer {
            status: 0,
            text,
            line,
        },
        _ => of_memory(alloc),
    }
}

// Help or the version, or why words are refused. A text that cannot be written whole is want of memory here.
#[tactic(auto, using(crate::proofs::DeclinedLemmas::declined_with))]
fn worded(alloc: Global, error: Error) -> Answer
    ensures { Declined (Words error) result ⊎ IsMemory result }
{
    let (mut text, mut line) = (Kept::new(alloc), Kept::new(alloc));
    let status = decline(NoOrder::Words(error), &mut text, &mut line);
    if text.is_refused || line.is_refused || (status != 0 && status != 2) {
        return of_memory(alloc);
    }
    Answer {
        status,
        text: text.bytes,
        line: line.bytes,
    }
}

// Why nothing is done, or help, or the version.
fn declined(alloc: Global, none: NoOrder) -> Answer
    ensures { Declined none result ⊎ IsMemory result }
{
    match none {
        NoOrder::Words(error) => worded(alloc, error),
        NoOrder::Lacks(lack) => said(alloc, 2, line_of_lack(alloc, lack)),
    }
}

// The answer where bytes are no words.
fn wordless(alloc: Global, none: NoWords) -> Answer
    ensures { WordlessBy none result }
{
    match none {
        NoWords::Endless => said(
            alloc,
            2,
            Vec::from_slice(alloc, b"the last word has no end\n"),
        ),
        NoWords::NoText => said(alloc, 2, Vec::from_slice(alloc, b"a word is not UTF-8\n")),
        NoWords::Memory => of_memory(alloc),
    }
}

// The answer to words.
fn answer_words(alloc: Global, words: &[String], bytes: &[u8]) -> Answer
    ensures { AnswersWords (texts words.entry.now) bytes.now result }
{
    match parse(alloc, words) {
        Ok(Order::Show(request)) => shown(alloc, &request, bytes),
        Ok(Order::Explain(kind)) => explained(alloc, kind),
        Err(none) => declined(alloc, none),
    }
}

/// What the program answers to words, each ended by a zero byte, over these bytes in place of the file that they name, whatever
/// name that is: the status with which it ends, what it writes, and what it says on the error output. With status 4, where
/// memory is refused, both texts are empty.
pub fn answer_text(alloc: Global, words: &[u8], bytes: &[u8]) -> Answer
    ensures { AnswersCall words.now bytes.now result }
{
    match words_in(alloc, words) {
        Ok(words) => answer_words(alloc, &words, bytes),
        Err(none) => wordless(alloc, none),
    }
}
