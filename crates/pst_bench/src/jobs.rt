//! What is asked of the stores.

use crate::awkward::{own_values, turning_lists};
use crate::bodies::long_mail;
use crate::digest::{digest, digest_of_long};
use crate::folders::{bare_nodes, many_folders};
use crate::mail::{mail, message_nid};
use crate::message::Kind;
use pst_run::run;
use std::alloc::{AllocError, Global};

/// A job that a user waits for.
#[derive(Clone, Copy, Debug)]
pub(crate) enum Job {
    /// The verdict of a store of many messages.
    Verdict,
    /// The verdict of an encoded store, with longer texts and attachments.
    Encoded,
    /// All messages as lines.
    Messages,
    /// The properties of a third of all messages.
    Properties,
    /// The properties of all messages, and all messages as lines, of mail with long bodies.
    Bodies,
    /// The folders, the nodes, and the contents of a folder.
    Lists,
    /// The verdict of stores that a stranger made to be slow.
    Awkward,
}

impl Job {
    /// The job of a name.
    pub(crate) fn named(name: &str) -> Option<Job> {
        match name {
            "verdict" => Some(Job::Verdict),
            "encoded" => Some(Job::Encoded),
            "messages" => Some(Job::Messages),
            "properties" => Some(Job::Properties),
            "bodies" => Some(Job::Bodies),
            "lists" => Some(Job::Lists),
            "awkward" => Some(Job::Awkward),
            _ => None,
        }
    }
}

/// What was answered: what was asked for, the status, how long the output is, and a digest of both outputs.
#[derive(Drop)]
pub(crate) struct Answer {
    pub(crate) what: &'static str,
    pub(crate) status: u8,
    pub(crate) length: usize,
    pub(crate) digest: u64,
}

const SHORT: Kind = Kind {
    doublings: 7,
    attached: false,
};

const LONG: Kind = Kind {
    doublings: 10,
    attached: true,
};

// How many awkward stores of each kind there are, and how far their seeds are apart: those that words ask for are less.
const AWKWARD: u64 = 3;

const BEYOND_SEEDS: u64 = 0x1_0000_0000;

// The words of a command over standard input.
fn words_of(alloc: Global, words: &[&'static str]) -> Result<Vec<String>, AllocError> {
    let mut made = Vec::new(alloc);
    for word in words {
        made.push(String::from_str(alloc, word)?)?;
    }
    Ok(made)
}

// What a run with these words answers of a store: the status, how long the output is, and both outputs.
fn answered(
    alloc: Global,
    words: &[String],
    store: &[u8],
) -> Result<(u8, usize, Vec<u8>), AllocError> {
    let (mut out, mut err) = (Vec::new(alloc), Vec::new(alloc));
    let mut input = store;
    let status = run(alloc, words, &mut input, &mut out, &mut err);
    let length = out.len();
    out.extend_from_slice(&err)?;
    Ok((status, length, out))
}

// The same with a digest of the outputs.
fn ask(
    alloc: Global,
    what: &'static str,
    words: &[String],
    store: &[u8],
) -> Result<Answer, AllocError> {
    let (status, length, out) = answered(alloc, words, store)?;
    Ok(Answer {
        what,
        status,
        length,
        digest: digest(&out),
    })
}

// The same of outputs that are so long that the digest would take a good part of the time.
fn ask_much(
    alloc: Global,
    what: &'static str,
    words: &[String],
    store: &[u8],
) -> Result<Answer, AllocError> {
    let (status, length, out) = answered(alloc, words, store)?;
    Ok(Answer {
        what,
        status,
        length,
        digest: digest_of_long(&out),
    })
}

// The words that ask for the properties of each of so many messages whose number leaves this rest.
fn props_of(alloc: Global, count: u32, each: u32, rest: u32) -> Result<Vec<String>, AllocError> {
    let mut words = words_of(alloc, &["props", "-"])?;
    for number in 0..count {
        if number.checked_rem(each) == Some(rest) {
            let nid = message_nid(number);
            words.push(format!(in alloc; "0x{nid:x}")?)?;
        }
    }
    Ok(words)
}

// The folders, the nodes and the contents of stores of these sizes.
fn lists(alloc: Global, seed: u64, count: u32) -> Result<Vec<Answer>, AllocError> {
    let mut answers = Vec::new(alloc);
    let store = many_folders(alloc, seed, count)?;
    answers.push(ask(
        alloc,
        "folders",
        &words_of(alloc, &["folders", "-"])?,
        &store,
    )?)?;
    let store = bare_nodes(alloc, seed, count.saturating_mul(12))?;
    answers.push(ask(alloc, "nodes", &words_of(alloc, &["nodes", "-"])?, &store)?)?;
    let store = mail(alloc, seed, count / 2, SHORT, false)?;
    let words = words_of(alloc, &["contents", "-", "0x8082"])?;
    answers.push(ask(alloc, "contents", &words, &store)?)?;
    Ok(answers)
}

// The properties of so many messages with long bodies, and these as lines.
fn bodies(alloc: Global, seed: u64, count: u32) -> Result<Vec<Answer>, AllocError> {
    let mut answers = Vec::new(alloc);
    let store = long_mail(alloc, seed, count)?;
    let words = props_of(alloc, count, 1, 0)?;
    answers.push(ask_much(alloc, "props", &words, &store)?)?;
    let words = words_of(alloc, &["messages", "-"])?;
    answers.push(ask_much(alloc, "messages", &words, &store)?)?;
    Ok(answers)
}

// The verdicts of stores with so many contexts, three of each kind. The first are of the seed itself, the others of seeds that
// no word asks for.
fn awkward(alloc: Global, seed: u64, count: u32) -> Result<Vec<Answer>, AllocError> {
    let mut answers = Vec::new(alloc);
    let words = words_of(alloc, &["check", "-"])?;
    for number in 0..AWKWARD {
        let seed = seed.saturating_add(number.saturating_mul(BEYOND_SEEDS));
        let store = own_values(alloc, seed, count, count.saturating_mul(300))?;
        answers.push(ask(alloc, "own values", &words, &store)?)?;
        let store = turning_lists(alloc, seed, count, count.saturating_mul(200))?;
        answers.push(ask(alloc, "turning lists", &words, &store)?)?;
    }
    Ok(answers)
}

// One answer of a store of mail.
fn of_mail(
    alloc: Global,
    what: &'static str,
    words: &[String],
    store: Vec<u8>,
) -> Result<Vec<Answer>, AllocError> {
    let mut answers = Vec::new(alloc);
    answers.push(ask(alloc, what, words, &store)?)?;
    Ok(answers)
}

/// What a job answers of stores that a seed makes, the larger the greater a count is.
pub(crate) fn answers(
    alloc: Global,
    job: Job,
    seed: u64,
    count: u32,
) -> Result<Vec<Answer>, AllocError> {
    match job {
        Job::Verdict => {
            let words = words_of(alloc, &["check", "-"])?;
            of_mail(
                alloc,
                "check",
                &words,
                mail(alloc, seed, count, SHORT, false)?,
            )
        }
        Job::Encoded => {
            let words = words_of(alloc, &["check", "--decode", "-"])?;
            of_mail(
                alloc,
                "check --decode",
                &words,
                mail(alloc, seed, count, LONG, true)?,
            )
        }
        Job::Messages => {
            let words = words_of(alloc, &["messages", "-"])?;
            of_mail(
                alloc,
                "messages",
                &words,
                mail(alloc, seed, count, SHORT, false)?,
            )
        }
        Job::Properties => {
            let words = props_of(alloc, count, 3, 1)?;
            of_mail(
                alloc,
                "props",
                &words,
                mail(alloc, seed, count, SHORT, false)?,
            )
        }
        Job::Bodies => bodies(alloc, seed, count),
        Job::Lists => lists(alloc, seed, count),
        Job::Awkward => awkward(alloc, seed, count),
    }
}
