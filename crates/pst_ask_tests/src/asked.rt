//! What words ask for, and the texts of help and of refusals.

mod asked;
mod help;
mod named;
mod refused;

use crate::told::{MEMORY, holds_at, is};
use pst_ask::{Lack, NoOrder, parse};
use std::alloc::Global;
use std::process::Abort;

fn words_of<R: Abort>(rt: &R, alloc: Global, words: &[&str]) -> Vec<String> {
    let mut all = Vec::new(alloc);
    for word in words {
        all.push(String::from_str(alloc, word).expect(rt, MEMORY))
            .expect(rt, MEMORY);
    }
    all
}

// Compares the text that comes of words which ask for nothing to be shown, and whether it is told as an error.
fn is_answered<R: Abort + AllocGlobal>(rt: &R, words: &[&str], is_error: bool, text: &str) {
    let words = words_of(rt, rt.alloc(), words);
    match parse(rt.alloc(), &words) {
        Err(NoOrder::Words(error)) => {
            let said = (format!(in rt.alloc(); "{error}")).expect(rt, MEMORY);
            is(rt, said.as_str(), text);
            is(rt, error.use_stderr(), is_error);
        }
        _ => rt.panic("the words are accepted"),
    }
}

// Compares what words lack, which are accepted and ask for nothing that can be done.
fn lacks<R: Abort + AllocGlobal>(rt: &R, words: &[&str], wanted: Lack) {
    let all = words_of(rt, rt.alloc(), words);
    let asked = parse(rt.alloc(), &all);
    let is_so = matches!(asked, Err(NoOrder::Lacks(lack)) if lack == wanted);
    holds_at(rt, words, is_so);
}
