//! The words of a command line, as C hands them over.

ghost use Rattle.std.specs.Prelude.{◌≡◌, IfOk, IsErrOf, map};
ghost use Rattle.pst_answer.specs.Words.{IsEndless, IsNoText, IsWords, cut_words};
ghost use Rattle.pst_ask.specs.Words.{texts};
ghost use Rattle.pst_answer.specs.declared.words.NoWords.TheVariants.{Memory};

use std::alloc::{AllocError, Global};
use std::str;

/// Why bytes are no words.
#[derive(Clone, Copy, Debug, PartialEq, Eq)]
pub enum NoWords {
    /// The last word is not ended by a zero byte.
    Endless,
    /// They are not UTF-8.
    NoText,
    /// Memory was refused.
    Memory,
}

impl From<AllocError> for NoWords {
    ghost from_gives = { λ _ n. n ≡ Memory };

    fn from(_error: AllocError) -> NoWords {
        NoWords::Memory
    }
}

// The pieces of a text between its zero bytes.
fn pieces_of<'a>(alloc: Global, text: &'a str) -> Result<Vec<&'a str>, AllocError>
    ensures { IfOk result (λ v. map (λ w. w.now) v.items ≡ cut_words text.now) }
{
    text.split('\0').collect(alloc)
}

// Words of their own, of these.
fn owned(alloc: Global, pieces: &[&str]) -> Result<Vec<String>, AllocError>
    ensures { IfOk result (λ v. texts v.items ≡ map (λ w. w.now) pieces.now) }
{
    let mut words = Vec::new(alloc);
    for piece in pieces {
        words.push(String::from_str(alloc, piece)?)?;
    }
    Ok(words)
}

/// The words that lie one behind another, each ended by a zero byte. Of no bytes they are none.
pub fn words_in(alloc: Global, bytes: &[u8]) -> Result<Vec<String>, NoWords>
    ensures ok { IfOk result (λ v. IsWords bytes.now (texts v.items)) }
    ensures endless { IsErrOf result NoWords.Endless → IsEndless bytes.now }
    ensures no_text { IsErrOf result NoWords.NoText → IsNoText bytes.now }
{
    let Some((end, front)) = bytes.split_last() else {
        return Ok(Vec::new(alloc));
    };
    if *end != 0 {
        return Err(NoWords::Endless);
    }
    let Ok(text) = str::from_utf8(front) else {
        return Err(NoWords::NoText);
    };
    let pieces = pieces_of(alloc, text)?;
    Ok(owned(alloc, &pieces)?)
}
