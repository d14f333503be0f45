//! The kind that a word names, and what is said of it.

ghost use Rattle.std.specs.Prelude.{◌≡◌, find};
ghost use Rattle.pst_explain.specs.Kinds.{begins as begins_with, behind_no as word_behind_no, is_end as is_end_of_name, is_led_by, is_named, kind_in_word, kinds, same};
ghost use Rattle.pst_explain.specs.Text.{explanation as text_for};

use crate::table::{all_kinds, text_of, words_of};
use pst_fault::Kind;

// All kinds, in the order of their numbers.
const KINDS: [Kind; 28] = [
    Kind::Short,
    Kind::Magic,
    Kind::Version(0),
    Kind::Encoded(0),
    Kind::HeaderCheck,
    Kind::Root,
    Kind::MapsInvalid,
    Kind::PagePlace,
    Kind::PageTrailer,
    Kind::PageShape,
    Kind::KeyOrder,
    Kind::Overlap,
    Kind::BlockPlace,
    Kind::BlockTrailer,
    Kind::BlockMissing,
    Kind::DataTree,
    Kind::Subnode,
    Kind::Nesting,
    Kind::MapPage,
    Kind::MapMissing,
    Kind::Heap,
    Kind::HeapId,
    Kind::Bth,
    Kind::Property,
    Kind::Table,
    Kind::NodeMissing,
    Kind::NodeKind,
    Kind::NoMemory,
];

// Whether two words have the same letters, of either case.
fn is_same(one: &[u8], other: &[u8]) -> bool
    ensures { result ≡ same one.now other.now }
{
    one.eq_ignore_ascii_case(other)
}

// Whether a word begins with these letters, of either case.
fn begins(word: &[u8], letters: &[u8]) -> bool
    ensures { result ≡ begins_with letters.now word.now }
{
    word.len() >= letters.len() && is_same(&word[..letters.len()], letters)
}

// Whether a name may end where this is behind it.
fn is_end(rest: &[u8]) -> bool
    ensures { result ≡ is_end_of_name rest.now }
{
    match rest.first() {
        Some(byte) => *byte == b'(' || *byte == b' ',
        None => true,
    }
}

// Whether a word begins with these letters, of either case, and they end there.
fn is_led(word: &[u8], letters: &[u8]) -> bool
    ensures { result ≡ is_led_by letters.now word.now }
{
    begins(word, letters) && is_end(&word[letters.len()..])
}

// Whether a word names a kind.
fn names(word: &[u8], kind: Kind) -> bool
    ensures { result ≡ is_named word.now kind }
{
    let (number, name, both) = words_of(kind);
    is_same(word, number.as_bytes())
        || is_led(word, name.as_bytes())
        || is_led(word, both.as_bytes())
}

// A word behind the `no: ` with which the line of a fault begins.
fn behind_no(word: &[u8]) -> &[u8]
    ensures { result.now ≡ word_behind_no word.now }
{
    if begins(word, b"no: ") {
        &word[4..]
    } else {
        word
    }
}

// The kind that a word names; None exactly where it names none.
#[tactic(auto, using(crate::proofs::KindLemmas::find_next))]
fn kind_in(word: &[u8]) -> Option<Kind>
    ensures { result ≡ find (is_named word.now) kinds }
{
    for kind in KINDS {
        if names(word, kind) {
            return Some(kind);
        }
    }
    None
}

/// The kind that a word names; None exactly where it names none. It is named by its number in decimal, or by its name, in letters
/// of either case: as it is typed, or as the line of a fault has it, from `no: `, the number or the name on: `no: 4 Encoded(1)`.
pub fn kind_named(word: &str) -> Option<Kind>
    ensures { result ≡ kind_in_word word.now }
{
    kind_in(behind_no(word.as_bytes()))
}

/// What is said of a kind; and where none is asked for, a line for each.
pub fn explanation(kind: Option<Kind>) -> &'static str
    ensures { result.now ≡ text_for kind }
{
    match kind {
        Some(kind) => text_of(kind),
        None => all_kinds(),
    }
}
