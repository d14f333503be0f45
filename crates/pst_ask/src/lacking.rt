//! Which word of a command line names nothing.

ghost use Rattle.std.specs.Prelude.{◌≡◌, true, IfSome};
ghost use Rattle.pst_ask.specs.Ask.{IsNoName};

use crate::ask::Lack;
use crate::nid::read_nid;
use crate::path::read_path;
use crate::property::read_property_id;
use crate::words::NoOrder;
use pst_explain::kind_named;
use std::alloc::Global;

// Whether a word is no path.
fn is_no_path(alloc: Global, word: &str) -> bool
    ensures { result ≡ true → IsNoName Lack.Nid word.now }
{
    matches!(read_path(alloc, word), Err(NoOrder::Lacks(_)))
}

// Whether a word names nothing of the sort that is lacking.
fn is_no_name(alloc: Global, word: &str, lack: Lack) -> bool
    ensures { result ≡ true → IsNoName lack word.now }
{
    match lack {
        Lack::Nid => is_no_path(alloc, word),
        Lack::Property => read_property_id(word).is_none(),
        Lack::Kind => kind_named(word).is_none(),
        Lack::Nothing => false,
    }
}

// Whether a word is a flag.
fn is_flag(word: &str) -> bool {
    word.len() > 1 && word.starts_with('-')
}

// Before how many words, flags aside, none can be the one that names nothing: the command, its file, and the path of a property.
fn words_before(lack: Lack) -> u32 {
    match lack {
        Lack::Kind | Lack::Nothing => 1,
        Lack::Nid => 2,
        Lack::Property => 3,
    }
}

// The path that is none, or the property or kind.
fn first_no_name<'a>(alloc: Global, words: &'a [String], lack: Lack) -> Option<&'a str>
    ensures { IfSome result (λ word. IsNoName lack word.now) }
{
    let mut before = words_before(lack);
    for word in words {
        let word = word.as_str();
        if is_flag(word) {
            continue;
        }
        if before > 0 {
            before -= 1;
        } else if is_no_name(alloc, word, lack) {
            return Some(word);
        }
    }
    None
}

// The path of more than one node, where one node is to be named.
fn first_no_node<'a>(words: &'a [String]) -> Option<&'a str>
    ensures { IfSome result (λ word. IsNoName Lack.Nid word.now) }
{
    for word in words {
        let word = word.as_str();
        if word.contains('/') && word.starts_with("0x") && read_nid(word).is_none() {
            return Some(word);
        }
    }
    None
}

/// Of words for which `parse` answers this lack, the first that names no node, property or kind of fault, as it is lacking. None
/// where it can't be told apart, as behind `--`.
pub fn lacking_word<'a>(alloc: Global, words: &'a [String], lack: Lack) -> Option<&'a str>
    ensures { IfSome result (λ word. IsNoName lack word.now) }
{
    match first_no_name(alloc, words, lack) {
        None if lack == Lack::Nid => first_no_node(words),
        found => found,
    }
}
