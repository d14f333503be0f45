//! The word that is a path: the way to something inside a node.

ghost use Rattle.std.specs.Prelude.{◌≡◌, IfOk, map};
ghost use Rattle.pst_ask.specs.Ask.{Reads, nids_of, or_lack};
ghost use Rattle.pst_ask.specs.declared.ask.Lack.TheVariants.{Nid};
ghost use Rattle.pst_ask.specs.Nid.{all_named, nid_of_word, path_of_word, pieces_of as pieces_in};

use crate::ask::Lack;
use crate::nid::read_nid;
use crate::words::NoOrder;
use std::alloc::{AllocError, Global};

/// The way to something inside a node: the identifier of the node, and behind it those of what is inside, one within the other.
#[derive(Debug, PartialEq, Eq, Drop)]
pub struct Path {
    /// The identifiers, one at least.
    pub nids: Vec<u32>,
}

// The pieces of a word between its slashes.
fn pieces_of<'a>(alloc: Global, word: &'a str) -> Result<Vec<&'a str>, AllocError>
    ensures { IfOk result (λ v. map (λ w. w.now) v.items ≡ pieces_in word.now) }
{
    word.split('/').collect(alloc)
}

// The nodes that words name.
#[tactic(auto, using(crate::proofs::WordLemmas::named_next, crate::proofs::WordLemmas::named_none, crate::proofs::WordLemmas::named_end))]
fn nodes_of(alloc: Global, words: &[&str]) -> Result<Vec<u32>, NoOrder>
    ensures { Reads (λ v. v.items) result
        (or_lack Nid (all_named nid_of_word (map (λ w. w.now) words.now))) }
{
    let mut nids = Vec::new(alloc);
    for word in words {
        match read_nid(word) {
            Some(nid) => nids.push(nid)?,
            None => return Err(NoOrder::Lacks(Lack::Nid)),
        }
    }
    Ok(nids)
}

/// The path that a word writes: the words of nodes, as `read_nid` reads them, with a slash between each and the next. Any other
/// word lacks a node.
pub fn read_path(alloc: Global, word: &str) -> Result<Path, NoOrder>
    ensures { Reads nids_of result (or_lack Nid (path_of_word word.now)) }
{
    let pieces = pieces_of(alloc, word)?;
    Ok(Path {
        nids: nodes_of(alloc, &pieces)?,
    })
}
