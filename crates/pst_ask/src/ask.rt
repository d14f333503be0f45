//! What is asked for.

ghost use Rattle.std.specs.Prelude.{◌≡◌, Ok as Okay, codes, map, option_map};
ghost use Rattle.clap.specs.Words.{all_of, first_of, found_of, rows_of, subcommand_rows_of};
ghost use Rattle.pst_ask.specs.Ask.{Reads, is_used, kind_named as kind_in_words, node_named, path_named, paths_named, property_named, both_of, nids_of, of_file as asked_of_file, or_lack, order_of, value as value_wanted, wanted_of, asked_by, asked_in};
ghost use Rattle.pst_ask.specs.declared.ask.Lack.TheVariants.{Nid};
ghost use Rattle.pst_ask.specs.Nid.{paths_of as paths_in_words};

use crate::nid::read_nid;
use crate::path::{Path, read_path};
use crate::property::read_property_id;
use crate::verb::Verb;
use crate::words::NoOrder;
use clap::ArgMatches;
use pst_explain::{Kind, kind_named};
use std::alloc::Global;

/// What a command shows of a file.
#[derive(Debug, PartialEq, Eq, Drop)]
pub enum Ask {
    /// The report of its check.
    Check {
        /// Whether lost runs make the status 1.
        strict: bool,
        /// Whether it has the SHA-256 of the file.
        digest: bool,
    },
    /// All that is broken in it.
    Damage {
        /// Whether with the SHA-256 of the file.
        digest: bool,
    },
    /// The fields of its header.
    Head,
    /// The entries of its node B-tree.
    Nodes,
    /// Its folders.
    Folders,
    /// The messages of the folder with an identifier.
    Contents(u32),
    /// All its messages.
    Messages,
    /// The properties of what paths lead to.
    Props {
        /// Whether they have the places of their values in the file.
        places: bool,
        /// The paths, in the order of their lines.
        paths: Vec<Path>,
    },
    /// The bytes of the value of one property.
    Value {
        /// Whether a text is written as UTF-8.
        text: bool,
        /// What has the property.
        path: Path,
        /// The identifier of the property.
        id: u16,
    },
    /// All that a store has, as an archive.
    Export,
}

/// What is asked for of a file.
#[derive(Debug, PartialEq, Eq, Drop)]
pub struct Request<'a> {
    /// What to show.
    pub ask: Ask,
    /// Whether an encoded file is decoded first, in memory.
    pub decode: bool,
    /// Whether what is whole of a damaged store is shown.
    pub whole: bool,
    /// The name of the file.
    pub file: &'a str,
}

/// What a command line asks for.
#[derive(Debug, PartialEq, Eq, Drop)]
pub enum Order<'a> {
    /// Something of a file.
    Show(Request<'a>),
    /// What a kind of fault says; of no kind, a line for each.
    Explain(Option<Kind>),
}

/// Why an accepted command line cannot be carried out.
#[derive(Clone, Copy, Debug, PartialEq, Eq)]
pub enum Lack {
    /// A word that is to be the path of a node, or to name one, is none.
    Nid,
    /// A word that is to name a property is no identifier of one.
    Property,
    /// A word that is to name a kind of fault names none.
    Kind,
    /// They name nothing that is known here.
    Nothing,
}

// The value of an argument.
#[tactic(auto, using(crate::proofs::WordLemmas::text_is))]
fn text_in<'a>(found: &ArgMatches<'a>, id: &str) -> Option<&'a str>
    ensures { option_map (λ s. s.now) result ≡ first_of id.now (rows_of (found_of found.now)) }
{
    found.get_str(id)
}

// Whether a flag is used.
fn is_given(found: &ArgMatches, flag: &str) -> bool
    ensures { result ≡ is_used flag.now (rows_of (found_of found.now)) }
{
    match text_in(found, flag) {
        Some(text) => text == "true",
        None => false,
    }
}

// The node that is named.
fn node_in(found: &ArgMatches) -> Result<u32, Lack>
    ensures { result ≡ node_named (first_of (codes "NID") (rows_of (found_of found.now))) }
{
    match text_in(found, "NID") {
        Some(word) => read_nid(word).ok_or(Lack::Nid),
        None => Err(Lack::Nothing),
    }
}

// The path that is named.
fn path_in(alloc: Global, found: &ArgMatches) -> Result<Path, NoOrder>
    ensures { let word = first_of (codes "PATH") (rows_of (found_of found.now)) in
        Reads nids_of result (path_named word) }
{
    match text_in(found, "PATH") {
        Some(word) => read_path(alloc, word),
        None => Err(NoOrder::Lacks(Lack::Nothing)),
    }
}

// The property that is named.
fn property_in(found: &ArgMatches) -> Result<u16, Lack>
    ensures { result ≡ property_named (first_of (codes "ID") (rows_of (found_of found.now))) }
{
    match text_in(found, "ID") {
        Some(word) => read_property_id(word).ok_or(Lack::Property),
        None => Err(Lack::Nothing),
    }
}

// The kind that is named; None where none is.
fn kind_in(found: &ArgMatches) -> Result<Option<Kind>, Lack>
    ensures { result ≡ kind_in_words (first_of (codes "KIND") (rows_of (found_of found.now))) }
{
    match text_in(found, "KIND") {
        Some(word) => Ok(Some(kind_named(word).ok_or(Lack::Kind)?)),
        None => Ok(None),
    }
}

// The paths that words write.
#[tactic(auto, using(crate::proofs::WordLemmas::named_next, crate::proofs::WordLemmas::named_end))]
fn paths_of(alloc: Global, words: &[&str]) -> Result<Vec<Path>, NoOrder>
    ensures { Reads (λ v. map nids_of v.items) result
        (or_lack Nid (paths_in_words (map (λ w. w.now) words.now))) }
{
    let mut paths = Vec::new(alloc);
    for word in words {
        match read_path(alloc, word) {
            Ok(path) => paths.push(path)?,
            Err(none) => return Err(none),
        }
    }
    Ok(paths)
}

// The paths that are named.
#[tactic(auto, using(crate::proofs::WordLemmas::texts_are))]
fn paths_in(alloc: Global, found: &ArgMatches) -> Result<Vec<Path>, NoOrder>
    ensures { Reads (λ v. map nids_of v.items) result
        (paths_named (all_of (codes "PATH") (rows_of (found_of found.now)))) }
{
    match found.get_strs("PATH") {
        Some(words) => paths_of(alloc, words),
        None => Err(NoOrder::Lacks(Lack::Nothing)),
    }
}

// The value that is named: a bad path is told before a bad identifier.
fn value_in(alloc: Global, found: &ArgMatches) -> Result<Ask, NoOrder>
    ensures { Reads wanted_of result (both_of
        (value_wanted (is_used (codes "text") (rows_of (found_of found.now))))
        (path_named (first_of (codes "PATH") (rows_of (found_of found.now))))
        (property_named (first_of (codes "ID") (rows_of (found_of found.now))))) }
{
    let path = path_in(alloc, found)?;
    let id = property_in(found)?;
    let text = is_given(found, "text");
    Ok(Ask::Value { text, path, id })
}

// What is shown of a file: of which, whether that is decoded first, and whether of what is whole.
fn of_file<'a>(found: &ArgMatches<'a>, ask: Ask) -> Result<Order<'a>, NoOrder>
    ensures { Reads order_of result
        (asked_of_file (rows_of (found_of found.now)) (Okay (wanted_of ask))) }
{
    let decode = is_given(found, "decode");
    let whole = is_given(found, "whole");
    match text_in(found, "FILE") {
        Some(file) => Ok(Order::Show(Request {
            ask,
            decode,
            whole,
            file,
        })),
        None => Err(NoOrder::Lacks(Lack::Nothing)),
    }
}

// What a command asks for.
fn order_by<'a>(alloc: Global, verb: Verb, found: &ArgMatches<'a>) -> Result<Order<'a>, NoOrder>
    ensures { Reads order_of result (asked_by verb (rows_of (found_of found.now))) }
{
    match verb {
        Verb::Check => {
            let strict = is_given(found, "strict");
            let digest = is_given(found, "digest");
            of_file(found, Ask::Check { strict, digest })
        }
        Verb::Damage => {
            let digest = is_given(found, "digest");
            of_file(found, Ask::Damage { digest })
        }
        Verb::Head => of_file(found, Ask::Head),
        Verb::Nodes => of_file(found, Ask::Nodes),
        Verb::Folders => of_file(found, Ask::Folders),
        Verb::Contents => of_file(found, Ask::Contents(node_in(found)?)),
        Verb::Messages => of_file(found, Ask::Messages),
        Verb::Props => {
            let places = is_given(found, "places");
            let paths = paths_in(alloc, found)?;
            of_file(found, Ask::Props { places, paths })
        }
        Verb::Value => of_file(found, value_in(alloc, found)?),
        Verb::Export => of_file(found, Ask::Export),
        Verb::Explain => Ok(Order::Explain(kind_in(found)?)),
    }
}

/// What the words were taken for.
pub fn order_in<'a>(alloc: Global, matches: &ArgMatches<'a>) -> Result<Order<'a>, NoOrder>
    ensures { Reads order_of result (asked_in (subcommand_rows_of matches.now)) }
{
    let Some((name, found)) = matches.subcommand() else {
        return Err(NoOrder::Lacks(Lack::Nothing));
    };
    let Some(verb) = Verb::named(name) else {
        return Err(NoOrder::Lacks(Lack::Nothing));
    };
    order_by(alloc, verb, found)
}
