//! What the words after the program's name ask for.

mod help;

ghost use Rattle.std.specs.Prelude.{◌≡◌, IfOk, IfErr, false};
ghost use Rattle.clap.specs.Words.{FailsBy, HasMatchesOf, app_of, fault_of, new_rule, rule_of};
ghost use Rattle.pst_ask.specs.Ask.{IsForMemory, order_of};
ghost use Rattle.pst_ask.specs.declared.words.NoOrder.TheVariants.{Lacks};
ghost use Rattle.pst_ask.specs.Words.{AddsAs, IsAlone, IsOwn, flag_rule, several_rule, word_rule, app_for, base, with_file as file_behind, with_file_flags, with_verb, with_words, show_app, texts, IsAsked, Declines};

use crate::ask::{Lack, Order, order_in};
use crate::verb::{Takes, Verb};
use crate::words::help::{PROGRAM, ending_of};
use clap::{Arg, ArgAction, ArgMatches, Command, Error};
use std::alloc::{AllocError, AllocFailed, Global};

// What `--version` prints after the program's name.
const VERSION: &str = "1.0.4";

// What the flag of a digest is for.
const DIGEST: &str = "Adds the SHA-256 of the file as it is stored";

// What the flag of what is whole is for.
const WHOLE: &str = "Reads what is whole of a damaged store";

/// Why there is nothing to be done.
#[derive(Drop)]
pub enum NoOrder {
    /// The words are refused, or ask for help or the version.
    Words(Error),
    /// The words are accepted, and ask for nothing that can be done.
    Lacks(Lack),
}

impl From<Lack> for NoOrder {
    ghost from_gives = { λ lack none. none ≡ Lacks lack };

    fn from(lack: Lack) -> NoOrder {
        NoOrder::Lacks(lack)
    }
}

impl<T: Drop> From<AllocFailed<T>> for NoOrder {
    ghost from_gives = { λ _ none. IsForMemory none };

    fn from(error: AllocFailed<T>) -> NoOrder {
        NoOrder::Words(Error::from(error))
    }
}

impl From<AllocError> for NoOrder {
    ghost from_gives = { λ _ none. IsForMemory none };

    fn from(error: AllocError) -> NoOrder {
        NoOrder::Words(Error::from(error))
    }
}

// A word that has to be there.
fn word<'a>(alloc: Global, id: &'a str, help: &'a str) -> Arg<'a>
    ensures rule { rule_of result ≡ word_rule id.now }
    ensures local { result.global ≡ false }
{
    Arg::new(alloc, id).help(help).required(true)
}

// Words, of which one has to be there at least.
fn several<'a>(alloc: Global, id: &'a str, help: &'a str) -> Arg<'a>
    ensures rule { rule_of result ≡ several_rule id.now }
    ensures local { result.global ≡ false }
{
    word(alloc, id, help).action(ArgAction::Append)
}

// A word that may be there.
fn optional<'a>(alloc: Global, id: &'a str, help: &'a str) -> Arg<'a>
    ensures rule { rule_of result ≡ new_rule id.now }
    ensures local { result.global ≡ false }
{
    Arg::new(alloc, id).help(help)
}

// A flag: two hyphens, and its name.
fn flag<'a>(alloc: Global, id: &'a str, help: &'a str) -> Arg<'a>
    ensures rule { rule_of result ≡ flag_rule id.now }
    ensures local { result.global ≡ false }
{
    Arg::new(alloc, id)
        .long(id)
        .help(help)
        .action(ArgAction::SetTrue)
}

// A command with the flags that not every one has.
fn with_flags<'a>(
    alloc: Global,
    command: Command<'a>,
    takes: Takes,
) -> Result<Command<'a>, AllocError>
    requires { IsAlone command }
    ensures { IfOk result (IsOwn (with_file_flags takes (app_of command.entry))) }
{
    match takes {
        Takes::Report => command
            .arg(flag(
                alloc,
                "strict",
                "Ends with status 1 where space is lost, too",
            ))?
            .arg(flag(alloc, "digest", DIGEST)),
        Takes::Digest => command.arg(flag(alloc, "digest", DIGEST)),
        Takes::Whole | Takes::Node => command.arg(flag(alloc, "whole", WHOLE)),
        Takes::Paths => command
            .arg(flag(alloc, "places", "Adds where in the file each value lies"))?
            .arg(flag(alloc, "whole", WHOLE)),
        Takes::Property => command
            .arg(flag(alloc, "text", "Writes a text as UTF-8"))?
            .arg(flag(alloc, "whole", WHOLE)),
        Takes::File | Takes::Kind => Ok(command),
    }
}

// A command with its file, and whether that is decoded first.
fn with_file<'a>(
    alloc: Global,
    command: Command<'a>,
    takes: Takes,
) -> Result<Command<'a>, AllocError>
    requires { IsAlone command }
    ensures { IfOk result (IsOwn (file_behind takes (app_of command.entry))) }
{
    match takes {
        Takes::Kind => Ok(command),
        Takes::File
        | Takes::Report
        | Takes::Digest
        | Takes::Whole
        | Takes::Node
        | Takes::Paths
        | Takes::Property => {
            command
                .arg(flag(alloc, "decode", "Decodes an encoded file first, in memory"))?
                .arg(word(alloc, "FILE", "The file to read, or - for standard input"))
        }
    }
}

// A command with what stands behind its file.
fn with_words<'a>(
    alloc: Global,
    command: Command<'a>,
    takes: Takes,
) -> Result<Command<'a>, AllocError>
    requires { IsAlone command }
    ensures { IfOk result (IsOwn (with_words takes (app_of command.entry))) }
{
    match takes {
        Takes::Node => command.arg(word(alloc, "NID", "The identifier of a node, as 0x122")),
        Takes::Paths => command.arg(several(
            alloc,
            "PATH",
            "Nodes, as 0x122, and what is inside messages, as 0x200024/0x8025",
        )),
        Takes::Property => command
            .arg(word(
                alloc,
                "PATH",
                "A node, as 0x122, or what is inside a message, as 0x200024/0x8025",
            ))?
            .arg(word(alloc, "ID", "The identifier of a property, as 0037")),
        Takes::Kind => command.arg(optional(
            alloc,
            "KIND",
            "A kind of fault, by its number or its name",
        )),
        Takes::File | Takes::Report | Takes::Digest | Takes::Whole => Ok(command),
    }
}

// A command.
fn command_for<'a>(alloc: Global, verb: Verb) -> Result<Command<'a>, AllocError>
    ensures { IfOk result (AddsAs (app_for verb).top) }
{
    let (name, about, takes) = verb.line();
    let command = Command::new(alloc, name)
        .about(about)
        .after_help(ending_of(verb));
    let command = with_flags(alloc, command, takes)?;
    let command = with_file(alloc, command, takes)?;
    with_words(alloc, command, takes)
}

// The program, and a command.
fn with_command<'a>(
    alloc: Global,
    program: Command<'a>,
    verb: Verb,
) -> Result<Command<'a>, AllocError>
    ensures { IfOk result (λ c. app_of c ≡ with_verb (app_of program.entry) verb) }
{
    program.subcommand(command_for(alloc, verb)?)
}

// The program without its commands.
fn program<'a>(alloc: Global) -> Result<Command<'a>, AllocError>
    ensures { IfOk result (λ c. app_of c ≡ base) }
{
    let program = Command::new(alloc, "pst_show")
        .bin_name("pst_show")?
        .about("Checks and shows Personal Folders Files (.pst)")
        .after_help(PROGRAM)
        .version(VERSION)
        .no_binary_name(true)
        .subcommand_required(true);
    Ok(program)
}

// The command line of the program.
fn command_line<'a>(alloc: Global) -> Result<Command<'a>, AllocError>
    ensures { IfOk result (λ c. app_of c ≡ show_app) }
{
    let mut line = program(alloc)?;
    for verb in Verb::ALL {
        line = with_command(alloc, line, verb)?;
    }
    Ok(line)
}

// The matches of the words.
fn matches_of<'a>(alloc: Global, words: &'a [String]) -> Result<ArgMatches<'a>, Error>
    ensures ok { IfOk result (λ m. HasMatchesOf show_app (texts words.entry.now) m) }
    ensures kinds { FailsBy (fault_of show_app (texts words.entry.now)) result }
{
    let command = command_line(alloc)?;
    command.try_get_matches_from(words)
}

/// What the words ask for, or why there is nothing to be done.
pub fn parse<'a>(alloc: Global, words: &'a [String]) -> Result<Order<'a>, NoOrder>
    ensures ok { IfOk result (λ order. IsAsked (texts words.entry.now) (order_of order)) }
    ensures err { IfErr result (λ none. Declines (texts words.entry.now) none) }
{
    match matches_of(alloc, words) {
        Ok(matches) => order_in(alloc, &matches),
        Err(error) => Err(NoOrder::Words(error)),
    }
}
