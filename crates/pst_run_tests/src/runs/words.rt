//! What is said of words that ask for nothing to be shown: on which output, and with which status. Nothing is read. The texts of
//! all words are tried in pst_ask.

use super::loading::Failing;
use super::run_of;
use crate::told::is;
use std::io::ErrorKind;
use std::process::Abort;
use std::test::Fail;

// Runs words over a reader that would fail.
fn are_answered<R: Abort + AllocGlobal>(
    rt: &R,
    words: &[&str],
    status: u8,
    out: &str,
    err: &str,
) -> Result<(), Fail> {
    let mut input = Failing::new(0, ErrorKind::PermissionDenied);
    run_of(rt, words, &mut input, status, out, err)?;
    is(rt, input.reads, 0);
    Ok(())
}

const HELP: &str = "Shows the fields of the header

Usage: pst_show head [OPTIONS] <FILE>

Arguments:
  <FILE>  The file to read, or - for standard input

Options:
      --decode  Decodes an encoded file first, in memory
  -h, --help    Print help

Prints the fields of the header, and looks at nothing else.

Exit status:
  0  The fields are printed
  1  The header breaks a rule of the format: standard error tells the first fault
  2  The words are refused
  3  The file cannot be read or is too long, or the output cannot be written
  4  Memory was refused
";

const NO_FILE: &str = "error: the following required arguments were not provided:
  <FILE>

Usage: pst_show head <FILE>

For more information, try '--help'.
";

#[test]
fn help_and_the_version_go_to_the_output(rt: HostRuntime) -> Result<(), Fail> {
    for words in [&["head", "--help"][..], &["head", "-h"], &["help", "head"]] {
        are_answered(&rt, words, 0, HELP, "")?;
    }
    for word in ["--version", "-V"] {
        are_answered(&rt, &[word], 0, "pst_show 1.0.4\n", "")?;
    }
    Ok(())
}

#[test]
fn refused_words_are_told_as_an_error(rt: HostRuntime) -> Result<(), Fail> {
    are_answered(&rt, &["head"], 2, "", NO_FILE)?;
    for command in ["contents", "props"] {
        are_answered(&rt, &[command, "a.pst", "21"], 2, "", "bad node id\n")?;
    }
    let words = ["props", "a.pst", "0x400024/"];
    are_answered(&rt, &words, 2, "", "bad node id\n")?;
    let words = ["contents", "a.pst", "0x122/0x21"];
    are_answered(&rt, &words, 2, "", "bad node id\n")?;
    let words = ["value", "a.pst", "0x400024", "37"];
    are_answered(&rt, &words, 2, "", "bad property id\n")?;
    let words = ["value", "a.pst", "400024", "37"];
    are_answered(&rt, &words, 2, "", "bad node id\n")
}
