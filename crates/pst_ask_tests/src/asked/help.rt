//! The texts of help and of the version.

mod commands;

use super::is_answered;
use commands::HELP_OF;
use std::process::Abort;

const HELP: &str = "Checks and shows Personal Folders Files (.pst)

Usage: pst_show <COMMAND>

Commands:
  check     Checks whether it is a store
  damage    Lists all that is broken
  head      Shows the fields of the header
  nodes     Lists the nodes
  folders   Lists the folders
  contents  Lists the messages of a folder
  messages  Lists all messages, a line for each
  props     Shows the properties of nodes
  value     Writes the value of a property
  export    Writes all of it as a tar archive
  explain   Explains the kinds of fault
  help      Print this message or the help of the given subcommand(s)

Options:
  -h, --help     Print help
  -V, --version  Print version

The answer is one line of JSON on standard output, of messages and props one for each;
of value it is the bytes of the value, of export an archive, and of explain plain words.
Where there is none, one line on standard error says why. FILE is the name of a file, or
- for standard input; the program only reads it.

Exit status:
  0    The answer is printed; of check and damage: the file is a store
  1    The file breaks a rule of the format, or has no such folder, node or property;
       or, with check --strict, space is lost. Of damage the answer is printed here, too
  2    The words are refused
  3    The file cannot be read or is too long, or the output cannot be written
  4    Memory was refused
  125  Of the script ./pst_show alone: there is no program that it may run
";

fn has_help<R: Abort + AllocGlobal>(rt: &R, name: &str, help: &str) {
    is_answered(rt, &[name, "--help"], false, help);
    is_answered(rt, &[name, "-h"], false, help);
    is_answered(rt, &["help", name], false, help);
}

#[test]
fn help_and_the_version_are_shown(rt: HostRuntime) {
    for word in ["--help", "-h", "help"] {
        is_answered(&rt, &[word], false, HELP);
    }
    for (name, help) in HELP_OF {
        has_help(&rt, name, help);
    }
    for word in ["--version", "-V"] {
        is_answered(&rt, &[word], false, "pst_show 1.0.4\n");
    }
}
