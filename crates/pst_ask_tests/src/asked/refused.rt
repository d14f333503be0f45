//! The texts of words that are refused: no command, too few words, too many.

use super::is_answered;
use crate::told::MEMORY;
use std::process::Abort;

// What is said of words that are refused, without the line that ends it.
type Refused = (&'static [&'static str], &'static str);

const NO_COMMAND: [Refused; 5] = [
    (
        &[],
        "error: 'pst_show' requires a subcommand but one was not provided
  [subcommands: check, damage, head, nodes, folders, contents, messages, props, value, export, explain, help]

Usage: pst_show <COMMAND>
",
    ),
    (
        &["tail", "a.pst"],
        "error: unrecognized subcommand 'tail'

Usage: pst_show <COMMAND>
",
    ),
    (
        &["chek", "a.pst"],
        "error: unrecognized subcommand 'chek'

  tip: a similar subcommand exists: 'check'

Usage: pst_show <COMMAND>
",
    ),
    (
        &["--loud", "head", "a.pst"],
        "error: unexpected argument '--loud' found

Usage: pst_show <COMMAND>
",
    ),
    (
        &["help", "tail"],
        "error: unrecognized subcommand 'tail'

Usage: pst_show <COMMAND>
",
    ),
];

const TOO_FEW: [Refused; 7] = [
    (
        &["head"],
        "error: the following required arguments were not provided:
  <FILE>

Usage: pst_show head <FILE>
",
    ),
    (
        &["check"],
        "error: the following required arguments were not provided:
  <FILE>

Usage: pst_show check <FILE>
",
    ),
    (
        &["check", "--strict"],
        "error: the following required arguments were not provided:
  <FILE>

Usage: pst_show check --strict <FILE>
",
    ),
    (
        &["contents", "a.pst"],
        "error: the following required arguments were not provided:
  <NID>

Usage: pst_show contents <FILE> <NID>
",
    ),
    (
        &["props"],
        "error: the following required arguments were not provided:
  <FILE>
  <PATH>...

Usage: pst_show props <FILE> <PATH>...
",
    ),
    (
        &["value", "a.pst", "0x21"],
        "error: the following required arguments were not provided:
  <ID>

Usage: pst_show value <FILE> <PATH> <ID>
",
    ),
    (
        &["value", "--text"],
        "error: the following required arguments were not provided:
  <FILE>
  <PATH>
  <ID>

Usage: pst_show value --text <FILE> <PATH> <ID>
",
    ),
];

const TOO_MANY: [Refused; 17] = [
    (
        &["nodes", "a.pst", "b.pst"],
        "error: unexpected argument 'b.pst' found

Usage: pst_show nodes [OPTIONS] <FILE>
",
    ),
    (
        &["check", "a.pst", "0x21"],
        "error: unexpected argument '0x21' found

Usage: pst_show check [OPTIONS] <FILE>
",
    ),
    (
        &["contents", "a.pst", "0x122", "0x21"],
        "error: unexpected argument '0x21' found

Usage: pst_show contents [OPTIONS] <FILE> <NID>
",
    ),
    (
        &["head", "--strict", "a.pst"],
        "error: unexpected argument '--strict' found

  tip: to pass '--strict' as a value, use '-- --strict'

Usage: pst_show head [OPTIONS] <FILE>
",
    ),
    (
        &["damage", "--strict", "a.pst"],
        "error: unexpected argument '--strict' found

  tip: to pass '--strict' as a value, use '-- --strict'

Usage: pst_show damage [OPTIONS] <FILE>
",
    ),
    (
        &["check", "--stric", "a.pst"],
        "error: unexpected argument '--stric' found

  tip: a similar argument exists: '--strict'

Usage: pst_show check --strict <FILE>
",
    ),
    (
        &["check", "--strict", "--strict", "a.pst"],
        "error: the argument '--strict' cannot be used multiple times

Usage: pst_show check [OPTIONS] <FILE>
",
    ),
    (
        &["check", "--strict=yes", "a.pst"],
        "error: unexpected value 'yes' for '--strict' found; no more were expected

Usage: pst_show check --strict <FILE>
",
    ),
    (
        &["messages", "a.pst", "0x21"],
        "error: unexpected argument '0x21' found

Usage: pst_show messages [OPTIONS] <FILE>
",
    ),
    (
        &["value", "a.pst", "0x21", "0037", "0x21"],
        "error: unexpected argument '0x21' found

Usage: pst_show value [OPTIONS] <FILE> <PATH> <ID>
",
    ),
    (
        &["props", "--text", "a.pst", "0x21"],
        "error: unexpected argument '--text' found

  tip: to pass '--text' as a value, use '-- --text'

Usage: pst_show props [OPTIONS] <FILE> <PATH>...
",
    ),
    (
        &["check", "--whole", "a.pst"],
        "error: unexpected argument '--whole' found

  tip: to pass '--whole' as a value, use '-- --whole'

Usage: pst_show check [OPTIONS] <FILE>
",
    ),
    (
        &["export", "--whole", "--whole", "a.pst"],
        "error: the argument '--whole' cannot be used multiple times

Usage: pst_show export [OPTIONS] <FILE>
",
    ),
    (
        &["messages", "--whole", "--whole", "a.pst"],
        "error: the argument '--whole' cannot be used multiple times

Usage: pst_show messages [OPTIONS] <FILE>
",
    ),
    (
        &["export", "a.pst", "0x21"],
        "error: unexpected argument '0x21' found

Usage: pst_show export [OPTIONS] <FILE>
",
    ),
    (
        &["explain", "--decode"],
        "error: unexpected argument '--decode' found

  tip: to pass '--decode' as a value, use '-- --decode'

Usage: pst_show explain [KIND]
",
    ),
    (
        &["explain", "14", "15"],
        "error: unexpected argument '15' found

Usage: pst_show explain [KIND]
",
    ),
];

fn is_refused<R: Abort + AllocGlobal>(rt: &R, words: &[&str], said: &str) {
    let text = format!(in rt.alloc(); "{said}\nFor more information, try '--help'.\n");
    is_answered(rt, words, true, &text.expect(rt, MEMORY));
}

#[test]
fn words_that_are_refused(rt: HostRuntime) {
    for rows in [&NO_COMMAND[..], &TOO_FEW, &TOO_MANY] {
        for (words, said) in rows {
            is_refused(&rt, words, said);
        }
    }
}
