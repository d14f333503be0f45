//! What help says at its end: what a command prints, and the statuses with which the program ends.

use crate::verb::Verb;

// What a command prints, and when the status is 0 and when 1. The other statuses are the same for each.
macro_rules! ending {
    ($prints:literal, $shown:literal, $refused:literal) => {
        concat!(
            $prints,
            "\n\nExit status:\n  0  ",
            $shown,
            "\n  1  ",
            $refused,
            "\n  2  The words are refused",
            "\n  3  The file cannot be read or is too long, or the output cannot be written",
            "\n  4  Memory was refused"
        )
    };
}

/// The end of the help of the program.
pub(super) const PROGRAM: &str =
    "The answer is one line of JSON on standard output, of messages and props one for each;
of value it is the bytes of the value, of export an archive, and of explain plain words.
Where there is none, one line on standard error says why. FILE is the name of a file, or
- for standard input; the program only reads it.

Exit status:
  0    The answer is printed; of check and damage: the file is a store
  1    The file breaks a rule of the format, or has no such folder, node or property;
       or, with check --strict, space is lost. Of damage the answer is printed here, too
  2    The words are refused
  3    The file cannot be read or is too long, or the output cannot be written
  4    Memory was refused
  125  Of the script ./pst_show alone: there is no program that it may run";

const CHECK: &str = ending!(
    "Checks the whole file, and prints how many pages, blocks, nodes, folders and messages
there are, the order of the bits in the allocation maps, and the lost runs: space that
is marked as used, and that nothing uses. With --digest it also prints the SHA-256 of
the file as it is stored, before anything is decoded.",
    "The file is a store",
    "It breaks a rule of the format: standard error tells the first fault; or, with
     --strict, there are lost runs"
);

const DAMAGE: &str = ending!(
    "Checks the whole file, goes on behind each fault, and prints the first fault of each
part: of the header, the pages of both B-trees, the blocks, the allocation maps and the
nodes, and how many nodes, folders and messages are whole. It repairs nothing. With
--digest it also prints the SHA-256 of the file as it is stored, before anything is
decoded.",
    "Nothing is broken: the file is a store",
    "Something is broken, and the answer is printed; or the file is too short, no .pst, of
     another version or encoded: then standard error tells which"
);

const HEAD: &str = ending!(
    "Prints the fields of the header, and looks at nothing else.",
    "The fields are printed",
    "The header breaks a rule of the format: standard error tells the first fault"
);

const NODES: &str = ending!(
    "Checks the header and both B-trees, but no block, and prints of each node its
identifier, that of its parent, and those of the blocks of its data and its subnodes.",
    "The nodes are printed",
    "The header or a tree breaks a rule of the format: standard error tells the first fault"
);

const FOLDERS: &str = ending!(
    "Checks the whole file, and prints of each folder its identifier and its name, the
identifiers from the root folder down to it and of its subfolders, how many messages are
in it, and how many belong to the folder itself. Those that the root folder does not
reach come last, without a path. With --whole those of a damaged store in which nothing
is broken, as damage tells it.",
    "The folders are printed",
    "The file breaks a rule of the format: standard error tells the first fault"
);

const CONTENTS: &str = ending!(
    "Checks the whole file, and prints of each message in the folder NID its identifier,
its class, its sender and its subject. With --whole the store may be damaged: of a
message that is broken it prints the fault.",
    "The messages are printed",
    "The file breaks a rule of the format, or has no such folder: standard error tells which"
);

const MESSAGES: &str = ending!(
    "Checks the whole file, and prints of each message, a line for each, its identifier,
its class, its sender and its subject, when it was sent and received, its size, how
many recipients and attachments it has, and the folders that list it. A message that
no folder lists is there, too. With --whole those of a damaged store in which nothing is
broken.",
    "The messages are printed",
    "The file breaks a rule of the format: standard error tells the first fault"
);

const PROPS: &str = ending!(
    "Checks the whole file, and prints of each property of what PATH leads to its identifier,
its type and its value; of a message also the attachments and the recipients. PATH is a
node; and, with a slash between each and the next, from a message an attachment of it,
from an attachment the message that it embeds, and so on. Of several paths it prints a
line for each, in their order; and none where one of them leads nowhere. With --places
it also prints of each value the pieces of the file in which it lies: place and length.
With --whole the store may be damaged, if nothing is broken in what the path begins with.",
    "The properties are printed",
    "The file breaks a rule of the format, or has no such node, or that has no properties:
     standard error tells which"
);

const VALUE: &str = ending!(
    "Checks the whole file, and writes the bytes of the value of one property of what PATH
leads to, as the file has them, and nothing else. ID is four hexadecimal digits, as
props prints them. With --text a text (type 001F), which the file has as UTF-16, is
written as UTF-8; values of other types are written as they are. With --whole the store
may be damaged, if nothing is broken in what the path begins with.",
    "The value is written",
    "The file breaks a rule of the format, or has no such node or property: standard
     error tells which"
);

const EXPORT: &str = ending!(
    "Checks the whole file, and writes all that is in it as one tar archive: what folders,
messages and props print of the store, its folders and its messages, and of each message
its headers, its texts, its attachments and the messages that they embed as files, whose
bytes are the values. Their names are words of the program and identifiers of the file:
messages/0x200024/body.txt. `pst_show export FILE | tar x` makes them below the folder
where it runs. With --whole those of a damaged store in which nothing is broken, and
before them, in damage.json, what damage prints.",
    "The archive is written",
    "The file breaks a rule of the format, or more paths lead to its messages than it has
     space for: standard error tells which"
);

// It reads no file, so it has no answer of one.
const EXPLAIN: &str =
    "Prints in plain words what a kind of fault says of a file, what at, bid and nid are in
its line, what to do next, and the section of [MS-PST] with the rule. KIND is as that
line has it, as 14 or BlockTrailer. Without KIND it prints a line for each of the 28.

Exit status:
  0  The words are printed
  2  The words are refused
  3  The output cannot be written
  4  Memory was refused";

/// The end of the help of a command.
pub(super) fn ending_of<'a>(verb: Verb) -> &'a str {
    match verb {
        Verb::Check => CHECK,
        Verb::Damage => DAMAGE,
        Verb::Head => HEAD,
        Verb::Nodes => NODES,
        Verb::Folders => FOLDERS,
        Verb::Contents => CONTENTS,
        Verb::Messages => MESSAGES,
        Verb::Props => PROPS,
        Verb::Value => VALUE,
        Verb::Export => EXPORT,
        Verb::Explain => EXPLAIN,
    }
}
