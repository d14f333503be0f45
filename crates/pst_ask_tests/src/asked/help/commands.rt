//! The help of each command, word for word.

// The name of each command, and its help.
pub(super) const HELP_OF: [(&str, &str); 11] = [
    (
        "check",
        "Checks whether it is a store

Usage: pst_show check [OPTIONS] <FILE>

Arguments:
  <FILE>  The file to read, or - for standard input

Options:
      --strict  Ends with status 1 where space is lost, too
      --digest  Adds the SHA-256 of the file as it is stored
      --decode  Decodes an encoded file first, in memory
  -h, --help    Print help

Checks the whole file, and prints how many pages, blocks, nodes, folders and messages
there are, the order of the bits in the allocation maps, and the lost runs: space that
is marked as used, and that nothing uses. With --digest it also prints the SHA-256 of
the file as it is stored, before anything is decoded.

Exit status:
  0  The file is a store
  1  It breaks a rule of the format: standard error tells the first fault; or, with
     --strict, there are lost runs
  2  The words are refused
  3  The file cannot be read or is too long, or the output cannot be written
  4  Memory was refused
",
    ),
    (
        "damage",
        "Lists all that is broken

Usage: pst_show damage [OPTIONS] <FILE>

Arguments:
  <FILE>  The file to read, or - for standard input

Options:
      --digest  Adds the SHA-256 of the file as it is stored
      --decode  Decodes an encoded file first, in memory
  -h, --help    Print help

Checks the whole file, goes on behind each fault, and prints the first fault of each
part: of the header, the pages of both B-trees, the blocks, the allocation maps and the
nodes, and how many nodes, folders and messages are whole. It repairs nothing. With
--digest it also prints the SHA-256 of the file as it is stored, before anything is
decoded.

Exit status:
  0  Nothing is broken: the file is a store
  1  Something is broken, and the answer is printed; or the file is too short, no .pst, of
     another version or encoded: then standard error tells which
  2  The words are refused
  3  The file cannot be read or is too long, or the output cannot be written
  4  Memory was refused
",
    ),
    (
        "head",
        "Shows the fields of the header

Usage: pst_show head [OPTIONS] <FILE>

Arguments:
  <FILE>  The file to read, or - for standard input

Options:
      --decode  Decodes an encoded file first, in memory
  -h, --help    Print help

Prints the fields of the header, and looks at nothing else.

Exit status:
  0  The fields are printed
  1  The header breaks a rule of the format: standard error tells the first fault
  2  The words are refused
  3  The file cannot be read or is too long, or the output cannot be written
  4  Memory was refused
",
    ),
    (
        "nodes",
        "Lists the nodes

Usage: pst_show nodes [OPTIONS] <FILE>

Arguments:
  <FILE>  The file to read, or - for standard input

Options:
      --decode  Decodes an encoded file first, in memory
  -h, --help    Print help

Checks the header and both B-trees, but no block, and prints of each node its
identifier, that of its parent, and those of the blocks of its data and its subnodes.

Exit status:
  0  The nodes are printed
  1  The header or a tree breaks a rule of the format: standard error tells the first fault
  2  The words are refused
  3  The file cannot be read or is too long, or the output cannot be written
  4  Memory was refused
",
    ),
    (
        "folders",
        "Lists the folders

Usage: pst_show folders [OPTIONS] <FILE>

Arguments:
  <FILE>  The file to read, or - for standard input

Options:
      --whole   Reads what is whole of a damaged store
      --decode  Decodes an encoded file first, in memory
  -h, --help    Print help

Checks the whole file, and prints of each folder its identifier and its name, the
identifiers from the root folder down to it and of its subfolders, how many messages are
in it, and how many belong to the folder itself. Those that the root folder does not
reach come last, without a path. With --whole those of a damaged store in which nothing
is broken, as damage tells it.

Exit status:
  0  The folders are printed
  1  The file breaks a rule of the format: standard error tells the first fault
  2  The words are refused
  3  The file cannot be read or is too long, or the output cannot be written
  4  Memory was refused
",
    ),
    (
        "contents",
        "Lists the messages of a folder

Usage: pst_show contents [OPTIONS] <FILE> <NID>

Arguments:
  <FILE>  The file to read, or - for standard input
  <NID>   The identifier of a node, as 0x122

Options:
      --whole   Reads what is whole of a damaged store
      --decode  Decodes an encoded file first, in memory
  -h, --help    Print help

Checks the whole file, and prints of each message in the folder NID its identifier,
its class, its sender and its subject. With --whole the store may be damaged: of a
message that is broken it prints the fault.

Exit status:
  0  The messages are printed
  1  The file breaks a rule of the format, or has no such folder: standard error tells which
  2  The words are refused
  3  The file cannot be read or is too long, or the output cannot be written
  4  Memory was refused
",
    ),
    (
        "messages",
        "Lists all messages, a line for each

Usage: pst_show messages [OPTIONS] <FILE>

Arguments:
  <FILE>  The file to read, or - for standard input

Options:
      --whole   Reads what is whole of a damaged store
      --decode  Decodes an encoded file first, in memory
  -h, --help    Print help

Checks the whole file, and prints of each message, a line for each, its identifier,
its class, its sender and its subject, when it was sent and received, its size, how
many recipients and attachments it has, and the folders that list it. A message that
no folder lists is there, too. With --whole those of a damaged store in which nothing is
broken.

Exit status:
  0  The messages are printed
  1  The file breaks a rule of the format: standard error tells the first fault
  2  The words are refused
  3  The file cannot be read or is too long, or the output cannot be written
  4  Memory was refused
",
    ),
    (
        "props",
        "Shows the properties of nodes

Usage: pst_show props [OPTIONS] <FILE> <PATH>...

Arguments:
  <FILE>     The file to read, or - for standard input
  <PATH>...  Nodes, as 0x122, and what is inside messages, as 0x200024/0x8025

Options:
      --places  Adds where in the file each value lies
      --whole   Reads what is whole of a damaged store
      --decode  Decodes an encoded file first, in memory
  -h, --help    Print help

Checks the whole file, and prints of each property of what PATH leads to its identifier,
its type and its value; of a message also the attachments and the recipients. PATH is a
node; and, with a slash between each and the next, from a message an attachment of it,
from an attachment the message that it embeds, and so on. Of several paths it prints a
line for each, in their order; and none where one of them leads nowhere. With --places
it also prints of each value the pieces of the file in which it lies: place and length.
With --whole the store may be damaged, if nothing is broken in what the path begins with.

Exit status:
  0  The properties are printed
  1  The file breaks a rule of the format, or has no such node, or that has no properties:
     standard error tells which
  2  The words are refused
  3  The file cannot be read or is too long, or the output cannot be written
  4  Memory was refused
",
    ),
    (
        "value",
        "Writes the value of a property

Usage: pst_show value [OPTIONS] <FILE> <PATH> <ID>

Arguments:
  <FILE>  The file to read, or - for standard input
  <PATH>  A node, as 0x122, or what is inside a message, as 0x200024/0x8025
  <ID>    The identifier of a property, as 0037

Options:
      --text    Writes a text as UTF-8
      --whole   Reads what is whole of a damaged store
      --decode  Decodes an encoded file first, in memory
  -h, --help    Print help

Checks the whole file, and writes the bytes of the value of one property of what PATH
leads to, as the file has them, and nothing else. ID is four hexadecimal digits, as
props prints them. With --text a text (type 001F), which the file has as UTF-16, is
written as UTF-8; values of other types are written as they are. With --whole the store
may be damaged, if nothing is broken in what the path begins with.

Exit status:
  0  The value is written
  1  The file breaks a rule of the format, or has no such node or property: standard
     error tells which
  2  The words are refused
  3  The file cannot be read or is too long, or the output cannot be written
  4  Memory was refused
",
    ),
    (
        "export",
        "Writes all of it as a tar archive

Usage: pst_show export [OPTIONS] <FILE>

Arguments:
  <FILE>  The file to read, or - for standard input

Options:
      --whole   Reads what is whole of a damaged store
      --decode  Decodes an encoded file first, in memory
  -h, --help    Print help

Checks the whole file, and writes all that is in it as one tar archive: what folders,
messages and props print of the store, its folders and its messages, and of each message
its headers, its texts, its attachments and the messages that they embed as files, whose
bytes are the values. Their names are words of the program and identifiers of the file:
messages/0x200024/body.txt. `pst_show export FILE | tar x` makes them below the folder
where it runs. With --whole those of a damaged store in which nothing is broken, and
before them, in damage.json, what damage prints.

Exit status:
  0  The archive is written
  1  The file breaks a rule of the format, or more paths lead to its messages than it has
     space for: standard error tells which
  2  The words are refused
  3  The file cannot be read or is too long, or the output cannot be written
  4  Memory was refused
",
    ),
    (
        "explain",
        "Explains the kinds of fault

Usage: pst_show explain [KIND]

Arguments:
  [KIND]  A kind of fault, by its number or its name

Options:
  -h, --help  Print help

Prints in plain words what a kind of fault says of a file, what at, bid and nid are in
its line, what to do next, and the section of [MS-PST] with the rule. KIND is as that
line has it, as 14 or BlockTrailer. Without KIND it prints a line for each of the 28.

Exit status:
  0  The words are printed
  2  The words are refused
  3  The output cannot be written
  4  Memory was refused
",
    ),
];
