//! The table of kinds: what each says, and what to do about it.

ghost use Rattle.std.specs.Prelude.{◌≡◌};
ghost use Rattle.pst_explain.specs.Text.{all_text, text_of as text_of_kind};
ghost use Rattle.pst_explain.specs.Kinds.{number_and_name, word_of_name, word_of_number};

use pst_fault::Kind;

// A row for each kind: its number and its name, what it says of the file, what `at`, `bid` and `nid` are, what to do, and the
// section of [MS-PST].
macro_rules! table {
    ($make:ident $($with:tt)*) => {
        $make! {
            $($with)*
            [Kind::Short] "1" "Short"
                "the file has less than the 564 bytes of a header",
                "0x0, nothing",
                "0x0, nothing",
                "0x0, nothing",
                "Look whether it was copied whole: so short a file is no store",
                "2.2.2.6";
            [Kind::Magic] "2" "Magic"
                "the file does not begin as a .pst does: it is another sort of file, or its first bytes are overwritten",
                "0x0 or 0x8, where a magic number stands",
                "0x0, nothing",
                "0x0, nothing",
                "Look what sort of file it is; with 0x8 it may be an offline store (.ost)",
                "2.2.2.6";
            [Kind::Version(_)] "3" "Version"
                "the file is of version n, and not of 23",
                "0xa, where the version stands",
                "0x0, nothing",
                "0x0, nothing",
                "It is outside the profile, and not said to be damaged: 14 and 15 are ANSI stores, 36 is one with pages of 4,096 bytes. Another program has to read it",
                "2.2.2.6";
            [Kind::Encoded(_)] "4" "Encoded"
                "the contents are encoded by method n: 1 is Outlook's default; --decode reads 1 and 2",
                "0x201, where the method of encoding stands",
                "0x0, nothing",
                "0x0, nothing",
                "Give the command --decode. With another n than 1 and 2 it is outside the profile, and not said to be damaged: another program has to read it",
                "2.2.2.6";
            [Kind::HeaderCheck] "5" "HeaderCheck"
                "a check value of the header does not fit its bytes",
                "0x4 or 0x20c, where the check value stands",
                "0x0, nothing",
                "0x0, nothing",
                "The first 564 bytes are damaged: take the file from a backup; damage lists what is broken, and messages --whole and export --whole give what is whole",
                "2.2.2.6";
            [Kind::Root] "6" "Root"
                "at 0xb8: the file is shorter than its header says, as when it was cut off; at 0xc0: the last allocation map is said to lie where none can",
                "0xb8 or 0xc0, where the number stands",
                "0x0, nothing",
                "0x0, nothing",
                "With 0xb8 look whether the file was copied whole; else take it from a backup; damage lists what is broken, and messages --whole and export --whole give what is whole",
                "2.2.2.5";
            [Kind::MapsInvalid] "7" "MapsInvalid"
                "the header marks the allocation maps as invalid",
                "0xf8, where the mark stands",
                "0x0, nothing",
                "0x0, nothing",
                "It is outside the profile, and not said to be damaged: Outlook builds the maps anew when it next opens the store; where nothing may change it, damage lists what else is broken, and messages --whole and export --whole show what is whole",
                "2.2.2.5";
            [Kind::PagePlace] "8" "PagePlace"
                "a page is said to lie where none can",
                "the page, where it is said to lie",
                "that of the reference to the page",
                "0x0, nothing",
                "An index tree is broken: take the file from a backup; damage lists what is broken, and messages --whole and export --whole give what is whole",
                "2.2.2.7";
            [Kind::PageTrailer] "9" "PageTrailer"
                "the last 16 bytes of a page do not fit the page and the reference to it: one of these is damaged or overwritten",
                "the page",
                "that of the reference to the page",
                "0x0, nothing",
                "An index tree is broken: take the file from a backup; damage lists what is broken, and messages --whole and export --whole give what is whole",
                "2.2.2.7.1";
            [Kind::PageShape] "10" "PageShape"
                "the counts in a page are impossible",
                "the page",
                "that of the reference to the page",
                "0x0, nothing",
                "An index tree is broken: take the file from a backup; damage lists what is broken, and messages --whole and export --whole give what is whole",
                "2.2.2.7.7.1";
            [Kind::KeyOrder] "11" "KeyOrder"
                "the entries of an index tree are out of order",
                "the entry",
                "that of the page",
                "0x0, nothing",
                "An index tree is broken: take the file from a backup; damage lists what is broken, and messages --whole and export --whole give what is whole",
                "2.2.2.7.7";
            [Kind::Overlap] "12" "Overlap"
                "two things lie on the same bytes",
                "the page or block that comes second",
                "its own",
                "0x0, nothing",
                "One of the two, or what names it, is overwritten: take the file from a backup; damage lists what is broken, and messages --whole and export --whole give what is whole",
                "2.2.2.7 and 2.2.2.8";
            [Kind::BlockPlace] "13" "BlockPlace"
                "a block is said to lie where none can, or is too long",
                "the block, where its entry says",
                "that of its entry",
                "0x0, nothing",
                "Take the file from a backup; damage lists the nodes that this breaks, and messages --whole and export --whole give what is whole",
                "2.2.2.8";
            [Kind::BlockTrailer] "14" "BlockTrailer"
                "the last 16 bytes of a block do not fit the block and its entry: one of these is damaged or overwritten",
                "the block, where its entry says",
                "that of its entry",
                "0x0, nothing",
                "Take the file from a backup; damage lists the nodes that this breaks, and messages --whole and export --whole give what is whole",
                "2.2.2.8.1";
            [Kind::BlockMissing] "15" "BlockMissing"
                "a block is named that the index does not have",
                "0x0, nothing",
                "that which is missing, as it is written",
                "the node that leads to it",
                "Take the file from a backup; damage lists what is broken, and messages --whole and export --whole give what is whole",
                "2.2.2.7.7.3";
            [Kind::DataTree] "16" "DataTree"
                "the list of the blocks that a node's data is made of is broken",
                "the XBLOCK or XXBLOCK with the breach",
                "that of its entry",
                "the node whose data it is",
                "Take the file from a backup; damage lists what is broken, and messages --whole and export --whole give what is whole",
                "2.2.2.8.3.2";
            [Kind::Subnode] "17" "Subnode"
                "a list of subnodes is broken, or a value names a subnode that is not there",
                "the block of the list with the breach, or the four bytes that name the subnode",
                "that of the block's entry, or the identifier of the node's or subnode's data, as it is written",
                "the node",
                "Ask check of the file: props and value tell this also of a node that has no properties, as a table, in a store that is whole. Else take the file from a backup; damage lists what is broken, and messages --whole and export --whole give what is whole",
                "2.2.2.8.3.3";
            [Kind::Nesting] "18" "Nesting"
                "subnodes nest more than 256 deep, or in a circle",
                "0x0, nothing",
                "what the node names as its subnodes, as it is written",
                "the node",
                "Take the file from a backup; damage lists what is broken, and messages --whole and export --whole give what is whole",
                "2.2.2.8.3.3";
            [Kind::MapPage] "19" "MapPage"
                "a page of the allocation maps is damaged",
                "the page",
                "0x0, nothing",
                "0x0, nothing",
                "Outlook builds the maps anew where the header marks them as invalid; on a copy, and with the file in a backup",
                "2.2.2.7.2";
            [Kind::MapMissing] "20" "MapMissing"
                "bytes are in use that the allocation maps call free, so a writer may overwrite them",
                "the 64 bytes that are in use",
                "0x0, nothing",
                "0x0, nothing",
                "Let no program write to the store before it is copied",
                "2.2.2.7.2";
            [Kind::Heap] "21" "Heap"
                "a node's data is not laid out as the heap that holds properties or a table",
                "the block of the data, 0x0 where there is none",
                "the identifier of the node's or subnode's data, as it is written",
                "the node",
                "Ask check of the file: props and value tell this also of a node that has no properties, as a table, in a store that is whole. Else take the file from a backup; damage lists what is broken, and messages --whole and export --whole give what is whole",
                "2.3.1";
            [Kind::HeapId] "22" "HeapId"
                "something is named in a heap that is not there",
                "the four bytes that name it",
                "the identifier of the node's or subnode's data, as it is written",
                "the node",
                "Ask check of the file: props and value tell this also of a node that has no properties, as a table, in a store that is whole. Else take the file from a backup; damage lists what is broken, and messages --whole and export --whole give what is whole",
                "2.3.1.1";
            [Kind::Bth] "23" "Bth"
                "an index in a heap is broken or out of order",
                "the item of the heap, or the record out of order",
                "the identifier of the node's or subnode's data, as it is written",
                "the node",
                "Ask check of the file: props and value tell this also of a node that has no properties, as a table, in a store that is whole. Else take the file from a backup; damage lists what is broken, and messages --whole and export --whole give what is whole",
                "2.3.2";
            [Kind::Property] "24" "Property"
                "the value of a property has a length that its type does not allow, or the map of the names of properties is broken",
                "the record of the property, or the cell; of that map, the stream or the entry with the breach",
                "the identifier of the node's or subnode's data, as it is written",
                "the node",
                "Ask check of the file: props and value tell this also of a node that has no properties, as a table, in a store that is whole. Else take the file from a backup; damage lists what is broken, and messages --whole and export --whole give what is whole",
                "2.3.3, of that map 2.4.7";
            [Kind::Table] "25" "Table"
                "a table's description, a column or a row is broken",
                "the description (TCINFO), the column, or the record of the row",
                "the identifier of the node's or subnode's data, as it is written",
                "the node",
                "Take the file from a backup; damage lists what is broken, and messages --whole and export --whole give what is whole",
                "2.3.4";
            [Kind::NodeMissing] "26" "NodeMissing"
                "a folder, message or attachment is named that is not there, or the store lacks its root folder or its own properties",
                "the bytes that name it, 0x0 where every store has to have it",
                "that of the data in which they stand",
                "the node that is missing",
                "Take the file from a backup; damage lists what is broken, and messages --whole and export --whole give what is whole",
                "2.4";
            [Kind::NodeKind] "27" "NodeKind"
                "what is named is of the wrong kind, as a folder in a list of messages",
                "the bytes that name it",
                "that of the data in which they stand",
                "the node that is named",
                "Take the file from a backup; damage lists what is broken, and messages --whole and export --whole give what is whole",
                "2.2.2.1";
            [Kind::NoMemory] "28" "NoMemory"
                "memory was refused, and nothing is said of the file: out of memory, and status 4",
                "0x0, nothing",
                "0x0, nothing",
                "0x0, nothing",
                "Give it as much memory as the file is long, and as the text that it shows",
                "none";
        }
    };
}

// The lines of all kinds.
macro_rules! lines {
    ($([$kind:pat] $number:literal $name:literal
        $says:literal, $at:literal, $bid:literal, $nid:literal, $next:literal, $section:literal;)*) => {
        concat!($($number, " ", $name, ": ", $says, "\n"),*)
    };
}

// The text of a kind.
macro_rules! texts {
    ($wanted:ident $([$kind:pat] $number:literal $name:literal
        $says:literal, $at:literal, $bid:literal, $nid:literal, $next:literal, $section:literal;)*) => {
        match $wanted {
            $($kind => concat!(
                $number, " ", $name, ": ", $says,
                "\n  at: ", $at,
                "\n  bid: ", $bid,
                "\n  nid: ", $nid,
                "\n  to do: ", $next,
                "\n  [MS-PST]: ", $section, "\n"
            ),)*
        }
    };
}

// The words that name a kind: its number, its name, and both as a line has them.
macro_rules! words {
    ($wanted:ident $([$kind:pat] $number:literal $name:literal
        $says:literal, $at:literal, $bid:literal, $nid:literal, $next:literal, $section:literal;)*) => {
        match $wanted {
            $($kind => ($number, $name, concat!($number, " ", $name)),)*
        }
    };
}

const ALL: &str = table!(lines);

/// The lines of all kinds: of each its number, its name, and what it says of the file.
pub fn all_kinds() -> &'static str
    ensures { result.now ≡ all_text }
{
    ALL
}

/// What a kind says of the file, what its place and its identifiers are, what to do, and the section of [MS-PST]: six lines.
pub fn text_of(kind: Kind) -> &'static str
    ensures { result.now ≡ text_of_kind kind }
{
    table!(texts kind)
}

// The words that name a kind: its number, in decimal, its name, and both as a line has them.
pub(crate) fn words_of(kind: Kind) -> (&'static str, &'static str, &'static str)
    ensures number { result.0.now ≡ word_of_number kind }
    ensures name { result.1.now ≡ word_of_name kind }
    ensures both { result.2.now ≡ number_and_name kind }
{
    table!(words kind)
}
