//! The commands of the program.

ghost use Rattle.std.specs.Prelude.{◌≡◌};
ghost use Rattle.pst_ask.specs.Verbs.{name_of, takes_of, verb_of};

/// What stands behind the name of a command.
#[derive(Clone, Copy, Debug, PartialEq, Eq)]
pub enum Takes {
    /// A file.
    File,
    /// A file, and `--strict` and `--digest` before or behind it or not.
    Report,
    /// A file, and `--digest` before or behind it or not.
    Digest,
    /// A file, and `--whole` before or behind it or not.
    Whole,
    /// A file, and the identifier of a node; and `--whole` or not.
    Node,
    /// A file, and paths, one at least; and `--places` and `--whole` or not.
    Paths,
    /// A file, a path, and the identifier of a property; and `--text` and `--whole` or not.
    Property,
    /// A kind of fault, or nothing; and no file.
    Kind,
}

/// A command: it shows something of a file, or explains.
#[derive(Clone, Copy, Debug, PartialEq, Eq)]
pub enum Verb {
    /// Whether it is a store.
    Check,
    /// All that is broken.
    Damage,
    /// The fields of its header.
    Head,
    /// The entries of its node B-tree.
    Nodes,
    /// Its folders.
    Folders,
    /// The messages of a folder.
    Contents,
    /// All messages.
    Messages,
    /// The properties of nodes, and of what is inside messages.
    Props,
    /// The value of one property.
    Value,
    /// All that a store has.
    Export,
    /// What a kind of fault says.
    Explain,
}

impl Verb {
    /// All commands, in the order in which help shows them.
    pub const ALL: [Verb; 11] = [
        Verb::Check,
        Verb::Damage,
        Verb::Head,
        Verb::Nodes,
        Verb::Folders,
        Verb::Contents,
        Verb::Messages,
        Verb::Props,
        Verb::Value,
        Verb::Export,
        Verb::Explain,
    ];

    /// Its name, what it is for, and what stands behind its name.
    pub fn line<'a>(self) -> (&'a str, &'a str, Takes)
        ensures name { result.0.now ≡ name_of self }
        ensures takes { result.2 ≡ takes_of self }
    {
        match self {
            Verb::Check => ("check", "Checks whether it is a store", Takes::Report),
            Verb::Damage => ("damage", "Lists all that is broken", Takes::Digest),
            Verb::Head => ("head", "Shows the fields of the header", Takes::File),
            Verb::Nodes => ("nodes", "Lists the nodes", Takes::File),
            Verb::Folders => ("folders", "Lists the folders", Takes::Whole),
            Verb::Contents => ("contents", "Lists the messages of a folder", Takes::Node),
            Verb::Messages => (
                "messages",
                "Lists all messages, a line for each",
                Takes::Whole,
            ),
            Verb::Props => ("props", "Shows the properties of nodes", Takes::Paths),
            Verb::Value => ("value", "Writes the value of a property", Takes::Property),
            Verb::Export => ("export", "Writes all of it as a tar archive", Takes::Whole),
            Verb::Explain => ("explain", "Explains the kinds of fault", Takes::Kind),
        }
    }

    /// The command of a name; None exactly where there is none.
    #[tactic(auto, using(pst_explain::proofs::KindLemmas::find_next))]
    pub fn named(name: &str) -> Option<Verb>
        ensures { result ≡ verb_of name.now }
    {
        for verb in Verb::ALL {
            if verb.line().0 == name {
                return Some(verb);
            }
        }
        None
    }
}
