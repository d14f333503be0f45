//! The law of the words, the contract of a function that does nothing.

ghost use Rattle.pst_ask.specs.Words.{WordsLaw};

/// The words of each command are accepted, and ask for what it shows of the file that they name, whatever its name, if it begins
/// with no hyphen, or is one.
pub fn commands_are_asked()
    ensures { WordsLaw }
{}
