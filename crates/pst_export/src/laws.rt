//! What whoever extracts an archive may rest on: laws of its files, each the contract of a function that does nothing.

ghost use Rattle.pst_export.specs.Laws.{BesideLaw, BodiesLaw, ContentLaw, DecodedIntactLaw, DecodedWholeIntactLaw};
ghost use Rattle.pst_export.specs.Laws.{ReadBackLaw, SafeLaw, StorableLaw, StoreIntactLaw, WholeIntactLaw};

/// The name of each file has digits, small letters, dots and slashes alone, does not begin with a slash, and has no two dots one
/// behind the other.
pub fn names_are_safe()
    ensures { SafeLaw }
{}

/// The names of the files of intact nodes are distinct, and none is the folder of another: of a store, and of what is whole of any
/// file, also of one that is encoded, its blocks decoded.
pub fn names_are_distinct()
    ensures names { BesideLaw }
    ensures stored { StoreIntactLaw }
    ensures decoded { DecodedIntactLaw }
    ensures whole { WholeIntactLaw }
    ensures whole_decoded { DecodedWholeIntactLaw }
{}

/// Tar can say of each file what it has, and an archive, read by the rules of tar, gives exactly its files, in order: the name, the
/// time and the bytes of each. That is so wherever a number of 64 bits says how many bytes each has, and how many they are: the
/// files of each archive that `emit_export` writes to its end are such.
pub fn files_are_read_back()
    ensures storable { StorableLaw }
    ensures read { ReadBackLaw }
{}

/// Where a message has headers or bodies, and an attachment has content, a file of it has the bytes of the value, those of all its
/// pieces in order; or of a text its UTF-8.
pub fn values_are_whole()
    ensures bodies { BodiesLaw }
    ensures content { ContentLaw }
{}
