//! Laws of the encodings, each the contract of a function that does nothing.

ghost use Rattle.pst_encoding.specs.Tables.{TablesLaw};
ghost use Rattle.pst_encoding.specs.Permute.{PermuteLaw};
ghost use Rattle.pst_encoding.specs.Cyclic.{CyclicLaw};
ghost use Rattle.pst_encoding.specs.Method.{MethodLaw};

/// Each table has a byte for each byte; mpbbI and mpbbR undo each other, and mpbbS undoes itself.
pub fn tables_undo()
    ensures { TablesLaw }
{}

/// Of all bytes: permutation is undone by its inverse, and the inverse by it.
pub fn permutation_is_undone()
    ensures { PermuteLaw }
{}

/// Of all bytes and keys: the cyclic algorithm undoes itself.
pub fn cyclic_undoes_itself()
    ensures { CyclicLaw }
{}

/// By both methods, of all bytes under all identifiers: decoding undoes encoding, and encoding decoding. As many bytes come
/// out as go in.
pub fn decoding_undoes_encoding()
    ensures { MethodLaw }
{}
