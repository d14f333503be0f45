//! Laws of twins, each the contract of a function that does nothing.

ghost use Rattle.pst_plain.specs.Faults.{EncodedHeaderLaw, FrontLaw, LaterLaw};
ghost use Rattle.pst_plain.specs.Laws.{LinearLaw, CarriedLaw, TrailerLaw, FullCheckLaw, PlacesLaw, AgainLaw, EncodedLaw};

/// The check value ([MS-PST] 5.3) is linear: of bytes exclusive or as many others it is the check value of the ones exclusive
/// or that of the others.
pub fn check_value_is_linear()
    ensures { LinearLaw }
{}

/// A check value that is carried over is right exactly where it was right before. So is the trailer of a block that is decoded,
/// and dwCRCFull of a header whose bCryptMethod is changed.
pub fn check_values_stay()
    ensures carried { CarriedLaw }
    ensures trailers { TrailerLaw }
    ensures header { FullCheckLaw }
{}

/// The twin has as many bytes as the file, and the same ones but for bCryptMethod, the bodies that are decoded, and their check
/// values.
pub fn no_place_moves()
    ensures { PlacesLaw }
{}

/// The twin of an encoded file, encoded again by the method of the file, is the file: nothing is lost.
pub fn twin_is_the_file()
    ensures { AgainLaw }
{}

/// A plain file, encoded by a method, says that method, and the plain file is its twin: so where the twin of a file is no store,
/// the file is no store that was encoded.
pub fn plain_is_the_twin()
    ensures { EncodedLaw }
{}

/// An encoded file with bCryptMethod 0 has the fields of the file. Up to its allocation maps it and the twin have the first fault of
/// the file, Encoded aside, in kind and place: that of its check values and its ROOT structure, then that of its pages, blocks and
/// maps. Where there is none, what comes later is read from the entries of the file's own B-trees and from the bodies of its blocks,
/// those of all data blocks decoded.
pub fn faults_stay()
    ensures header { EncodedHeaderLaw }
    ensures front { FrontLaw }
    ensures later { LaterLaw }
{}
