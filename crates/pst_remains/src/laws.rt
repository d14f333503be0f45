//! Laws of what remains of a file, each the contract of a function that does nothing.

ghost use Rattle.pst_remains.specs.Laws.{FirstLaw, WholeLaw, DecodedFirstLaw, DecodedWholeLaw, DecodedOnceLaw};

/// What a check of a file answers, up to its allocation maps, is the first of what is told of it: so nothing is told exactly
/// where the check finds no fault.
pub fn first_told_decides()
    ensures { FirstLaw }
{}

/// Where nothing is told, all blocks and all nodes are left.
pub fn untold_is_whole()
    ensures { WholeLaw }
{}

/// Of an encoded file whose blocks are decoded: what a check of its plain twin answers, up to its allocation maps, is the first
/// of what is told. Where nothing is told, the bytes are those of the twin, and all its blocks and nodes are left.
pub fn decoded_is_the_twin()
    ensures first { DecodedFirstLaw }
    ensures whole { DecodedWholeLaw }
{}

/// Of an encoded file whose blocks are decoded: the body of each block that is left is the file's own, that of each data block
/// decoded; so none is decoded twice.
pub fn each_is_decoded_once()
    ensures { DecodedOnceLaw }
{}
