//! Laws of all that is broken of a file, each the contract of a function that does nothing.

ghost use Rattle.pst_damage.specs.Laws.{FirstDamageLaw, NothingBrokenLaw, DecodedDamageLaw, DecodedNothingLaw};

/// What a check of a file answers is always told: it is the first that there is of the header's fault, of those of the pages,
/// of those of the blocks, of that of the allocation maps, and of those of the nodes, as a check looks at them: the first whose
/// data or subnodes have a fault; the node of the store, the root folder, the name map; the first of the others.
pub fn first_damage_decides()
    ensures { FirstDamageLaw }
{}

/// Nothing is broken exactly where the file is a store.
pub fn nothing_broken_decides()
    ensures { NothingBrokenLaw }
{}

/// What a check of the plain twin of an encoded file answers is always told of what remains of the file with its blocks decoded.
pub fn decoded_damage_decides()
    ensures { DecodedDamageLaw }
{}

/// Nothing is broken of what remains of an encoded file with its blocks decoded exactly where its plain twin is a store.
pub fn decoded_nothing_decides()
    ensures { DecodedNothingLaw }
{}
