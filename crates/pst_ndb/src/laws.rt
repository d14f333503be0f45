//! Laws of the node database, each the contract of a function that does nothing.

ghost use Rattle.pst_ndb.specs.Counts.{ExpansionLaw};
ghost use Rattle.pst_ndb.specs.Database.{DatabaseLaw};
ghost use Rattle.pst_ndb.specs.Trees.{ListingLaw};

/// A file has a node database exactly where it has no first fault up to its nodes; and it has one at most.
pub fn database_decides()
    ensures { DatabaseLaw }
{}

/// Of the internal blocks to which chains lead from nodes there is one count.
pub fn counts_agree()
    ensures { ExpansionLaw }
{}

/// Nodes are listed exactly where the file has a good header and two trees without fault whose pages have no byte in
/// common; and they are the entries of the node B-tree from left to right.
pub fn listing_decides()
    ensures { ListingLaw }
{}
