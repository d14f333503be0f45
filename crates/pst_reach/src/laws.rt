//! The laws of what is reached, the contract of a function that does nothing.

ghost use Rattle.pst_reach.specs.Laws.{ReachLaw, UnreachedLaw};

/// What is found level by level is what ways lead to, in every store: `reach` gives all folders to which a way leads, each with its
/// depth and its parent; and `unreached` all others.
pub fn ways_are_found()
    ensures reached { ReachLaw }
    ensures unreached { UnreachedLaw }
{}
