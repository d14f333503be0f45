//! Tests of the data trees and the lists of subnodes (pst_datatree, pst_subnode), by their public calls. They stand apart, so that
//! the crates that they are about are proved once, and without them.
#![tactic(auto)]

#[cfg(test)]
mod data_trees;
#[cfg(test)]
mod made;
#[cfg(test)]
mod subnodes;
#[cfg(test)]
mod told;
