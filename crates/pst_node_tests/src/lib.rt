//! Tests of the node database (pst_ndb), by their public calls. They stand apart, so that
//! the crates that they are about are proved once, and without them.
#![tactic(auto)]

#[cfg(test)]
mod nodes;
#[cfg(test)]
mod told;
