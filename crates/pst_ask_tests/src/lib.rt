//! Tests of the command line (pst_ask), by their public calls. They stand apart, so that
//! the crates that they are about are proved once, and without them.
#![tactic(auto)]

#[cfg(test)]
mod asked;
#[cfg(test)]
mod told;
