//! Tests of what remains of a damaged file (pst_remains), by its public calls. They stand apart, so that the crate that they are
//! about is proved once, and without them.
#![tactic(auto)]

#[cfg(test)]
mod remains;
#[cfg(test)]
mod told;
