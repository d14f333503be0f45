//! Tests of all that is broken of a file (pst_damage), by its public calls. They stand apart, so that the crate that they are
//! about is proved once, and without them.
#![tactic(auto)]

#[cfg(test)]
mod damage;
#[cfg(test)]
mod told;
