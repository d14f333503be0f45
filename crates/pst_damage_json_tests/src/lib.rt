//! Tests of all that is broken of a file as a line (pst_damage_json), by its public calls. They stand apart, so that
//! the crate that they are about is proved once, and without them.
#![tactic(auto)]

#[cfg(test)]
mod lines;
