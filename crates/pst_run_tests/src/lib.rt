//! Tests of whole runs (pst_run), by its public calls: from the words to the status, over small images, and over readers and
//! writers that fail. They stand apart, so that the crate that they are about is proved once, and without them.
#![tactic(auto)]

#[cfg(test)]
mod runs;
#[cfg(test)]
mod told;
