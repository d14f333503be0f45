//! Tests of folders, messages and whole stores (pst_msg, pst_store, pst_verify), by their public calls. They stand apart, so that
//! the crates that they are about are proved once, and without them.
#![tactic(auto)]

#[cfg(test)]
mod makers;
#[cfg(test)]
mod messages;
#[cfg(test)]
mod stores;
#[cfg(test)]
mod told;
#[cfg(test)]
mod verdicts;
