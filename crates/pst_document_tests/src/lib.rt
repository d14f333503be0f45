//! Tests of values and whole answers as JSON (pst_value_json, pst_json), by their public calls. They stand apart, so that
//! the crates that they are about are proved once, and without them.
#![tactic(auto)]

#[cfg(test)]
mod documents;
#[cfg(test)]
mod told;
#[cfg(test)]
mod value_documents;
