//! Tests of encodings and plain twins (pst_encoding, pst_plain), by their public calls. They stand apart, so that the crates that
//! they are about are proved once, and without them.
#![tactic(auto)]

#[cfg(test)]
mod bodies;
#[cfg(test)]
mod encoded;
#[cfg(test)]
mod method;
#[cfg(test)]
mod told;
#[cfg(test)]
mod twins;
