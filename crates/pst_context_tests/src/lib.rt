//! Tests of heaps, BTHs, values, the contexts in them, and the name map (pst_heap, pst_bth, pst_value, pst_pc, pst_names, pst_tc), by their public calls. They stand apart, so that
//! the crates that they are about are proved once, and without them.
#![tactic(auto)]

#[cfg(test)]
mod bths;
#[cfg(test)]
mod heaps;
#[cfg(test)]
mod made;
#[cfg(test)]
mod names;
#[cfg(test)]
mod opened;
#[cfg(test)]
mod properties;
#[cfg(test)]
mod tables;
#[cfg(test)]
mod told;
#[cfg(test)]
mod values;
