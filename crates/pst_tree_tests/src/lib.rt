//! Tests of the two B-trees, the blocks and the allocation maps (pst_btree, pst_block, pst_amap), by their public calls. They stand apart, so that
//! the crates that they are about are proved once, and without them.
#![tactic(auto)]

#[cfg(test)]
mod blocks;
#[cfg(test)]
mod made;
#[cfg(test)]
mod maps;
#[cfg(test)]
mod told;
#[cfg(test)]
mod trees;
