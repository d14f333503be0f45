//! Tests of the lowest crates (pst_bytes, pst_crc, pst_fault, pst_explain, pst_tar, pst_time, pst_make, pst_header, pst_space, pst_page), by
//! their public calls. They stand apart, so that the crates that they are about are proved once, and without them.
#![tactic(auto)]

#[cfg(test)]
mod archives;
#[cfg(test)]
mod bytes;
#[cfg(test)]
mod crc;
#[cfg(test)]
mod explained;
#[cfg(test)]
mod faults;
#[cfg(test)]
mod headers;
#[cfg(test)]
mod made;
#[cfg(test)]
mod pages;
#[cfg(test)]
mod space;
#[cfg(test)]
mod stores;
#[cfg(test)]
mod times;
#[cfg(test)]
mod told;
