//! What the comparison with the maps finds.

use pst_bytes::Span;

/// Which bit of a byte of an allocation map comes first.
#[derive(Clone, Copy, Debug, PartialEq, Eq)]
pub enum BitOrder {
    /// The most significant bit: as the standard has it.
    High,
    /// The least significant bit.
    Low,
}

/// What the allocation maps of a file say beside what is claimed.
#[derive(Debug, Drop)]
pub struct MapReport {
    /// The one order of bits of all maps.
    pub order: BitOrder,
    /// The runs of units that are marked and that nothing claims, in order.
    pub lost: Vec<Span>,
    /// How many old map pages there are; they are claimed.
    pub old_maps: u64,
}
