//! Where a reader of a data tree stands.

// The number of an XBLOCK among those that an XXBLOCK names (0 below an XBLOCK), and how many data blocks from its first one
// on are passed over.
#[derive(Clone, Copy)]
pub(crate) struct Position {
    pub(crate) child: u16,
    pub(crate) leaf: u64,
}
