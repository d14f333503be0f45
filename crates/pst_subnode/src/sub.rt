/// An entry of a subnode list, an SLENTRY ([MS-PST] 2.2.2.8.3.3.1.1).
#[derive(Clone, Copy, Debug, PartialEq, Eq)]
pub struct Sub {
    /// The identifier of the subnode: the low 32 bits of its field.
    pub nid: u32,
    /// The identifier of its data, or 0.
    pub bid_data: u64,
    /// The identifier of its own subnodes, or 0.
    pub bid_sub: u64,
}
