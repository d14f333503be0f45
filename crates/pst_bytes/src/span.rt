/// A run of bytes of the file: a byte offset from the file's start, and a length in bytes.
#[derive(Clone, Copy, Debug, PartialEq, Eq)]
pub struct Span {
    /// The offset of the first byte.
    pub at: u64,
    /// How many bytes there are.
    pub len: u64,
}
