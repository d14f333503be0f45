//! Bytes of the string stream that lie side by side.

/// Bytes of the string stream that lie side by side in the file.
#[derive(Clone, Copy)]
pub(crate) struct Stretch<'a> {
    /// How many bytes of the stream come before them.
    pub(crate) start: u64,
    /// They themselves.
    pub(crate) bytes: &'a [u8],
}
