//! Single values as they are shown.

use pst_datatree::Value;
use uuid::Uuid;

/// A single value as it is shown; a text and bytes are lent. To make one takes no memory.
#[derive(Clone, Copy)]
pub enum Leaf<'a> {
    /// That there is none.
    Null,
    /// A truth value.
    Truth(bool),
    /// A number.
    Natural(u64),
    /// A signed number.
    Integer(i64),
    /// A node's identifier, or null.
    Nid(Option<u32>),
    /// A property's identifier or type, as `001F`.
    Id(u16),
    /// The tag of a column, as `3001001F`.
    Tag(u32),
    /// A word.
    Word(&'a str),
    /// A digest, in lower-case hexadecimal.
    Digest([u8; 32]),
    /// A GUID.
    Guid(Uuid),
    /// The subnode and the size of an object.
    Object(u32, u32),
    /// The text of 16-bit units; a surrogate without a partner is U+FFFD.
    Text(&'a Value<'a>),
    /// Bytes, in lower-case hexadecimal.
    Hex(&'a Value<'a>),
}
