//! How the values of a type are shown.

/// How a single value is shown as JSON. One that has not as many bytes as its form wants is shown as `Fixed`.
#[derive(Clone, Copy, Debug, PartialEq, Eq)]
pub enum Form {
    /// A signed number of two bytes.
    Int16,
    /// A signed number of four bytes.
    Int32,
    /// A signed number of eight bytes.
    Int64,
    /// A number of four bytes.
    Nat32,
    /// A number of eight bytes.
    Nat64,
    /// True or false.
    Truth,
    /// A GUID.
    Guid,
    /// The subnode and the size of an object.
    Object,
    /// Text, of 16-bit units.
    Text,
    /// In hexadecimal; null where it is empty.
    Fixed,
    /// In hexadecimal.
    Open,
}
