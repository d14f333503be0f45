//! What a property is called.

use pst_datatree::Value;
use uuid::Uuid;

/// What a property is called ([MS-PST] 2.4.7).
#[derive(Clone, Copy)]
pub struct Name<'a> {
    /// The set of names that it is of; None where it is of none.
    pub set: Option<Uuid>,
    /// The name in that set.
    pub kind: NameKind<'a>,
}

/// A name within its set ([MS-PST] 2.4.7.1).
#[derive(Clone, Copy)]
pub enum NameKind<'a> {
    /// A number.
    Num(u32),
    /// A string, UTF-16 with the low byte of each unit first, in the file's own memory.
    Text(Value<'a>),
}
