//! A property.

use pst_datatree::Value;
use pst_value::PropType;

/// A property of a node ([MS-PST] 2.3.3.3).
#[derive(Clone, Copy)]
pub struct Prop<'a> {
    /// Its identifier (wPropId).
    pub id: u16,
    /// The type of its value (wPropType).
    pub kind: PropType,
    /// Its value, in the file's own memory.
    pub value: Value<'a>,
    /// Where the first byte of the value lies in the file, 0 where it has none.
    pub at: u64,
}
