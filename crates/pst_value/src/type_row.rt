//! What is said of a type of properties.

ghost use Rattle.std.specs.Prelude.{◌≡◌};
ghost use Rattle.pst_value.specs.Class.{single as single_row, of_several as row_of_several, unlisted as unlisted_row};

use crate::class::Class;
use crate::form::Form;

/// Whether the values of a type are several, and how the bytes of each are found ([MS-PST] 2.3.3.4.1, 2.3.3.4.2).
#[derive(Clone, Copy)]
pub(crate) enum Several {
    /// They are single.
    No,
    /// Each has so many bytes, one behind another.
    Wide(u64),
    /// Each has an offset.
    Listed,
}

/// What is said of a type of properties.
#[derive(Clone, Copy)]
pub(crate) struct TypeRow {
    /// How its values are kept.
    pub class: Class,
    /// How many bytes a cell of it has in a row of a table; None for a type that is not listed.
    pub cell: Option<u8>,
    /// Whether its values are several.
    pub several: Several,
    /// How a value of it is shown.
    pub form: Form,
}

// A type of single values.
#[inline(always)]
pub(crate) fn single(class: Class, cell: u8, form: Form) -> TypeRow
    ensures { result ≡ single_row class cell form }
{
    TypeRow {
        class,
        cell: Some(cell),
        several: Several::No,
        form,
    }
}

// A type of several values: an HNID names them.
#[inline(always)]
pub(crate) fn of_several(several: Several) -> TypeRow
    ensures { result ≡ row_of_several several }
{
    TypeRow {
        class: Class::Multi,
        cell: Some(4),
        several,
        form: Form::Open,
    }
}

// A type that is not listed.
#[inline(always)]
pub(crate) fn unlisted() -> TypeRow
    ensures { result ≡ unlisted_row }
{
    TypeRow {
        class: Class::Opaque,
        cell: None,
        several: Several::No,
        form: Form::Open,
    }
}
