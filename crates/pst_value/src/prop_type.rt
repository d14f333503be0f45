//! The types of properties.

ghost use Rattle.std.specs.Prelude.{◌≡◌};
ghost use Rattle.pst_value.specs.Class.{type_row, class_of, cell_width_of, form_of};

use crate::class::Class;
use crate::form::Form;
use crate::type_row::{Several, TypeRow, of_several, single, unlisted};

/// The type of a property ([MS-OXCDATA] 2.11.1).
#[derive(Clone, Copy, Debug, PartialEq, Eq)]
pub struct PropType(pub u16);

impl PropType {
    // What is said of the type: how its values are kept, how wide a cell of it is, and how one is shown; and of a type of
    // several values how each of them is found.
    #[inline(always)]
    #[tactic(auto, unfolding(crate::specs::Class::type_row))]
    pub(crate) fn row(self) -> TypeRow
        ensures { result ≡ type_row self.0 }
    {
        match self.0 {
            0x0002 => single(Class::Inline, 2, Form::Int16),
            0x0003 => single(Class::Inline, 4, Form::Int32),
            0x0004 => single(Class::Inline, 4, Form::Fixed),
            0x0005 | 0x0007 => single(Class::Eight, 8, Form::Fixed),
            0x0006 | 0x0014 => single(Class::Eight, 8, Form::Int64),
            0x000A => single(Class::Inline, 4, Form::Nat32),
            0x000B => single(Class::Inline, 1, Form::Truth),
            0x000D => single(Class::Object, 4, Form::Object),
            0x001E | 0x00FB | 0x00FD | 0x00FE | 0x0102 => single(Class::Open, 4, Form::Open),
            0x001F => single(Class::Open, 4, Form::Text),
            0x0040 => single(Class::Eight, 8, Form::Nat64),
            0x0048 => single(Class::Guid, 4, Form::Guid),
            0x1002 => of_several(Several::Wide(2)),
            0x1003 | 0x1004 => of_several(Several::Wide(4)),
            0x1005 | 0x1006 | 0x1007 | 0x1014 | 0x1040 => of_several(Several::Wide(8)),
            0x1048 => of_several(Several::Wide(16)),
            0x101E | 0x101F | 0x1102 => of_several(Several::Listed),
            _ => unlisted(),
        }
    }

    /// How values of the type are kept.
    #[inline]
    pub fn class(self) -> Class
        ensures { result ≡ class_of self.0 }
    {
        self.row().class
    }

    /// How many bytes a cell of the type has in a row of a table; None for a type that is not listed.
    #[inline]
    pub fn cell_width(self) -> Option<u8>
        ensures { result ≡ cell_width_of self.0 }
    {
        self.row().cell
    }

    /// How a single value of the type is shown as JSON.
    #[inline]
    pub fn form(self) -> Form
        ensures { result ≡ form_of self.0 }
    {
        self.row().form
    }
}
