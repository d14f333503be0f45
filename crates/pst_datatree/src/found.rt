//! A part of a data tree that was found.

ghost use Rattle.std.specs.Prelude.{◌↔◌, IsTrue};
ghost use Rattle.pst_datatree.specs.Marks.{HasSpan};

use crate::named::Named;

// A part of a data tree: its number, how many spans come before it, how many it has, and what its block identifier names.
#[derive(Clone, Copy)]
pub(crate) struct FoundPart {
    pub(crate) part: u16,
    pub(crate) before: u64,
    pub(crate) len: u64,
    pub(crate) named: Named,
}

// Whether the span with a number is one of a part's.
pub(crate) fn has_span(found: &FoundPart, n: u64) -> bool
    ensures { IsTrue result ↔ HasSpan found.now n }
{
    n >= found.before && n - found.before < found.len
}
