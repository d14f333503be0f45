//! The columns of a table context.

ghost use Rattle.std.specs.Prelude.{◌≡◌, ◌+◌, ◌*◌, ◌≤◌, length, true, IfSome, None};
ghost use Rattle.pst_bytes.specs.Image.{bytes_of, IsInside};
ghost use Rattle.pst_btree.specs.Entries.{first_with};
ghost use Rattle.pst_tc.specs.Info.{is_column, column_places, column_tag};
ghost use Rattle.pst_tc.specs.Fault.{info_fault};

use crate::info::column_count;
use pst_bytes::{Image, Span};

/// A column of a table (TCOLDESC, [MS-PST] 2.3.4.2).
#[derive(Clone, Copy, Debug, PartialEq, Eq)]
pub struct Column {
    /// Its tag: the type of its cells in the low half, the identifier of the property in the high half.
    pub tag: u32,
    /// Where its cells begin in a row (ibData).
    pub at: u16,
    /// How many bytes they have there (cbData).
    pub width: u8,
    /// Which bit of a row says that it has a cell (iBit).
    pub bit: u8,
    /// Where it stands in the file.
    pub place: u64,
}

/// The columns of a table that are left, in order. No memory is taken.
#[derive(Clone, Copy)]
pub struct Columns<'a> {
    image: Image<'a>,
    item: Span,
    next: u8,
    left: u8,
    ghost few: { next + left ≤ 255 },
    ghost room: { item.at + 22 + 8 * (next + left) ≤ length (bytes_of image) },
}

impl<'a> Columns<'a> {
    ghost use Rattle.std.specs.Prelude.{◌≡◌, ◌+◌, ◌*◌, ◌≤◌, length, map};
    ghost use Rattle.pst_bytes.specs.Image.{bytes_of};
    ghost use Rattle.pst_tc.specs.Info.{columns_from};
    ghost use Rattle.pst_tc.specs.Values.{column_parts_at};
    ghost use Rattle.pst_tc.specs.Left.{columns_left};

    // So many columns of TCINFO.
    pub(crate) fn of(image: Image<'a>, item: Span, count: u8) -> Columns<'a>
        requires { item.at + 22 + 8 * count ≤ length (bytes_of image) }
        ensures { let I = bytes_of image.entry in
            columns_left result ≡ map (column_parts_at I) (columns_from item 0 count) }
    {
        Columns {
            image,
            item,
            next: 0,
            left: count,
        }
    }
}

impl<'a> Iterator for Columns<'a> {
    ghost use Rattle.std.specs.Iterator.{item_count};
    ghost use Rattle.pst_tc.specs.Left.{columns_left, TakesColumn};

    type Item = Column;

    ghost next_gives = { TakesColumn };

    ghost remaining = { item_count columns_left };

    #[tactic(auto, unfolding(crate::specs::Info::columns_from))]
    fn next(&mut self) -> Option<Column> {
        if self.left == 0 {
            return None;
        }
        let image = self.image;
        let place = self.item.at + 22 + 8 * u64::from(self.next);
        let column = Column {
            tag: image.number32(place),
            at: image.number16(place + 4),
            width: image.number8(place + 6),
            bit: image.number8(place + 7),
            place,
        };
        *self = Columns {
            image,
            item: self.item,
            next: self.next + 1,
            left: self.left - 1,
        };
        Some(column)
    }
}

/// The place of the first column with a tag; None exactly where there is none.
#[tactic(auto, using(crate::proofs::InfoLemmas::sound_room, crate::proofs::ColumnLemmas::find_here, crate::proofs::ColumnLemmas::find_later, crate::proofs::ColumnLemmas::find_end, crate::proofs::InfoLemmas::sound_column))]
pub(crate) fn find_column(image: Image, item: Span, tag: u32) -> Option<u64>
    requires inside { IsInside (bytes_of image) item }
    requires sound { info_fault (bytes_of image) item ≡ None }
    ensures value { let I = bytes_of image.entry in
        result ≡ first_with (column_tag I) tag (column_places I item) }
    ensures inside { IfSome result (λ c. c + 8 ≤ length (bytes_of image.entry)) }
    ensures good { IfSome result (λ c. is_column (bytes_of image.entry) item c ≡ true) }
{
    let count = column_count(image, item);
    for i in 0..count {
        let column = item.at + 22 + 8 * u64::from(i);
        if image.number32(column) == tag {
            return Some(column);
        }
    }
    None
}
