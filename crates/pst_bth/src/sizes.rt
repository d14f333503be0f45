//! How many bytes keys and data take.

use crate::rows::Rows;
use pst_bytes::{Image, Span};

/// How many bytes the key and the data of a record take (cbKey and cbEnt, [MS-PST] 2.3.2.1).
#[derive(Clone, Copy)]
pub struct Sizes {
    /// Bytes of a key.
    pub key: u8,
    /// Bytes of the data of a record of a leaf.
    pub ent: u8,
}

impl Sizes {
    ghost use Rattle.std.specs.Prelude.{◌≡◌, true};
    ghost use Rattle.pst_bytes.specs.Image.{bytes_of, IsInside};
    ghost use Rattle.pst_bth.specs.Rows.{is_key_size};
    ghost use Rattle.pst_bth.specs.Rows.{leaf_size, branch_size};
    ghost use Rattle.pst_bth.specs.View.{rows_image, rows_item, rows_key_size, rows_size};

    // The records of a leaf.
    pub(crate) fn leaf<'a>(self, image: Image<'a>, item: Span) -> Rows<'a>
        requires key { is_key_size self.key ≡ true }
        requires inside { IsInside (bytes_of image) item }
        ensures image { rows_image result ≡ image.entry }
        ensures item { rows_item result ≡ item }
        ensures key { rows_key_size result ≡ self.key }
        ensures size { rows_size result ≡ leaf_size self }
    {
        Rows::of_item(
            image,
            item,
            self.key,
            u16::from(self.key) + u16::from(self.ent),
        )
    }

    // The records of a branch.
    pub(crate) fn branch<'a>(self, image: Image<'a>, item: Span) -> Rows<'a>
        requires key { is_key_size self.key ≡ true }
        requires inside { IsInside (bytes_of image) item }
        ensures image { rows_image result ≡ image.entry }
        ensures item { rows_item result ≡ item }
        ensures key { rows_key_size result ≡ self.key }
        ensures size { rows_size result ≡ branch_size self }
    {
        Rows::of_item(image, item, self.key, u16::from(self.key) + 4)
    }
}
