//! The slices of a value, one after another.

use crate::pieces::Pieces;
use crate::value_view::Value;

/// The slices of a value in order: the one slice of a whole one, an empty one too; else one for each span. Going through
/// all of them takes no memory, and one step for each.
#[derive(Clone, Copy)]
pub struct Slices<'a> {
    front: Option<&'a [u8]>,
    behind: Option<Pieces<'a>>,
}

impl<'a> Slices<'a> {
    ghost use Rattle.std.specs.Prelude.{◌≡◌};
    ghost use Rattle.pst_datatree.specs.Slices.{value_slices, slices_in, AreOf};

    // All slices of a value.
    pub(crate) fn new(value: &Value<'a>) -> Slices<'a>
        ensures slices { slices_in result ≡ value_slices value.now }
        ensures own { AreOf value.now result }
    {
        match value {
            Value::Whole(_, slice) => Slices {
                front: Some(*slice),
                behind: None,
            },
            Value::Pieces(pieces) => Slices {
                front: None,
                behind: Some(*pieces),
            },
        }
    }
}

impl<'a> Iterator for Slices<'a> {
    type Item = &'a [u8];

    ghost use Rattle.std.specs.Iterator.{item_count};
    ghost use Rattle.pst_datatree.specs.Slices.{slices_in, TakesNext};

    ghost next_gives = { TakesNext };

    ghost remaining = { item_count slices_in };

    fn next(&mut self) -> Option<&'a [u8]> {
        if let Some(front) = self.front {
            self.front = None;
            return Some(front);
        }
        let mut behind = self.behind?;
        let slice = behind.next();
        self.behind = Some(behind);
        slice
    }
}
