//! The string stream, and the strings in it.

use pst_datatree::Value;
use pst_value::as_u32;

/// The string stream ([MS-PST] 2.4.7.4).
#[derive(Clone, Copy)]
pub(crate) struct Strings<'a> {
    value: Value<'a>,
}

impl<'a> Strings<'a> {
    ghost use Rattle.std.specs.Prelude.{◌≡◌, ◌+◌, ◌≤◌, ℕ, length};
    ghost use Rattle.pst_bytes.specs.Image.{num};
    ghost use Rattle.pst_datatree.specs.Shown.{bytes_in, IsPart};
    ghost use Rattle.pst_names.specs.Grammar.{HasText};
    ghost use Rattle.pst_names.specs.Name.{text_at};
    ghost use Rattle.pst_names.specs.Strings.{strings_value, string_bytes};

    pub(crate) fn of(value: Value<'a>) -> Strings<'a>
        ensures { strings_value result ≡ value.entry }
    {
        Strings { value }
    }

    // The number in the 4 bytes at an offset.
    #[tactic(auto, using(crate::proofs::NumLemmas::num_in_range, crate::proofs::NumLemmas::length_in_range))]
    fn number(&self, at: u64) -> u32
        requires { at + 4 ≤ length (string_bytes self.now) }
        ensures { result ≡ num (string_bytes self.now) at 4 }
    {
        let _len = self.value.len();
        let part = self.value.part(at, at + 4).unwrap();
        as_u32(&part).unwrap()
    }

    /// The bytes of the string that stands at an offset, in the file's own memory.
    pub(crate) fn text(&self, at: u32) -> Value<'a>
        requires { HasText (string_bytes self.now) at }
        ensures bytes { bytes_in result ≡ text_at (string_bytes self.now) at }
        ensures part { let len = num (string_bytes self.now) at 4 in
            IsPart (at + 4) (at + 4 + len) (strings_value self.now) result }
    {
        let _len = self.value.len();
        let start = u64::from(at) + 4;
        let len = u64::from(self.number(u64::from(at)));
        self.value.part(start, start + len).unwrap()
    }
}
