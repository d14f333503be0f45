//! What documents are written with: a pen writes a text, or makes a tree. Each object, list and value is written once, for any pen.

ghost use Rattle.std.specs.Prelude.{◌≡◌, true, false, Bool, ◌++◌, [], ◌∷◌, IfOk, OnOk, List, ℕ};
ghost use Rattle.serde_json.specs.Data.{Data, Members, no_members, member, object, array, no_items};
ghost use Rattle.serde_json.specs.View.{items_of};
ghost use Rattle.serde_json.specs.Written.{compact_text, members_text, items_text};
ghost use Rattle.pst_text.specs.Kept.{BeginsWith};
ghost use Rattle.pst_value_json.specs.Leaf.{leaf_data};
ghost use Rattle.pst_text.specs.Quoted.{all_plain};
ghost use Rattle.pst_value_json.specs.Pen.{and_member, before, IsLast, key_and_colon, InObject};

use crate::leaf::Leaf;
use crate::put_values::put_leaf;
use std::alloc::{AllocError, Global};

/// What documents are written with. An object is the key of its first member and its value, the key of each other one and its
/// value, and the end; a list its begin, and for each item a comma, the item, and that it stands there, and the end.
pub trait Pen {
    /// That a value is put behind what stands there.
    ghost Puts: { Self → Self → Data → Type 0 };

    /// That what stood there stands there still.
    ghost Keeps: { Self → Self → Type 0 };

    /// That an object is begun behind what stands there: it has these members, and then a key.
    ghost AtKey: { Self → Self → Members → List ℕ → Type 0 };

    /// That a list is begun behind what stands there, with these items, and whether there are any.
    ghost InList: { Self → Self → Bool → List Data → Type 0 };

    /// The same, where an item comes next.
    ghost AtItem: { Self → Self → List Data → Type 0 };

    /// A value as it is shown.
    fn leaf(&mut self, alloc: Global, made: &Leaf) -> Result<(), AllocError>
        ensures put { OnOk result (Puts self.old self.new (leaf_data made.now)) }
        ensures kept { (base : Self) → Keeps base self.old → Keeps base self.new };

    /// An object begins with the key of its first member, of whose bytes each stands for itself; the key with the marks around it is
    /// handed over too, so that a text takes it at once.
    fn first(
        &mut self,
        alloc: Global,
        key: &'static str,
        mark: &'static [u8],
    ) -> Result<(), AllocError>
        requires plain { all_plain key.now ≡ true }
        requires mark { mark.now ≡ 123 ∷ key_and_colon key.now }
        ensures put { OnOk result (AtKey self.old self.new no_members key.now) }
        ensures kept { (base : Self) → Keeps base self.old → Keeps base self.new };

    /// The key of the next member, behind the value of the last one.
    fn next(
        &mut self,
        alloc: Global,
        key: &'static str,
        mark: &'static [u8],
    ) -> Result<(), AllocError>
        requires plain { all_plain key.now ≡ true }
        requires mark { mark.now ≡ 44 ∷ key_and_colon key.now }
        ensures put { (base : Self) (done : Members) → InObject Puts AtKey base self.old done
            → OnOk result (AtKey base self.new done key.now) }
        ensures kept { (base : Self) → Keeps base self.old → Keeps base self.new };

    /// The object ends.
    fn close(&mut self, alloc: Global) -> Result<(), AllocError>
        ensures put { (base : Self) (done : Members) → InObject Puts AtKey base self.old done
            → OnOk result (Puts base self.new (object done)) }
        ensures kept { (base : Self) → Keeps base self.old → Keeps base self.new };

    /// A list begins.
    fn open_list(&mut self, alloc: Global) -> Result<(), AllocError>
        ensures put { OnOk result (InList self.old self.new false []) }
        ensures kept { (base : Self) → Keeps base self.old → Keeps base self.new };

    /// The next item comes, behind a comma if others stand there.
    fn comma(&mut self, later: bool) -> Result<(), AllocError>
        ensures put { (base : Self) (done : List Data) → InList base self.old later done
            → OnOk result (AtItem base self.new done) }
        ensures kept { (base : Self) → Keeps base self.old → Keeps base self.new };

    /// The item stands there.
    fn item(&mut self, alloc: Global) -> Result<(), AllocError>
        ensures put { (base s : Self) (done : List Data) (d : Data) → AtItem base s done
            → Puts s self.old d → OnOk result (InList base self.new true (done ++ d ∷ [])) }
        ensures kept { (base : Self) → Keeps base self.old → Keeps base self.new };

    /// The list ends.
    fn close_list(&mut self, later: bool) -> Result<(), AllocError>
        ensures put { (base : Self) (done : List Data) → InList base self.old later done
            → OnOk result (Puts base self.new (array (items_of done))) }
        ensures kept { (base : Self) → Keeps base self.old → Keeps base self.new };
}

/// A text, behind which all is put.
impl Pen for Vec<u8> {
    ghost Puts = { λ old new d. new.items ≡ old.items ++ compact_text d };

    ghost Keeps = { λ base now. BeginsWith now.items base.items };

    ghost AtKey = { λ base s done k. (d : Data) (rest : Members)
        → s.items ++ (compact_text d ++ members_text true rest)
        ≡ base.items ++ compact_text (object (before done (member k d rest))) };

    ghost InList = { λ base now later done. (rest : List Data)
        → now.items ++ items_text later (items_of rest)
        ≡ base.items ++ compact_text (array (items_of (done ++ rest))) };

    ghost AtItem = { λ base s done. (d : Data) (rest : List Data)
        → s.items ++ (compact_text d ++ items_text true (items_of rest))
        ≡ base.items ++ compact_text (array (items_of (done ++ d ∷ rest))) };

    #[inline(always)]
    fn leaf(&mut self, alloc: Global, made: &Leaf) -> Result<(), AllocError> {
        put_leaf(alloc, made, self)
    }

    #[inline(always)]
    fn first(
        &mut self,
        _alloc: Global,
        _key: &'static str,
        mark: &'static [u8],
    ) -> Result<(), AllocError> {
        self.extend_from_slice(mark)?;
        Ok(())
    }

    #[inline(always)]
    fn next(
        &mut self,
        _alloc: Global,
        _key: &'static str,
        mark: &'static [u8],
    ) -> Result<(), AllocError> {
        self.extend_from_slice(mark)?;
        Ok(())
    }

    #[inline(always)]
    fn close(&mut self, _alloc: Global) -> Result<(), AllocError> {
        self.push(b'}')?;
        Ok(())
    }

    #[inline(always)]
    fn open_list(&mut self, _alloc: Global) -> Result<(), AllocError> {
        self.push(b'[')?;
        Ok(())
    }

    #[inline(always)]
    fn comma(&mut self, later: bool) -> Result<(), AllocError> {
        if later {
            self.push(b',')?;
        }
        Ok(())
    }

    #[inline(always)]
    fn item(&mut self, _alloc: Global) -> Result<(), AllocError> {
        Ok(())
    }

    #[inline(always)]
    fn close_list(&mut self, _later: bool) -> Result<(), AllocError> {
        self.push(b']')?;
        Ok(())
    }
}

/// Writes a list without items.
pub fn write_nothing<P: Pen>(alloc: Global, pen: &mut P) -> Result<(), AllocError>
    ensures put { OnOk result (P.Puts pen.old pen.new (array no_items)) }
    ensures kept { (base : P) → P.Keeps base pen.old → P.Keeps base pen.new }
{
    pen.open_list(alloc)?;
    pen.close_list(false)
}

/// The line of a text: a line feed behind it.
pub fn end_line(text: Vec<u8>) -> Result<Vec<u8>, AllocError>
    ensures { IfOk result (λ line. line.items ≡ text.items ++ 10 ∷ []) }
{
    let mut line = text;
    line.push(b'\n')?;
    Ok(line)
}
