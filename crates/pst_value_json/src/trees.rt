//! Trees, which a pen makes as it writes a text.

ghost use Rattle.std.specs.Prelude.{◌≡◌, ◌++◌, [], ◌∷◌, OnOk, List, ℕ, map, string_bytes, ⊤};
ghost use Rattle.serde_json.specs.Data.{Data, Items, Members, object, array, string, put};
ghost use Rattle.serde_json.specs.View.{view, items_of, items_view, members_view};

use crate::leaf::Leaf;
use crate::pens::Pen;
use crate::scalar::leaf_doc;
use serde_json::{Map, Value as Doc};
use std::alloc::{AllocError, Global};

/// Documents, one behind another; an object that is begun stands there with the key that comes next, a list that is begun with its
/// items.
impl Pen for Vec<Doc> {
    ghost Puts = { λ old new d. map view new.items ≡ map view old.items ++ d ∷ [] };

    ghost Keeps = { λ base now. ⊤ };

    ghost AtKey = { λ base s done k.
        map view s.items ≡ map view base.items ++ object done ∷ string k ∷ [] };

    ghost InList = { λ base now later done.
        map view now.items ≡ map view base.items ++ array (items_of done) ∷ [] };

    ghost AtItem = { λ base s done.
        map view s.items ≡ map view base.items ++ array (items_of done) ∷ [] };

    fn leaf(&mut self, alloc: Global, made: &Leaf) -> Result<(), AllocError> {
        self.push(leaf_doc(alloc, made)?)?;
        Ok(())
    }

    fn first(
        &mut self,
        alloc: Global,
        key: &'static str,
        _mark: &'static [u8],
    ) -> Result<(), AllocError> {
        self.push(Doc::from(Map::new(alloc)))?;
        self.push(Doc::from(String::from_str(alloc, key)?))?;
        Ok(())
    }

    fn next(
        &mut self,
        alloc: Global,
        key: &'static str,
        _mark: &'static [u8],
    ) -> Result<(), AllocError> {
        put_member(alloc, self)?;
        self.push(Doc::from(String::from_str(alloc, key)?))?;
        Ok(())
    }

    fn close(&mut self, alloc: Global) -> Result<(), AllocError> {
        put_member(alloc, self)
    }

    fn open_list(&mut self, alloc: Global) -> Result<(), AllocError> {
        self.push(Doc::from(Vec::<Doc>::new(alloc)))?;
        Ok(())
    }

    fn comma(&mut self, _later: bool) -> Result<(), AllocError> {
        Ok(())
    }

    fn item(&mut self, alloc: Global) -> Result<(), AllocError> {
        put_item(alloc, self)
    }

    fn close_list(&mut self, _later: bool) -> Result<(), AllocError> {
        Ok(())
    }
}

// Takes the last document.
fn take_last(docs: &mut Vec<Doc>) -> Doc
    ensures { (front : List Data) (d : Data) → map view docs.old.items ≡ front ++ d ∷ []
        → (view result ≡ d) × (map view docs.new.items ≡ front) }
{
    match docs.pop() {
        Some(doc) => doc,
        None => Doc::Null,
    }
}

// The members of an object.
fn members_in(alloc: Global, doc: Doc) -> Map<String, Doc>
    ensures { (ms : Members) → view doc ≡ object ms → members_view result.entries ≡ ms }
{
    match doc {
        Doc::Object(map) => map,
        _ => Map::new(alloc),
    }
}

// The bytes of a text.
fn text_in(alloc: Global, doc: Doc) -> String
    ensures { (s : List ℕ) → view doc ≡ string s → string_bytes result ≡ s }
{
    match doc {
        Doc::String(text) => text,
        _ => String::new(alloc),
    }
}

// The items of a list.
fn items_in(alloc: Global, doc: Doc) -> Vec<Doc>
    ensures { (ds : Items) → view doc ≡ array ds → items_view result.items ≡ ds }
{
    match doc {
        Doc::Array(items) => items,
        _ => Vec::new(alloc),
    }
}

// The value on top goes into the object below it, under the key between them.
fn put_member(alloc: Global, docs: &mut Vec<Doc>) -> Result<(), AllocError>
    ensures { (front : List Data) (done : Members) (k : List ℕ) (d : Data)
        → map view docs.old.items ≡ front ++ object done ∷ string k ∷ d ∷ []
        → OnOk result (map view docs.new.items ≡ front ++ object (put k d done) ∷ []) }
{
    let value = take_last(docs);
    let key = text_in(alloc, take_last(docs));
    let mut map = members_in(alloc, take_last(docs));
    drop(map.insert(key, value)?);
    docs.push(Doc::Object(map))?;
    Ok(())
}

// The value on top goes into the list below it.
fn put_item(alloc: Global, docs: &mut Vec<Doc>) -> Result<(), AllocError>
    ensures { (front done : List Data) (d : Data)
        → map view docs.old.items ≡ front ++ array (items_of done) ∷ d ∷ []
        → OnOk result (map view docs.new.items ≡ front ++ array (items_of (done ++ d ∷ [])) ∷ []) }
{
    let value = take_last(docs);
    let mut items = items_in(alloc, take_last(docs));
    items.push(value)?;
    docs.push(Doc::Array(items))?;
    Ok(())
}

/// The document that was made alone.
pub fn only(docs: Vec<Doc>) -> Doc
    ensures { (d : Data) → map view docs.items ≡ d ∷ [] → view result ≡ d }
{
    let mut docs = docs;
    take_last(&mut docs)
}
