//! Values as they are shown, as trees.

ghost use Rattle.std.specs.Prelude.{◌≡◌, IfOk};
ghost use Rattle.serde_json.specs.View.{view};
ghost use Rattle.pst_value_json.specs.Leaf.{leaf_data};
ghost use Rattle.pst_value_json.specs.Value.{object_data};

use crate::leaf::Leaf;
use pst_text::{hex_doc, id_text, nid_text, tag_text, text_doc};
use serde_json::{Value as Doc, json};
use std::alloc::{AllocError, Global};

// The subnode and the size of an object.
fn nid_and_size_doc(alloc: Global, nid: u32, size: u32) -> Result<Doc, AllocError>
    ensures { IfOk result (λ d. view d ≡ object_data (nid, size)) }
{
    let nid = nid_text(alloc, nid)?;
    json!(in alloc; {"nid": nid, "size": size})
}

/// A value as it is shown.
pub(crate) fn leaf_doc(alloc: Global, made: &Leaf) -> Result<Doc, AllocError>
    ensures { IfOk result (λ d. view d ≡ leaf_data made.now) }
{
    match made {
        Leaf::Null => Ok(Doc::Null),
        Leaf::Truth(truth) => Ok(Doc::from(*truth)),
        Leaf::Natural(number) => Ok(Doc::from(*number)),
        Leaf::Integer(number) => Ok(Doc::from(*number)),
        Leaf::Nid(Some(nid)) => Ok(Doc::from(nid_text(alloc, *nid)?)),
        Leaf::Nid(None) => Ok(Doc::Null),
        Leaf::Id(id) => Ok(Doc::from(id_text(alloc, *id)?)),
        Leaf::Tag(tag) => Ok(Doc::from(tag_text(alloc, *tag)?)),
        Leaf::Word(word) => Ok(Doc::from(String::from_str(alloc, word)?)),
        Leaf::Digest(digest) => Ok(Doc::from(hex::encode(alloc, *digest)?)),
        Leaf::Guid(guid) => Ok(Doc::from(format!(in alloc; "{guid}")?)),
        Leaf::Object(nid, size) => nid_and_size_doc(alloc, *nid, *size),
        Leaf::Text(value) => text_doc(alloc, **value),
        Leaf::Hex(value) => hex_doc(alloc, **value),
    }
}
