//! Values as they are shown, put straight behind a text.

ghost use Rattle.std.specs.Prelude.{◌≡◌, ◌++◌, OnOk, OnErr};
ghost use Rattle.serde_json.specs.Written.{compact_text};
ghost use Rattle.pst_value_json.specs.Leaf.{leaf_data};
ghost use Rattle.pst_value_json.specs.Value.{object_data};
ghost use Rattle.pst_text.specs.Kept.{BeginsWith};

use crate::leaf::Leaf;
use pst_text::{
    put_bytes, put_guid, put_hex, put_id, put_integer, put_natural, put_nid, put_nid_or_null,
    put_null, put_string, put_tag, put_text, put_truth,
};
use std::alloc::{AllocError, Global};

// Puts the subnode and the size of an object behind a text.
fn put_nid_and_size(nid: u32, size: u32, text: &mut Vec<u8>) -> Result<(), AllocError>
    ensures put { OnOk result (text.new.items
        ≡ text.old.items ++ compact_text (object_data (nid, size))) }
    ensures kept { OnErr result (BeginsWith text.new.items text.old.items) }
{
    text.extend_from_slice(b"{\"nid\":")?;
    put_nid(nid, text)?;
    text.extend_from_slice(b",\"size\":")?;
    put_natural(u64::from(size), text)?;
    text.push(b'}')?;
    Ok(())
}

/// Puts a value behind a text, as it is shown.
#[inline(always)]
pub fn put_leaf(alloc: Global, made: &Leaf, text: &mut Vec<u8>) -> Result<(), AllocError>
    ensures put { OnOk result (text.new.items
        ≡ text.old.items ++ compact_text (leaf_data made.now)) }
    ensures kept { OnErr result (BeginsWith text.new.items text.old.items) }
{
    match made {
        Leaf::Null => put_null(text),
        Leaf::Truth(truth) => put_truth(*truth, text),
        Leaf::Natural(number) => put_natural(*number, text),
        Leaf::Integer(number) => put_integer(*number, text),
        Leaf::Nid(nid) => put_nid_or_null(*nid, text),
        Leaf::Id(id) => put_id(*id, text),
        Leaf::Tag(tag) => put_tag(*tag, text),
        Leaf::Word(word) => put_string(word, text),
        Leaf::Digest(digest) => put_hex(digest, text),
        Leaf::Guid(guid) => put_guid(*guid, text),
        Leaf::Object(nid, size) => put_nid_and_size(*nid, *size, text),
        Leaf::Text(value) => put_text(alloc, value, text),
        Leaf::Hex(value) => put_bytes(value, text),
    }
}
