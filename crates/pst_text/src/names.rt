//! The texts of identifiers.

ghost use Rattle.std.specs.Prelude.{◌≡◌, IfOk, string_bytes};
ghost use Rattle.pst_text.specs.Names.{nid_text as nid_text_of, id_text as id_text_of, tag_text as tag_text_of};

use std::alloc::{AllocError, Global};

/// A node's identifier, as `0x21`.
pub fn nid_text(alloc: Global, nid: u32) -> Result<String, AllocError>
    ensures { IfOk result (λ s. string_bytes s ≡ nid_text_of nid) }
{
    format!(in alloc; "0x{nid:x}")
}

/// A property's identifier or type, as `001F`.
pub fn id_text(alloc: Global, id: u16) -> Result<String, AllocError>
    ensures { IfOk result (λ s. string_bytes s ≡ id_text_of id) }
{
    hex::encode_upper(alloc, id.to_be_bytes())
}

/// The tag of a column, as `3001001F`.
pub fn tag_text(alloc: Global, tag: u32) -> Result<String, AllocError>
    ensures { IfOk result (λ s. string_bytes s ≡ tag_text_of tag) }
{
    hex::encode_upper(alloc, tag.to_be_bytes())
}
