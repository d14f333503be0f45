//! Texts, bytes and GUIDs of values, put behind a text between quotes.

ghost use Rattle.std.specs.Prelude.{◌≡◌, ◌++◌, OnOk, OnErr};
ghost use Rattle.std.specs.List.{concat};
ghost use Rattle.hex.specs.Hex.{encode_lower};
ghost use Rattle.json.specs.Print.{escape};
ghost use Rattle.serde_json.specs.Written.{compact_text};
ghost use Rattle.pst_datatree.specs.Left.{slices_left};
ghost use Rattle.pst_datatree.specs.Shown.{bytes_in};
ghost use Rattle.pst_text.specs.Text.{guid_data, hex_data, text_data};
ghost use Rattle.pst_text.specs.Kept.{BeginsWith};

use crate::digits::put_lower_bytes;
use crate::put::put_plain;
use crate::utf16::put_units;
use pst_datatree::{Pieces, Value};
use std::alloc::{AllocError, Global};
use uuid::Uuid;

/// Puts the text of 16-bit units behind a text, in quotes.
pub fn put_text(alloc: Global, value: &Value, text: &mut Vec<u8>) -> Result<(), AllocError>
    ensures put { OnOk result (text.new.items
        ≡ text.old.items ++ compact_text (text_data (bytes_in value.now))) }
    ensures kept { OnErr result (BeginsWith text.new.items text.old.items) }
{
    text.push(b'"')?;
    put_units(alloc, value, text)?;
    text.push(b'"')?;
    Ok(())
}

// Puts the bytes of pieces behind a text, in hexadecimal.
fn put_pieces(pieces: Pieces, text: &mut Vec<u8>) -> Result<(), AllocError>
    ensures put { OnOk result (text.new.items
        ≡ text.old.items ++ escape (encode_lower (concat (slices_left pieces.entry)))) }
    ensures kept { OnErr result (BeginsWith text.new.items text.old.items) }
{
    for piece in pieces {
        put_lower_bytes(piece, text)?;
    }
    Ok(())
}

/// Puts the bytes of a value behind a text, in hexadecimal.
pub fn put_bytes(value: &Value, text: &mut Vec<u8>) -> Result<(), AllocError>
    ensures put { OnOk result (text.new.items
        ≡ text.old.items ++ compact_text (hex_data (bytes_in value.now))) }
    ensures kept { OnErr result (BeginsWith text.new.items text.old.items) }
{
    text.push(b'"')?;
    match value.with_bytes() {
        Value::Whole(_, slice) => put_lower_bytes(slice, text)?,
        Value::Pieces(pieces) => put_pieces(pieces, text)?,
    }
    text.push(b'"')?;
    Ok(())
}

/// Puts a GUID behind a text, hyphenated, in lower case.
#[tactic(auto, using(crate::proofs::GuidLemmas::guid_is_plain))]
pub fn put_guid(guid: Uuid, text: &mut Vec<u8>) -> Result<(), AllocError>
    ensures put { OnOk result (text.new.items ≡ text.old.items ++ compact_text (guid_data guid)) }
    ensures kept { OnErr result (BeginsWith text.new.items text.old.items) }
{
    let mut buffer = Uuid::encode_buffer();
    put_plain(guid.hyphenated().encode_lower(&mut buffer).as_bytes(), text)
}
