//! Values put straight behind a text, as JSON.

ghost use Rattle.std.specs.Prelude.{◌≡◌, ◌++◌, OnOk, OnErr, true};
ghost use Rattle.serde_json.specs.Data.{null, boolean, string};
ghost use Rattle.serde_json.specs.Written.{compact_text};
ghost use Rattle.pst_text.specs.Quoted.{all_plain};
ghost use Rattle.pst_text.specs.Parts.{natural, integer};
ghost use Rattle.pst_text.specs.Kept.{BeginsWith};

use crate::escape::put_quoted;
use std::alloc::AllocError;

/// Puts a text in quotes behind a text.
pub fn put_string(shown: &str, text: &mut Vec<u8>) -> Result<(), AllocError>
    ensures put { OnOk result (text.new.items ≡ text.old.items ++ compact_text (string shown.now)) }
    ensures kept { OnErr result (BeginsWith text.new.items text.old.items) }
{
    put_quoted(shown.as_bytes(), text)
}

/// Puts bytes in quotes behind a text, of which each stands for itself there.
#[tactic(auto, using(crate::proofs::EscapeLemmas::plain_put))]
pub fn put_plain(shown: &[u8], text: &mut Vec<u8>) -> Result<(), AllocError>
    requires { all_plain shown.now ≡ true }
    ensures put { OnOk result (text.new.items ≡ text.old.items ++ compact_text (string shown.now)) }
    ensures kept { OnErr result (BeginsWith text.new.items text.old.items) }
{
    text.push(b'"')?;
    text.extend_from_slice(shown)?;
    text.push(b'"')?;
    Ok(())
}

/// Puts a number behind a text.
pub fn put_natural(number: u64, text: &mut Vec<u8>) -> Result<(), AllocError>
    ensures put { OnOk result (text.new.items ≡ text.old.items ++ compact_text (natural number)) }
    ensures kept { OnErr result (BeginsWith text.new.items text.old.items) }
{
    let mut buffer = itoa::Buffer::new();
    text.extend_from_slice(buffer.format(number).as_bytes())?;
    Ok(())
}

/// Puts a signed number behind a text.
pub fn put_integer(number: i64, text: &mut Vec<u8>) -> Result<(), AllocError>
    ensures put { OnOk result (text.new.items ≡ text.old.items ++ compact_text (integer number)) }
    ensures kept { OnErr result (BeginsWith text.new.items text.old.items) }
{
    let mut buffer = itoa::Buffer::new();
    text.extend_from_slice(buffer.format(number).as_bytes())?;
    Ok(())
}

/// Puts a truth value behind a text.
pub fn put_truth(truth: bool, text: &mut Vec<u8>) -> Result<(), AllocError>
    ensures put { OnOk result (text.new.items ≡ text.old.items ++ compact_text (boolean truth)) }
    ensures kept { OnErr result (BeginsWith text.new.items text.old.items) }
{
    text.extend_from_slice(if truth { b"true" } else { b"false" })?;
    Ok(())
}

/// Puts that there is no value behind a text.
pub fn put_null(text: &mut Vec<u8>) -> Result<(), AllocError>
    ensures put { OnOk result (text.new.items ≡ text.old.items ++ compact_text null) }
    ensures kept { OnErr result (BeginsWith text.new.items text.old.items) }
{
    text.extend_from_slice(b"null")?;
    Ok(())
}
