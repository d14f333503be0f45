//! Texts in the quotes of JSON, put behind a text.

ghost use Rattle.std.specs.Prelude.{◌≡◌, ◌+◌, ◌≤◌, ◌<◌, ◌++◌, OnOk, OnErr, length, drop, vec_len, vec_capacity};
ghost use Rattle.std.specs.Char.{digit_char};
ghost use Rattle.std.specs.List.{prefix_len};
ghost use Rattle.json.specs.Print.{escape_letter, escape_byte, escape, quoted};
ghost use Rattle.json.specs.Run.{is_plain};
ghost use Rattle.pst_text.specs.Kept.{BeginsWith};

use std::alloc::AllocError;

// Where the bytes that stand for themselves between quotes end, from a place on.
fn plain_end(shown: &[u8], from: usize) -> usize
    requires { from ≤ length shown.now }
    ensures value { result ≡ from + prefix_len is_plain (drop from shown.now) }
    ensures within { result ≤ length shown.now }
{
    let mut end = from;
    while end < shown.len() && shown[end] != b'"' && shown[end] != b'\\' && shown[end] >= 0x20 {
        end += 1;
    }
    end
}

// The letter behind the backslash, 0 where a byte has none.
fn letter(byte: u8) -> u8
    ensures { result ≡ escape_letter byte }
{
    match byte {
        b'"' | b'\\' => byte,
        8 => b'b',
        12 => b'f',
        b'\n' => b'n',
        b'\r' => b'r',
        b'\t' => b't',
        _ => 0,
    }
}

/// A digit of a hexadecimal number, in lower case.
pub(crate) fn digit(value: u8) -> u8
    requires { value < 16 }
    ensures { result ≡ digit_char value }
{
    if value < 10 {
        b'0' + value
    } else {
        b'a' - 10 + value
    }
}

/// Puts what stands for a byte between quotes behind a text, in which there is room for it.
#[tactic(auto, unfolding(json::specs::Print::escape_byte))]
pub(crate) fn put_escape_reserved(byte: u8, text: &mut Vec<u8>)
    requires { vec_len text.old + 6 ≤ vec_capacity text.old }
    ensures put { text.new.items ≡ text.old.items ++ escape_byte byte }
    ensures long { vec_len text.new ≤ vec_len text.old + 6 }
    ensures room { vec_capacity text.new ≡ vec_capacity text.old }
{
    let letter = letter(byte);
    if letter > 0 {
        text.push_reserved(b'\\');
        text.push_reserved(letter);
    } else if byte < 0x20 {
        text.push_reserved(b'\\');
        text.push_reserved(b'u');
        text.push_reserved(b'0');
        text.push_reserved(b'0');
        text.push_reserved(digit(byte / 16));
        text.push_reserved(digit(byte % 16));
    } else {
        text.push_reserved(byte);
    }
}

// Puts what stands for a byte between quotes behind a text.
fn put_escape(byte: u8, text: &mut Vec<u8>) -> Result<(), AllocError>
    ensures put { OnOk result (text.new.items ≡ text.old.items ++ escape_byte byte) }
    ensures kept { OnErr result (BeginsWith text.new.items text.old.items) }
{
    text.reserve(6)?;
    put_escape_reserved(byte, text);
    Ok(())
}

/// Puts bytes behind a text as they stand between quotes, run by run.
pub(crate) fn put_escaped(shown: &[u8], text: &mut Vec<u8>) -> Result<(), AllocError>
    ensures put { OnOk result (text.new.items ≡ text.old.items ++ escape shown.now) }
    ensures kept { OnErr result (BeginsWith text.new.items text.old.items) }
{
    let mut at = 0;
    loop {
        let end = plain_end(shown, at);
        text.extend_from_slice(&shown[at..end])?;
        if end == shown.len() {
            return Ok(());
        }
        put_escape(shown[end], text)?;
        at = end + 1;
    }
}

/// Puts bytes in quotes behind a text.
pub(crate) fn put_quoted(shown: &[u8], text: &mut Vec<u8>) -> Result<(), AllocError>
    ensures put { OnOk result (text.new.items ≡ text.old.items ++ quoted shown.now) }
    ensures kept { OnErr result (BeginsWith text.new.items text.old.items) }
{
    text.push(b'"')?;
    put_escaped(shown, text)?;
    text.push(b'"')?;
    Ok(())
}
