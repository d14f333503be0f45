//! Times as text, and numbers, where their bytes are as they should be.

ghost use Rattle.std.specs.Prelude.{◌≡◌, ◌++◌, OnErr, OnOk, Some};
ghost use Rattle.serde_json.specs.Written.{compact_text};
ghost use Rattle.pst_datatree.specs.Shown.{bytes_in};
ghost use Rattle.pst_text.specs.Time.{time_or_null, i32_or_null, moment_or_null};
ghost use Rattle.pst_text.specs.Kept.{BeginsWith};

use crate::put::{put_integer, put_null, put_plain};
use pst_datatree::Value;
use pst_time::time_bytes;
use pst_value::{as_i32, as_u64};
use std::alloc::AllocError;

// Puts the text of a time behind a text; null where it lies behind the year 9999.
#[tactic(auto, using(crate::proofs::TimeLemmas::time_is_plain))]
fn put_moment(time: u64, text: &mut Vec<u8>) -> Result<(), AllocError>
    ensures put { OnOk result (text.new.items
        ≡ text.old.items ++ compact_text (moment_or_null (Some time))) }
    ensures kept { OnErr result (BeginsWith text.new.items text.old.items) }
{
    match time_bytes(time) {
        Some(shown) => put_plain(&shown, text),
        None => put_null(text),
    }
}

/// Puts the text of a time of 8 bytes behind a text; null where there are not so many, or it lies behind the year 9999.
pub fn put_time_or_null(value: &Value, text: &mut Vec<u8>) -> Result<(), AllocError>
    ensures put { OnOk result (text.new.items
        ≡ text.old.items ++ compact_text (time_or_null (bytes_in value.now))) }
    ensures kept { OnErr result (BeginsWith text.new.items text.old.items) }
{
    match as_u64(value) {
        Some(time) => put_moment(time, text),
        None => put_null(text),
    }
}

/// Puts a signed number of 4 bytes behind a text; null where there are not so many.
pub fn put_i32_or_null(value: &Value, text: &mut Vec<u8>) -> Result<(), AllocError>
    ensures put { OnOk result (text.new.items
        ≡ text.old.items ++ compact_text (i32_or_null (bytes_in value.now))) }
    ensures kept { OnErr result (BeginsWith text.new.items text.old.items) }
{
    match as_i32(value) {
        Some(number) => put_integer(i64::from(number), text),
        None => put_null(text),
    }
}
