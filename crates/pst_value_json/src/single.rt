//! Single values as they are shown, by their type: each type is told of here, once for all that is written.

ghost use Rattle.std.specs.Prelude.{◌≡◌};
ghost use Rattle.serde_json.specs.Data.{boolean};
ghost use Rattle.pst_datatree.specs.Shown.{bytes_in};
ghost use Rattle.pst_value.specs.Read.{exactly, i16_of, i32_of, i64_of, u32_of, u64_of, bool_of, guid_of, object_of};
ghost use Rattle.pst_value_json.specs.Leaf.{leaf_data};
ghost use Rattle.pst_text.specs.Parts.{natural, integer};
ghost use Rattle.pst_text.specs.Text.{guid_data};
ghost use Rattle.pst_value_json.specs.Value.{object_data, null_or_hex, or_hex, single_data};

use crate::leaf::Leaf;
use pst_datatree::Value;
use pst_value::{
    Form, PropType, as_bool, as_guid, as_i16, as_i32, as_i64, as_object, as_u32, as_u64,
};

// Null where a value has no byte, and else its bytes.
#[inline(always)]
fn bytes_or_null<'a>(value: &'a Value<'a>) -> Leaf<'a>
    ensures { leaf_data result ≡ null_or_hex (bytes_in value.now) }
{
    if value.len() == 0 {
        return Leaf::Null;
    }
    Leaf::Hex(value)
}

// A signed number of 2 bytes.
#[inline(always)]
fn int16<'a>(value: &'a Value<'a>) -> Leaf<'a>
    ensures { let bytes = bytes_in value.now in
        leaf_data result ≡ or_hex integer (exactly 2 i16_of bytes) bytes }
{
    match as_i16(value) {
        Some(number) => Leaf::Integer(i64::from(number)),
        None => bytes_or_null(value),
    }
}

// A signed number of 4 bytes.
#[inline(always)]
fn int32<'a>(value: &'a Value<'a>) -> Leaf<'a>
    ensures { let bytes = bytes_in value.now in
        leaf_data result ≡ or_hex integer (exactly 4 i32_of bytes) bytes }
{
    match as_i32(value) {
        Some(number) => Leaf::Integer(i64::from(number)),
        None => bytes_or_null(value),
    }
}

// A signed number of 8 bytes.
#[inline(always)]
fn int64<'a>(value: &'a Value<'a>) -> Leaf<'a>
    ensures { let bytes = bytes_in value.now in
        leaf_data result ≡ or_hex integer (exactly 8 i64_of bytes) bytes }
{
    match as_i64(value) {
        Some(number) => Leaf::Integer(number),
        None => bytes_or_null(value),
    }
}

// A number of 4 bytes.
#[inline(always)]
fn nat32<'a>(value: &'a Value<'a>) -> Leaf<'a>
    ensures { let bytes = bytes_in value.now in
        leaf_data result ≡ or_hex natural (exactly 4 u32_of bytes) bytes }
{
    match as_u32(value) {
        Some(number) => Leaf::Natural(u64::from(number)),
        None => bytes_or_null(value),
    }
}

// A number of 8 bytes.
#[inline(always)]
fn nat64<'a>(value: &'a Value<'a>) -> Leaf<'a>
    ensures { let bytes = bytes_in value.now in
        leaf_data result ≡ or_hex natural (exactly 8 u64_of bytes) bytes }
{
    match as_u64(value) {
        Some(number) => Leaf::Natural(number),
        None => bytes_or_null(value),
    }
}

// A truth value.
#[inline(always)]
fn truth<'a>(value: &'a Value<'a>) -> Leaf<'a>
    ensures { let bytes = bytes_in value.now in
        leaf_data result ≡ or_hex boolean (exactly 1 bool_of bytes) bytes }
{
    match as_bool(value) {
        Some(truth) => Leaf::Truth(truth),
        None => bytes_or_null(value),
    }
}

// A GUID of 16 bytes.
#[inline(always)]
fn guid<'a>(value: &'a Value<'a>) -> Leaf<'a>
    ensures { let bytes = bytes_in value.now in
        leaf_data result ≡ or_hex guid_data (exactly 16 guid_of bytes) bytes }
{
    match as_guid(value) {
        Some(guid) => Leaf::Guid(guid),
        None => bytes_or_null(value),
    }
}

// An object.
#[inline(always)]
fn object<'a>(value: &'a Value<'a>) -> Leaf<'a>
    ensures { let bytes = bytes_in value.now in
        leaf_data result ≡ or_hex object_data (object_of bytes) bytes }
{
    match as_object(value) {
        Some((nid, size)) => Leaf::Object(nid, size),
        None => bytes_or_null(value),
    }
}

/// A single value of this type.
#[inline(always)]
pub(crate) fn single<'a>(kind: PropType, value: &'a Value<'a>) -> Leaf<'a>
    ensures { leaf_data result ≡ single_data kind.0 (bytes_in value.now) }
{
    match kind.form() {
        Form::Int16 => int16(value),
        Form::Int32 => int32(value),
        Form::Int64 => int64(value),
        Form::Nat32 => nat32(value),
        Form::Nat64 => nat64(value),
        Form::Truth => truth(value),
        Form::Guid => guid(value),
        Form::Object => object(value),
        Form::Text => Leaf::Text(value),
        Form::Fixed => bytes_or_null(value),
        Form::Open => Leaf::Hex(value),
    }
}
