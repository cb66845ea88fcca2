//! Defaults of types that hold no other type.

ghost use Rattle.std.specs.Prelude.{◌≡◌, ◌==◌, length, nat_lt, option_map, IfOk};
ghost use Rattle.std.specs.List.{list_all};
ghost use Rattle.std.specs.Str.{chars};
ghost use Rattle.avro_schema.specs.Fits.{is_int};
ghost use Rattle.avro_schema.specs.Seen.{value_of};
ghost use Rattle.avro_schema.specs.Value.{Value};
ghost use Rattle.avro_schema_json.specs.DeclaredDefaults.{null_default as default_of_null, boolean_default as default_of_boolean, number_default as default_of_number, text_default as default_of_text, bytes_of_text as bytes_in, only_if};
ghost use Rattle.avro_schema_json.specs.inside.OwnDefaults.{without_defaults};
ghost use Rattle.serde_json.specs.View.{number_view};

use crate::raw::RawNode;
use crate::symbol_indices::symbol_default;
use crate::texts::copy_of_text;
use avro_schema::{Datum, Memory};
use serde_json::Number;
use std::alloc::Global;

/// The default that null gives.
pub(crate) fn null_default(node: &RawNode) -> Option<Datum>
    ensures { option_map value_of result ≡ default_of_null (without_defaults node.now) }
{
    match node {
        RawNode::Null => Some(Datum::Null),
        _ => None,
    }
}

/// The default that true or false gives.
pub(crate) fn boolean_default(value: bool, node: &RawNode) -> Option<Datum>
    ensures { option_map value_of result ≡ default_of_boolean value (without_defaults node.now) }
{
    match node {
        RawNode::Boolean => Some(Datum::Bool(value)),
        _ => None,
    }
}

/// The default that a number gives: a whole one in range.
pub(crate) fn number_default(number: Number, node: &RawNode) -> Option<Datum>
    ensures { option_map value_of result ≡ default_of_number (number_view number) (without_defaults node.now) }
{
    match node {
        RawNode::Int => match number.as_i64() {
            Some(value) => int_datum(value),
            None => None,
        },
        RawNode::Long => match number.as_i64() {
            Some(value) => Some(Datum::Long(value)),
            None => None,
        },
        _ => None,
    }
}

/// An int, where the number is in its range.
fn int_datum(value: i64) -> Option<Datum>
    ensures { option_map value_of result ≡ only_if (is_int value) (Value.int value) }
{
    match i32::try_from(value) {
        Ok(value) => Some(Datum::Int(value)),
        Err(_) => None,
    }
}

/// The default that a text gives.
pub(crate) fn text_default(
    alloc: Global,
    text: &str,
    node: &RawNode,
) -> Result<Option<Datum>, Memory>
    ensures { IfOk result (λ datum. option_map value_of datum ≡ default_of_text text.now (without_defaults node.now)) }
{
    match node {
        RawNode::Str => Ok(Some(Datum::Str(copy_of_text(alloc, text)?))),
        RawNode::Bytes => match bytes_of_text(alloc, text)? {
            Some(bytes) => Ok(Some(Datum::Bytes(bytes))),
            None => Ok(None),
        },
        RawNode::Fixed(fixed) => match bytes_of_text(alloc, text)? {
            Some(bytes) => Ok(fixed_datum(bytes, fixed.size)),
            None => Ok(None),
        },
        RawNode::Enum(raw) => symbol_default(raw, text),
        _ => Ok(None),
    }
}

/// Bytes of a fixed, where there are as many as its size.
fn fixed_datum(bytes: Vec<u8>, size: u32) -> Option<Datum>
    ensures { option_map value_of result ≡ only_if (length bytes.items == size) (Value.fixed bytes.items) }
{
    if bytes.len() == size as usize {
        Some(Datum::Fixed(bytes))
    } else {
        None
    }
}

/// One byte for each character of a text, whose code is the byte's value.
pub(crate) fn bytes_of_text(alloc: Global, text: &str) -> Result<Option<Vec<u8>>, Memory>
    ensures { IfOk result (λ bytes. option_map (λ b. b.items) bytes ≡ bytes_in text.now) }
{
    let characters = characters(alloc, text)?;
    bytes_of_characters(alloc, &characters)
}

/// The characters of a text.
fn characters(alloc: Global, text: &str) -> Result<Vec<char>, Memory>
    ensures { IfOk result (λ characters. characters.items ≡ chars text.now) }
{
    Ok(text.chars().collect(alloc)?)
}

/// The codes of characters, where each is that of a byte.
fn bytes_of_characters(alloc: Global, characters: &[char]) -> Result<Option<Vec<u8>>, Memory>
    ensures { IfOk result (λ bytes. option_map (λ b. b.items) bytes ≡ only_if (list_all (λ c. nat_lt c 256) characters.now) characters.now) }
{
    let mut bytes: Vec<u8> = Vec::new(alloc);
    for character in characters {
        let code = u32::from(*character);
        if code >= 256 {
            return Ok(None);
        }
        bytes.push(code as u8)?;
    }
    Ok(Some(bytes))
}
