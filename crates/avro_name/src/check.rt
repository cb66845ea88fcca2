//! Which characters names may have.

ghost use Rattle.std.specs.Prelude.{◌≡◌, true, OnOk, IsOk, IfErr};
ghost use Rattle.std.specs.List.{list_all};
ghost use Rattle.avro_name.specs.Name.{is_name_start, is_name_character, is_simple_name, is_dotted_name, is_primitive_word};
ghost use Rattle.avro_name.specs.NameFault.{IsNamespaceFault};
ghost use Rattle.avro_name.specs.inside.Scan.{first_fault};

use crate::error::NameError;

/// Whether a byte may begin a simple name.
fn is_name_start(byte: u8) -> bool
    ensures { result ≡ is_name_start byte }
{
    matches!(byte, b'A'..=b'Z' | b'a'..=b'z' | b'_')
}

/// Whether a byte may appear in a simple name after the first.
fn is_name_character(byte: u8) -> bool
    ensures { result ≡ is_name_character byte }
{
    matches!(byte, b'A'..=b'Z' | b'a'..=b'z' | b'_' | b'0'..=b'9')
}

/// Whether all bytes may appear in a simple name after the first.
fn are_name_characters(bytes: &[u8]) -> bool
    ensures { result ≡ list_all is_name_character bytes.now }
{
    for byte in bytes {
        if !is_name_character(*byte) {
            return false;
        }
    }
    true
}

/// Whether `text` is a simple name: a name without dots, such as that of a field, a field's alias or an
/// enum symbol (Avro 1.11, "Names"). It may be the name of a primitive type.
pub fn is_simple_name(text: &str) -> bool
    ensures { result ≡ is_simple_name text.now }
{
    match text.as_bytes().split_first() {
        Some((first, rest)) => is_name_start(*first) && are_name_characters(rest),
        None => false,
    }
}

/// The first fault of a dotted name, if it has one.
fn first_fault(text: &[u8]) -> Option<NameError>
    ensures { result ≡ first_fault true text.now }
{
    let mut begins = true;
    for byte in text {
        if *byte == b'.' {
            if begins {
                return Some(NameError::EmptyPart);
            }
            begins = true;
        } else if begins {
            if !is_name_start(*byte) {
                return Some(NameError::BadCharacter);
            }
            begins = false;
        } else if !is_name_character(*byte) {
            return Some(NameError::BadCharacter);
        }
    }
    if begins {
        Some(NameError::EmptyPart)
    } else {
        None
    }
}

/// Checks that a text is one or more simple names joined by dots.
pub(crate) fn check_dotted_name(text: &[u8]) -> Result<(), NameError>
    ensures good { OnOk result (is_dotted_name text.now ≡ true) }
    ensures refused { IfErr result (IsNamespaceFault text.now) }
    ensures passes { is_dotted_name text.now ≡ true → IsOk result }
{
    match first_fault(text) {
        Some(fault) => Err(fault),
        None => Ok(()),
    }
}

/// Whether `text` is the name of a primitive type.
pub(crate) fn is_primitive_word(text: &str) -> bool
    ensures { result ≡ is_primitive_word text.now }
{
    text == "null"
        || text == "boolean"
        || text == "int"
        || text == "long"
        || text == "float"
        || text == "double"
        || text == "bytes"
        || text == "string"
}
