//! Faults in words.

use crate::fault::Fault;
use crate::names::Name;
use crate::places::{PlaceId, Places, WHOLE};
use crate::shortened::{shortened, without_middle};
use serde_json::Value;
use std::alloc::{AllocError, Global};

/// A text as in a JSON string, without the quotes. A long one lacks what is cut in any case.
pub(crate) fn escaped(alloc: Global, text: &str) -> Result<String, AllocError> {
    let (head, tail) = without_middle(text);
    let mut escaped = escaped_whole(alloc, head)?;
    escaped.push_str(escaped_whole(alloc, tail)?.as_str())?;
    Ok(escaped)
}

/// A text as in a JSON string, without the quotes.
fn escaped_whole(alloc: Global, text: &str) -> Result<String, AllocError> {
    let quoted = Value::String(String::from_str(alloc, text)?).to_string(alloc)?;
    let inner = quoted.strip_prefix('"').unwrap_or("");
    String::from_str(alloc, inner.strip_suffix('"').unwrap_or(""))
}

/// A text as it is printed: escaped, and cut if it is long.
fn printable(alloc: Global, text: &str) -> Result<String, AllocError> {
    shortened(alloc, escaped(alloc, text)?)
}

/// A name in full.
fn full(alloc: Global, name: Name<'_>) -> Result<String, AllocError> {
    let Name { space, simple } = name;
    if space.is_empty() {
        return printable(alloc, simple);
    }
    let name = format!(in alloc; "{space}.{simple}")?;
    printable(alloc, &name)
}

/// A place by its pointer. The whole text, whose pointer is empty, is called the root.
fn place_words(alloc: Global, places: &Places<'_>, place: PlaceId) -> Result<String, AllocError> {
    if place == WHOLE {
        return String::from_str(alloc, "the root");
    }
    places.pointer(alloc, place)
}

/// A fault in words.
pub(crate) fn words_of(
    alloc: Global,
    places: &Places<'_>,
    fault: Fault<'_>,
) -> Result<String, AllocError> {
    let (before, name, after) = parts_of(fault);
    let name = full(alloc, name)?;
    let end = match fault {
        Fault::Must(_, what) => String::from_str(alloc, what)?,
        Fault::Defined(_, first)
        | Fault::Branch(_, first)
        | Fault::Symbol(_, first)
        | Fault::FieldName(_, first) => place_words(alloc, places, first)?,
        _ => String::new(alloc),
    };
    format!(in alloc; "{before}{name}{after}{end}")
}

/// The words of a fault, around a name. What a value must be, or the place of the first of two values, comes after them.
fn parts_of(fault: Fault<'_>) -> (&'static str, Name<'_>, &'static str) {
    match fault {
        Fault::Undefined(name) => (
            "unknown type ",
            name,
            " (a type must be defined before it is used)",
        ),
        Fault::Defined(name, _) => ("duplicate type ", name, ", first defined at "),
        Fault::NoName(text) => ("\"", Name::plain(text), "\" is not a valid name"),
        Fault::PrimitiveName(text) => (
            "",
            Name::plain(text),
            " is a primitive type and cannot be defined",
        ),
        Fault::Missing(key) => ("missing \"", Name::plain(key), "\""),
        Fault::Must(key, _) => ("\"", Name::plain(key), "\" must be "),
        Fault::Branch(name, _) => ("duplicate branch ", name, ", first at "),
        Fault::Symbol(text, _) => ("duplicate symbol ", Name::plain(text), ", first at "),
        Fault::FieldName(text, _) => ("duplicate field name ", Name::plain(text), ", first at "),
        Fault::Default(name) => ("the default is not a valid ", name, ""),
        Fault::Unsupported(kind) => ("", Name::plain(kind), " is not supported"),
        Fault::NotInteger(text) => ("", Name::plain(text), " is not a 64-bit integer"),
        other => (fixed_words(other), Name::plain(""), ""),
    }
}

/// The words of a fault that are always the same; others have none here.
fn fixed_words(fault: Fault<'_>) -> &'static str {
    match fault {
        Fault::Answer => {
            "missing \"type\" (a registry's answer? its schema is the string under \"schema\")"
        }
        Fault::NoType => "a type must be a string, an object or an array",
        Fault::NoField => "a field must be an object",
        Fault::EmptyUnion => "empty union",
        Fault::UnionInUnion => "a union cannot be a branch of a union",
        Fault::NoSymbols => "an enum needs at least one symbol",
        Fault::NoSuchSymbol => "the default is not one of the symbols",
        Fault::NoBranchFits => "the default matches no branch of the union",
        Fault::TooMany => "more than 4096 nodes, counted from here",
        Fault::Size => "\"size\" must be 0 to 1048576",
        _ => "",
    }
}
