//! Why a text is not the JSON that is taken.

ghost use Rattle.std.specs.Prelude.{◌≤◌, length};

use crate::position::{Position, position_at};
use serde_json::Error;

/// What is told of a text that begins as no JSON does.
pub(crate) fn fault_of_beginning(text: &[u8]) -> Option<&'static str> {
    if text.starts_with(b"Obj\x01") {
        return Some("a container file, not a schema: 'avro header FILE' prints its schema");
    }
    if text.starts_with(b"\xef\xbb\xbf") {
        return Some("starts with a byte order mark");
    }
    None
}

/// Where a text is no JSON, or nested too deep where that comes first, and why.
pub(crate) fn json_fault(
    text: &[u8],
    error: &Error,
    too_deep: Option<usize>,
) -> (Position, &'static str)
    requires small { length text.now ≤ 1048576 }
{
    let fault = Position {
        line: error.line().max(1),
        column: error.column().max(1),
    };
    if let Some(offset) = too_deep {
        let deep = position_at(text, offset);
        if (deep.line, deep.column) <= (fault.line, fault.column) {
            return (deep, "nested more than 127 levels deep");
        }
    }
    (fault, "invalid JSON")
}
