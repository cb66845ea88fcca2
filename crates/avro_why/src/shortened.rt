//! Long names and pointers, cut in the middle.

use avro_cursor::text_of;
use std::alloc::{AllocError, Global};

/// The most bytes of a name or a pointer that is not cut.
const MOST: usize = 200;

/// A text of more bytes is cut in any case: what is more than `MOST` bytes from its ends is not printed.
const LONG: usize = 400;

/// How many bytes at most are kept at each end of one that is cut.
const KEPT: usize = 98;

/// Stands for the byte after a backslash, which says how long the escape is.
const ESCAPED: u8 = u8::MAX;

/// A text in two parts, which lack what is cut in any case from the middle of a long one.
pub(crate) fn without_middle(text: &str) -> (&str, &str) {
    let bytes = text.as_bytes();
    if bytes.len() <= LONG {
        return (text, "");
    }
    let head = boundary(bytes, MOST);
    let tail = boundary(bytes, bytes.len().saturating_sub(MOST));
    (
        text_of(bytes.get(..head).unwrap_or(&[])).unwrap_or(""),
        text_of(bytes.get(tail..).unwrap_or(&[])).unwrap_or(""),
    )
}

/// Where the first character at or after an offset begins.
fn boundary(text: &[u8], from: usize) -> usize {
    let mut at = from;
    for byte in text.get(from..).unwrap_or(&[]) {
        if !matches!(*byte, 0x80..=0xBF) {
            break;
        }
        at = at.saturating_add(1);
    }
    at
}

/// A text that is escaped, as it is or cut in the middle.
pub(crate) fn shortened(alloc: Global, text: String) -> Result<String, AllocError> {
    if text.len() <= MOST {
        return Ok(text);
    }
    let bytes = text.as_bytes();
    let (head, tail) = ends_of(bytes);
    let head = text_of(bytes.get(..head).unwrap_or(&[])).unwrap_or("");
    let tail = text_of(bytes.get(tail..).unwrap_or(&[])).unwrap_or("");
    format!(in alloc; "{head}...{tail}")
}

/// Where the head that is kept ends, and where the tail begins: neither within a character nor within an escape.
fn ends_of(text: &[u8]) -> (usize, usize) {
    let mut head = 0usize;
    let mut tail = text.len();
    let mut left = 0u8;
    for (at, byte) in text.iter().enumerate() {
        if left == 0 && !matches!(*byte, 0x80..=0xBF) {
            if at <= KEPT {
                head = at;
            }
            if text.len().saturating_sub(at) <= KEPT {
                tail = tail.min(at);
            }
        }
        left = left_after(left, *byte);
    }
    (head, tail)
}

/// How many bytes of an escape are left after a byte, of JSON (`\n`, `\u0000`) or of a pointer (`~0`).
fn left_after(left: u8, byte: u8) -> u8 {
    match (left, byte) {
        (0, b'\\') => ESCAPED,
        (0, b'~') => 1,
        (ESCAPED, b'u') => 4,
        (0 | ESCAPED, _) => 0,
        _ => left.saturating_sub(1),
    }
}
