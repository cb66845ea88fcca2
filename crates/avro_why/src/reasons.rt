ghost use Rattle.std.specs.Prelude.{◌≤◌, ℕ, List, IfOk, length, max, min};
ghost use Rattle.std.specs.List.Sorted.{IsNonDecreasingBy};
ghost use Rattle.avro_why.specs.Placed.{ArePlaced};
ghost use Rattle.avro_why.specs.Position.{IsPosition};

use crate::fault::Fault;
use crate::json_fault::{fault_of_beginning, json_fault};
use crate::places::{PlaceId, Places};
use crate::position::{Position, position_at};
use crate::walk::Walk;
use crate::words::words_of;
use avro_cursor::text_of;
use avro_schema_json::SchemaError;
use avro_texts::Seeded;
use json::Scratch;
use serde_json::Value;
use std::alloc::{AllocError, Global};

/// The greatest length of a text.
const MAX_TEXT: usize = 1_048_576;

/// A place in a refused text, and why it is refused for it.
#[derive(Debug, Drop)]
pub struct Reason {
    /// The line, counted from 1.
    pub line: usize,
    /// The column in bytes, counted from 1.
    pub column: usize,
    /// The JSON pointer of the value (RFC 6901), which is empty for the whole text; none if the text is not JSON or too
    /// long. A pointer of more than 200 bytes is cut in the middle, and so is a name in the words.
    pub pointer: Option<String>,
    /// What is wrong there.
    pub words: String,
}

/// The first places in a refused text.
#[derive(Debug, Drop)]
pub struct Reasons {
    /// The first of them, in the order of the text.
    pub first: Vec<Reason>,
    /// How many there are after these.
    pub others: usize,
}

/// The places for which a text is refused with this error, in the order of the text: the first ones, up to a limit; of a text
/// that is no JSON one. None are found where memory ran out, or where a fault is one that only the reader of the whole sees.
///
/// # Errors
///
/// Memory ran out.
pub fn find_reasons(
    alloc: Global,
    text: &[u8],
    error: SchemaError,
    limit: usize,
) -> Result<Reasons, AllocError>
    ensures placed { IfOk result (λ r. ArePlaced text.now r.first.items) }
    ensures few { IfOk result (λ r. length r.first.items ≤ max limit 1) }
{
    if text.len() > MAX_TEXT {
        return one_reason(alloc, Position::BEGINNING, "more than 1048576 bytes");
    }
    if let Some(words) = fault_of_beginning(text) {
        return one_reason(alloc, Position::BEGINNING, words);
    }
    match text_of(text) {
        Ok(whole) => reasons_in_text(alloc, text, whole, error, limit),
        Err(end) => one_reason(alloc, position_at(text, end), "not UTF-8"),
    }
}

/// What there is of a text that is no JSON.
fn one_reason(alloc: Global, at: Position, words: &str) -> Result<Reasons, AllocError>
    ensures placed { (text : List ℕ) → IfOk result (λ r. ArePlaced text r.first.items) }
    ensures few { IfOk result (λ r. length r.first.items ≤ 1) }
{
    let mut first = Vec::new(alloc);
    first.push(Reason {
        line: at.line,
        column: at.column,
        pointer: None,
        words: String::from_str(alloc, words)?,
    })?;
    Ok(Reasons { first, others: 0 })
}

/// What there is of a text in UTF-8.
fn reasons_in_text(
    alloc: Global,
    bytes: &[u8],
    text: &str,
    error: SchemaError,
    limit: usize,
) -> Result<Reasons, AllocError>
    requires small { length bytes.now ≤ 1048576 }
    ensures placed { IfOk result (λ r. ArePlaced bytes.now r.first.items) }
    ensures few { IfOk result (λ r. length r.first.items ≤ max limit 1) }
{
    let mut scratch = Scratch::new(alloc);
    let seed = Seeded::of_text(bytes);
    let places = Places::read(alloc, text, seed, &mut scratch)?;
    match Value::from_str(alloc, text) {
        Ok(tree) => {
            let mut walk = Walk::new(alloc, seed, places)?;
            walk.read(&tree, error)?;
            first_reasons(alloc, bytes, &walk, limit)
        }
        Err(error) => {
            if error.is_memory() {
                return Err(AllocError);
            }
            let (at, words) = json_fault(bytes, &error, places.too_deep);
            one_reason(alloc, at, words)
        }
    }
}

/// The faults of a walk, by the offsets of their places.
fn by_offset(alloc: Global, walk: &Walk<'_>) -> Result<Vec<(usize, usize)>, AllocError>
    ensures { IfOk result (λ order. IsNonDecreasingBy (λ (fault : ℕ × ℕ). fault.0) order.items) }
{
    let mut order = Vec::new(alloc);
    for (index, (place, _)) in walk.faults.iter().enumerate() {
        order.push((walk.places.offset(*place), index))?;
    }
    order.sort_unstable();
    Ok(order)
}

/// The first faults of a walk.
fn first_reasons(
    alloc: Global,
    text: &[u8],
    walk: &Walk<'_>,
    limit: usize,
) -> Result<Reasons, AllocError>
    requires small { length text.now ≤ 1048576 }
    ensures placed { IfOk result (λ r. ArePlaced text.now r.first.items) }
    ensures few { IfOk result (λ r. length r.first.items ≤ limit) }
{
    let order = by_offset(alloc, walk)?;
    let mut first = Vec::new(alloc);
    for (offset, index) in &order[..order.len().min(limit)] {
        if let Some((place, fault)) = walk.faults.get(*index) {
            first.push(reason_of(alloc, text, walk, *offset, *place, *fault)?)?;
        }
    }
    let others = order.len().saturating_sub(first.len());
    Ok(Reasons { first, others })
}

/// A fault of the value at an offset.
fn reason_of(
    alloc: Global,
    text: &[u8],
    walk: &Walk<'_>,
    offset: usize,
    place: PlaceId,
    fault: Fault<'_>,
) -> Result<Reason, AllocError>
    requires small { length text.now ≤ 1048576 }
    ensures { IfOk result (λ reason. IsPosition text.now (min offset (length text.now)) reason.line reason.column) }
{
    let Position { line, column } = position_at(text, offset);
    let words = words_of(alloc, &walk.places, fault)?;
    Ok(Reason {
        line,
        column,
        pointer: Some(walk.places.pointer(alloc, place)?),
        words,
    })
}
