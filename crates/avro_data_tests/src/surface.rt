//! Public items by the paths that callers have for them, where no other test names them: a cursor over bytes, what
//! resolution refuses, and laws.

use avro_binary::laws::prefix;
use avro_binary::{Cursor, Keys, ReadError};
use avro_canonical::laws::{read_again, same_encodings};
use avro_resolve::{FaultKind, ResolveError, resolve, source};
use avro_schema::{Datum, Limits, Node, NodeId, Schema, fits};
use avro_schema_json::read_schema;
use std::alloc::Global;
use std::test::Fail;

/// An element that a cursor reads, or how it moves.
#[derive(Clone, Copy)]
enum Element {
    Boolean(bool),
    Int(i32),
    Long(i64),
    Bytes(&'static [u8]),
    Text(&'static str),
    /// Two bytes.
    Fixed(&'static [u8]),
    /// The index of one of two.
    Index(usize),
    /// A key after no other.
    Key(&'static str),
    /// The head of a block with this number of items, of none at the end.
    Block(u32),
    Enter,
    Leave,
    /// The bytes end here.
    End(usize),
}

/// The number of items of the next block.
fn items_of(cursor: &mut Cursor<'_>) -> Result<u32, ReadError> {
    match cursor.block()? {
        Some(block) => Ok(block.count()),
        None => Ok(0),
    }
}

/// Whether the next key is this.
fn is_key(alloc: Global, cursor: &mut Cursor<'_>, key: &str) -> Result<bool, ReadError> {
    let mut seen = Keys::new(alloc);
    Ok(cursor.key(&mut seen)? == key)
}

/// Whether the next element is this.
fn is_next(alloc: Global, cursor: &mut Cursor<'_>, element: Element) -> Result<bool, ReadError> {
    match element {
        Element::Boolean(value) => Ok(cursor.boolean()? == value),
        Element::Int(value) => Ok(cursor.int()? == value),
        Element::Long(value) => Ok(cursor.long()? == value),
        Element::Bytes(content) => Ok(cursor.bytes()? == content),
        Element::Text(text) => Ok(cursor.string()? == text),
        Element::Fixed(content) => Ok(cursor.fixed(2)? == content),
        Element::Index(index) => Ok(cursor.index(2)? == index),
        Element::Key(key) => is_key(alloc, cursor, key),
        Element::Block(items) => Ok(items_of(cursor)? == items),
        Element::Enter => Ok(cursor.enter().is_ok()),
        Element::Leave => {
            cursor.leave();
            Ok(true)
        }
        Element::End(place) => Ok(cursor.boolean() == Err(ReadError::EndOfInput { place })),
    }
}

/// The bytes of one element of each kind.
const BYTES: &[u8] = b"\x01\x01\x80\x01\x02\xff\x02aFG\x02\x04\x02k\x00";

/// The elements.
const ELEMENTS: [Element; 13] = [
    Element::Enter,
    Element::Boolean(true),
    Element::Int(-1),
    Element::Long(64),
    Element::Bytes(b"\xff"),
    Element::Text("a"),
    Element::Fixed(b"FG"),
    Element::Index(1),
    Element::Block(2),
    Element::Key("k"),
    Element::Block(0),
    Element::Leave,
    Element::End(15),
];

/// The number of the first element, if any, that is another one.
fn wrong_element(alloc: Global, elements: &[Element]) -> Result<Option<usize>, ReadError> {
    let mut cursor = Cursor::new(BYTES, &Limits::default());
    for (number, element) in elements.iter().enumerate() {
        if !is_next(alloc, &mut cursor, *element)? {
            return Ok(Some(number));
        }
    }
    Ok(None)
}

#[test]
fn a_cursor_reads_each_element(rt: HostRuntime) -> Result<(), Fail> {
    assert_eq!(rt; wrong_element(rt.alloc(), &ELEMENTS[..])?, None);
    Ok(())
}

/// A record of two ints.
const TWO: &str =
    r#"{"type":"record","name":"R","fields":[{"name":"a","type":"int"},{"name":"b","type":"int"}]}"#;

/// The source of a record's own second field.
fn own_source(schema: &Schema) -> Option<usize> {
    match schema.node(schema.root()) {
        Node::Record(record) => match record.fields.get(1) {
            Some(field) => source(record, field),
            None => None,
        },
        _ => None,
    }
}

/// Whether a schema has a last of three nodes, and one behind it.
fn ends(schema: &Schema) -> (bool, bool) {
    (schema.has(NodeId(2)), schema.has(NodeId(3)))
}

#[test]
fn a_field_has_its_source_and_a_schema_its_nodes(rt: HostRuntime) -> Result<(), Fail> {
    let schema = read_schema(rt.alloc(), TWO.as_bytes())?;
    assert_eq!(rt;
        (own_source(&schema), ends(&schema)),
        (Some(1), (true, false))
    );
    Ok(())
}

/// Whether nothing matches at the root.
fn is_no_match(answer: &Result<Datum, ResolveError>) -> bool {
    match answer {
        Err(ResolveError::Fault(fault)) => {
            fault.kind == FaultKind::NoMatch && fault.path.is_empty()
        }
        _ => false,
    }
}

/// Whether a datum of the writer's matches nothing of the reader's.
fn is_refused(
    alloc: Global,
    writer: &Schema,
    reader: &Schema,
    datum: &Datum,
) -> Result<bool, Fail> {
    if !fits(alloc, writer, writer.root(), datum)? {
        return Err(Fail::new("the datum is none of the writer's"));
    }
    Ok(is_no_match(&resolve(alloc, writer, reader, datum)))
}

/// Whether an int takes no long of this writer's.
fn is_refused_by_int(alloc: Global, writer: &Schema) -> Result<bool, Fail> {
    let reader = read_schema(alloc, b"\"int\"")?;
    is_refused(alloc, writer, &reader, &Datum::Long(0))
}

/// Whether an int takes no long.
fn is_long_refused(alloc: Global) -> Result<bool, Fail> {
    let writer = read_schema(alloc, b"\"long\"")?;
    is_refused_by_int(alloc, &writer)
}

#[test]
fn a_fault_of_resolution_is_taken_apart(rt: HostRuntime) -> Result<(), Fail> {
    assert!(rt; is_long_refused(rt.alloc())?);
    Ok(())
}

/// Calls the laws: what each of them says is its contract.
fn are_called() -> bool {
    prefix();
    same_encodings();
    read_again();
    true
}

#[test]
fn laws_are_functions(rt: HostRuntime) {
    assert!(rt; are_called());
}
