//! What builders build.

use avro_resolve::{Build, Nothing, Tree, read_own};
use avro_schema::{Datum, Limits, Schema};
use avro_schema_json::read_schema;
use std::alloc::{AllocError, Global};
use std::test::Fail;

/// The bytes of a map of a union, and one more.
const MAP: &[u8] = b"\x04\x02a\x02\x80\x01\x02b\x00\x00\xff";

/// What is built of them, and the length.
fn map_text(alloc: Global, schema: &Schema) -> Result<String, Fail> {
    let (datum, len) = read_own(alloc, schema, MAP, &Limits::default(), &mut Tree)?;
    Ok(format!(in alloc; "{datum:?} {len}")?)
}

/// Whether this is built of them, and the length where nothing is built.
fn map_built(alloc: Global, wanted: &str) -> Result<(bool, usize), Fail> {
    let schema = read_schema(alloc, b"{\"type\":\"map\",\"values\":[\"null\",\"long\"]}")?;
    let (_, len) = read_own(alloc, &schema, MAP, &Limits::default(), &mut Nothing)?;
    Ok((map_text(alloc, &schema)?.as_str() == wanted, len))
}

#[test]
fn what_is_read_is_built(rt: HostRuntime) -> Result<(), Fail> {
    let wanted = r#"Map([("a", Union(1, Long(64))), ("b", Union(0, Null))]) 10"#;
    assert_eq!(rt; map_built(rt.alloc(), wanted)?, (true, 10));
    Ok(())
}

/// A call of a builder for a datum without parts.
#[derive(Clone, Copy)]
enum Leaf {
    Null,
    Boolean(bool),
    Int(i32),
    Long(i64),
    Bytes(&'static [u8]),
    Text(&'static str),
    Fixed(&'static [u8]),
    Symbol(u32),
    Default(&'static str),
}

/// What is built for a default, a text.
fn default_built(alloc: Global, text: &str) -> Result<Datum, AllocError> {
    let text = Datum::Str(String::from_str(alloc, text)?);
    Tree.default(alloc, &text)
}

/// What the call builds.
fn leaf_built(alloc: Global, leaf: Leaf) -> Result<Datum, AllocError> {
    match leaf {
        Leaf::Null => Tree.null(alloc),
        Leaf::Boolean(value) => Tree.boolean(alloc, value),
        Leaf::Int(value) => Tree.int(alloc, value),
        Leaf::Long(value) => Tree.long(alloc, value),
        Leaf::Bytes(bytes) => Tree.bytes(alloc, bytes),
        Leaf::Text(text) => Tree.string(alloc, text),
        Leaf::Fixed(bytes) => Tree.fixed(alloc, bytes),
        Leaf::Symbol(number) => Tree.symbol(alloc, number),
        Leaf::Default(text) => default_built(alloc, text),
    }
}

/// Calls, and what they build.
const LEAVES: [(Leaf, &str); 9] = [
    (Leaf::Null, "Null"),
    (Leaf::Boolean(true), "Bool(true)"),
    (Leaf::Int(-3), "Int(-3)"),
    (Leaf::Long(1_099_511_627_776), "Long(1099511627776)"),
    (Leaf::Bytes(b"\x00\xff"), "Bytes([0, 255])"),
    (Leaf::Text("foo"), r#"Str("foo")"#),
    (Leaf::Fixed(b"ab"), "Fixed([97, 98])"),
    (Leaf::Symbol(2), "Enum(2)"),
    (Leaf::Default("foo"), r#"Str("foo")"#),
];

/// Whether a datum is this.
fn is_datum(alloc: Global, datum: &Datum, wanted: &str) -> Result<bool, AllocError> {
    Ok(format!(in alloc; "{datum:?}")?.as_str() == wanted)
}

/// What is to be built by the first call, if any, that builds something else.
fn wrong_leaf(
    alloc: Global,
    rows: &[(Leaf, &'static str)],
) -> Result<Option<&'static str>, AllocError> {
    for (leaf, wanted) in rows {
        let datum = leaf_built(alloc, *leaf)?;
        if !is_datum(alloc, &datum, wanted)? {
            return Ok(Some(wanted));
        }
    }
    Ok(None)
}

#[test]
fn a_tree_is_built_of_leaves(rt: HostRuntime) -> Result<(), AllocError> {
    assert_eq!(rt; wrong_leaf(rt.alloc(), &LEAVES[..])?, None);
    Ok(())
}

/// A datum that is built of others.
#[derive(Clone, Copy)]
enum Whole {
    Branch,
    Fields,
    Array,
    Map,
}

/// A record of an int and a null.
fn fields_built(alloc: Global) -> Result<Datum, AllocError> {
    let mut fields = Vec::new(alloc);
    fields.push(Datum::Int(1))?;
    fields.push(Datum::Null)?;
    Tree.fields(alloc, fields)
}

/// An array of two ints.
fn array_built(alloc: Global) -> Result<Datum, AllocError> {
    let mut items = Tree.items(alloc)?;
    for value in 1..3 {
        Tree.item(alloc, &mut items, Datum::Int(value))?;
    }
    Tree.array(alloc, items)
}

/// A map of a null.
fn map_of_null(alloc: Global) -> Result<Datum, AllocError> {
    let mut entries = Tree.entries(alloc)?;
    Tree.entry(alloc, &mut entries, "a", Datum::Null)?;
    Tree.map(alloc, entries)
}

/// What is built.
fn whole_built(alloc: Global, whole: Whole) -> Result<Datum, AllocError> {
    match whole {
        Whole::Branch => Tree.branch(alloc, 1, Datum::Int(7)),
        Whole::Fields => fields_built(alloc),
        Whole::Array => array_built(alloc),
        Whole::Map => map_of_null(alloc),
    }
}

/// Data with parts, and what is built of the parts.
const WHOLES: [(Whole, &str); 4] = [
    (Whole::Branch, "Union(1, Int(7))"),
    (Whole::Fields, "Record([Int(1), Null])"),
    (Whole::Array, "Array([Int(1), Int(2)])"),
    (Whole::Map, r#"Map([("a", Null)])"#),
];

/// What is to be built of the parts of the first row, if any, of which something else is built.
fn wrong_whole(
    alloc: Global,
    rows: &[(Whole, &'static str)],
) -> Result<Option<&'static str>, AllocError> {
    for (whole, wanted) in rows {
        let datum = whole_built(alloc, *whole)?;
        if !is_datum(alloc, &datum, wanted)? {
            return Ok(Some(wanted));
        }
    }
    Ok(None)
}

#[test]
fn a_tree_is_built_of_parts(rt: HostRuntime) -> Result<(), AllocError> {
    assert_eq!(rt; wrong_whole(rt.alloc(), &WHOLES[..])?, None);
    Ok(())
}
