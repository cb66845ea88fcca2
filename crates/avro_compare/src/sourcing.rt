ghost use Rattle.std.specs.Prelude.{◌≡◌, List, Some, true, slice_get, unwrap_or, bytes_eq};
ghost use Rattle.std.specs.List.{flat_map};
ghost use Rattle.avro_schema.specs.Distinct.{are_distinct};
ghost use Rattle.avro_schema.specs.WellFormed.{field_names};
ghost use Rattle.avro_schema.specs.Node.{FieldNode, node_at, field_ids};
ghost use Rattle.avro_schema.specs.Seen.{seen_fields, field_of};
ghost use Rattle.avro_schema.specs.SeenSchema.{schema_nodes};
ghost use Rattle.avro_compare.specs.Source.{field_index, is_index, source_of, missing_field};
ghost use Rattle.avro_compare.specs.Resolve.{fields_at};
ghost use Rattle.avro_compare.specs.Pairs.{field_for};
ghost use Rattle.avro_compare.specs.inside.Listed.{AreListedSources};

use crate::comparison::At;
use avro_schema::{Field, NodeId, RecordNode, Schema};

/// The first index of a field of a name.
pub(crate) fn index_named(fields: &[Field], name: &str) -> Option<usize>
    ensures { result ≡ field_index (seen_fields fields.now) name.now }
{
    for index in 0..fields.len() {
        if fields[index].name.as_str() == name {
            return Some(index);
        }
    }
    None
}

/// The index of the field of a writer's record that a reader's field takes its value from: the one of
/// its name, else that of its first alias that names one (Avro 1.11, "Schema Resolution", "Aliases").
pub fn source(writer: &RecordNode, field: &Field) -> Option<usize>
    ensures { result ≡ source_of (seen_fields writer.now.fields.items) (field_of field.now) }
{
    source_among(&writer.fields, field)
}

/// The same among some fields.
pub fn source_among(fields: &[Field], f: &Field) -> Option<usize>
    ensures { result ≡ source_of (seen_fields fields.now) (field_of f.now) }
{
    if fields.len() == 0 {
        return None;
    }
    match index_named(fields, f.name.as_str()) {
        Some(index) => return Some(index),
        None => {}
    }
    for alias in &f.aliases {
        match index_named(fields, alias.as_str()) {
            Some(index) => return Some(index),
            None => {}
        }
    }
    None
}

/// The first reader's field without a source and a default.
pub fn missing(writer: &[Field], reader: &[Field]) -> Option<usize>
    ensures { result ≡ missing_field (seen_fields writer.now) (seen_fields reader.now) }
{
    missing_among(writer, reader, &[])
}

/// The same, by the sources of the reader's fields as far as they are kept.
pub(crate) fn missing_among(
    writer: &[Field],
    reader: &[Field],
    sources: &[Option<usize>],
) -> Option<usize>
    requires { AreListedSources (seen_fields writer.now) (seen_fields reader.now) sources.now }
    ensures { result ≡ missing_field (seen_fields writer.now) (seen_fields reader.now) }
{
    for index in 0..reader.len() {
        let field = &reader[index];
        if field.default.is_none() && source_at(writer, reader, sources, index, field).is_none() {
            return Some(index);
        }
    }
    None
}

/// The fields of a node, and none where it has none.
pub fn fields_of(schema: &Schema, id: NodeId) -> &[Field]
    ensures seen { seen_fields result.now ≡ fields_at (node_at (schema_nodes schema.now) id.0) }
    ensures distinct { are_distinct bytes_eq (flat_map field_names (seen_fields result.now)) ≡ true }
{
    schema.get(id).fields().unwrap_or(&[])
}

/// The node of the field at an index.
pub(crate) fn node_of_field(fields: &[Field], index: usize) -> NodeId
    ensures { result.0 ≡ unwrap_or (slice_get (field_ids (seen_fields fields.now)) index) 0 }
{
    if index < fields.len() {
        fields[index].node
    } else {
        NodeId(0)
    }
}

/// The source of the reader's field at an index, as it is kept or else by name.
pub(crate) fn source_kept(
    writes: &[Field],
    sources: &[Option<usize>],
    index: usize,
    f: &Field,
) -> Option<usize>
    ensures { (rs : List FieldNode) → AreListedSources (seen_fields writes.now) rs sources.now → slice_get rs index ≡ Some (field_of f.now)
        → result ≡ source_of (seen_fields writes.now) (field_of f.now) }
{
    if index < sources.len() {
        sources[index]
    } else {
        source_among(writes, f)
    }
}

/// The same for a reader's field that is at its index.
fn source_at(
    writer: &[Field],
    reader: &[Field],
    sources: &[Option<usize>],
    index: usize,
    f: &Field,
) -> Option<usize>
    requires sources { AreListedSources (seen_fields writer.now) (seen_fields reader.now) sources.now }
    requires there { slice_get (seen_fields reader.now) index ≡ Some (field_of f.now) }
    ensures { result ≡ source_of (seen_fields writer.now) (field_of f.now) }
{
    source_kept(writer, sources, index, f)
}

/// What a writer's field, by its index, is for.
pub fn part_for(writer: &[Field], reader: &[Field], field: usize) -> At
    ensures { result ≡ field_for (seen_fields writer.now) (seen_fields reader.now) field }
{
    let node = node_of_field(writer, field);
    for index in 0..reader.len() {
        let f = &reader[index];
        if takes(writer, f, field) {
            return At::Pair(node, f.node);
        }
    }
    At::Ignored
}

/// Whether a writer's field, by its index, is the source of a reader's field.
fn takes(writer: &[Field], f: &Field, field: usize) -> bool
    ensures { result ≡ is_index (source_of (seen_fields writer.now) (field_of f.now)) field }
{
    match source_among(writer, f) {
        Some(k) => k == field,
        None => false,
    }
}
