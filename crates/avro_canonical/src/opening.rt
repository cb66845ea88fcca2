ghost use Rattle.std.specs.Prelude.{◌≡◌, ◌++◌, ◌∷◌, [], OnOk, string_bytes, codes};
ghost use Rattle.avro_schema.specs.Seen.{node_of, seen_fields, field_of, ids_of};
ghost use Rattle.avro_canonical.specs.inside.Pending.{pendings_of, of_node, branches, fields as fields_left, end, head_text, opening_of, opening_of_first, parts_of, first_field, first_branch};

use crate::part::Part;
use crate::parts::put_part;
use crate::spelling::{put, put_head, put_number, put_quoted, put_symbols};
use avro_name::FullName;
use avro_schema::{Field, Memory, Node, NodeId};
use std::alloc::Global;

/// Writes the start of the first of some fields, and pushes its node and the other fields.
pub(crate) fn open_fields<'a>(
    out: &mut String,
    parts: &mut Vec<Part<'a>>,
    fields: &'a [Field],
) -> Result<(), Memory>
    ensures text { OnOk result (string_bytes out.new ≡ string_bytes out.old ++ opening_of_first (seen_fields fields.now)) }
    ensures left { OnOk result (pendings_of parts.new.items ≡ first_field (seen_fields fields.now) ++ pendings_of parts.old.items) }
{
    match fields.split_first() {
        None => put_part(parts, Part::Fields(fields)),
        Some((first, others)) => {
            put(out, "{\"name\":")?;
            put_quoted(out, first.name.as_str())?;
            put(out, ",\"type\":")?;
            put_part(parts, Part::Fields(others))?;
            put_part(parts, Part::End)?;
            put_part(parts, Part::Node(first.node))
        }
    }
}

/// Pushes the first of some branches and the others.
pub(crate) fn open_branches<'a>(
    parts: &mut Vec<Part<'a>>,
    branches: &'a [NodeId],
) -> Result<(), Memory>
    ensures { OnOk result (pendings_of parts.new.items ≡ first_branch (ids_of branches.now) ++ pendings_of parts.old.items) }
{
    match branches.split_first() {
        None => put_part(parts, Part::Branches(branches)),
        Some((first, others)) => {
            put_part(parts, Part::Branches(others))?;
            put_part(parts, Part::Node(*first))
        }
    }
}

/// Pushes the node of the items or values, and the end of the array or map.
fn open_part<'a>(parts: &mut Vec<Part<'a>>, id: NodeId) -> Result<(), Memory>
    ensures { OnOk result (pendings_of parts.new.items ≡ of_node id.0 ∷ end ∷ pendings_of parts.old.items) }
{
    put_part(parts, Part::End)?;
    put_part(parts, Part::Node(id))
}

/// Writes the start of a record's definition, and pushes its fields.
fn open_record<'a>(
    out: &mut String,
    parts: &mut Vec<Part<'a>>,
    name: &FullName,
    fields: &'a [Field],
) -> Result<(), Memory>
    ensures text { OnOk result (string_bytes out.new
        ≡ string_bytes out.old ++ (head_text name.now (codes "record") ++ codes ",\"fields\":[" ++ opening_of_first (seen_fields fields.now))) }
    ensures left { OnOk result (pendings_of parts.new.items ≡ first_field (seen_fields fields.now) ++ pendings_of parts.old.items) }
{
    put_head(out, name, "record")?;
    put(out, ",\"fields\":[")?;
    open_fields(out, parts, fields)
}

/// Writes the start of a node's form, and pushes its parts.
pub(crate) fn open_node<'a>(
    alloc: Global,
    out: &mut String,
    parts: &mut Vec<Part<'a>>,
    node: &'a Node,
) -> Result<(), Memory>
    ensures text { OnOk result (string_bytes out.new ≡ string_bytes out.old ++ opening_of (node_of node.now)) }
    ensures left { OnOk result (pendings_of parts.new.items ≡ parts_of (node_of node.now) ++ pendings_of parts.old.items) }
{
    match node {
        Node::Null => put(out, "\"null\""),
        Node::Boolean => put(out, "\"boolean\""),
        Node::Int => put(out, "\"int\""),
        Node::Long => put(out, "\"long\""),
        Node::Bytes => put(out, "\"bytes\""),
        Node::Str => put(out, "\"string\""),
        Node::Array(items) => {
            put(out, "{\"type\":\"array\",\"items\":")?;
            open_part(parts, *items)
        }
        Node::Map(values) => {
            put(out, "{\"type\":\"map\",\"values\":")?;
            open_part(parts, *values)
        }
        Node::Union(branches) => {
            put(out, "[")?;
            open_branches(parts, branches)
        }
        Node::Record(record) => open_record(out, parts, &record.name, &record.fields),
        Node::Enum(enumeration) => {
            put_head(out, &enumeration.name, "enum")?;
            put(out, ",\"symbols\":[")?;
            put_symbols(out, &enumeration.symbols)?;
            put(out, "]}")
        }
        Node::Fixed(fixed) => {
            put_head(out, &fixed.name, "fixed")?;
            put(out, ",\"size\":")?;
            put_number(alloc, out, fixed.size)?;
            put(out, "}")
        }
    }
}
