ghost use Rattle.std.specs.Prelude.{◌≡◌, ◌++◌, ◌∷◌, OnOk, string_bytes};
ghost use Rattle.avro_schema.specs.Seen.{seen_fields, ids_of};
ghost use Rattle.avro_schema.specs.SeenSchema.{schema_nodes};
ghost use Rattle.avro_canonical.specs.inside.Pending.{pending_of, pendings_of, of_node, before_branch, next_branch as branches_next, before_field, following_fields, IsStep};

use crate::marks::{is_marked, mark};
use crate::opening::{open_branches, open_fields, open_node};
use crate::part::Part;
use crate::spelling::{put, put_name};
use avro_schema::{Field, Memory, NodeId, Schema};
use std::alloc::Global;

/// Writes the start of a node's form, or just its name if the node was already written.
fn write_node<'a>(
    alloc: Global,
    schema: &'a Schema,
    id: NodeId,
    out: &mut String,
    parts: &mut Vec<Part<'a>>,
    marks: &mut [bool],
) -> Result<(), Memory>
    ensures { OnOk result (IsStep (schema_nodes schema.now) marks.old (of_node id.0 ∷ pendings_of parts.old.items) (string_bytes out.old)
        marks.new (pendings_of parts.new.items) (string_bytes out.new)) }
{
    let node = schema.get(id);
    match node.name() {
        None => open_node(alloc, out, parts, node),
        Some(name) => {
            if is_marked(marks, id) {
                return put_name(out, name);
            }
            mark(marks, id);
            open_node(alloc, out, parts, node)
        }
    }
}

/// Writes a comma and pushes the next branch, or writes the end of the union.
fn next_branch<'a>(
    out: &mut String,
    parts: &mut Vec<Part<'a>>,
    branches: &'a [NodeId],
) -> Result<(), Memory>
    ensures text { OnOk result (string_bytes out.new ≡ string_bytes out.old ++ before_branch (ids_of branches.now)) }
    ensures left { OnOk result (pendings_of parts.new.items ≡ branches_next (ids_of branches.now) ++ pendings_of parts.old.items) }
{
    if branches.is_empty() {
        return put(out, "]");
    }
    put(out, ",")?;
    open_branches(parts, branches)
}

/// Writes a comma and the start of the next field, or the end of the record.
fn next_field<'a>(
    out: &mut String,
    parts: &mut Vec<Part<'a>>,
    fields: &'a [Field],
) -> Result<(), Memory>
    ensures text { OnOk result (string_bytes out.new ≡ string_bytes out.old ++ before_field (seen_fields fields.now)) }
    ensures left { OnOk result (pendings_of parts.new.items ≡ following_fields (seen_fields fields.now) ++ pendings_of parts.old.items) }
{
    if fields.is_empty() {
        return put(out, "]}");
    }
    put(out, ",")?;
    open_fields(out, parts, fields)
}

/// Writes the start of a part, and pushes the rest.
pub(crate) fn write_part<'a>(
    alloc: Global,
    schema: &'a Schema,
    part: Part<'a>,
    out: &mut String,
    parts: &mut Vec<Part<'a>>,
    marks: &mut [bool],
) -> Result<(), Memory>
    ensures { OnOk result (IsStep (schema_nodes schema.now) marks.old (pending_of part.entry ∷ pendings_of parts.old.items) (string_bytes out.old)
        marks.new (pendings_of parts.new.items) (string_bytes out.new)) }
{
    match part {
        Part::Node(id) => write_node(alloc, schema, id, out, parts, marks),
        Part::Branches(branches) => next_branch(out, parts, branches),
        Part::Fields(fields) => next_field(out, parts, fields),
        Part::End => put(out, "}"),
    }
}
