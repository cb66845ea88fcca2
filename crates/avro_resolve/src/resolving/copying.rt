//! Making a record for the reader from the encodings of the writer's fields, as these stand.

ghost use Rattle.std.specs.Prelude.{◌≡◌, [], true, IfOk, IfSome, List, OnOk, None, map};
ghost use Rattle.avro_name.specs.Name.{Name};
ghost use Rattle.avro_schema.specs.Fits.{fields_fit, fits};
ghost use Rattle.avro_schema.specs.Node.{FieldNode, Node as SeenNode, field_ids, node_at};
ghost use Rattle.avro_schema.specs.Seen.{field_of, node_of, seen_fields, values_from};
ghost use Rattle.avro_schema.specs.SeenSchema.{schema_nodes};
ghost use Rattle.avro_schema.specs.Value.{Value};
ghost use Rattle.avro_binary.specs.Pieces.{ArePieces, piece};
ghost use Rattle.avro_compare.specs.Fields.{IsField};
ghost use Rattle.avro_compare.specs.Planned.{AreSources};
ghost use Rattle.avro_compare.specs.Resolve.{Sourced, field_value};
ghost use Rattle.avro_compare.specs.Source.{source_of};
ghost use Rattle.avro_resolve.specs.Copied.{ArePlain, IsAsSpelled, begins_with_number};
ghost use Rattle.avro_binary.specs.Places.{AreTold};
ghost use Rattle.avro_binary.specs.declared.place.Place.{Place as SeenPlace};
ghost use Rattle.avro_resolve.specs.inside.Guided.{AreFitting, AreLeaves, StandsAs, of_node};

use crate::plan::plan_ref::PlanRef;
use crate::resolving::guided::{Made, Part};
use crate::resolving::slots::make_default;
use avro_binary::{Leaf, Make, Pieces, Place, piece_of};
use avro_compare::{At, fields_of, first_entry, rest_entries};
use avro_schema::{Field, Node, NodeId, Schema};
use avro_zigzag::starts_shortest;
use std::alloc::{AllocError, Global};

/// What is made of a record whose pair is verbatim, or `None` where a field is not spelled as it is written.
#[inline(always)]
pub(crate) fn copy_record<M: Make<At = Place>>(
    alloc: Global,
    maker: &mut M,
    plan: &PlanRef<'_>,
    part: Part,
    bytes: &[u8],
    ends: Vec<usize>,
) -> Result<Option<Made<M::Out>>, AllocError>
    ensures kept { OnOk result (M.keeps maker.old maker.new) }
    ensures stands { (nodes : List SeenNode) (name : Name) (aliases : List Name) (fs : List FieldNode) (vs : List Value) → AreTold M.branch_at M.item_at M.entry_at M.field_at → ArePieces vs bytes.now ends.items
        → fields_fit nodes (field_ids fs) (values_from vs) ≡ true → IfOk result (λ o. IfSome o (λ made.
        StandsAs (M.stands_for maker.new) (schema_nodes plan.now.0) (schema_nodes plan.now.1) nodes (SeenNode.record_of name aliases fs) part.at made (Value.record_of (values_from vs)))) }
{
    match part.at {
        At::Ignored => Ok(None),
        At::Pair(w, r) => match plan.verbatim(plan.index_of(part), w, r) {
            Some(sources) => {
                let reader = plan.reader();
                // Its contract says that the schema is well formed.
                let _root = reader.root();
                let reads = fields_of(reader, r);
                let pieces = Pieces { bytes, ends: &ends };
                let start = maker.fields(alloc, Place::of(r))?;
                match copy_fields(alloc, maker, reader, reads, sources, pieces, start)? {
                    Some(fields) => {
                        let out = maker.record(alloc, fields)?;
                        maker.keep_ends(ends);
                        Ok(Some(Made::Good(out)))
                    }
                    None => Ok(None),
                }
            }
            None => Ok(None),
        },
    }
}

/// What is made of the fields of a reader's record, in its order: each is the encoding of its source, or its default.
#[inline(always)]
fn copy_fields<M: Make<At = Place>>(
    alloc: Global,
    maker: &mut M,
    reader: &Schema,
    reads: &[Field],
    sources: &[(usize, usize)],
    pieces: Pieces<'_>,
    start: M::Fields,
) -> Result<Option<M::Fields>, AllocError>
    ensures kept { OnOk result (M.keeps maker.old maker.new) }
    ensures stands { (ws : List FieldNode) (found : Sourced) (at : SeenPlace) → AreTold M.branch_at M.item_at M.entry_at M.field_at → AreSources ws (seen_fields reads.now) sources.now
        → ArePlain (schema_nodes reader.now) ws (seen_fields reads.now) found pieces.entry.bytes.now pieces.entry.ends.now → AreLeaves (schema_nodes reader.now) ws (seen_fields reads.now)
        → AreFitting (schema_nodes reader.now) (seen_fields reads.now) (field_value ws found) → M.fields_stand_for maker.old (schema_nodes reader.now) (seen_fields reads.now) at start []
        → IfOk result (λ o. IfSome o (λ fields. M.fields_stand_for maker.new (schema_nodes reader.now) (seen_fields reads.now) at fields (map (field_value ws found) (seen_fields reads.now)))) }
{
    let mut fields = start;
    let mut left = sources;
    for index in 0..reads.len() {
        let f = &reads[index];
        let source = first_entry(left, index);
        left = rest_entries(left, index);
        match copy_field(alloc, maker, reader, source, f, pieces)? {
            Some(value) => maker.field(alloc, &mut fields, value)?,
            None => return Ok(None),
        }
    }
    Ok(Some(fields))
}

/// What is made of a reader's field, by its source.
#[inline(always)]
fn copy_field<M: Make<At = Place>>(
    alloc: Global,
    maker: &mut M,
    reader: &Schema,
    source: Option<usize>,
    f: &Field,
    pieces: Pieces<'_>,
) -> Result<Option<M::Out>, AllocError>
    ensures kept { OnOk result (M.keeps maker.old maker.new) }
    ensures stands { (ws rs : List FieldNode) (found : Sourced) → source ≡ source_of ws (field_of f.now) → IsField (field_of f.now) rs → ArePlain (schema_nodes reader.now) ws rs found pieces.entry.bytes.now pieces.entry.ends.now
        → AreLeaves (schema_nodes reader.now) ws rs → fits (schema_nodes reader.now) (node_at (schema_nodes reader.now) f.now.node.0) (field_value ws found (field_of f.now)) ≡ true
        → IfOk result (λ o. IfSome o (λ out. of_node (M.stands_for maker.new) (schema_nodes reader.now) f.now.node.0 out (field_value ws found (field_of f.now)))) }
{
    match source {
        Some(field) => match piece_of(pieces, field) {
            Some(content) => {
                if !is_as_written(reader, f.node, content) {
                    return Ok(None);
                }
                maker.copied(alloc, Place::of(f.node), content)
            }
            None => Ok(None),
        },
        None => {
            let out = make_default(alloc, maker, reader, f)?;
            Ok(Some(out))
        }
    }
}

/// Whether the encoding of a leaf is spelled as it is written.
#[inline(always)]
fn is_as_written(reader: &Schema, r: NodeId, content: &[u8]) -> bool
    ensures { result ≡ true → IsAsSpelled (node_at (schema_nodes reader.now) r.0) content.now }
{
    if !has_number(reader.get(r)) {
        return true;
    }
    starts_shortest(content)
}

/// Whether the encodings of a leaf begin with a number.
#[inline(always)]
fn has_number(n: &Node) -> bool
    ensures { result ≡ begins_with_number (node_of n.now) }
{
    match n {
        Node::Null => false,
        Node::Boolean => false,
        Node::Fixed(_) => false,
        _ => true,
    }
}
