//! Which records are made for the reader from the encodings of the writer's fields, as these stand.

ghost use Rattle.std.specs.Prelude.{◌≡◌, ℕ, true, IfOk, IfSome, List, Some};
ghost use Rattle.avro_schema.specs.Node.{Node as SeenNode, node_at};
ghost use Rattle.avro_schema.specs.Seen.{field_of, node_of, seen_fields};
ghost use Rattle.avro_schema.specs.SeenSchema.{schema_nodes};
ghost use Rattle.avro_compare.specs.Planned.{AreComparisons, AreSources, IsComparison};
ghost use Rattle.avro_compare.specs.Resolve.{fields_at};
ghost use Rattle.avro_resolve.specs.Copied.{AreCopied, AreFlags, CopiedFrom, IsCopied, IsVerbatim, is_as_written};

use crate::plan::known::narrow;
use crate::plan::plan_ref::{PlanRef, index_at};
use avro_compare::{Comparison, Target, fields_of, first_entry, rest_entries};
use avro_schema::{Field, Memory, Node, NodeId, Schema};
use std::alloc::Global;

/// Of each pair that is kept whether it is verbatim, by the indices of the pairs of its parts.
pub(crate) fn flags_of<'a>(
    alloc: Global,
    writer: &'a Schema,
    reader: &'a Schema,
    pairs: &'a [Comparison],
    parts: &'a [Vec<u32>],
) -> Result<Vec<bool>, Memory>
    requires { AreComparisons (schema_nodes writer.now) (schema_nodes reader.now) pairs.now }
    ensures { IfOk result (λ flags. AreFlags (schema_nodes writer.now) (schema_nodes reader.now) pairs.now flags.items) }
{
    let plan = PlanRef::new(writer, reader, pairs, parts, &[], 0, None);
    let mut flags = Vec::new(alloc);
    for index in 0..pairs.len() {
        let pair = &pairs[index];
        flags.push(is_verbatim(&plan, plan.parts(narrow(index)), pair))?;
    }
    Ok(flags)
}

/// Whether a pair leads to the reader's record itself, no field is missing, and each field is copied or has its default.
fn is_verbatim(plan: &PlanRef<'_>, below: &[u32], pair: &Comparison) -> bool
    requires { IsComparison (schema_nodes plan.now.0) (schema_nodes plan.now.1) pair.now }
    ensures { result ≡ true → IsVerbatim (schema_nodes plan.now.0) (schema_nodes plan.now.1) pair.now.w pair.now.r
        × AreSources (fields_at (node_at (schema_nodes plan.now.0) pair.now.w.0)) (fields_at (node_at (schema_nodes plan.now.1) pair.now.r.0)) pair.now.sources.items }
{
    match pair.target {
        Target::To(None, _) => match pair.missing {
            None => {
                let writes = fields_of(plan.writer(), pair.w);
                let reads = fields_of(plan.reader(), pair.r);
                if !have_leaves(plan.writer(), writes) {
                    return false;
                }
                are_copied(plan, below, writes, reads, &pair.sources)
            }
            Some(_) => false,
        },
        Target::To(Some(_), _) => false,
        Target::Fault(_) => false,
    }
}

/// Whether no field has parts: reading passes the encodings of all of them.
fn have_leaves(writer: &Schema, writes: &[Field]) -> bool {
    for field in writes {
        match writer.get(field.node) {
            Node::Array(_) | Node::Map(_) | Node::Union(_) | Node::Record(_) => return false,
            _ => {}
        }
    }
    true
}

/// Whether each reader's field that has a source is copied from it.
fn are_copied(
    plan: &PlanRef<'_>,
    below: &[u32],
    writes: &[Field],
    reads: &[Field],
    sources: &[(usize, usize)],
) -> bool
    requires { AreSources (seen_fields writes.now) (seen_fields reads.now) sources.now }
    ensures { result ≡ true → AreCopied (schema_nodes plan.now.0) (schema_nodes plan.now.1) (seen_fields writes.now) (seen_fields reads.now) }
{
    let mut left = sources;
    for index in 0..reads.len() {
        let f = &reads[index];
        let source = first_entry(left, index);
        left = rest_entries(left, index);
        if !is_field_copied(plan, below, writes, source, f) {
            return false;
        }
    }
    true
}

/// Whether a reader's field is copied from its source, where it has one.
fn is_field_copied(
    plan: &PlanRef<'_>,
    below: &[u32],
    writes: &[Field],
    source: Option<usize>,
    f: &Field,
) -> bool
    ensures { (k : ℕ) → source ≡ Some k → result ≡ true → CopiedFrom (schema_nodes plan.now.0) (schema_nodes plan.now.1) (seen_fields writes.now) (field_of f.now) k }
{
    match source {
        Some(field) => {
            if field >= writes.len() {
                return false;
            }
            let from = &writes[field];
            is_copied(plan, index_at(below, field), from.node, f.node)
        }
        None => true,
    }
}

/// Whether the encoding of a datum of a writer's leaf is also that of what it is for the reader's.
fn is_copied(plan: &PlanRef<'_>, index: u32, w: NodeId, r: NodeId) -> bool
    ensures { result ≡ true → IsCopied (schema_nodes plan.now.0) (schema_nodes plan.now.1) (node_at (schema_nodes plan.now.0) w.0) (node_at (schema_nodes plan.now.1) r.0) }
{
    match plan.target(index, w, r) {
        Target::To(None, q) => {
            if q != r {
                return false;
            }
            are_as_written(plan.writer().get(w), plan.reader().get(r))
        }
        Target::To(Some(_), _) => false,
        Target::Fault(_) => false,
    }
}

/// Whether the plain encoding of a writer's leaf is also that of what it is for the reader's.
fn are_as_written(n: &Node, m: &Node) -> bool
    ensures { result ≡ is_as_written (node_of n.now) (node_of m.now) }
{
    match n {
        Node::Null => matches!(m, Node::Null),
        Node::Boolean => matches!(m, Node::Boolean),
        Node::Int => matches!(m, Node::Int | Node::Long),
        Node::Long => matches!(m, Node::Long),
        Node::Bytes => matches!(m, Node::Bytes),
        Node::Str => matches!(m, Node::Str | Node::Bytes),
        Node::Fixed(_) => matches!(m, Node::Fixed(_)),
        Node::Array(_) => false,
        Node::Map(_) => false,
        Node::Union(_) => false,
        Node::Record(_) => false,
        Node::Enum(_) => false,
    }
}

/// Whether the flag at an index is set.
#[inline(always)]
pub(crate) fn is_set(flags: &[bool], index: u32) -> bool {
    match flags.get(index as usize) {
        Some(flag) => *flag,
        None => false,
    }
}

/// The sources of the reader's fields, where the pair at an index is of these two nodes and is verbatim.
#[inline(always)]
pub(crate) fn verbatim_kept<'p>(
    pairs: &'p [Comparison],
    flags: &[bool],
    index: u32,
    w: NodeId,
    r: NodeId,
) -> Option<&'p [(usize, usize)]>
    ensures { (writer reader : List SeenNode) → AreFlags writer reader pairs.now flags.now
        → IfSome result (λ sources. IsVerbatim writer reader w r × AreSources (fields_at (node_at writer w.0)) (fields_at (node_at reader r.0)) sources.now) }
{
    let at = index as usize;
    if at >= flags.len() || at >= pairs.len() {
        return None;
    }
    let pair = &pairs[at];
    if flags[at] && pair.w == w && pair.r == r {
        Some(&pair.sources)
    } else {
        None
    }
}
