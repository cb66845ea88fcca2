//! The pairs that a pair of nodes leads to, and whether the pair fails by itself.

ghost use Rattle.std.specs.Prelude.{◌≡◌, ◌++◌, [], ◌∷◌, IfOk, None, OnOk, Some, slice_get};
ghost use Rattle.avro_schema.specs.Node.{node_at};
ghost use Rattle.avro_schema.specs.Seen.{node_of, ids_of, seen_fields, field_of};
ghost use Rattle.avro_schema.specs.SeenSchema.{schema_nodes};
ghost use Rattle.avro_schema.specs.declared.schema.NodeId.{NodeId};
ghost use Rattle.avro_compare.specs.Children.{has_fault_of_kind, has_local_fault};
ghost use Rattle.avro_compare.specs.Leads.{branch_leads, field_lead, field_leads, leads_at, leads_inside, leads_of};
ghost use Rattle.avro_compare.specs.Planned.{AreInside, AreSourcesFrom, IsComparison};
ghost use Rattle.avro_compare.specs.Resolve.{fields_at};
ghost use Rattle.avro_compare.specs.Source.{source_of};
ghost use Rattle.avro_compare.specs.declared.comparison.Target.TheVariants.{To};
ghost use Rattle.avro_compare.specs.inside.Led.{led_by};

use crate::comparison::{Comparison, Lead, Step, Target};
use crate::entries::{first_entry, rest_entries};
use crate::names::Names;
use crate::sourcing::node_of_field;
use avro_schema::{Field, Memory, Node, NodeId};
use std::alloc::Global;

/// Whether a pair of nodes fails by itself, whatever becomes of the pairs that it leads to.
pub fn has_fault(names: &Names, pair: &Comparison) -> bool
    requires { IsComparison (schema_nodes names.now.0) (schema_nodes names.now.1) pair.now }
    ensures { result ≡ has_local_fault (schema_nodes names.now.0) (schema_nodes names.now.1)
        (node_at (schema_nodes names.now.0) pair.now.w.0) (node_at (schema_nodes names.now.1) pair.now.r.0) }
{
    let n = names.writer().get(pair.w);
    let q = names.reader().get(pair.r);
    has_fault_of_nodes(names, n, q, pair)
}

/// The same, given the two nodes.
fn has_fault_of_nodes(names: &Names, n: &Node, q: &Node, pair: &Comparison) -> bool
    requires pair { IsComparison (schema_nodes names.now.0) (schema_nodes names.now.1) pair.now }
    requires from { node_of n.now ≡ node_at (schema_nodes names.now.0) pair.now.w.0 }
    requires to { node_of q.now ≡ node_at (schema_nodes names.now.1) pair.now.r.0 }
    ensures { result ≡ has_local_fault (schema_nodes names.now.0) (schema_nodes names.now.1) (node_of n.now) (node_of q.now) }
{
    match n {
        Node::Union(_) => false,
        _ => match pair.target {
            Target::Fault(_) => true,
            Target::To(Some(_), _) => false,
            Target::To(None, _) => has_fault_inside(n, q, pair),
        },
    }
}

/// Whether two nodes that match, and are no unions, fail by themselves.
fn has_fault_inside(n: &Node, q: &Node, pair: &Comparison) -> bool
    requires { AreInside (node_of n.now) (node_of q.now) pair.now }
    ensures { result ≡ has_fault_of_kind (node_of n.now) (node_of q.now) }
{
    match n {
        Node::Bytes => matches!(q, Node::Str),
        Node::Record(_) => match q {
            Node::Record(_) => pair.missing.is_some(),
            _ => false,
        },
        Node::Enum(_) => match q {
            Node::Enum(_) => pair.lacks_symbol(),
            _ => false,
        },
        _ => false,
    }
}

/// The pairs that a pair of nodes leads to, each with its step.
///
/// # Errors
///
/// Memory ran out.
pub fn leads(alloc: Global, names: &Names, pair: &Comparison) -> Result<Vec<Lead>, Memory>
    requires { IsComparison (schema_nodes names.now.0) (schema_nodes names.now.1) pair.now }
    ensures { IfOk result (λ found. found.items ≡ leads_at (schema_nodes names.now.0) (schema_nodes names.now.1) pair.now.w.0 pair.now.r.0) }
{
    let mut found = Vec::new(alloc);
    add_leads(names, pair, &mut found)?;
    Ok(found)
}

/// Adds the pairs that a pair of nodes leads to, each with its step.
///
/// # Errors
///
/// Memory ran out.
pub fn add_leads(names: &Names, pair: &Comparison, found: &mut Vec<Lead>) -> Result<(), Memory>
    requires { IsComparison (schema_nodes names.now.0) (schema_nodes names.now.1) pair.now }
    ensures { OnOk result (found.new.items ≡ found.old.items ++ leads_at (schema_nodes names.now.0) (schema_nodes names.now.1) pair.now.w.0 pair.now.r.0) }
{
    let n = names.writer().get(pair.w);
    let q = names.reader().get(pair.r);
    add_of_nodes(names, n, q, pair, found)
}

/// The same, given the two nodes.
fn add_of_nodes(
    names: &Names,
    n: &Node,
    q: &Node,
    pair: &Comparison,
    found: &mut Vec<Lead>,
) -> Result<(), Memory>
    requires pair { IsComparison (schema_nodes names.now.0) (schema_nodes names.now.1) pair.now }
    requires from { node_of n.now ≡ node_at (schema_nodes names.now.0) pair.now.w.0 }
    requires to { node_of q.now ≡ node_at (schema_nodes names.now.1) pair.now.r.0 }
    ensures { OnOk result (found.new.items ≡ found.old.items ++ leads_of (schema_nodes names.now.0) (schema_nodes names.now.1) pair.now.w.0 pair.now.r.0 (node_of n.now) (node_of q.now)) }
{
    match n {
        Node::Union(ids) => add_branches(ids, pair.r, found),
        _ => match q {
            Node::Union(_) => add_choice(pair.w, pair.target, found),
            _ => add_inside(names, n, q, pair, found),
        },
    }
}

/// The branches of a writer's union.
fn add_branches(ids: &[NodeId], r: NodeId, found: &mut Vec<Lead>) -> Result<(), Memory>
    ensures { OnOk result (found.new.items ≡ found.old.items ++ branch_leads 0 r.0 (ids_of ids.now)) }
{
    for index in 0..ids.len() {
        found.push(Lead {
            step: Step::Branch(index),
            w: ids[index],
            r,
        })?;
    }
    Ok(())
}

/// The branch of a reader's union that matches, if there is one.
fn add_choice(w: NodeId, target: Target, found: &mut Vec<Lead>) -> Result<(), Memory>
    ensures { OnOk result (found.new.items ≡ found.old.items ++ led_by w.0 target) }
{
    match target {
        Target::To(Some(branch), node) => add_one(Step::Choice(branch as usize), w, node, found),
        Target::To(None, _) => Ok(()),
        Target::Fault(_) => Ok(()),
    }
}

/// One step.
fn add_one(step: Step, w: NodeId, r: NodeId, found: &mut Vec<Lead>) -> Result<(), Memory>
    ensures { OnOk result (found.new.items ≡ found.old.items ++ record { step = step; w = w; r = r } ∷ []) }
{
    found.push(Lead { step, w, r })?;
    Ok(())
}

/// The parts of two nodes that are no unions.
fn add_inside(
    names: &Names,
    n: &Node,
    q: &Node,
    pair: &Comparison,
    found: &mut Vec<Lead>,
) -> Result<(), Memory>
    requires pair { IsComparison (schema_nodes names.now.0) (schema_nodes names.now.1) pair.now }
    requires from { node_of n.now ≡ node_at (schema_nodes names.now.0) pair.now.w.0 }
    requires to { node_of q.now ≡ node_at (schema_nodes names.now.1) pair.now.r.0 }
    ensures { OnOk result (found.new.items ≡ found.old.items ++ leads_inside (node_of n.now) (node_of q.now)) }
{
    match n {
        Node::Array(a) => match q {
            Node::Array(b) => add_one(Step::Items, *a, *b, found),
            _ => Ok(()),
        },
        Node::Map(a) => match q {
            Node::Map(b) => add_one(Step::Values, *a, *b, found),
            _ => Ok(()),
        },
        Node::Record(a) => match q {
            Node::Record(b) => add_fields(names, &a.fields, &b.fields, pair, found),
            _ => Ok(()),
        },
        _ => Ok(()),
    }
}

/// The reader's fields that have a source.
fn add_fields(
    names: &Names,
    fields: &[Field],
    theirs: &[Field],
    pair: &Comparison,
    found: &mut Vec<Lead>,
) -> Result<(), Memory>
    requires pair { IsComparison (schema_nodes names.now.0) (schema_nodes names.now.1) pair.now }
    requires from { seen_fields fields.now ≡ fields_at (node_at (schema_nodes names.now.0) pair.now.w.0) }
    requires to { seen_fields theirs.now ≡ fields_at (node_at (schema_nodes names.now.1) pair.now.r.0) }
    ensures { OnOk result (found.new.items ≡ found.old.items ++ field_leads 0 (seen_fields fields.now) (seen_fields theirs.now)) }
{
    if fields.len() == 0 {
        return Ok(());
    }
    let mut left: &[(usize, usize)] = &pair.sources;
    for index in 0..theirs.len() {
        let field = &theirs[index];
        let source = source_by(names, pair, left, index, field);
        left = rest_entries(left, index);
        add_field(found, fields, source, field, index)?;
    }
    Ok(())
}

/// The source of the reader's field at an index, by what is kept of the pair from that index on, or else by name.
fn source_by(
    names: &Names,
    pair: &Comparison,
    left: &[(usize, usize)],
    index: usize,
    field: &Field,
) -> Option<usize>
    requires left { (q : NodeId) → pair.now.target ≡ To None q → AreSourcesFrom index (fields_at (node_at (schema_nodes names.now.0) pair.now.w.0))
        (fields_at (node_at (schema_nodes names.now.1) pair.now.r.0)) left.now }
    requires there { slice_get (fields_at (node_at (schema_nodes names.now.1) pair.now.r.0)) index ≡ Some (field_of field.now) }
    ensures { result ≡ source_of (fields_at (node_at (schema_nodes names.now.0) pair.now.w.0)) (field_of field.now) }
{
    match pair.target {
        Target::To(None, _) => first_entry(left, index),
        _ => names.source_at(pair.w, pair.r, index, field),
    }
}

/// Adds a reader's field, if it has a source.
fn add_field(
    found: &mut Vec<Lead>,
    fields: &[Field],
    source: Option<usize>,
    field: &Field,
    index: usize,
) -> Result<(), Memory>
    requires { source ≡ source_of (seen_fields fields.now) (field_of field.now) }
    ensures { OnOk result (found.new.items ≡ found.old.items ++ field_lead index (seen_fields fields.now) (field_of field.now) (source_of (seen_fields fields.now) (field_of field.now))) }
{
    match source {
        None => {}
        Some(source) => found.push(Lead {
            step: Step::Field(source, index),
            w: node_of_field(fields, source),
            r: field.node,
        })?,
    }
    Ok(())
}
