//! A datum that is given to a maker part by part, as reading gives what bytes begin with.

ghost use Rattle.std.specs.Prelude.{◌≡◌, true, IfOk, OnOk};
ghost use Rattle.avro_schema.specs.Fits.{fits};
ghost use Rattle.avro_schema.specs.Node.{Node, node_at};
ghost use Rattle.avro_schema.specs.SeenSchema.{schema_nodes};
ghost use Rattle.avro_schema.specs.Seen.{value_of, values_of as values_seen, entries_of as entries_seen};
ghost use Rattle.avro_schema.specs.Value.{Value};

use crate::plan::parts::{branch_of, items_of, values_of};
use crate::plan::plan_pair::node_of_field;
use avro_binary::{Leaf, Make};
use avro_compare::fields_of;
use avro_schema::{Datum, NodeId, Schema};
use std::alloc::{AllocError, Global};

/// What a maker makes of a datum of a node. It fails only where memory runs out.
#[cycle(giving)]
#[inline(always)]
pub fn give<M: Make>(
    alloc: Global,
    schema: &Schema,
    id: NodeId,
    datum: &Datum,
    maker: &mut M,
    at: M::At,
) -> Result<M::Out, AllocError>
    ensures kept { OnOk result (M.keeps maker.old maker.new) }
    ensures stands { fits (schema_nodes schema.now) (node_at (schema_nodes schema.now) id.0) (value_of datum.now) ≡ true
        → IfOk result (λ out. M.stands_for maker.new (schema_nodes schema.now) (node_at (schema_nodes schema.now) id.0) at out (value_of datum.now)) }
{
    match datum {
        Datum::Null => maker.leaf(alloc, at, Leaf::Null),
        Datum::Bool(value) => maker.leaf(alloc, at, Leaf::Boolean(*value)),
        Datum::Int(value) => maker.leaf(alloc, at, Leaf::Int(*value)),
        Datum::Long(value) => maker.leaf(alloc, at, Leaf::Long(*value)),
        Datum::Bytes(content) => maker.leaf(alloc, at, Leaf::Bytes(content)),
        Datum::Str(text) => maker.leaf(alloc, at, Leaf::Text(text)),
        Datum::Array(items) => give_items(alloc, schema, items_of(schema, id), items, maker, at),
        Datum::Map(entries) => {
            give_entries(alloc, schema, values_of(schema, id), entries, maker, at)
        }
        Datum::Union(branch, value) => give_branch(alloc, schema, id, *branch, value, maker, at),
        Datum::Record(values) => give_fields(alloc, schema, id, values, maker, at),
        Datum::Enum(symbol) => maker.leaf(alloc, at, Leaf::Symbol(*symbol)),
        Datum::Fixed(content) => maker.leaf(alloc, at, Leaf::Fixed(content)),
    }
}

/// What a maker makes of a union, from the value of its branch.
#[cycle(giving)]
#[inline(never)]
fn give_branch<M: Make>(
    alloc: Global,
    schema: &Schema,
    id: NodeId,
    branch: u32,
    value: &Datum,
    maker: &mut M,
    at: M::At,
) -> Result<M::Out, AllocError>
    ensures kept { OnOk result (M.keeps maker.old maker.new) }
    ensures stands { fits (schema_nodes schema.now) (node_at (schema_nodes schema.now) id.0) (Value.union branch (value_of value.now)) ≡ true
        → IfOk result (λ out. M.stands_for maker.new (schema_nodes schema.now) (node_at (schema_nodes schema.now) id.0) at out (Value.union branch (value_of value.now))) }
{
    // Its contract says that the schema is well formed.
    let _root = schema.root();
    let node = branch_of(schema, id, branch);
    let part = maker.branch_at(at, branch, node);
    let made = give(alloc, schema, node, value, maker, part)?;
    maker.branch(alloc, branch, made)
}

/// What a maker makes of an array, from its items.
#[cycle(giving)]
#[inline(never)]
fn give_items<M: Make>(
    alloc: Global,
    schema: &Schema,
    node: NodeId,
    items: &[Datum],
    maker: &mut M,
    at: M::At,
) -> Result<M::Out, AllocError>
    ensures kept { OnOk result (M.keeps maker.old maker.new) }
    ensures stands { fits (schema_nodes schema.now) (Node.array node.0) (Value.array (values_seen items.now)) ≡ true
        → IfOk result (λ out. M.stands_for maker.new (schema_nodes schema.now) (Node.array node.0) at out (Value.array (values_seen items.now))) }
{
    let mut made = maker.items(alloc, at)?;
    for index in 0..items.len() {
        let part = maker.item_at(&made, node);
        let value = give(alloc, schema, node, &items[index], maker, part)?;
        maker.item(alloc, &mut made, value)?;
    }
    maker.array(alloc, made)
}

/// What a maker makes of a map, from its entries.
#[cycle(giving)]
#[inline(never)]
fn give_entries<M: Make>(
    alloc: Global,
    schema: &Schema,
    node: NodeId,
    entries: &[(String, Datum)],
    maker: &mut M,
    at: M::At,
) -> Result<M::Out, AllocError>
    ensures kept { OnOk result (M.keeps maker.old maker.new) }
    ensures stands { fits (schema_nodes schema.now) (Node.map_of node.0) (Value.map_of (entries_seen entries.now)) ≡ true
        → IfOk result (λ out. M.stands_for maker.new (schema_nodes schema.now) (Node.map_of node.0) at out (Value.map_of (entries_seen entries.now))) }
{
    let mut made = maker.entries(alloc, at)?;
    for index in 0..entries.len() {
        let entry = &entries[index];
        let part = maker.entry_at(&made, node);
        let value = give(alloc, schema, node, &entry.1, maker, part)?;
        maker.entry(alloc, &mut made, entry.0.as_str(), value)?;
    }
    maker.map(alloc, made)
}

/// What a maker makes of a record, from the values of its fields.
#[cycle(giving)]
#[inline(never)]
fn give_fields<M: Make>(
    alloc: Global,
    schema: &Schema,
    id: NodeId,
    values: &[Datum],
    maker: &mut M,
    at: M::At,
) -> Result<M::Out, AllocError>
    ensures kept { OnOk result (M.keeps maker.old maker.new) }
    ensures stands { fits (schema_nodes schema.now) (node_at (schema_nodes schema.now) id.0) (Value.record_of (values_seen values.now)) ≡ true
        → IfOk result (λ out. M.stands_for maker.new (schema_nodes schema.now) (node_at (schema_nodes schema.now) id.0) at out (Value.record_of (values_seen values.now))) }
{
    let fields = fields_of(schema, id);
    let mut made = maker.fields(alloc, at)?;
    for index in 0..values.len() {
        let node = node_of_field(fields, index);
        let part = maker.field_at(&made, node);
        let value = give(alloc, schema, node, &values[index], maker, part)?;
        maker.field(alloc, &mut made, value)?;
    }
    maker.record(alloc, made)
}
