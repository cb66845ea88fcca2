ghost use Rattle.std.specs.Prelude.{◌≡◌};
ghost use Rattle.avro_schema.specs.Node.{node_at};
ghost use Rattle.avro_schema.specs.SeenSchema.{schema_nodes};
ghost use Rattle.avro_compare.specs.Pairs.{item_id, value_id, branch_id};

use avro_schema::{NodeId, Schema};

/// The node of the items of a node.
pub(crate) fn items_of(schema: &Schema, id: NodeId) -> NodeId
    ensures { result.0 ≡ item_id (node_at (schema_nodes schema.now) id.0) }
{
    if !schema.has(id) {
        return NodeId(0);
    }
    schema.node(id).items().unwrap_or(NodeId(0))
}

/// The node of the values of a node.
pub(crate) fn values_of(schema: &Schema, id: NodeId) -> NodeId
    ensures { result.0 ≡ value_id (node_at (schema_nodes schema.now) id.0) }
{
    if !schema.has(id) {
        return NodeId(0);
    }
    schema.node(id).values().unwrap_or(NodeId(0))
}

/// The node of a branch of a node.
pub(crate) fn branch_of(schema: &Schema, id: NodeId, branch: u32) -> NodeId
    ensures { result.0 ≡ branch_id (node_at (schema_nodes schema.now) id.0) branch }
{
    if !schema.has(id) {
        return NodeId(0);
    }
    schema.node(id).branch(branch).unwrap_or(NodeId(0))
}
