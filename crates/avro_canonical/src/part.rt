ghost use Rattle.std.specs.Prelude.{◌≡◌, ◌∷◌, [], OnOk, MatchOption};
ghost use Rattle.avro_schema.specs.Node.{FieldNode};
ghost use Rattle.avro_schema.specs.Seen.{seen_fields, ids_of};

use avro_schema::{Field, Memory, NodeId};

/// A part of a canonical form that is still to be written.
#[derive(Clone, Copy)]
pub(crate) enum Part<'a> {
    /// A node.
    Node(NodeId),
    /// The remaining branches of a union, after an earlier one, and its end.
    Branches(&'a [NodeId]),
    /// The remaining fields of a record, after an earlier one, and its end.
    Fields(&'a [Field]),
    /// The end of an array, a map or a field.
    End,
}
