ghost use Rattle.std.specs.Prelude.{◌≡◌, ◌↔◌, IsTrue, List};
ghost use Rattle.avro_schema.specs.Node.{Node as SeenNode, node_at};
ghost use Rattle.avro_schema.specs.Seen.{node_of};
ghost use Rattle.avro_schema.specs.SeenSchema.{schema_nodes};
ghost use Rattle.std.specs.Option.{IfSome};
ghost use Rattle.std.specs.List.{list_any};
ghost use Rattle.avro_name.specs.Name.{same_name};
ghost use Rattle.avro_compare.specs.inside.NamedTypes.{TellsAlike};
ghost use Rattle.avro_compare.specs.inside.TypeNames.{AreTypeNames};
ghost use Rattle.avro_compare.specs.Match.{Matches, is_match, are_alike as are_named_alike, match_within as within};
ghost use Rattle.avro_compare.specs.Pairs.{IsOutcome};

use crate::type_names::{TypeNames, alike};
use avro_name::FullName;
use avro_schema::{Node, NodeId, Schema};

/// What two nodes say about their match.
#[derive(Clone, Copy, Debug, PartialEq, Eq)]
pub enum Outcome {
    /// The answer.
    Known(bool),
    /// They match where these parts do.
    Parts(NodeId, NodeId),
}

/// Whether a writer's node and a reader's match (Avro 1.11, "Schema Resolution"): whether data of the
/// one may resolve into the other, as far as the two nodes and the items or values under them say.
/// An id without a node is that of null.
pub fn matches(writer: &Schema, w: NodeId, reader: &Schema, r: NodeId) -> bool
    ensures test { result ≡ is_match (schema_nodes writer.now) (schema_nodes reader.now)
        (node_at (schema_nodes writer.now) w.0) (node_at (schema_nodes reader.now) r.0) }
    ensures relation { IsTrue result ↔ Matches (schema_nodes writer.now) (schema_nodes reader.now)
        (node_at (schema_nodes writer.now) w.0) (node_at (schema_nodes reader.now) r.0) }
{
    match_within(writer.len(), None, writer, w, reader, r)
}

/// The same, by the numbers of names, if they are there.
pub(crate) fn matches_by(
    names: Option<&TypeNames>,
    writer: &Schema,
    w: NodeId,
    reader: &Schema,
    r: NodeId,
) -> bool
    requires { IfSome names (λ n. AreTypeNames (schema_nodes writer.now) (schema_nodes reader.now) n.now) }
    ensures { result ≡ is_match (schema_nodes writer.now) (schema_nodes reader.now)
        (node_at (schema_nodes writer.now) w.0) (node_at (schema_nodes reader.now) r.0) }
{
    match_within(writer.len(), names, writer, w, reader, r)
}

/// The same, looking into arrays and maps at most this deep.
fn match_within(
    steps: usize,
    names: Option<&TypeNames>,
    writer: &Schema,
    w: NodeId,
    reader: &Schema,
    r: NodeId,
) -> bool
    requires { IfSome names (λ n. AreTypeNames (schema_nodes writer.now) (schema_nodes reader.now) n.now) }
    ensures { result ≡ within steps (schema_nodes writer.now) (schema_nodes reader.now)
        (node_at (schema_nodes writer.now) w.0) (node_at (schema_nodes reader.now) r.0) }
{
    let mut a = w;
    let mut b = r;
    for _done in 0..steps {
        match step(names, writer, a, reader, b) {
            Outcome::Known(answer) => return answer,
            Outcome::Parts(x, y) => {
                a = x;
                b = y;
            }
        }
    }
    match step(names, writer, a, reader, b) {
        Outcome::Known(answer) => answer,
        Outcome::Parts(_, _) => false,
    }
}

/// What the nodes of two ids say about their match.
fn step(
    names: Option<&TypeNames>,
    writer: &Schema,
    w: NodeId,
    reader: &Schema,
    r: NodeId,
) -> Outcome
    requires { IfSome names (λ n. AreTypeNames (schema_nodes writer.now) (schema_nodes reader.now) n.now) }
    ensures { IsOutcome (schema_nodes writer.now) (schema_nodes reader.now)
        (node_at (schema_nodes writer.now) w.0) (node_at (schema_nodes reader.now) r.0) result }
{
    step_to(alike(names, writer, w, reader, r), writer.get(w), reader, r)
}

/// What a node and that of an id say about their match. Whether they are named alike may be known.
fn step_to(known: Option<bool>, a: &Node, reader: &Schema, r: NodeId) -> Outcome
    requires { TellsAlike (node_of a.now) (node_at (schema_nodes reader.now) r.0) known }
    ensures { (writer : List SeenNode) → IsOutcome writer (schema_nodes reader.now)
        (node_of a.now) (node_at (schema_nodes reader.now) r.0) result }
{
    step_of(known, a, reader.get(r))
}

/// What two nodes say about their match. Whether they are named alike may be known.
fn step_of(known: Option<bool>, a: &Node, b: &Node) -> Outcome
    requires { TellsAlike (node_of a.now) (node_of b.now) known }
    ensures { (writer reader : List SeenNode) → IsOutcome writer reader (node_of a.now) (node_of b.now) result }
{
    match a {
        Node::Null => Outcome::Known(matches!(b, Node::Null | Node::Union(_))),
        Node::Boolean => Outcome::Known(matches!(b, Node::Boolean | Node::Union(_))),
        Node::Int => Outcome::Known(matches!(b, Node::Int | Node::Long | Node::Union(_))),
        Node::Long => Outcome::Known(matches!(b, Node::Long | Node::Union(_))),
        Node::Bytes => Outcome::Known(matches!(b, Node::Bytes | Node::Str | Node::Union(_))),
        Node::Str => Outcome::Known(matches!(b, Node::Bytes | Node::Str | Node::Union(_))),
        Node::Array(x) => match b {
            Node::Array(y) => Outcome::Parts(*x, *y),
            _ => Outcome::Known(matches!(b, Node::Union(_))),
        },
        Node::Map(x) => match b {
            Node::Map(y) => Outcome::Parts(*x, *y),
            _ => Outcome::Known(matches!(b, Node::Union(_))),
        },
        Node::Union(_) => Outcome::Known(true),
        Node::Record(x) => match b {
            Node::Record(y) => Outcome::Known(are_alike(known, &x.name, &y.name, &y.aliases)),
            _ => Outcome::Known(matches!(b, Node::Union(_))),
        },
        Node::Enum(x) => match b {
            Node::Enum(y) => Outcome::Known(are_alike(known, &x.name, &y.name, &y.aliases)),
            _ => Outcome::Known(matches!(b, Node::Union(_))),
        },
        Node::Fixed(x) => match b {
            Node::Fixed(y) => {
                Outcome::Known(are_alike(known, &x.name, &y.name, &y.aliases) && x.size == y.size)
            }
            _ => Outcome::Known(matches!(b, Node::Union(_))),
        },
    }
}

/// Whether two types are named alike: their simple names are equal, or the writer's fullname is an
/// alias of the reader's. It may be known.
fn are_alike(
    known: Option<bool>,
    writer: &FullName,
    reader: &FullName,
    aliases: &[FullName],
) -> bool
    requires { IfSome known (λ answer. answer ≡ are_named_alike writer.now reader.now aliases.now) }
    ensures { result ≡ are_named_alike writer.now reader.now aliases.now }
{
    match known {
        Some(answer) => answer,
        None => writer.simple() == reader.simple() || is_among(writer, aliases),
    }
}

/// Whether a name is among some names.
fn is_among(name: &FullName, names: &[FullName]) -> bool
    ensures { result ≡ list_any (same_name name.now) names.now }
{
    for other in names {
        if name == other {
            return true;
        }
    }
    false
}
