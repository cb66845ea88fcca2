ghost use Rattle.std.specs.Prelude.{◌≡◌};
ghost use Rattle.avro_schema.specs.Seen.{node_of};
ghost use Rattle.avro_compare.specs.inside.NamedTypes.{named_type};

use avro_name::FullName;
use avro_schema::Node;
use std::marker::Model;

/// A record, an enum or a fixed, by what it is matched by.
#[derive(Debug, Drop)]
pub struct NamedType<'s> {
    /// The number of its kind: that of records, of enums, or of fixeds of one length.
    pub kind: u64,
    /// Its name.
    pub name: &'s FullName,
    /// Its aliases.
    pub aliases: &'s [FullName],
}

impl<'s> Model for NamedType<'s> {
    ghost use Rattle.avro_compare.specs.inside.NamedTypes.{NamedType};

    ghost Value = { NamedType };

    ghost view = { λ t. record { kind = t.kind; name = t.name.now; aliases = t.aliases.now } };
}

/// What a node is matched by, where it is a record, an enum or a fixed.
pub(crate) fn named_type(node: &Node) -> Option<NamedType<'_>>
    ensures { result ≡ named_type (node_of node.now) }
{
    match node {
        Node::Record(record) => Some(NamedType {
            kind: 0,
            name: &record.name,
            aliases: &record.aliases,
        }),
        Node::Enum(declared) => Some(NamedType {
            kind: 1,
            name: &declared.name,
            aliases: &declared.aliases,
        }),
        Node::Fixed(fixed) => Some(NamedType {
            kind: u64::from(fixed.size) + 2,
            name: &fixed.name,
            aliases: &fixed.aliases,
        }),
        _ => None,
    }
}
