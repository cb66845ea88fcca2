//! The pairs that were reached, and what the least data that fail at each of them are found from.

use crate::kept::Least;
use crate::pairs::reaching::Reached;
use avro_schema::Schema;

/// Two schemas with the pairs that were reached.
#[derive(Clone, Copy)]
pub(crate) struct Graph<'a> {
    /// The writer's schema.
    pub(crate) writer: &'a Schema,
    /// The reader's schema.
    pub(crate) reader: &'a Schema,
    /// The most nodes that a datum may have.
    pub(crate) limit: u32,
    /// The least data of each of the writer's nodes.
    pub(crate) table: &'a [Option<Least>],
    /// For each of the writer's nodes and each of its fields, the least data of all other fields.
    pub(crate) others: &'a [Vec<Option<Least>>],
    /// The pairs that were reached.
    pub(crate) reached: &'a Reached,
}
