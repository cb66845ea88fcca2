//! The tables from which a least datum that fails is built.

use crate::kept::Least;
use crate::pairs::reaching::Reached;
use avro_schema::Schema;

/// Two schemas, with the tables of the least data and of the least data that fail.
#[derive(Clone, Copy)]
pub struct Tables<'a> {
    /// The writer's schema.
    pub writer: &'a Schema,
    /// The reader's schema.
    pub reader: &'a Schema,
    /// The most nodes that a datum may have.
    pub limit: u32,
    /// The least data of each of the writer's nodes.
    pub table: &'a [Option<Least>],
    /// The number of the reader's nodes.
    pub count: u32,
    /// The pairs that were reached.
    pub reached: &'a Reached,
    /// The least data that fail at each of them.
    pub entries: &'a [Option<Least>],
}
