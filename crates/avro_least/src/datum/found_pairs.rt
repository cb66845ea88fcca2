//! The comparison of a pair that a datum is built for, and a datum of one node.

ghost use Rattle.std.specs.Prelude.{◌≡◌, IfOk, IfSome};
ghost use Rattle.avro_schema.specs.Seen.{value_of};
ghost use Rattle.avro_schema.specs.SeenSchema.{schema_nodes};
ghost use Rattle.avro_compare.specs.Planned.{AreComparisons, IsComparison};
ghost use Rattle.avro_least.specs.BuiltErrors.{BuildsLone};

use crate::datum::made::{one_byte, symbol};
use crate::datum::tables::Tables;
use crate::pairs::reaching::number;
use avro_compare::{Comparison, Names, compare};
use avro_schema::{Datum, Memory, Node, NodeId};
use std::alloc::Global;

/// The comparison of a pair, if the pair was reached.
pub(crate) fn found_of<'a>(tables: &'a Tables, w: NodeId, r: NodeId) -> Option<&'a Comparison>
    requires { AreComparisons (schema_nodes tables.now.writer.now) (schema_nodes tables.now.reader.now) tables.now.reached.now.found.items }
    ensures { IfSome result (λ p. IsComparison (schema_nodes tables.now.writer.now) (schema_nodes tables.now.reader.now) p.now × (p.now.w ≡ w) × (p.now.r ≡ r)) }
{
    let key = number(tables.count, w, r);
    let index = tables.reached.known.get_index_of(&key)?;
    let pair = tables.reached.found.get(index)?;
    (pair.w == w && pair.r == r).then_some(pair)
}

/// Compares a pair that was not reached, without tables of names.
pub(crate) fn compare_alone(
    alloc: Global,
    tables: &Tables,
    w: NodeId,
    r: NodeId,
) -> Result<Comparison, Memory>
    ensures { IfOk result (λ p. IsComparison (schema_nodes tables.now.writer.now) (schema_nodes tables.now.reader.now) p × (p.w ≡ w) × (p.r ≡ r)) }
{
    let names = Names::none(alloc, tables.writer, tables.reader);
    compare(alloc, &names, w, r)
}

/// A datum of one node that fails, for a pair that asks for one: the first of the writer's symbols that the reader
/// lacks, or for other nodes the byte `ff`, which is not UTF-8.
pub(crate) fn lone(alloc: Global, tables: &Tables, pair: &Comparison) -> Result<Datum, Memory>
    requires { IsComparison (schema_nodes tables.now.writer.now) (schema_nodes tables.now.reader.now) pair.now }
    ensures { IfOk result (λ d. BuildsLone (schema_nodes tables.now.writer.now) (schema_nodes tables.now.reader.now) pair.now.w.0 pair.now.r.0 (value_of d)) }
{
    match tables.writer.get(pair.w) {
        Node::Enum(_) => Ok(symbol(pair.lacking.unwrap_or(0))),
        _ => one_byte(alloc, 255),
    }
}
