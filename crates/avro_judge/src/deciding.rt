//! Deciding by the tables.

ghost use Rattle.std.specs.Prelude.{◌≡◌, ◌≤◌, ◌*◌, ℕ, true, length, nat_lt, IfOk};
ghost use Rattle.std.specs.List.{list_all};
ghost use Rattle.indexmap.specs.IndexSet.{keys};
ghost use Rattle.avro_schema.specs.SeenSchema.{schema_nodes};
ghost use Rattle.avro_least.specs.Asked.{ArePairsShown, steps_at};
ghost use Rattle.avro_certificate.specs.Compatible.{AreCompatible};
ghost use Rattle.avro_judge.specs.inside.Judged.{IsCertificateOf, IsJudged};
ghost use Rattle.avro_compare.specs.Planned.{AreComparisons};
ghost use Rattle.avro_least.specs.Tables.{AreDataShown, AreLow, erring_of};
ghost use Rattle.avro_least.specs.Reached.{AreFollowed, IsSteppedTo, is_key};
ghost use Rattle.avro_least.specs.SeenLeast.{seen_all, table_of};

use crate::certifying::certificate_of;
use avro_certificate::Certificate;
use avro_least::{
    Least, Reached, Tables, build_error, count, least_data, least_errors, pair_entry, reach,
};
use avro_schema::{Datum, Memory, NodeId, Schema};
use std::alloc::Global;

/// What is decided about two schemas.
#[derive(Debug, Drop)]
pub(crate) enum Judged {
    /// No datum errs. This is the certificate.
    Compatible(Certificate),
    /// Each datum that errs has more nodes than the limit.
    Size,
    /// Each of the smallest data that err is deeper than the limit.
    Depth,
    /// A smallest datum that errs, within both limits.
    Erring(Datum),
}

/// What the entry of the roots says.
fn judge_roots(alloc: Global, tables: &Tables, deepest: u32) -> Result<Judged, Memory>
    requires range { tables.now.limit ≤ 16777216 }
    requires count { tables.now.count ≡ length (schema_nodes tables.now.reader.now) }
    requires one_each { length tables.now.table.now ≡ length (schema_nodes tables.now.writer.now) }
    requires has_data { AreDataShown (schema_nodes tables.now.writer.now) tables.now.limit (table_of tables.now.table.now) }
    requires low { AreLow (schema_nodes tables.now.writer.now) (schema_nodes tables.now.reader.now) tables.now.limit (table_of tables.now.table.now)
        (erring_of (length (schema_nodes tables.now.reader.now)) (table_of tables.now.table.now) (keys tables.now.reached.now.known) (seen_all tables.now.entries.now)) }
    requires shown { ArePairsShown (schema_nodes tables.now.writer.now) (schema_nodes tables.now.reader.now) tables.now.limit (table_of tables.now.table.now) (keys tables.now.reached.now.known) (seen_all tables.now.entries.now) }
    requires root { is_key (keys tables.now.reached.now.known) 0 ≡ true }
    requires below { list_all (λ k. nat_lt k (length (schema_nodes tables.now.writer.now) * length (schema_nodes tables.now.reader.now))) (keys tables.now.reached.now.known) ≡ true }
    requires closed { AreFollowed (steps_at (schema_nodes tables.now.writer.now) (schema_nodes tables.now.reader.now) (table_of tables.now.table.now)) (keys tables.now.reached.now.known) (length (keys tables.now.reached.now.known)) }
    requires stepped { (k : ℕ) → is_key (keys tables.now.reached.now.known) k ≡ true
        → IsSteppedTo (steps_at (schema_nodes tables.now.writer.now) (schema_nodes tables.now.reader.now) (table_of tables.now.table.now)) k }
    requires found { AreComparisons (schema_nodes tables.now.writer.now) (schema_nodes tables.now.reader.now) tables.now.reached.now.found.items }
    ensures { IfOk result (λ j. IsJudged (schema_nodes tables.now.writer.now) (schema_nodes tables.now.reader.now) tables.now.limit deepest j) }
{
    // Only the contracts of these calls matter here: the schemas are well formed.
    let _ = count(tables.writer);
    let _ = count(tables.reader);
    let limit = tables.limit;
    let root = NodeId(0);
    let known = &tables.reached.known;
    match pair_entry(
        tables.table,
        tables.count,
        known,
        tables.entries,
        root,
        root,
    ) {
        None => {
            let certificate = certificate_of(
                alloc,
                tables.writer,
                tables.reader,
                tables.table,
                tables.reached,
            )?;
            Ok(Judged::Compatible(certificate))
        }
        Some(least) => {
            if least.nodes > limit {
                return Ok(Judged::Size);
            }
            if least.depth > deepest {
                return Ok(Judged::Depth);
            }
            let datum = build_error(alloc, tables, root, root, least.nodes)?;
            Ok(Judged::Erring(datum))
        }
    }
}

/// Decides whether some datum of the writer's errs, and finds a smallest one that does. Also returns the
/// pairs of nodes that the roots lead to.
pub(crate) fn decide(
    alloc: Global,
    writer: &Schema,
    reader: &Schema,
    limit: u32,
    deepest: u32,
) -> Result<(Judged, Reached), Memory>
    requires range { limit ≤ 16777216 }
    ensures judged { IfOk result (λ r. IsJudged (schema_nodes writer.now) (schema_nodes reader.now) limit deepest r.0) }
    ensures found { IfOk result (λ r. AreComparisons (schema_nodes writer.now) (schema_nodes reader.now) r.1.found.items) }
{
    let table = least_data(alloc, writer, limit)?;
    let reached = reach(alloc, writer, reader, &table)?;
    let entries = least_errors(alloc, writer, reader, limit, &table, &reached)?;
    let tables = Tables {
        writer,
        reader,
        limit,
        table: &table,
        count: count(reader),
        reached: &reached,
        entries: &entries,
    };
    let judged = judge_roots(alloc, &tables, deepest)?;
    Ok((judged, reached))
}

/// The certificate of two compatible schemas. The smallest limits suffice, as it only matters whether a
/// datum errs.
#[tactic(auto, using(crate::proofs::Exclusive::not_above, crate::proofs::Exclusive::not_deep, crate::proofs::Exclusive::not_least))]
pub(crate) fn certify(
    alloc: Global,
    writer: &Schema,
    reader: &Schema,
) -> Result<Certificate, Memory>
    requires { AreCompatible (schema_nodes writer.now) (schema_nodes reader.now) }
    ensures { IfOk result (IsCertificateOf (schema_nodes writer.now) (schema_nodes reader.now)) }
{
    let (judged, _) = decide(alloc, writer, reader, 1, 1)?;
    match judged {
        Judged::Compatible(certificate) => Ok(certificate),
        Judged::Size => unreachable!(),
        Judged::Depth => unreachable!(),
        Judged::Erring(_) => unreachable!(),
    }
}
