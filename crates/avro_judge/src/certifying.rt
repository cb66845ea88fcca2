//! The certificate of two compatible schemas, made from the tables of judging.

ghost use Rattle.std.specs.Prelude.{◌≡◌, ◌*◌, ◌++◌, ◌∷◌, ℕ, true, [], cond, length, is_none, nat_lt, IfOk, OnOk};
ghost use Rattle.std.specs.List.{list_all};
ghost use Rattle.indexmap.specs.IndexSet.{keys};
ghost use Rattle.avro_schema.specs.SeenSchema.{schema_nodes};
ghost use Rattle.avro_certificate.specs.CertificateText.{is_rising};
ghost use Rattle.avro_certificate.specs.SeenPair.{pairs_of};
ghost use Rattle.avro_least.specs.Asked.{steps_at};
ghost use Rattle.avro_judge.specs.inside.Evidence.{dead_below, pairs_at, AreCalm, AreOfKeys};
ghost use Rattle.avro_judge.specs.inside.Judged.{IsCertificateOf};
ghost use Rattle.avro_least.specs.Reached.{is_key, IsSteppedTo};
ghost use Rattle.avro_least.specs.SeenLeast.{table_of};

use avro_certificate::Certificate;
use avro_least::{Least, Reached, count, entry, readers, writers};
use avro_schema::{Memory, NodeId, Schema};
use avro_texts::Seeded;
use indexmap::IndexSet;
use std::alloc::Global;

/// Appends a node's id if the table has no entry for it.
fn add_dead(dead: &mut Vec<u32>, table: &[Option<Least>], id: u32) -> Result<(), Memory>
    ensures { OnOk result (dead.new.items ≡ dead.old.items ++ cond (is_none (table_of table.now id)) (id ∷ []) []) }
{
    if entry(table, NodeId(id)).is_some() {
        return Ok(());
    }
    dead.push(id)?;
    Ok(())
}

/// The ids of the nodes without an entry, in increasing order.
fn dead_ids(alloc: Global, table: &[Option<Least>], count: u32) -> Result<Vec<u32>, Memory>
    ensures { IfOk result (λ d. d.items ≡ dead_below (table_of table.now) count) }
{
    let mut dead = Vec::new(alloc);
    for id in 0..count {
        add_dead(&mut dead, table, id)?;
    }
    Ok(dead)
}

/// The keys in increasing order.
fn sorted_keys(alloc: Global, known: &IndexSet<u64, Seeded>) -> Result<Vec<u64>, Memory>
    ensures same { IfOk result (λ n. (k : ℕ) → is_key n.items k ≡ is_key (keys known.now) k) }
    ensures rising { IfOk result (λ n. is_rising nat_lt n.items ≡ true) }
{
    let mut numbers = known.as_slice().to_vec(alloc)?;
    numbers.sort_unstable();
    Ok(numbers)
}

/// The pairs that some numbers stand for.
fn pairs_of_numbers(
    alloc: Global,
    writer: &Schema,
    reader: &Schema,
    numbers: &[u64],
) -> Result<Vec<(u32, u32)>, Memory>
    requires { list_all (λ k. nat_lt k (length (schema_nodes writer.now) * length (schema_nodes reader.now))) numbers.now ≡ true }
    ensures { IfOk result (λ p. pairs_of p.items ≡ pairs_at (length (schema_nodes reader.now)) numbers.now) }
{
    let mut pairs = Vec::with_capacity(alloc, numbers.len())?;
    for number in numbers {
        let pair = (
            writers(writer, reader, *number).0,
            readers(reader, *number).0,
        );
        pairs.push(pair)?;
    }
    Ok(pairs)
}

/// The pairs that were reached, in increasing order.
fn reached_pairs(
    alloc: Global,
    writer: &Schema,
    reader: &Schema,
    reached: &Reached,
) -> Result<Vec<(u32, u32)>, Memory>
    requires { list_all (λ k. nat_lt k (length (schema_nodes writer.now) * length (schema_nodes reader.now))) (keys reached.now.known) ≡ true }
    ensures { IfOk result (λ p. AreOfKeys (length (schema_nodes reader.now)) (keys reached.now.known) (pairs_of p.items)) }
{
    let numbers = sorted_keys(alloc, &reached.known)?;
    pairs_of_numbers(alloc, writer, reader, &numbers)
}

/// The certificate, made from tables in which no datum errs.
pub(crate) fn certificate_of(
    alloc: Global,
    writer: &Schema,
    reader: &Schema,
    table: &[Option<Least>],
    reached: &Reached,
) -> Result<Certificate, Memory>
    requires one_each { length table.now ≡ length (schema_nodes writer.now) }
    requires calm { AreCalm (schema_nodes writer.now) (schema_nodes reader.now) (table_of table.now) (keys reached.now.known) }
    requires stepped { (k : ℕ) → is_key (keys reached.now.known) k ≡ true
        → IsSteppedTo (steps_at (schema_nodes writer.now) (schema_nodes reader.now) (table_of table.now)) k }
    ensures { IfOk result (IsCertificateOf (schema_nodes writer.now) (schema_nodes reader.now)) }
{
    // Only the contract of this call matters here: it bounds the number of nodes.
    let _ = count(reader);
    let dead = dead_ids(alloc, table, count(writer))?;
    if entry(table, NodeId(0)).is_none() {
        return Ok(Certificate::of(dead, Vec::new(alloc)));
    }
    let pairs = reached_pairs(alloc, writer, reader, reached)?;
    Ok(Certificate::of(dead, pairs))
}
