ghost use Rattle.std.specs.Prelude.{◌≡◌, true, false, map, IfOk};
ghost use Rattle.std.specs.Option.{IfSome, IfNone};
ghost use Rattle.std.specs.List.{AllByRecursion};
ghost use Rattle.avro_schema.specs.SeenSchema.{schema_nodes};
ghost use Rattle.avro_certificate.specs.Closed.{is_closed};
ghost use Rattle.avro_certificate.specs.Compatible.{AreCompatible};
ghost use Rattle.avro_certificate.specs.SeenCertificate.{dead_of, pairs_in};
ghost use Rattle.avro_history.specs.ConfirmedHistory.{are_closed, nodes_of_all};
ghost use Rattle.avro_history.specs.SeenHistory.{sets_of};

use crate::history::HistoryCert;
use avro_certificate::laws::closed_is_compatible;
use avro_judge::{Approved, Certificate, confirm};
use avro_schema::{Memory, Schema};
use std::alloc::Global;

/// Approves a reader's schema for several writers' schemas by a history, if and only if it has a
/// certificate for each writer, in order, and each is closed. No datum of any writer's then fails,
/// whoever made the history.
///
/// # Errors
///
/// Memory ran out.
pub fn confirm_history<'a>(
    alloc: Global,
    writers: &'a [Schema],
    reader: &'a Schema,
    history: &HistoryCert,
) -> Result<Option<Vec<Approved<'a>>>, Memory>
    ensures confirmed { IfOk result (λ o. IfSome o (λ _.
        are_closed (nodes_of_all writers.now) (schema_nodes reader.now) (sets_of history.now) ≡ true)) }
    ensures refused { IfOk result (λ o. IfNone o
        (are_closed (nodes_of_all writers.now) (schema_nodes reader.now) (sets_of history.now) ≡ false)) }
    // Then no datum of any writer's fails.
    ensures compatible { IfOk result (λ o. IfSome o (λ _.
        AllByRecursion (λ writer. AreCompatible writer (schema_nodes reader.now)) (nodes_of_all writers.now))) }
    // The approvals are of these schemas, in order.
    ensures of_these { IfOk result (λ o. IfSome o (λ v. v.items ≡ map (λ writer. (writer, reader.now)) writers.now)) }
{
    let certificates = history.certificates();
    if writers.len() != certificates.len() {
        return Ok(None);
    }
    let mut approvals = Vec::new(alloc);
    for (i, writer) in writers.iter().enumerate() {
        match confirm_one(alloc, writer, reader, &certificates[i])? {
            Some(approved) => approvals.push(approved)?,
            None => return Ok(None),
        }
    }
    Ok(Some(approvals))
}

/// Approves two schemas by a certificate, as `confirm` does. No datum of the writer's then fails.
fn confirm_one<'a>(
    alloc: Global,
    writer: &'a Schema,
    reader: &'a Schema,
    certificate: &Certificate,
) -> Result<Option<Approved<'a>>, Memory>
    ensures confirmed { IfOk result (λ o. IfSome o (λ _.
        is_closed (schema_nodes writer.now) (schema_nodes reader.now) (dead_of certificate.now) (pairs_in certificate.now) ≡ true)) }
    ensures refused { IfOk result (λ o. IfNone o
        (is_closed (schema_nodes writer.now) (schema_nodes reader.now) (dead_of certificate.now) (pairs_in certificate.now) ≡ false)) }
    ensures compatible { IfOk result (λ o. IfSome o (λ _. AreCompatible (schema_nodes writer.now) (schema_nodes reader.now))) }
    ensures of_these { IfOk result (λ o. IfSome o (λ a. a ≡ (writer.now, reader.now))) }
{
    closed_is_compatible();
    // Only the contract of this call matters here: the schema is well formed.
    let _ = reader.len();
    confirm(alloc, writer, reader, certificate)
}
