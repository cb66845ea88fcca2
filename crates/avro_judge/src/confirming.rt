ghost use Rattle.std.specs.Prelude.{◌≡◌, true, false, IfOk};
ghost use Rattle.std.specs.Option.{IfSome, IfNone};
ghost use Rattle.avro_schema.specs.SeenSchema.{schema_nodes};
ghost use Rattle.avro_certificate.specs.Closed.{is_closed};
ghost use Rattle.avro_certificate.specs.SeenCertificate.{dead_of, pairs_in};

use crate::approval::Approved;
use avro_certificate::{Certificate, find_closed};
use avro_resolve::PlanTable;
use avro_schema::{Memory, Schema};
use std::alloc::Global;

/// Approves two schemas by a certificate, if and only if each number in it is that of a node of its
/// schema and the two sets are closed. No datum of the writer's then fails, whoever made the
/// certificate.
///
/// The approval reads by a plan of the certificate's pairs.
///
/// # Errors
///
/// Memory ran out.
pub fn confirm<'a>(
    alloc: Global,
    writer: &'a Schema,
    reader: &'a Schema,
    certificate: &Certificate,
) -> Result<Option<Approved<'a>>, Memory>
    ensures confirmed { IfOk result (λ o. IfSome o (λ _.
        is_closed (schema_nodes writer.now) (schema_nodes reader.now) (dead_of certificate.now) (pairs_in certificate.now) ≡ true)) }
    ensures refused { IfOk result (λ o. IfNone o
        (is_closed (schema_nodes writer.now) (schema_nodes reader.now) (dead_of certificate.now) (pairs_in certificate.now) ≡ false)) }
    ensures of_these { IfOk result (λ o. IfSome o (λ a. a ≡ (writer.now, reader.now))) }
{
    // Only the contract of this call matters here: the schema is well formed.
    let _ = reader.len();
    match find_closed(alloc, writer, reader, certificate)? {
        Some(found) => {
            let table = PlanTable::of(alloc, writer, reader, found)?;
            Ok(Some(Approved::by(writer, reader, table, None)))
        }
        None => Ok(None),
    }
}
