ghost use Rattle.std.specs.Prelude.{◌≡◌, ◌↔◌, ◌<◌, ◌≤◌, ◌*◌, length, IfOk};
ghost use Rattle.avro_schema.specs.Seen.{value_of};
ghost use Rattle.avro_schema.specs.SeenSchema.{schema_nodes};
ghost use Rattle.avro_schema.specs.Value.{Value, size, depth};
ghost use Rattle.avro_compare.specs.Fault.{ResolutionFault};
ghost use Rattle.avro_compare.specs.Seen.{fault_of};
ghost use Rattle.avro_judge.specs.Answered.{IsApproved, IfApproved, IfRefuted, IsUndecided};
ghost use Rattle.avro_certificate.specs.Compatible.{AreCompatible, ErrsWith, ErrsOnlyAbove, ErrsLeastDeep};

use crate::approval::Approved;
use crate::deciding::{Judged, decide};
use crate::faults::fault_of_datum;
use crate::limits::JudgeLimits;
use crate::verdict::{Cause, Refutation, Verdict};
use avro_resolve::PlanTable;
use avro_schema::{Memory, Schema};
use std::alloc::Global;

/// Whether every datum of the writer's schema, of any size, resolves into the reader's. Up to the pair limit, the two
/// schemas are approved if and only if they are compatible. Otherwise the result is a smallest datum that fails, within the
/// size and depth limits, or the limit that no such datum is within. Among the smallest data it is the shallowest, then the
/// one of the first branch, symbol or field, as tests show.
///
/// # Errors
///
/// Memory ran out.
#[tactic(auto, using(crate::proofs::Exclusive::not_above, crate::proofs::Exclusive::not_deep, crate::proofs::Exclusive::not_both, crate::proofs::Exclusive::least_not_above, crate::proofs::Exclusive::least_not_deep))]
pub fn judge<'a>(
    alloc: Global,
    writer: &'a Schema,
    reader: &'a Schema,
    limits: &JudgeLimits,
) -> Result<Verdict<'a>, Memory>
    // The cause is the pair limit if and only if the product of the two node counts exceeds it.
    ensures pairs { IfOk result (λ v. IsUndecided v Cause.Pairs
        ↔ (limits.now.pairs < length (schema_nodes writer.now) * length (schema_nodes reader.now))) }

    // An approval is of these two schemas, and no datum of the writer's, of any size, fails.
    ensures of_these { IfOk result (λ v. IfApproved v (λ a. a ≡ (writer.now, reader.now))) }
    ensures sound { IfOk result (λ v. IfApproved v (λ _. AreCompatible (schema_nodes writer.now) (schema_nodes reader.now))) }
    ensures complete { IfOk result (λ v. length (schema_nodes writer.now) * length (schema_nodes reader.now) ≤ limits.now.pairs
        → AreCompatible (schema_nodes writer.now) (schema_nodes reader.now) → IsApproved v) }

    // The datum of a refutation is one of the writer's, and resolving it gives the stated fault.
    ensures errs { IfOk result (λ v. IfRefuted v (λ r.
        ErrsWith (schema_nodes writer.now) (schema_nodes reader.now) (value_of r.datum) (fault_of r.fault))) }
    // No datum that fails has fewer nodes.
    ensures least { IfOk result (λ v. IfRefuted v (λ r. (w : Value) (fault : ResolutionFault)
        → ErrsWith (schema_nodes writer.now) (schema_nodes reader.now) w fault → size (value_of r.datum) ≤ size w)) }
    ensures within { IfOk result (λ v. IfRefuted v (λ r.
        (size (value_of r.datum) ≤ limits.now.size) × (depth (value_of r.datum) ≤ limits.now.limits.depth))) }

    // The other two causes, which occur only up to the pair limit.
    ensures size { IfOk result (λ v. (IsUndecided v Cause.Size
        ↔ ((length (schema_nodes writer.now) * length (schema_nodes reader.now) ≤ limits.now.pairs)
        × ErrsOnlyAbove (schema_nodes writer.now) (schema_nodes reader.now) limits.now.size))) }
    ensures depth { IfOk result (λ v. (IsUndecided v Cause.Depth
        ↔ ((length (schema_nodes writer.now) * length (schema_nodes reader.now) ≤ limits.now.pairs)
        × ErrsLeastDeep (schema_nodes writer.now) (schema_nodes reader.now) limits.now.size limits.now.limits.depth))) }
{
    let pairs = writer.len() as u64 * reader.len() as u64;
    if pairs > u64::from(limits.pairs()) {
        return Ok(Verdict::Undecided(Cause::Pairs));
    }
    let depth = limits.limits().depth();
    let (judged, reached) = decide(alloc, writer, reader, limits.size(), depth)?;
    match judged {
        Judged::Compatible(certificate) => {
            let table = PlanTable::of_known(alloc, writer, reader, reached.found, reached.known)?;
            let approved = Approved::by(writer, reader, table, Some(certificate));
            Ok(Verdict::Approved(approved))
        }
        Judged::Size => Ok(Verdict::Undecided(Cause::Size)),
        Judged::Depth => Ok(Verdict::Undecided(Cause::Depth)),
        Judged::Erring(datum) => {
            let fault = fault_of_datum(alloc, writer, reader, reached, &datum)?;
            Ok(Verdict::Refuted(Refutation { datum, fault }))
        }
    }
}
