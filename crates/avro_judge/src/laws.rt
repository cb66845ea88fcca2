//! The headline in one place: what the clauses of the calls say together.

ghost use Rattle.std.specs.Prelude.{IfOk};
ghost use Rattle.avro_schema.specs.SeenSchema.{schema_nodes};
ghost use Rattle.avro_judge.specs.Headline.{IsRight, ReadsRight};

use crate::approval::Approved;
use crate::judging::judge;
use crate::limits::JudgeLimits;
use crate::verdict::Verdict;
use avro_binary::{Build, ReadError};
use avro_schema::{Limits, Memory, Schema};
use std::alloc::Global;

/// The result of [`judge`] is right, by its clauses alone.
///
/// # Errors
///
/// Memory ran out.
pub fn judge_is_right<'a>(
    alloc: Global,
    writer: &'a Schema,
    reader: &'a Schema,
    limits: &JudgeLimits,
) -> Result<Verdict<'a>, Memory>
    ensures { IfOk result (λ v. IsRight writer.now reader.now limits.now v) }
{
    judge(alloc, writer, reader, limits)
}

/// The result of [`Approved::read`] is right, by its clauses alone.
///
/// # Errors
///
/// The first fault of the bytes, never one of resolution; `OutOfMemory`.
pub fn approved_reads<B: Build>(
    approved: &Approved<'_>,
    alloc: Global,
    bytes: &[u8],
    limits: &Limits,
    builder: &mut B,
) -> Result<(B::Out, usize), ReadError>
    ensures { ReadsRight B.stands_for (schema_nodes approved.now.0) (schema_nodes approved.now.1) limits.now bytes.now result }
{
    approved.read(alloc, bytes, limits, builder)
}
