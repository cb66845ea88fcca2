use avro_binary::{Build, ReadError};
use avro_certificate::Certificate;
use avro_resolve::{Plan, PlanTable, ReadResolveError};
use avro_schema::{Limits, Schema};
use std::alloc::Global;
use std::marker::Model;

/// Two schemas such that every datum of the first resolves into the second, with a plan for reading that
/// has the pairs of nodes that the roots lead to, and the certificate if it was made. Contracts see the two
/// schemas.
#[derive(Drop)]
pub struct Approved<'a> {
    writer: &'a Schema,
    reader: &'a Schema,
    plan: Plan<'a>,
    certificate: Option<Certificate>,
}

impl<'a> Model for Approved<'a> {
    ghost use Rattle.std.specs.Prelude.{◌≡◌};
    ghost use Rattle.std.specs.Option.{IfSome};
    ghost use Rattle.avro_judge.specs.inside.Judged.{IsCertificateOf};
    ghost use Rattle.std.specs.Coded.{codes};
    ghost use Rattle.avro_schema.specs.contracts.datum.Datum as datum;
    ghost use Rattle.avro_schema.specs.declared.schema.Schema.{Schema};
    ghost use Rattle.avro_schema.specs.SeenSchema.{schema_nodes};
    ghost use Rattle.avro_certificate.specs.Compatible.{AreCompatible};

    ghost Value = { Schema × Schema };

    ghost coded = { Prim.hlevel (codes, datum.the_row.coded) };

    ghost view = { λ a. a.plan };

    ghost invariant = { λ a. AreCompatible (schema_nodes a.plan.0) (schema_nodes a.plan.1) × (a.plan ≡ (a.writer.now, a.reader.now))
        × IfSome a.certificate (IsCertificateOf (schema_nodes a.plan.0) (schema_nodes a.plan.1)) };
}

impl<'a> Approved<'a> {
    ghost use Rattle.std.specs.Prelude.{◌≡◌, ℕ, true, List, ◌++◌, length, IfOk, IsOkAnd, Ok};
    ghost use Rattle.std.specs.Result.{IfErr};
    ghost use Rattle.std.specs.Option.{IfSome};
    ghost use Rattle.avro_schema.specs.Fits.{is_within};
    ghost use Rattle.avro_schema.specs.Node.{root_of};
    ghost use Rattle.avro_schema.specs.SeenSchema.{schema_nodes};
    ghost use Rattle.avro_schema.specs.Value.{Value};
    ghost use Rattle.avro_cursor.specs.Breaks.{Breaks};
    ghost use Rattle.avro_cursor.specs.Encoding.{Encodes};
    ghost use Rattle.avro_cursor.specs.Fault.{ReadFault};
    ghost use Rattle.avro_cursor.specs.Seen.{read_fault, UnlessOutOfMemory, Reports};
    ghost use Rattle.avro_resolve.specs.Reading.{ReadsAs};
    ghost use Rattle.avro_resolve.specs.Tables.{IsTableOf};
    ghost use Rattle.avro_compare.specs.Resolve.{resolve_root};
    ghost use Rattle.avro_certificate.specs.Compatible.{AreCompatible};
    ghost use Rattle.avro_judge.specs.inside.Judged.{IsCertificateOf};

    /// The approval of two compatible schemas, from what a plan keeps of pairs of their nodes, and their certificate
    /// if it was made.
    pub(crate) fn by(
        writer: &'a Schema,
        reader: &'a Schema,
        table: PlanTable,
        certificate: Option<Certificate>,
    ) -> Approved<'a>
        requires compatible { AreCompatible (schema_nodes writer.now) (schema_nodes reader.now) }
        requires table { IsTableOf (schema_nodes writer.now) (schema_nodes reader.now) table }
        requires certified { IfSome certificate (IsCertificateOf (schema_nodes writer.now) (schema_nodes reader.now)) }
        ensures { result ≡ (writer.now, reader.now) }
    {
        Approved {
            writer,
            reader,
            plan: Plan::of(writer, reader, table),
            certificate,
        }
    }

    /// Reads a writer's datum from the start of some bytes and resolves it; returns what the builder makes of
    /// the reader's datum, and the length of the encoding.
    ///
    /// # Errors
    ///
    /// The first fault of the bytes, never one of resolution; `OutOfMemory`.
    pub fn read<B: Build>(
        &self,
        alloc: Global,
        bytes: &[u8],
        limits: &Limits,
        builder: &mut B,
    ) -> Result<(B::Out, usize), ReadError>
        // If the bytes start with an encoding of a writer's datum within the limits, whatever follows, the result stands for
        // what the datum resolves to, and the length is the encoding's.
        ensures begins { (v : Value) (front rest : List ℕ) → Encodes (schema_nodes self.now.0) (root_of (schema_nodes self.now.0)) v front
            → is_within limits.now v ≡ true → bytes.now ≡ front ++ rest
            → UnlessOutOfMemory result (IsOkAnd result (λ r.
            (u : Value) × B.stands_for r.0 u × (resolve_root (schema_nodes self.now.0) (schema_nodes self.now.1) v ≡ Ok u) × (r.1 ≡ length front))) }
        // There is no other result.
        ensures found { IfOk result (λ r. (u : Value) × B.stands_for r.0 u × ReadsAs (schema_nodes self.now.0) (schema_nodes self.now.1) limits.now bytes.now r.1 (Ok u)) }
        // An error is the first fault of the bytes, and each fault is reported.
        ensures refused { IfErr result (λ e. IfSome (read_fault e) (Breaks (schema_nodes self.now.0) limits.now (root_of (schema_nodes self.now.0)) bytes.now)) }
        ensures breaks { (fault : ReadFault) → Breaks (schema_nodes self.now.0) limits.now (root_of (schema_nodes self.now.0)) bytes.now fault
            → UnlessOutOfMemory result (Reports result fault) }
    {
        match self.plan.read(alloc, bytes, limits, builder) {
            Ok(answer) => Ok(answer),
            Err(ReadResolveError::Read(e)) => Err(e),
            Err(ReadResolveError::Resolve(_)) => unreachable!(),
        }
    }

    /// The writer's and the reader's schema.
    pub fn schemas(&self) -> (&'a Schema, &'a Schema)
        ensures these { self.now ≡ (result.0.now, result.1.now) }
        ensures compatible { AreCompatible (schema_nodes self.now.0) (schema_nodes self.now.1) }
    {
        (self.writer, self.reader)
    }

    /// The certificate, if judging made it.
    pub(crate) fn made_certificate(&self) -> Option<&Certificate>
        ensures { IfSome result (λ c. IsCertificateOf (schema_nodes self.now.0) (schema_nodes self.now.1) c.now) }
    {
        self.certificate.as_ref()
    }
}
