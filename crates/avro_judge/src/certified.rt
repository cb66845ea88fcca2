//! The certificate of an approval.

use crate::approval::Approved;
use crate::deciding::certify;
use avro_certificate::Certificate;
use avro_schema::Memory;
use std::alloc::Global;

impl<'a> Approved<'a> {
    ghost use Rattle.std.specs.Prelude.{◌≡◌, true, IfOk};
    ghost use Rattle.avro_schema.specs.SeenSchema.{schema_nodes};
    ghost use Rattle.avro_certificate.specs.Closed.{is_closed};
    ghost use Rattle.avro_certificate.specs.Evidence.{IsEvidence};
    ghost use Rattle.avro_certificate.specs.SeenCertificate.{dead_of, pairs_in};

    /// The certificate of the two schemas, with which [`confirm`](crate::confirm) approves them again. It
    /// depends on the schemas alone.
    ///
    /// # Errors
    ///
    /// Memory ran out.
    pub fn certificate(&self, alloc: Global) -> Result<Certificate, Memory>
        // It has exactly the writer's nodes that have no datum and the pairs that the roots lead to.
        ensures evidence { IfOk result (λ c. IsEvidence (schema_nodes self.now.0) (schema_nodes self.now.1) (dead_of c) (pairs_in c)) }
        // It shows that the schemas are compatible.
        ensures confirmed { IfOk result (λ c. is_closed (schema_nodes self.now.0) (schema_nodes self.now.1) (dead_of c) (pairs_in c) ≡ true) }
    {
        match self.made_certificate() {
            Some(certificate) => certificate.try_clone(alloc),
            None => {
                let (writer, reader) = self.schemas();
                certify(alloc, writer, reader)
            }
        }
    }
}
