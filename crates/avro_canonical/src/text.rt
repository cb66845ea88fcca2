ghost use Rattle.std.specs.Prelude.{◌≡◌, IfOk, string_bytes};
ghost use Rattle.avro_schema.specs.SeenSchema.{schema_nodes};
ghost use Rattle.avro_canonical.specs.Canonical.{IsCanonical};

use crate::marks::no_marks;
use crate::part::Part;
use crate::parts::{next_part, put_part};
use crate::writing::write_part;
use avro_schema::{Memory, Schema};
use std::alloc::Global;

/// The canonical form of a schema (Avro 1.11, "Parsing Canonical Form for Schemas").
///
/// A named type is defined at its first occurrence, and is only its fullname from then on.
///
/// # Errors
///
/// Memory ran out.
#[tactic(auto, using(crate::proofs::StepsTaken::begins_first, crate::proofs::StepsTaken::begins_then))]
pub fn canonical(alloc: Global, schema: &Schema) -> Result<String, Memory>
    ensures { IfOk result (λ text. IsCanonical (schema_nodes schema.now) (string_bytes text)) }
{
    let mut text = String::new(alloc);
    let mut marks = no_marks(alloc, schema)?;
    let mut parts: Vec<Part> = Vec::new(alloc);
    put_part(&mut parts, Part::Node(schema.root()))?;
    // Each step writes a character, so memory runs out before the steps do.
    for _ in 0..u64::MAX {
        match next_part(&mut parts) {
            None => return Ok(text),
            Some(part) => write_part(alloc, schema, part, &mut text, &mut parts, &mut marks)?,
        }
    }
    Err(Memory)
}
