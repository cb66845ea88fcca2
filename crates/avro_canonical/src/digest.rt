ghost use Rattle.std.specs.Prelude.{◌≡◌, ◌++◌, ℕ, List, IfOk, string_bytes};
ghost use Rattle.sha2.specs.Hashers.{Holds256};
ghost use Rattle.avro_schema.specs.SeenSchema.{schema_nodes};
ghost use Rattle.avro_canonical.specs.Fingerprint.{IsFingerprint, IsFingerprintText};

use crate::marks::no_marks;
use crate::part::Part;
use crate::parts::{next_part, put_part};
use crate::writing::write_part;
use avro_schema::{Memory, Schema};
use sha2::{Digest, Sha256};
use std::alloc::Global;

/// The least number of bytes that are hashed at once, except for the last ones.
const PIECE: usize = 65_536;

/// The fingerprint of a schema: the SHA-256 of its canonical form's bytes (Avro 1.11, "Schema
/// Fingerprints"). The form may be far longer than the schema's text; it is hashed in pieces as it is written, and never
/// held as a whole.
///
/// # Errors
///
/// Memory ran out.
pub fn fingerprint(alloc: Global, schema: &Schema) -> Result<[u8; 32], Memory>
    ensures { IfOk result (λ digest. IsFingerprint (schema_nodes schema.now) digest) }
{
    let mut hasher = Sha256::new();
    let mut text = String::new(alloc);
    let mut marks = no_marks(alloc, schema)?;
    let mut parts: Vec<Part> = Vec::new(alloc);
    put_part(&mut parts, Part::Node(schema.root()))?;
    // Each node is begun once, so there are no more steps than edges and nodes.
    for _ in 0..u64::MAX {
        match next_part(&mut parts) {
            None => {
                hasher.update(text.as_bytes());
                return Ok(hasher.finalize());
            }
            Some(part) => write_part(alloc, schema, part, &mut text, &mut parts, &mut marks)?,
        }
        hash_piece(&mut hasher, &mut text);
    }
    Err(Memory)
}

/// Hashes and clears the text if it is long enough.
fn hash_piece(hasher: &mut Sha256, text: &mut String)
    ensures { (before : List ℕ) → Holds256 hasher.old before
        → (then : List ℕ) × Holds256 hasher.new then × (then ++ string_bytes text.new ≡ before ++ string_bytes text.old) }
{
    if text.len() < PIECE {
        return;
    }
    hasher.update(text.as_bytes());
    text.clear();
}

/// The fingerprint of a schema as 64 lowercase hexadecimal digits.
///
/// # Errors
///
/// Memory ran out.
pub fn fingerprint_text(alloc: Global, schema: &Schema) -> Result<String, Memory>
    ensures { IfOk result (λ digits. IsFingerprintText (schema_nodes schema.now) (string_bytes digits)) }
{
    let digest = fingerprint(alloc, schema)?;
    Ok(hex::encode(alloc, &digest[..])?)
}
