ghost use Rattle.std.specs.Prelude.{◌≡◌, IfOk, string_bytes};

use avro_schema::Memory;
use std::alloc::Global;

/// A copy of a text.
pub(crate) fn copy_of_text(alloc: Global, text: &str) -> Result<String, Memory>
    ensures { IfOk result (λ copy. string_bytes copy ≡ text.now) }
{
    Ok(String::from_str(alloc, text)?)
}
