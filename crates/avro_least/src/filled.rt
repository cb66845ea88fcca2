//! Lists of one value.

ghost use Rattle.std.specs.Prelude.{◌≡◌, IfOk};
ghost use Rattle.std.proofs.Math.ListN.{replicate};

use avro_schema::Memory;
use std::alloc::Global;

/// This many of a value.
pub(crate) fn filled<T: Copy>(alloc: Global, count: usize, value: T) -> Result<Vec<T>, Memory>
    ensures { IfOk result (λ v. v.items ≡ replicate count value) }
{
    let mut values = Vec::with_capacity(alloc, count)?;
    for done in 0..count {
        values.push(value)?;
    }
    Ok(values)
}
