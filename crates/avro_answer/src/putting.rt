//! Putting a whole text.

ghost use Rattle.std.specs.Prelude.{◌≡◌, ◌≢◌, ◌⊎◌, OnOk, OnErr, IsErrOf};
ghost use Rattle.avro_device.specs.PutFront.{PutsFrontOf};
ghost use Rattle.avro_display.specs.declared.put_error.PutError.{PutError};

use avro_device::{Output, put_all};
use avro_display::PutError;

/// Puts a text, in one call if the output takes all of it, and flushes. Where that fails, a prefix of it was put.
pub(crate) fn put_text<O: Output>(out: &mut O, text: &[u8]) -> Result<(), PutError>
    ensures put { OnOk result (O.keeps out.old text.now out.new) }
    ensures front { OnErr result (PutsFrontOf O.keeps out.old out.new text.now) }
    ensures works { OnOk result (O.failures out.new ≡ O.failures out.old) }
    ensures fails { IsErrOf result PutError.CannotWrite → (O.failures out.new ≢ O.failures out.old) ⊎ O.stuck out.new }
    ensures memory { IsErrOf result PutError.OutOfMemory → O.failures out.new ≡ O.failures out.old }
{
    put_all(&mut *out, text)?;
    out.flush()?;
    Ok(())
}
