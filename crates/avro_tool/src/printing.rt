//! Answers, each printed by one write.

ghost use Rattle.std.specs.Prelude.{◌≡◌, ◌≢◌, ◌⊎◌, OnOk, OnErr};
ghost use Rattle.avro_device.specs.PutFront.{PutsFrontOf};
ghost use Rattle.avro_tool.specs.FailsOnlyFor.{FailsOnlyFor};
ghost use Rattle.avro_tool.specs.declared.failure.Failure.TheVariants.{CannotPrint};

use crate::failure::Failure;
use avro_device::{DeviceFault, Output, put_all};

/// Prints an answer. Where that fails, a prefix of it was put.
pub(crate) fn print<'a, O: Output>(out: &mut O, answer: &str) -> Result<(), Failure<'a>>
    ensures put { OnOk result (O.keeps out.old answer.now out.new) }
    ensures front { OnErr result (PutsFrontOf O.keeps out.old out.new answer.now) }
    ensures flushed { OnOk result (O.flushed out.new) }
    ensures fails { FailsOnlyFor (λ f. f ≡ CannotPrint) O.failures O.stuck out.old out.new result }
{
    print_bytes(out, answer.as_bytes())
}

/// Prints an answer that need not be a text.
pub(crate) fn print_bytes<'a, O: Output>(out: &mut O, answer: &[u8]) -> Result<(), Failure<'a>>
    ensures put { OnOk result (O.keeps out.old answer.now out.new) }
    ensures front { OnErr result (PutsFrontOf O.keeps out.old out.new answer.now) }
    ensures flushed { OnOk result (O.flushed out.new) }
    ensures fails { FailsOnlyFor (λ f. f ≡ CannotPrint) O.failures O.stuck out.old out.new result }
{
    match put_answer(out, answer) {
        Ok(()) => Ok(()),
        Err(_) => Err(Failure::CannotPrint),
    }
}

/// Puts an answer, and flushes.
fn put_answer<O: Output>(out: &mut O, answer: &[u8]) -> Result<(), DeviceFault>
    ensures put { OnOk result (O.keeps out.old answer.now out.new) }
    ensures front { OnErr result (PutsFrontOf O.keeps out.old out.new answer.now) }
    ensures flushed { OnOk result (O.flushed out.new) }
    ensures failed { OnErr result ((O.failures out.new ≢ O.failures out.old) ⊎ O.stuck out.new) }
    ensures works { OnOk result (O.failures out.new ≡ O.failures out.old) }
{
    put_all(&mut *out, answer)?;
    out.flush()?;
    Ok(())
}
