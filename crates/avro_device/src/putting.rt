//! Putting a whole slice.

ghost use Rattle.std.specs.Prelude.{◌≡◌, ◌≢◌, ◌⊎◌, OnOk, OnErr};
ghost use Rattle.avro_device.specs.PutFront.{PutsFrontOf};

use crate::device::{DeviceFault, Output};

/// Puts all of `bytes`, in as many calls as it takes.
///
/// # Errors
///
/// The device failed, or took none of the bytes that were left. A prefix of `bytes` was put.
pub fn put_all<O: Output>(output: &mut O, bytes: &[u8]) -> Result<(), DeviceFault>
    ensures put { OnOk result (O.keeps output.old bytes.now output.new) }
    ensures works { OnOk result (O.failures output.new ≡ O.failures output.old) }
    ensures front { OnErr result (PutsFrontOf O.keeps output.old output.new bytes.now) }
    ensures cause { OnErr result ((O.failures output.new ≢ O.failures output.old) ⊎ O.stuck output.new) }
{
    let mut rest = bytes;
    while !rest.is_empty() {
        let count = output.put(rest)?;
        if count == 0 {
            return Err(DeviceFault);
        }
        let (_, others) = rest.split_at(count);
        rest = others;
    }
    Ok(())
}
