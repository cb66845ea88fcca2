//! An input over any reader.

ghost use Rattle.std.specs.Prelude.{◌≡◌, true};
ghost use Rattle.std.specs.Io.KnownBytes.{Consumes, IsAtEnd};
ghost use Rattle.avro_device.specs.inside.DeviceLaws.{consumes_none, consumes_chain};

use crate::device::{DeviceFault, Input};
use std::io::Read;

/// An input over a reader. Each error of the reader is a failure of the device.
#[derive(Drop)]
pub struct ReadInput<R> {
    reader: R,
    failures: u64,
    // the last take reported the end
    ended: bool,
}

impl<R: Read> ReadInput<R> {
    /// An input over this reader.
    pub fn new(reader: R) -> ReadInput<R>
        ensures reader { result.reader ≡ reader }
    {
        ReadInput {
            reader,
            failures: 0,
            ended: false,
        }
    }
}

impl<R: Read> Input for ReadInput<R> {
    ghost gives = { λ s bytes t. Consumes (R.remaining s.reader) (R.remaining t.reader) bytes };

    ghost ended = { λ s. (s.ended ≡ true) × IsAtEnd (R.remaining s.reader) };

    ghost failures = { λ s. s.failures };

    ghost none = { λ s. consumes_none (R.remaining s.reader) };

    ghost chain = { λ s t u front back. consumes_chain (R.remaining s.reader) (R.remaining t.reader) (R.remaining u.reader) front back };

    fn take(&mut self, buffer: &mut [u8]) -> Result<usize, DeviceFault> {
        match self.reader.read(buffer) {
            Ok(count) => {
                self.ended = count == 0 && !buffer.is_empty();
                Ok(count)
            }
            Err(_error) => {
                self.failures = self.failures.wrapping_add(1);
                Err(DeviceFault)
            }
        }
    }
}
