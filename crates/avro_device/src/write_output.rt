//! An output over any writer.

ghost use Rattle.std.specs.Prelude.{◌≡◌, true};
ghost use Rattle.std.specs.Io.KnownBytes.{Appends};
ghost use Rattle.avro_device.specs.inside.DeviceLaws.{appends_none, appends_chain};

use crate::device::{DeviceFault, Output};
use std::io::Write;

/// An output over a writer. Each error of the writer is a failure of the device.
#[derive(Drop)]
pub struct WriteOutput<W> {
    writer: W,
    failures: u64,
    // the last put took none of the bytes
    stuck: bool,
    // the last call was a successful flush
    flushed: bool,
}

impl<W: Write> WriteOutput<W> {
    /// An output over this writer.
    pub fn new(writer: W) -> WriteOutput<W>
        ensures writer { result.writer ≡ writer }
    {
        WriteOutput {
            writer,
            failures: 0,
            stuck: false,
            flushed: false,
        }
    }

    /// The writer.
    pub fn into_inner(self) -> W
        ensures { result ≡ self.writer }
    {
        let WriteOutput { writer, .. } = self;
        writer
    }
}

impl<W: Write> Output for WriteOutput<W> {
    ghost keeps = { λ s bytes t. Appends (W.contents s.writer) (W.contents t.writer) bytes };

    ghost stuck = { λ s. s.stuck ≡ true };

    ghost flushed = { λ s. s.flushed ≡ true };

    ghost failures = { λ s. s.failures };

    ghost none = { λ s. appends_none (W.contents s.writer) };

    ghost chain = { λ s t u front back. appends_chain (W.contents s.writer) (W.contents t.writer) (W.contents u.writer) front back };

    fn put(&mut self, bytes: &[u8]) -> Result<usize, DeviceFault> {
        self.flushed = false;
        match self.writer.write(bytes) {
            Ok(count) => {
                self.stuck = count == 0 && !bytes.is_empty();
                Ok(count)
            }
            Err(_error) => {
                self.failures = self.failures.wrapping_add(1);
                Err(DeviceFault)
            }
        }
    }

    fn flush(&mut self) -> Result<(), DeviceFault> {
        match self.writer.flush() {
            Ok(()) => {
                self.flushed = true;
                Ok(())
            }
            Err(_error) => {
                self.flushed = false;
                self.failures = self.failures.wrapping_add(1);
                Err(DeviceFault)
            }
        }
    }
}
