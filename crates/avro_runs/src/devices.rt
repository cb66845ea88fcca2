//! A reader that is short or fails, and a writer that keeps what it takes, counts the calls, and may be full.

use std::alloc::Global;
use std::io;
use std::io::{Read, Write};

/// A reader that gives some bytes, a number of them at once, and then ends or fails. It counts the calls.
#[derive(Drop)]
pub(crate) struct Given<'a> {
    /// What it still gives.
    pub(crate) rest: &'a [u8],
    /// How many bytes it gives at once.
    pub(crate) most: usize,
    /// Whether it fails at the end.
    pub(crate) fails: bool,
    /// How many calls there were.
    pub(crate) calls: usize,
}

impl<'a> Given<'a> {
    /// A reader that gives these bytes, as many as are asked for, and ends.
    pub(crate) fn all(bytes: &'a [u8]) -> Given<'a> {
        Given {
            rest: bytes,
            most: usize::MAX,
            fails: false,
            calls: 0,
        }
    }
}

impl Read for Given<'_> {
    fn read(&mut self, buf: &mut [u8]) -> io::Result<usize> {
        self.calls = self.calls.saturating_add(1);
        if self.fails && self.rest.is_empty() {
            return Err(io::Error::from(io::ErrorKind::Other));
        }
        let given = self.most.min(buf.len()).min(self.rest.len());
        let (front, others) = self.rest.split_at(given);
        buf[..given].copy_from_slice(front);
        self.rest = others;
        Ok(given)
    }
}

/// A writer that takes a number of bytes, and then fails. It keeps them, and counts the calls.
#[derive(Drop)]
pub(crate) struct Kept {
    /// How many bytes it still takes.
    pub(crate) room: usize,
    /// The bytes that it took.
    pub(crate) bytes: Vec<u8>,
    /// How many calls took bytes.
    pub(crate) calls: usize,
    /// How many of them ended in the middle of a line.
    pub(crate) torn: usize,
}

impl Kept {
    /// A writer that takes this number of bytes.
    pub(crate) fn with_room(alloc: Global, room: usize) -> Kept {
        Kept {
            room,
            bytes: Vec::new(alloc),
            calls: 0,
            torn: 0,
        }
    }
}

impl Write for Kept {
    fn write(&mut self, buf: &[u8]) -> io::Result<usize> {
        if self.room == 0 {
            return Err(io::Error::from(io::ErrorKind::StorageFull));
        }
        let taken = self.room.min(buf.len());
        self.room -= taken;
        self.calls = self.calls.saturating_add(1);
        if !buf.ends_with(b"\n") {
            self.torn = self.torn.saturating_add(1);
        }
        let (front, _) = buf.split_at(taken);
        self.bytes.extend_from_slice(front)?;
        Ok(taken)
    }

    fn flush(&mut self) -> io::Result<()> {
        Ok(())
    }
}
