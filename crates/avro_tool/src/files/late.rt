use crate::failure::Failure;
use std::io::Write;
use std::rt::Files;
use std::{fs, io};

/// A file that is created, or truncated, when the first bytes are written into it.
#[derive(Drop)]
pub(crate) struct LateFile<'r, 'a, R: Files> {
    rt: &'r R,
    word: &'a str,
    file: Option<R::File>,
    // Creating it failed because memory ran out.
    no_memory: bool,
}

impl<'r, 'a, R: Files> LateFile<'r, 'a, R> {
    /// The file that a word names, which is not created yet.
    pub(crate) fn new(rt: &'r R, word: &'a str) -> LateFile<'r, 'a, R> {
        LateFile {
            rt,
            word,
            file: None,
            no_memory: false,
        }
    }

    /// The failure of a call that failed.
    pub(crate) fn failure(&self) -> Failure<'a> {
        if self.no_memory {
            Failure::OutOfMemory
        } else {
            Failure::CannotWrite(self.word)
        }
    }
}

impl<R: Files> Write for LateFile<'_, '_, R> {
    fn write(&mut self, buf: &[u8]) -> io::Result<usize> {
        if let Some(file) = &mut self.file {
            return file.write(buf);
        }
        match fs::create(self.rt, self.word) {
            Ok(mut file) => {
                let written = file.write(buf);
                self.file = Some(file);
                written
            }
            Err(e) => {
                self.no_memory = e.kind() == io::ErrorKind::OutOfMemory;
                Err(e)
            }
        }
    }

    fn flush(&mut self) -> io::Result<()> {
        match &mut self.file {
            Some(file) => file.flush(),
            None => Ok(()),
        }
    }
}
