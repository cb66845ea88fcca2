//! A runtime that is refused the memory for one file, and the step that runs the program over it.

use crate::steps::{Sheet, run_line};
use anyhow::Result;
use avro_calls::halves;
use std::alloc::{AllocError, Allocator, Global};
use std::fs::{Metadata, OpenOptions};
use std::io;
use std::rt::{Clock, Files};
use std::time::Duration;

/// A runtime of which each opening of the file of this name asks for more memory than there can be.
#[derive(Drop)]
struct Refusing<'a, R> {
    rt: &'a R,
    name: &'a str,
}

impl<R: AllocGlobal> Refusing<'_, R> {
    /// Asks for the memory that an opening takes.
    fn ask(&self, path: &str) -> Result<(), AllocError> {
        let count = if path == self.name { usize::MAX } else { 0 };
        let _room: Vec<u8> = Vec::with_capacity(self.rt.alloc(), count)?;
        Ok(())
    }
}

impl<R: AllocGlobal> Alloc for Refusing<'_, R> {
    type A = Global;

    fn alloc(&self) -> Global {
        self.rt.alloc()
    }
}

impl<R: Clock> Clock for Refusing<'_, R> {
    fn monotonic(&self) -> io::Result<Duration> {
        self.rt.monotonic()
    }

    fn since_1970(&self) -> io::Result<Duration> {
        self.rt.since_1970()
    }
}

impl<R: Files + AllocGlobal> Files for Refusing<'_, R> {
    type File = R::File;

    type Dir = R::Dir;

    fn open_file(&self, how: &OpenOptions, path: &str) -> io::Result<R::File> {
        self.ask(path)?;
        self.rt.open_file(how, path)
    }

    fn open_dir(&self, path: &str) -> io::Result<R::Dir> {
        self.rt.open_dir(path)
    }

    fn metadata(&self, path: &str) -> io::Result<Metadata> {
        self.rt.metadata(path)
    }

    fn symlink_metadata(&self, path: &str) -> io::Result<Metadata> {
        self.rt.symlink_metadata(path)
    }

    fn copy(&self, from: &str, to: &str) -> io::Result<u64> {
        self.rt.copy(from, to)
    }

    fn rename(&self, from: &str, to: &str) -> io::Result<()> {
        self.rt.rename(from, to)
    }

    fn remove_file(&self, path: &str) -> io::Result<()> {
        self.rt.remove_file(path)
    }

    fn create_dir(&self, path: &str) -> io::Result<()> {
        self.rt.create_dir(path)
    }

    fn remove_dir(&self, path: &str) -> io::Result<()> {
        self.rt.remove_dir(path)
    }

    fn remove_dir_all<B: Allocator>(&self, alloc: B, path: &str) -> io::Result<()> {
        self.rt.remove_dir_all(alloc, path)
    }
}

/// A run that is refused the memory for a file, `NAME STATUS WORDS`.
pub(crate) fn refuse_step<R: Files + Clock + AllocGlobal>(
    rt: &R,
    sheet: &mut Sheet,
    text: &str,
) -> Result<bool> {
    let (name, rest) = halves(text);
    let (status, line) = halves(rest);
    run_line(
        &Refusing { rt, name },
        sheet,
        line,
        (usize::MAX, usize::MAX),
    )?;
    Ok(status.parse::<u8>().ok() == Some(sheet.ran.status))
}
