//! Where the texts that words name come from.

use std::alloc::Global;
use std::io::Read;
use std::rt::Files;
use std::{fs, io};

/// Texts of files, which are read by the words that name these.
pub trait Texts: AllocGlobal {
    ghost use Rattle.std.specs.Prelude.{◌≡◌, ℕ, List, Option, IfOk, take};
    ghost use Rattle.std.specs.Option.{IfSome};

    /// The bytes of the file that a word names, where they are known beforehand.
    ghost known: { Self → List ℕ → Option (List ℕ) };

    /// The first bytes of the file that a word names: so many, or all where it has fewer.
    ///
    /// # Errors
    ///
    /// The file cannot be read; memory ran out.
    fn text(&self, word: &str, most: u64) -> io::Result<Vec<u8>>
        ensures { IfOk result (λ bytes. IfSome (known self.now word.now) (λ all. bytes.items ≡ take most all)) };
}

/// The texts of the system's files. Nothing is known of them beforehand.
#[derive(Drop)]
pub(crate) struct SystemTexts<'r, R> {
    pub(crate) rt: &'r R,
}

impl<R: AllocGlobal> Alloc for SystemTexts<'_, R> {
    type A = Global;

    fn alloc(&self) -> Global {
        self.rt.alloc()
    }
}

impl<R: Files + AllocGlobal> Texts for SystemTexts<'_, R> {
    ghost use Rattle.std.specs.Prelude.{None};

    ghost known = { λ _ _. None };

    fn text(&self, word: &str, most: u64) -> io::Result<Vec<u8>> {
        let mut bytes = Vec::new(self.alloc());
        fs::open(self.rt, word)?.take(most).read_to_end(&mut bytes)?;
        Ok(bytes)
    }
}
