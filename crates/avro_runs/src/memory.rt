//! Texts in memory, in the place of the system's files.

ghost use Rattle.std.specs.Prelude.{◌≡◌, IfOk, option_copied, take};
ghost use Rattle.avro_runs.specs.KnownTexts.{known_in};

use crate::devices::{Given, Kept};
use crate::steps::{Outcome, words_of};
use anyhow::{Result, ensure};
use avro_device::WriteOutput;
use avro_tool::{Texts, run_over};
use std::alloc::{AllocError, Global};
use std::io;

/// Texts in memory, by their names.
#[derive(Drop)]
struct InMemory<'t> {
    alloc: Global,
    texts: &'t [(&'t str, &'t [u8])],
}

/// The first text that has this name.
fn known_text<'t>(texts: &'t [(&'t str, &'t [u8])], word: &str) -> Option<&'t [u8]>
    ensures { option_copied result ≡ known_in texts.entry.now word.now }
{
    for (name, text) in texts {
        if *name == word {
            return Some(text);
        }
    }
    None
}

/// The first bytes of a text: so many, or all where it has fewer.
fn front_of(alloc: Global, text: &[u8], most: u64) -> Result<Vec<u8>, AllocError>
    ensures { IfOk result (λ bytes. bytes.items ≡ take most text.now) }
{
    let end = text.len().min(most as usize);
    Vec::from_slice(alloc, &text[..end])
}

impl Alloc for InMemory<'_> {
    type A = Global;

    fn alloc(&self) -> Global {
        self.alloc
    }
}

impl Texts for InMemory<'_> {
    ghost use Rattle.avro_runs.specs.KnownTexts.{known_in};

    ghost known = { λ m word. known_in m.texts.now word };

    fn text(&self, word: &str, most: u64) -> io::Result<Vec<u8>> {
        match known_text(self.texts, word) {
            Some(text) => Ok(front_of(self.alloc, text, most)?),
            None => Err(io::Error::from(io::ErrorKind::NotFound)),
        }
    }
}

/// A schema that reads the other's data, and the other.
const TEXTS: [(&str, &[u8]); 2] = [("long", b"\"long\""), ("int", b"\"int\"")];

/// The words of a run over these texts, its status, and what is put on the output and the error.
const RUNS: [(&str, u8, &[u8], &[u8]); 5] = [
    ("judge int long", 0, b"yes\n", b""),
    (
        "judge long int",
        1,
        b"no\nfault NoMatch at /\nnodes 1\ndatum 0\n",
        b"",
    ),
    ("explain int long", 0, b"yes\n", b""),
    (
        "explain long int",
        1,
        b"no 1\n$: NoMatch: long cannot be read as int (writer's $)\n",
        b"",
    ),
    ("judge int none", 4, b"", b"avro: none: cannot read\n"),
];

/// A run of the words of a line over texts in memory.
fn outcome_of(rt: &HostRuntime, texts: &InMemory<'_>, line: &str) -> Result<Outcome, AllocError> {
    let words = words_of(rt.alloc(), line)?;
    let mut input = Given::all(b"");
    let mut out = WriteOutput::new(Kept::with_room(rt.alloc(), usize::MAX));
    let mut err = Kept::with_room(rt.alloc(), usize::MAX);
    let status = run_over(texts, rt, &words, &mut input, &mut out, &mut err);
    Ok(Outcome {
        status,
        out: out.into_inner(),
        err,
    })
}

/// The words of the first of these runs, if any, that ends otherwise.
fn wrong_run(
    rt: &HostRuntime,
    texts: &InMemory<'_>,
    rows: &[(&'static str, u8, &'static [u8], &'static [u8])],
) -> Result<Option<&'static str>, AllocError> {
    for (line, status, out, err) in rows {
        if !outcome_of(rt, texts, line)?.is(*status, out, err) {
            return Ok(Some(line));
        }
    }
    Ok(None)
}

/// Tests that the texts of schemas are those that the words name, in their order.
///
/// # Errors
///
/// A run ends otherwise, or memory ran out.
pub(crate) fn check_texts(rt: &HostRuntime) -> Result<()> {
    let texts = InMemory {
        alloc: rt.alloc(),
        texts: &TEXTS,
    };
    let wrong = wrong_run(rt, &texts, &RUNS)?;
    ensure!(wrong.is_none(), "texts in memory: {}", wrong.unwrap_or(""));
    println!(rt; "texts")?;
    Ok(())
}
