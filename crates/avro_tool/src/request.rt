//! What the program can be asked for.

ghost use Rattle.avro_tool.specs.TextsRefused.{RefusesNothing};

use crate::failure::Failure;
use crate::files::kept::STANDARD_INPUT;
use avro_answer::{Form, Shown};
use avro_judge::JudgeLimits;
use std::alloc::{AllocError, Global};

/// What the words ask for.
#[derive(Drop)]
pub(crate) enum Request<'a> {
    /// Whether the reader's schema reads all data of the writer's.
    Judge(Judging<'a>),
    /// All faults of a reader's schema with a writer's.
    Explain(Explaining<'a>),
    /// Whether a certificate shows that a reader's schema reads all data of the writer's.
    Confirm {
        writer: &'a str,
        reader: &'a str,
        certificate: &'a str,
        form: Form,
    },
    /// Whether several schemas read each other's data.
    History(History<'a>),
    /// Whether a text declares a schema, what is asked of it, and whether the places of faults are reported.
    Schema {
        file: &'a str,
        shown: Shown,
        is_why: bool,
    },
    /// Whether containers are valid, and how many data and blocks each has.
    Check {
        files: Vec<&'a str>,
        form: Form,
        is_watched: bool,
    },
    /// The data of a container, resolved to a reader's schema if there is one, and how many to show at
    /// most.
    Show {
        file: &'a str,
        reader: Option<&'a str>,
        limit: Option<u64>,
    },
    /// A copy of a container from one file into another.
    Copy(Copying<'a>),
    /// A copy of the container on standard input on standard output.
    Pipe(Piping<'a>),
    /// The schema's text in a container's header, or all of its metadata.
    Header {
        file: &'a str,
        is_metadata: bool,
    },
    /// The datum that encoded data begin with.
    Read(Reading<'a>),
    /// The version of the program.
    Version,
}

impl<'a> Request<'a> {
    /// The words of the files that are read, in order.
    pub(crate) fn files_read(&self, alloc: Global) -> Result<Vec<&'a str>, AllocError> {
        match self {
            Request::Judge(asked) => given(alloc, &[Some(asked.writer), Some(asked.reader)]),
            Request::Explain(asked) => given(alloc, &[Some(asked.writer), Some(asked.reader)]),
            Request::Confirm {
                writer,
                reader,
                certificate,
                ..
            } => given(alloc, &[Some(*writer), Some(*reader), Some(*certificate)]),
            Request::History(asked) => asked.files_read(alloc),
            Request::Schema { file, .. } | Request::Header { file, .. } => {
                given(alloc, &[Some(*file)])
            }
            Request::Check { files, .. } => files.to_vec(alloc),
            Request::Show { file, reader, .. } => given(alloc, &[Some(*file), *reader]),
            Request::Copy(asked) => given(alloc, &[Some(asked.source), asked.reader]),
            Request::Pipe(asked) => given(alloc, &[Some(STANDARD_INPUT), asked.reader]),
            Request::Read(asked) => {
                given(alloc, &[Some(asked.writer), Some(asked.data), asked.reader])
            }
            Request::Version => Ok(Vec::new(alloc)),
        }
    }

    /// The words of the files that are written, in order.
    pub(crate) fn files_written(&self) -> [Option<&'a str>; 2] {
        match self {
            Request::Judge(asked) => [asked.certificate, asked.refutation],
            Request::Copy(asked) => [Some(asked.output), None],
            Request::History(asked) => match asked.evidence {
                Evidence::Written(word) => [Some(word), None],
                _ => [None, None],
            },
            _ => [None, None],
        }
    }

    /// Whether more than an error goes to standard error.
    pub(crate) fn is_told(&self) -> bool {
        match self {
            Request::Check { is_watched, .. } => *is_watched,
            Request::Copy(asked) => asked.is_watched,
            Request::Pipe(asked) => asked.is_watched || asked.is_counted,
            _ => false,
        }
    }

    /// What is reported of a file that standard output is.
    pub(crate) fn output_failure(&self, word: &'a str) -> Failure<'a>
        ensures { RefusesNothing result }
    {
        match self {
            Request::Pipe(_) if word == STANDARD_INPUT => Failure::OneFile,
            _ => Failure::IsOutput(word),
        }
    }

    /// What is reported of an input that is to be written by another word.
    pub(crate) fn read_failure(&self, word: &'a str, output: &'a str) -> Failure<'a>
        ensures { RefusesNothing result }
    {
        match self {
            Request::Copy(asked) if word == asked.source => Failure::OneFile,
            _ => Failure::IsRead(output),
        }
    }
}

/// Those of some words that are given.
fn given<'a>(alloc: Global, words: &[Option<&'a str>]) -> Result<Vec<&'a str>, AllocError> {
    let mut present = Vec::new(alloc);
    for word in words {
        if let Some(word) = word {
            present.push(*word)?;
        }
    }
    Ok(present)
}

/// A copy of a container, resolved to a reader's schema if there is one, with its marker if given, and whether its progress is
/// reported.
#[derive(Clone, Copy)]
pub(crate) struct Copying<'a> {
    pub(crate) source: &'a str,
    pub(crate) output: &'a str,
    pub(crate) reader: Option<&'a str>,
    pub(crate) sync: Option<[u8; 16]>,
    pub(crate) is_watched: bool,
}

/// The same between standard input and standard output, and whether its numbers of data and blocks are reported.
#[derive(Clone, Copy)]
pub(crate) struct Piping<'a> {
    pub(crate) reader: Option<&'a str>,
    pub(crate) sync: Option<[u8; 16]>,
    pub(crate) is_counted: bool,
    pub(crate) is_watched: bool,
}

/// Two schemas that are judged: a certificate of a yes goes into a file, and so does a refutation of a no.
#[derive(Drop)]
pub(crate) struct Judging<'a> {
    pub(crate) writer: &'a str,
    pub(crate) reader: &'a str,
    pub(crate) certificate: Option<&'a str>,
    pub(crate) refutation: Option<&'a str>,
    pub(crate) limits: JudgeLimits,
    pub(crate) form: Form,
}

/// Two schemas whose faults are reported.
#[derive(Clone, Copy)]
pub(crate) struct Explaining<'a> {
    pub(crate) writer: &'a str,
    pub(crate) reader: &'a str,
    pub(crate) max_pairs: u32,
    pub(crate) form: Form,
}

/// Encoded data that are read, resolved to a reader's schema if there is one, and how many bytes are
/// skipped first.
#[derive(Clone, Copy)]
pub(crate) struct Reading<'a> {
    pub(crate) writer: &'a str,
    pub(crate) data: &'a str,
    pub(crate) reader: Option<&'a str>,
    pub(crate) skip: u32,
    pub(crate) form: Form,
}

/// Several schemas, of which the last is the reader's, and what is done with their certificates.
#[derive(Drop)]
pub(crate) struct History<'a> {
    pub(crate) writers: Vec<&'a str>,
    pub(crate) reader: &'a str,
    pub(crate) evidence: Evidence<'a>,
    pub(crate) mode: Mode,
    /// Each schema is judged with the next one instead of the last one.
    pub(crate) is_next: bool,
    pub(crate) limits: JudgeLimits,
    pub(crate) form: Form,
}

impl<'a> History<'a> {
    /// The words of the files that are read, in order.
    fn files_read(&self, alloc: Global) -> Result<Vec<&'a str>, AllocError> {
        let mut words = self.writers.to_vec(alloc)?;
        words.push(self.reader)?;
        if let Evidence::Given(word) = self.evidence {
            words.push(word)?;
        }
        Ok(words)
    }
}

/// Which data are to be read in a history.
#[derive(Clone, Copy)]
pub(crate) enum Mode {
    /// The later schema reads those of the earlier one.
    Backward,
    /// The earlier schema reads those of the later one.
    Forward,
    /// Each reads those of the other.
    Full,
}

/// What is done with the certificates of a history.
#[derive(Clone, Copy)]
pub(crate) enum Evidence<'a> {
    /// None is made.
    Left,
    /// Those of a yes for each writer's schema go into a file.
    Written(&'a str),
    /// Those of a file are to show that the reader's schema reads all data.
    Given(&'a str),
}
