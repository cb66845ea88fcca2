use std::fmt;
use thiserror::Error;

/// Why a datum does not resolve.
#[derive(Clone, Copy, Debug, PartialEq, Eq, Error)]
#[error("{}", self.name())]
pub enum FaultKind {
    /// The nodes do not match.
    NoMatch,
    /// No branch of the reader's union matches.
    NoBranch,
    /// The reader's field at this index has no source in the writer's record, and no default.
    #[error("{name} {0}", name = self.name())]
    MissingField(usize),
    /// The reader's enum has no such symbol, and no default.
    NoSymbol,
    /// Bytes that are read as a string are not UTF-8.
    NotUtf8,
}

impl FaultKind {
    ghost use Rattle.std.specs.Prelude.{◌≡◌};
    ghost use Rattle.avro_compare.specs.FaultText.{kind_code, kind_name};

    /// The fault's code: V1 to V5.
    pub fn code(self) -> &'static str
        ensures { result.now ≡ kind_code self }
    {
        match self {
            FaultKind::NoMatch => "V1",
            FaultKind::NoBranch => "V2",
            FaultKind::MissingField(_) => "V3",
            FaultKind::NoSymbol => "V4",
            FaultKind::NotUtf8 => "V5",
        }
    }

    /// The word that answers have in place of the code.
    pub fn name(self) -> &'static str
        ensures { result.now ≡ kind_name self }
    {
        match self {
            FaultKind::NoMatch => "NoMatch",
            FaultKind::NoBranch => "NoBranch",
            FaultKind::MissingField(_) => "MissingField",
            FaultKind::NoSymbol => "NoSymbol",
            FaultKind::NotUtf8 => "NotUtf8",
        }
    }
}

/// A fault of resolution, and where it is in the writer's datum.
#[derive(Debug, PartialEq, Eq, Drop, Error)]
#[error("{kind} at {path}", path = self.steps())]
pub struct Fault {
    /// What is wrong.
    pub kind: FaultKind,
    /// The path down the datum: indices of fields, items and entries, and 0 for a union's value.
    pub path: Vec<usize>,
}

impl Fault {
    fn steps(&self) -> Steps<'_> {
        Steps(&self.path)
    }
}

/// A path as text: its steps, each after a slash.
#[derive(Drop)]
struct Steps<'a>(&'a [usize]);

impl fmt::Display for Steps<'_> {
    fn fmt<W: fmt::Write>(&self, f: &mut fmt::Formatter<W>) -> fmt::Result {
        if self.0.is_empty() {
            return write!(f, "/");
        }
        for step in self.0 {
            write!(f, "/{step}")?;
        }
        Ok(())
    }
}
