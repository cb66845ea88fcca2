//! The names that are defined.

use crate::nodes::NodeId;
use crate::places::PlaceId;
use avro_texts::Seeded;
use indexmap::{IndexMap, IndexSet};
use std::alloc::{AllocError, Global};

/// A namespace, and its number in a table of names.
#[derive(Clone, Copy)]
pub(crate) struct Space<'a> {
    pub(crate) text: &'a str,
    number: usize,
}

/// A fullname. The null namespace has no text.
#[derive(Clone, Copy)]
pub(crate) struct Name<'a> {
    pub(crate) space: &'a str,
    pub(crate) simple: &'a str,
}

impl<'a> Name<'a> {
    /// A text that is no name in a namespace.
    pub(crate) fn plain(text: &'a str) -> Name<'a> {
        Name {
            space: "",
            simple: text,
        }
    }
}

/// What a name was defined as, and where.
#[derive(Clone, Copy)]
pub(crate) struct Definition {
    pub(crate) node: NodeId,
    pub(crate) place: PlaceId,
}

/// The definitions, by the numbers of their namespaces, so that a long namespace is not looked at for each name in it.
#[derive(Drop)]
pub(crate) struct Names<'a> {
    numbers: IndexSet<&'a str, Seeded>,
    definitions: IndexMap<(usize, &'a str), Definition, Seeded>,
}

impl<'a> Names<'a> {
    /// No names.
    pub(crate) fn new(alloc: Global, seed: Seeded) -> Names<'a> {
        Names {
            numbers: IndexSet::with_hasher(alloc, seed),
            definitions: IndexMap::with_hasher(alloc, seed),
        }
    }

    /// The namespace of a text, with its number.
    pub(crate) fn space(&mut self, text: &'a str) -> Result<Space<'a>, AllocError> {
        let (number, _) = self.numbers.insert_full(text)?;
        Ok(Space { text, number })
    }

    /// The namespace and the simple part of a name where a namespace encloses it, which may be unknown.
    pub(crate) fn split(
        &mut self,
        text: &'a str,
        enclosing: Option<Space<'a>>,
    ) -> Result<(Option<Space<'a>>, &'a str), AllocError> {
        match text.rsplit_once('.') {
            Some((space, simple)) => Ok((Some(self.space(space)?), simple)),
            None => Ok((enclosing, text)),
        }
    }

    /// The definition of a name in a namespace.
    pub(crate) fn find(&self, space: Space<'a>, simple: &'a str) -> Option<Definition> {
        self.definitions.get(&(space.number, simple)).copied()
    }

    /// Adds a definition.
    pub(crate) fn define(
        &mut self,
        space: Space<'a>,
        simple: &'a str,
        definition: Definition,
    ) -> Result<(), AllocError> {
        self.definitions.insert((space.number, simple), definition)?;
        Ok(())
    }
}
