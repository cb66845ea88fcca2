//! The text in which the display of a datum is made.

ghost use Rattle.std.specs.Prelude.{◌≡◌, ◌+◌, ◌≤◌, ◌++◌, [], List, false, ℕ, IfOk, OnOk, length};
ghost use Rattle.avro_binary.specs.Outputs.{Grows};
ghost use Rattle.avro_show.specs.Spans.{StandsIn, closed, opened};

use crate::composing::bytes_at;
use crate::spans::{Span, Spans};
use avro_binary::{Place, give_list, list};
use avro_display::Text;
use std::alloc::{AllocError, Global};
use std::mem::replace;

/// More bytes are not made, so that not much is lost where a display turns out to be long.
const MOST: usize = 65_536;

/// Scratch space in which displays are made, reused from datum to datum; its content between calls is unspecified.
#[derive(Drop)]
pub struct Scratch {
    // the displays of parts, and behind them those of the wholes that have them
    pub(crate) text: Text,
    // a whole that is put together
    pub(crate) whole: Text,
    // where that of the datum stands
    pub(crate) shown: Span,
    // a list for the ends of fields
    ends: Vec<usize>,
    // lists for the parts of wholes
    lists: Vec<Vec<Span>>,
    // lists for the fields of records that are resolved
    slots: Vec<Vec<Option<Span>>>,
    // what is put of a datum
    line: Vec<u8>,
}

impl Scratch {
    /// An empty scratch.
    pub fn new(alloc: Global) -> Scratch
        ensures { result.text ≡ [] }
    {
        Scratch {
            text: Text::new(alloc),
            whole: Text::new(alloc),
            shown: Span { start: 0, end: 0 },
            ends: Vec::new(alloc),
            lists: Vec::new(alloc),
            slots: Vec::new(alloc),
            line: Vec::new(alloc),
        }
    }

    /// The display of the datum that was read last.
    pub fn shown(&self) -> &[u8]
        ensures { (bytes : List ℕ) → StandsIn self.now.text self.now.shown bytes → result.now ≡ bytes }
    {
        bytes_at(self.text.as_slice(), self.shown)
    }

    /// An empty list for what is put of the datum.
    pub fn take_line(&mut self, alloc: Global) -> Vec<u8>
        ensures text { self.new.text ≡ self.old.text }
        ensures shown { self.new.shown ≡ self.old.shown }
        ensures none { result.items ≡ [] }
    {
        let mut line = replace(&mut self.line, Vec::new(alloc));
        line.clear();
        line
    }

    /// Keeps such a list for later.
    pub fn keep_line(&mut self, line: Vec<u8>) {
        self.line = line;
    }

    /// A list for the ends of fields.
    pub(crate) fn take_ends(&mut self, alloc: Global) -> Vec<usize>
        ensures { self.new.text ≡ self.old.text }
    {
        replace(&mut self.ends, Vec::new(alloc))
    }

    /// Keeps such a list for later.
    pub(crate) fn keep_ends(&mut self, ends: Vec<usize>)
        ensures { self.new.text ≡ self.old.text }
    {
        self.ends = ends;
    }

    /// No parts of the whole at a place.
    pub(crate) fn spans(&mut self, alloc: Global, owner: Place) -> Spans
        ensures text { self.new.text ≡ self.old.text }
        ensures owner { result.owner ≡ owner }
        ensures none { result.parts.items ≡ [] }
    {
        let parts = list(alloc, &mut self.lists);
        Spans { owner, parts }
    }

    /// Keeps the list of some parts for later.
    pub(crate) fn keep_spans(&mut self, spans: Spans)
        ensures text { self.new.text ≡ self.old.text }
        ensures whole { self.new.whole ≡ self.old.whole }
    {
        give_list(&mut self.lists, spans.parts);
    }

    /// An empty list for the fields of a record that is resolved.
    pub(crate) fn slots(&mut self, alloc: Global) -> Vec<Option<Span>>
        ensures text { self.new.text ≡ self.old.text }
        ensures none { result.items ≡ [] }
    {
        list(alloc, &mut self.slots)
    }

    /// Keeps such a list for later.
    pub(crate) fn keep_slots(&mut self, slots: Vec<Option<Span>>)
        ensures { self.new.text ≡ self.old.text }
    {
        give_list(&mut self.slots, slots);
    }

    /// Begins a display, behind the text that opens the branch of a union, if it goes into one, and returns where.
    #[inline(always)]
    pub(crate) fn begin(&mut self, opening: Option<&[u8]>) -> Result<usize, AllocError>
        ensures begun { (bytes : List ℕ) → OnOk result (self.new.text ++ closed opening.entry bytes ≡ self.old.text ++ opened opening.entry bytes) }
        ensures start { IfOk result (λ start. start ≡ length self.old.text) }
        ensures whole { self.new.whole ≡ self.old.whole }
        ensures kept { OnOk result (Grows self.old.text self.new.text) }
    {
        let start = self.text.len();
        if let Some(opening) = opening {
            self.text.append(opening)?;
        }
        Ok(start)
    }

    /// Ends a display that begins at an offset, behind the same text.
    ///
    /// # Errors
    ///
    /// The text is too long; memory ran out.
    #[inline(always)]
    pub(crate) fn end(&mut self, opening: Option<&[u8]>, start: usize) -> Result<Span, AllocError>
        ensures stands { (before bytes : List ℕ) → self.old.text ++ closed opening.entry [] ≡ before ++ bytes → start ≡ length before → IfOk result (λ span. StandsIn self.new.text span bytes) }
        ensures kept { OnOk result (Grows self.old.text self.new.text) }
    {
        if opening.is_some() {
            self.text.append_byte(b'}')?;
        }
        let end = self.text.len();
        if end > MOST {
            return Err(AllocError);
        }
        Ok(Span { start, end })
    }

    /// Whether so many bytes more would be too many.
    pub(crate) fn is_full(&self, more: usize) -> bool
        ensures { result ≡ false → length self.now.text + more ≤ 65_536 }
    {
        self.text.len().saturating_add(more) > MOST
    }

    /// Makes the whole that was put together.
    pub(crate) fn composed(&mut self, opening: Option<&[u8]>) -> Result<Span, AllocError>
        ensures kept { OnOk result (Grows self.old.text self.new.text) }
        ensures stands { IfOk result (λ span. StandsIn self.new.text span (opened opening.entry self.old.whole)) }
    {
        let start = self.begin(opening)?;
        self.text.append(self.whole.as_slice())?;
        self.end(opening, start)
    }
}
