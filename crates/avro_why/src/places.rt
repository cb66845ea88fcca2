//! The values in a text of JSON: where each begins, and how it is reached.
//!
//! `serde_json` gives no offsets. So one scan goes over the tokens of the text, as the reader hands them out on which
//! `serde_json` stands, and keeps the offset of each value.

use crate::shortened::shortened;
use crate::words::escaped;
use avro_texts::Seeded;
use indexmap::{IndexMap, IndexSet};
use json::{Reader, Scratch, Token};
use std::alloc::{AllocError, Global};

/// The number of a place.
pub(crate) type PlaceId = usize;

/// The place of the whole tree.
pub(crate) const WHOLE: PlaceId = 0;

/// The most levels that JSON may be nested.
const MAX_LEVELS: usize = 127;

/// How a value is reached from the one around it.
#[derive(Clone, Copy, PartialEq, Eq, Hash)]
enum Step {
    /// By the number of its key.
    Member(usize),
    /// By its index.
    Item(usize),
}

/// Where a value is: a step from the place around it. There is none around the whole.
#[derive(Clone, Copy, PartialEq, Eq, Hash)]
struct Place {
    around: Option<PlaceId>,
    step: Step,
}

/// The first token of a value: its offset, and the text of a number.
#[derive(Clone, Copy)]
struct Start<'a> {
    offset: usize,
    number: &'a str,
}

/// The places of all values in a text, in its order. Of a key that repeats, the last member counts.
#[derive(Drop)]
pub(crate) struct Places<'a> {
    // the number of a key is its index
    keys: IndexSet<&'a str, Seeded>,
    // the number of a place is its index
    starts: IndexMap<Place, Start<'a>, Seeded>,
    /// Where the first level past the limit begins, at which the scan ends.
    pub(crate) too_deep: Option<usize>,
}

/// A scan of a text.
#[derive(Drop)]
struct Scan<'a> {
    places: Places<'a>,
    // the place of the next value
    next: Place,
    // the places of the values that come next after each array and object that is open
    after: Vec<Place>,
}

impl<'a> Places<'a> {
    /// The places of a text. Of one that is no JSON, those before its fault.
    pub(crate) fn read(
        alloc: Global,
        text: &'a str,
        seed: Seeded,
        scratch: &'a mut Scratch,
    ) -> Result<Places<'a>, AllocError> {
        let mut reader = Reader::new(text, scratch)?;
        let mut scan = Scan::new(alloc, seed);
        for _ in 0..text.len() {
            let offset = reader.offset();
            let Some(token) = reader.next() else {
                break;
            };
            scan.take(token, offset)?;
            if scan.places.too_deep.is_some() {
                break;
            }
        }
        Ok(scan.places)
    }

    /// The place that a step leads to; the place around it, if there is none.
    fn find(&self, around: PlaceId, step: Step) -> PlaceId {
        let place = Place {
            around: Some(around),
            step,
        };
        self.starts.get_index_of(&place).unwrap_or(around)
    }

    /// The place of a member.
    pub(crate) fn member(&self, around: PlaceId, key: &str) -> PlaceId {
        match self.keys.get_index_of(key) {
            Some(number) => self.find(around, Step::Member(number)),
            None => around,
        }
    }

    /// The place of an item.
    pub(crate) fn item(&self, around: PlaceId, index: usize) -> PlaceId {
        self.find(around, Step::Item(index))
    }

    /// The offset of the value at a place.
    pub(crate) fn offset(&self, place: PlaceId) -> usize {
        let found = self.starts.get_index(place);
        found.map_or(0, |(_, start)| start.offset)
    }

    /// The number at a place, as it is written.
    pub(crate) fn number(&self, place: PlaceId) -> &'a str {
        let found = self.starts.get_index(place);
        found.map_or("", |(_, start)| start.number)
    }

    /// The steps from the whole to a place, the last one first.
    fn steps_to(&self, alloc: Global, place: PlaceId) -> Result<Vec<Step>, AllocError> {
        let mut steps = Vec::new(alloc);
        let mut at = place;
        for _ in 0..MAX_LEVELS {
            let Some((found, _)) = self.starts.get_index(at) else {
                break;
            };
            let Some(around) = found.around else {
                break;
            };
            steps.push(found.step)?;
            at = around;
        }
        Ok(steps)
    }

    /// The JSON pointer of a place (RFC 6901), which is empty for the whole. Keys are escaped as in a JSON string
    /// (section 5), so that it stays in its line, and a long pointer is cut in the middle.
    pub(crate) fn pointer(&self, alloc: Global, place: PlaceId) -> Result<String, AllocError> {
        let mut pointer = String::new(alloc);
        let steps = self.steps_to(alloc, place)?;
        for step in steps.iter().rev() {
            pointer.push('/')?;
            match step {
                Step::Member(number) => {
                    if let Some(key) = self.keys.get_index(*number) {
                        put_key(alloc, &mut pointer, key)?;
                    }
                }
                Step::Item(index) => pointer.push_str(index.to_string(alloc)?.as_str())?,
            }
        }
        shortened(alloc, pointer)
    }
}

impl<'a> Scan<'a> {
    /// A scan before its first token.
    fn new(alloc: Global, seed: Seeded) -> Scan<'a> {
        Scan {
            places: Places {
                keys: IndexSet::with_hasher(alloc, seed),
                starts: IndexMap::with_hasher(alloc, seed),
                too_deep: None,
            },
            next: Place {
                around: None,
                step: Step::Item(0),
            },
            after: Vec::new(alloc),
        }
    }

    /// Takes a token at an offset.
    fn take(&mut self, token: Token<'a>, offset: usize) -> Result<(), AllocError> {
        match token {
            Token::BeginObject | Token::BeginArray if self.after.len() == MAX_LEVELS => {
                self.places.too_deep = Some(offset);
            }
            Token::BeginObject | Token::BeginArray => {
                let around = self.put(offset, "")?;
                self.after.push(self.next)?;
                self.next = Place {
                    around: Some(around),
                    step: Step::Item(0),
                };
            }
            Token::EndObject | Token::EndArray => {
                if let Some(next) = self.after.pop() {
                    self.next = next;
                }
            }
            Token::Key(key) => {
                let (number, _) = self.places.keys.insert_full(key)?;
                self.next.step = Step::Member(number);
            }
            Token::Number(number) => {
                self.put(offset, number)?;
            }
            Token::String(_) | Token::Bool(_) | Token::Null => {
                self.put(offset, "")?;
            }
            Token::Bad => {}
        }
        Ok(())
    }

    /// Puts the start of the next value.
    fn put(&mut self, offset: usize, number: &'a str) -> Result<PlaceId, AllocError> {
        let place = self.next;
        if let Step::Item(index) = place.step {
            self.next.step = Step::Item(index.saturating_add(1));
        }
        let (id, _) = self
            .places
            .starts
            .insert_full(place, Start { offset, number })?;
        Ok(id)
    }
}

/// Puts a key of a pointer (RFC 6901, section 3).
fn put_key(alloc: Global, pointer: &mut String, key: &str) -> Result<(), AllocError> {
    let escaped = escaped(alloc, key)?;
    for character in escaped.chars() {
        match character {
            '~' => pointer.push_str("~0")?,
            '/' => pointer.push_str("~1")?,
            other => pointer.push(other)?,
        }
    }
    Ok(())
}
