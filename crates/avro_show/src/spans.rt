use avro_binary::Place;
use std::collections::BTreeMap;

/// Where the display of a part stands in a text.
#[derive(Clone, Copy)]
pub(crate) struct Span {
    pub(crate) start: usize,
    pub(crate) end: usize,
}

/// Where the displays of the items of an array stand, or of the fields of a record, so far. The owner is the place of
/// the array or the record.
#[derive(Drop)]
pub(crate) struct Spans {
    pub(crate) owner: Place,
    pub(crate) parts: Vec<Span>,
}

/// Where the displays of the values of a map stand, so far, by their keys, and how many bytes the keys have.
#[derive(Drop)]
pub(crate) struct KeyedSpans {
    pub(crate) owner: Place,
    pub(crate) parts: BTreeMap<String, Span>,
    pub(crate) bytes: usize,
}
