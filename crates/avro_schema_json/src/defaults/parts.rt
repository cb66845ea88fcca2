//! What is kept of JSON and of its parts, from the innermost outwards.

ghost use Rattle.avro_schema_json.specs.inside.Steps.{AreNoSteps};

use crate::defaults::sets::Sets;
use crate::defaults::steps::Memo;
use std::alloc::Global;
use std::collections::BTreeMap;

/// The set of nodes that JSON is a default of itself, where the marks of its parts begin, and how many they are.
#[derive(Clone, Copy, Drop)]
pub(crate) struct Mark {
    pub set: u32,
    pub parts: u32,
    pub count: u32,
}

/// The sets that were found, and the marks of all parts: those of an array in the order of its items, those of an
/// object in the order of its keys.
#[derive(Drop)]
pub(crate) struct Marks {
    pub memo: Memo,
    pub all: Vec<Mark>,
}

/// No marks.
pub(crate) fn no_marks(alloc: Global) -> Marks
    ensures { AreNoSteps result.memo }
{
    Marks {
        memo: Memo {
            sets: Sets {
                rows: Vec::new(alloc),
                numbers: BTreeMap::new(alloc),
            },
            steps: BTreeMap::new(alloc),
        },
        all: Vec::new(alloc),
    }
}
