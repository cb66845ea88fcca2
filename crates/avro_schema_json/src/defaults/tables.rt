//! Tables of all nodes, by which it is found which of them JSON is a default of, and what was found by them.

ghost use Rattle.std.specs.Prelude.{IfOk};
ghost use Rattle.avro_schema_json.specs.inside.OwnDefaults.{all_without_defaults};
ghost use Rattle.avro_schema_json.specs.inside.Repeats.{AreNamesDistinct};
ghost use Rattle.avro_schema_json.specs.inside.Tables.{AreTables, IsMarking};

use crate::defaults::edges::{Labels, parents_of};
use crate::defaults::kinds::{Kind, kinds_of};
use crate::defaults::parents::Parents;
use crate::defaults::parts::{Marks, no_marks};
use crate::defaults::rows::Row;
use crate::raw::RawNode;
use avro_schema::Memory;
use avro_texts::Seeded;
use indexmap::IndexMap;
use std::alloc::Global;
use std::collections::BTreeMap;

/// The number of places in a row.
const PLACES: usize = 4096;

/// The nodes by their kinds, and the parents under each label.
#[derive(Drop)]
pub(crate) struct Tables<'a> {
    /// The place that all nodes past it share, one past the nodes if there are not too many.
    pub last: u32,
    pub kinds: BTreeMap<Kind, Row>,
    pub labels: Labels<'a>,
    /// A text, as one of an enum, has the place past the last.
    pub parents: Parents,
}

/// The tables, and what all defaults that were read by them have found.
#[derive(Drop)]
pub(crate) struct Marking<'a> {
    pub tables: Tables<'a>,
    pub marks: Marks,
}

/// The tables of nodes whose fields have different names, by which no default was read yet.
pub(crate) fn marking_of<'a>(
    alloc: Global,
    seed: Seeded,
    raws: &'a [RawNode<'_>],
) -> Result<Marking<'a>, Memory>
    requires distinct { AreNamesDistinct (all_without_defaults raws.now) }
    ensures { IfOk result (IsMarking (all_without_defaults raws.now)) }
{
    let tables = tables_of(alloc, seed, raws)?;
    Ok(Marking {
        tables,
        marks: no_marks(alloc),
    })
}

/// The tables of nodes whose fields have different names.
fn tables_of<'a>(alloc: Global, seed: Seeded, raws: &'a [RawNode<'_>]) -> Result<Tables<'a>, Memory>
    requires distinct { AreNamesDistinct (all_without_defaults raws.now) }
    ensures { IfOk result (λ tables. AreTables (all_without_defaults raws.now) tables) }
{
    let last = raws.len().min(PLACES - 1) as u32;
    let kinds = kinds_of(alloc, raws, last)?;
    let mut labels: Labels<'a> = IndexMap::with_hasher(alloc, seed);
    let parents = parents_of(alloc, raws, last, &mut labels)?;
    Ok(Tables {
        last,
        kinds,
        labels,
        parents,
    })
}
