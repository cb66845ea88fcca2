//! What is to be shown, and what a file's data are shown by.

ghost use Rattle.std.specs.Prelude.{◌≡◌, option_map, unwrap_or};
ghost use Rattle.std.specs.Option.{option_copied};
ghost use Rattle.std.specs.Coded.{codes};
ghost use Rattle.avro_schema.specs.contracts.datum.Datum as datum;

use avro_display::DisplayTable;
use avro_file::{FileLimits, Header};
use avro_resolve::Plan;
use avro_schema::Schema;
use std::alloc::Global;

/// What is to be shown: the data for a reader's schema, if there is one, within the limits.
#[derive(Drop)]
pub(crate) struct Task<'a> {
    pub(crate) alloc: Global,
    pub(crate) reader: Option<&'a Schema>,
    pub(crate) limits: FileLimits,
}

/// What a file's data are shown by: the task, the file's header, the plan if there is a reader, and the displays of data of the
/// schema that is shown.
#[derive(Drop)]
pub(crate) struct Opened<'a> {
    pub(crate) task: &'a Task<'a>,
    pub(crate) header: &'a Header,
    pub(crate) plan: &'a Option<Plan<'a>>,
    pub(crate) table: &'a DisplayTable<'a>,
    // the plan is of the header's schema and the reader's
    ghost planned: { plan.now ≡ option_map (λ r. (header.now.schema, r)) (option_copied task.now.reader) } by { Prim.hlevel (codes, datum.the_row.coded) },
    // the reader's schema is shown, or else the header's
    ghost displayed: { table.now ≡ unwrap_or (option_copied task.now.reader) header.now.schema } by { Prim.hlevel (codes, datum.the_row.coded) },
}
