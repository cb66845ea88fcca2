//! What a copier is to do, what a block is copied by, and what is kept from block to block.

ghost use Rattle.std.specs.Prelude.{◌≡◌, option_map};
ghost use Rattle.std.specs.Option.{option_copied};
ghost use Rattle.std.specs.Coded.{codes};
ghost use Rattle.avro_schema.specs.contracts.datum.Datum as datum;

use avro_file::{Buffer, FileLimits, Header};
use avro_resolve::PlanRef;
use avro_schema_json::ReaderText;
use std::alloc::Global;

/// What a copier is to do: the reader's text and the marker, if given, and the limits.
#[derive(Clone, Copy)]
pub(crate) struct Task<'a> {
    pub(crate) reader: Option<&'a ReaderText>,
    pub(crate) sync: Option<[u8; 16]>,
    pub(crate) limits: FileLimits,
}

/// What a block is copied by: the number of earlier ones, the copier's task, the header of the file, and the plan, if there
/// is a reader.
#[derive(Drop)]
pub(crate) struct BlockTask<'a> {
    pub(crate) number: u64,
    pub(crate) task: &'a Task<'a>,
    pub(crate) header: &'a Header,
    pub(crate) plan: Option<PlanRef<'a>>,
    // the plan is of the header's schema and the reader's
    ghost planned: { plan ≡ option_map (λ r. (header.now.schema, r.1)) (option_copied task.now.reader) } by { Prim.hlevel (codes, datum.the_row.coded) },
}

/// What is kept from block to block: the bytes taken, the data packed, the block to put, and the plain encoding that a datum
/// without bytes is copied as, if one was read.
#[derive(Drop)]
pub(crate) struct Store {
    pub(crate) buffer: Buffer,
    pub(crate) packed: Vec<u8>,
    pub(crate) block: Vec<u8>,
    pub(crate) empty: Option<Vec<u8>>,
}

impl Store {
    ghost use Rattle.std.specs.Prelude.{[]};
    ghost use Rattle.avro_file.specs.Held.{held};

    /// An empty store.
    pub(crate) fn new(alloc: Global) -> Store
        ensures { held result.buffer ≡ [] }
    {
        Store {
            buffer: Buffer::new(alloc),
            packed: Vec::new(alloc),
            block: Vec::new(alloc),
            empty: None,
        }
    }

    /// Drops the bytes taken.
    pub(crate) fn forget(&mut self)
        ensures { held self.new.buffer ≡ [] }
    {
        let count = self.buffer.len();
        self.buffer.pass(count);
    }
}
