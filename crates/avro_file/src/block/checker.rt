//! Checking the data of successive blocks.

use crate::block::Block;
use crate::block::datum::walk_data;
use crate::error::CopyError;
use crate::header::Header;
use crate::limits::FileLimits;
use std::alloc::Global;
use std::marker::Model;

/// Reads the data of a file's blocks, one block after another, without building anything. A datum without bytes is read
/// only once: each later block takes one step, however many data it has.
///
/// Contracts see the header and the limits by which it reads.
#[derive(Drop)]
pub struct Checker<'a> {
    alloc: Global,
    header: &'a Header,
    limits: FileLimits,
    empty: bool,
}

impl<'a> Model for Checker<'a> {
    ghost use Rattle.std.specs.Prelude.{◌≡◌, true, None};
    ghost use Rattle.std.specs.Coded.{codes};
    ghost use Rattle.avro_schema.specs.SeenSchema.{schema_nodes};
    ghost use Rattle.avro_schema.specs.contracts.datum.Datum as datum;
    ghost use Rattle.avro_file.specs.declared.header.Header.{Header};
    ghost use Rattle.avro_file.specs.BlockFails.{FileLimitValues};
    ghost use Rattle.avro_file.specs.DataRead.{reading};
    ghost use Rattle.avro_file.specs.NoBytes.{HasNoBytes};

    ghost Value = { Header × FileLimitValues };

    ghost coded = { Prim.hlevel (codes, datum.the_row.coded) };

    ghost view = { λ c. (c.header.now, c.limits) };

    ghost invariant = { λ c. c.empty ≡ true → HasNoBytes (reading c.limits (schema_nodes c.header.now.schema) c.header.now.sync None) };
}

impl<'a> Checker<'a> {
    ghost use Rattle.std.specs.Prelude.{◌≡◌, None, Some, OnOk};
    ghost use Rattle.std.specs.Result.{IfErr};
    ghost use Rattle.avro_schema.specs.SeenSchema.{schema_nodes};
    ghost use Rattle.avro_schema.specs.Value.{Values};
    ghost use Rattle.avro_file.specs.BlockFails.{DataAreWhole};
    ghost use Rattle.avro_file.specs.DataRead.{IsDataFault, reading};
    ghost use Rattle.avro_file.specs.FileFault.{FileFault};
    ghost use Rattle.avro_file.specs.FileSeen.{file_fault};

    /// A checker for the blocks of the file with this header, within limits.
    pub fn new(alloc: Global, header: &'a Header, limits: &FileLimits) -> Checker<'a>
        ensures { result ≡ (header.now, limits.now) }
    {
        Checker {
            alloc,
            header,
            limits: *limits,
            empty: false,
        }
    }

    /// Reads the data of a block as data of the header's schema, as [`Block::check`] does. A datum without bytes is read once for all blocks.
    ///
    /// # Errors
    ///
    /// Those of [`Block::check`].
    pub fn check(&mut self, block: &Block<'_>) -> Result<(), CopyError>
        ensures same { self.new ≡ self.old }
        ensures found { OnOk result ((values : Values) × DataAreWhole
            (reading self.old.1 (schema_nodes self.old.0.schema) self.old.0.sync None)
            block.now.count block.now.body.items values) }
        ensures refused { IfErr result (λ e. (f : FileFault) → file_fault e ≡ Some f → IsDataFault
            (reading self.old.1 (schema_nodes self.old.0.schema) self.old.0.sync None)
            block.now.number block.now.count block.now.body.items f) }
        ensures memory { IfErr result (λ e. file_fault e ≡ None → e ≡ CopyError.OutOfMemory) }
    {
        let body = block.body();
        let count = block.count();
        let number = block.number;
        if self.empty {
            if body.is_empty() {
                return Ok(());
            }
            return Err(CopyError::BytesLeft(number));
        }
        self.empty = walk_data(self.alloc, self.header, &self.limits, number, count, body)?;
        Ok(())
    }
}
