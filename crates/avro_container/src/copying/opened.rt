//! The header of the file to copy, with what is needed to read its data for a reader.

use avro_file::Header;
use avro_resolve::{PlanRef, PlanTable};
use avro_schema::Memory;
use avro_schema_json::ReaderText;
use std::alloc::Global;
use std::marker::Model;

/// A reader's text, and the plan table of the file's schema and the reader's.
#[derive(Drop)]
struct Target<'a> {
    reader: &'a ReaderText,
    table: PlanTable,
}

/// A header that was read, and the reader of its data. Contracts see the header, and the reader's text and schema if there
/// is a reader.
#[derive(Drop)]
pub(crate) struct Opened<'a> {
    header: Header,
    target: Option<Target<'a>>,
}

impl<'a> Model for Opened<'a> {
    ghost use Rattle.std.specs.Prelude.{ℕ, List, Option, option_map};
    ghost use Rattle.std.specs.Option.{IfSome};
    ghost use Rattle.std.specs.Coded.{codes};
    ghost use Rattle.avro_schema.specs.declared.schema.Schema.{Schema};
    ghost use Rattle.avro_schema.specs.SeenSchema.{schema_nodes};
    ghost use Rattle.avro_resolve.specs.Tables.{IsTableOf};
    ghost use Rattle.avro_file.specs.declared.header.Header.{Header};
    ghost use Rattle.avro_schema.specs.contracts.datum.Datum as datum;

    ghost Value = { Header × Option (List ℕ × Schema) };

    ghost coded = { Prim.hlevel (codes, datum.the_row.coded) };

    ghost view = { λ o. (o.header, option_map (λ t. t.reader.now) o.target) };

    ghost invariant = { λ o. IfSome o.target (λ t. IsTableOf (schema_nodes o.header.schema) (schema_nodes t.reader.now.1) t.table) };
}

impl<'a> Opened<'a> {
    ghost use Rattle.std.specs.Prelude.{◌≡◌, IfOk, option_map};
    ghost use Rattle.std.specs.Option.{option_copied};

    /// A header whose data are read for this reader, or as they are if there is none.
    ///
    /// # Errors
    ///
    /// Memory ran out.
    pub(crate) fn new(
        alloc: Global,
        header: Header,
        reader: Option<&'a ReaderText>,
    ) -> Result<Opened<'a>, Memory>
        ensures header { IfOk result (λ opened. opened.0 ≡ header) }
        ensures reader { IfOk result (λ opened. opened.1 ≡ option_copied reader.entry) }
    {
        match reader {
            Some(reader) => {
                let table = PlanTable::reached(alloc, header.schema(), reader.schema())?;
                Ok(Opened {
                    header,
                    target: Some(Target { reader, table }),
                })
            }
            None => Ok(Opened {
                header,
                target: None,
            }),
        }
    }

    /// The header.
    pub(crate) fn header(&self) -> &Header
        ensures { result.now ≡ self.now.0 }
    {
        &self.header
    }

    /// The plan by which its data are read, if there is a reader.
    pub(crate) fn plan(&self) -> Option<PlanRef<'_>>
        ensures { result ≡ option_map (λ r. (self.now.0.schema, r.1)) self.now.1 }
    {
        match &self.target {
            Some(target) => {
                let writer = self.header.schema();
                let reader = target.reader.schema();
                Some(target.table.plan(writer, reader))
            }
            None => None,
        }
    }
}
