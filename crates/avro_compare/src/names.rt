use crate::comparison::Target;
use crate::pairs::{first_index, target_by};
use crate::part_finding::{
    field_numbers_at, source_by_numbers, symbol_by_numbers, symbol_numbers_at, symbol_numbers_of,
};
use crate::part_numbers::{PartNumbers, part_numbers};
use crate::seed::seed_of;
use crate::sourcing::{fields_of, source_among};
use crate::symbols::{symbol_of_id, symbol_of_place, text_of};
use crate::type_names::{TypeNames, type_names};
use avro_schema::{Field, Memory, NodeId, Schema};
use avro_texts::Seeded;
use std::alloc::Global;
use std::marker::Model;

/// A writer's schema and a reader's, with tables by which names are found without looking at all of
/// them: the branches of the reader's unions, for the first match of a record, an enum or a fixed,
/// the fields of the writer's records, the aliases of the reader's fields, and the symbols of the
/// reader's enums. All names are numbered, and compared by their numbers. Contracts see the two
/// schemas.
#[derive(Drop)]
pub struct Names<'a> {
    writer: &'a Schema,
    reader: &'a Schema,
    types: Option<TypeNames<'a>>,
    parts: Option<PartNumbers<'a>>,
}

impl<'a> Model for Names<'a> {
    ghost use Rattle.std.specs.Coded.{codes};
    ghost use Rattle.std.specs.Option.{IfSome};
    ghost use Rattle.avro_schema.specs.contracts.datum.Datum as datum;
    ghost use Rattle.avro_schema.specs.declared.schema.Schema.{Schema};
    ghost use Rattle.avro_schema.specs.SeenSchema.{schema_nodes};
    ghost use Rattle.avro_compare.specs.inside.PartNumbers.{ArePartNumbers};
    ghost use Rattle.avro_compare.specs.inside.TypeNames.{AreTypeNames};

    ghost Value = { Schema × Schema };

    ghost coded = { Prim.hlevel (codes, datum.the_row.coded) };

    ghost view = { λ names. (names.writer.now, names.reader.now) };

    ghost invariant = { λ names. IfSome names.types (AreTypeNames (schema_nodes names.writer.now) (schema_nodes names.reader.now))
        × IfSome names.parts (ArePartNumbers (schema_nodes names.writer.now) (schema_nodes names.reader.now)) };
}

impl<'a> Names<'a> {
    ghost use Rattle.std.specs.Prelude.{◌≡◌, IfOk, Some, slice_get};
    ghost use Rattle.avro_schema.specs.Node.{node_at};
    ghost use Rattle.avro_schema.specs.Seen.{field_of};
    ghost use Rattle.avro_schema.specs.SeenSchema.{schema_nodes};
    ghost use Rattle.avro_compare.specs.Match.{first_match_at};
    ghost use Rattle.avro_compare.specs.Pairs.{IsTarget, IsSymbol, target_at};
    ghost use Rattle.avro_compare.specs.Resolve.{enum_as, fields_at, symbol_at};
    ghost use Rattle.avro_compare.specs.Source.{source_of};

    /// The tables of two schemas.
    ///
    /// # Errors
    ///
    /// Memory ran out.
    pub fn new(alloc: Global, writer: &'a Schema, reader: &'a Schema) -> Result<Names<'a>, Memory>
        ensures { IfOk result (λ names. names ≡ (writer.now, reader.now)) }
    {
        let seed = seed_of(writer, reader);
        let types = type_names(alloc, seed, writer, reader)?;
        let parts = part_numbers(alloc, seed, writer, reader)?;
        Ok(Names {
            writer,
            reader,
            types: Some(types),
            parts: Some(parts),
        })
    }

    /// No tables: all names are looked through.
    pub fn none(alloc: Global, writer: &'a Schema, reader: &'a Schema) -> Names<'a>
        ensures { result ≡ (writer.now, reader.now) }
    {
        Names {
            writer,
            reader,
            types: None,
            parts: None,
        }
    }

    /// The first branch of a reader's union that matches a writer's node, by its index among the
    /// branches, as [`first_match`](crate::first_match) returns it.
    pub fn first_match(&self, w: NodeId, r: NodeId) -> Option<usize>
        ensures { result ≡ first_match_at (schema_nodes self.now.0) (schema_nodes self.now.1)
            (node_at (schema_nodes self.now.0) w.0) (node_at (schema_nodes self.now.1) r.0) }
    {
        first_index(self.types.as_ref(), self.writer, w, self.reader, r)
    }

    /// The index of the field of a writer's record that a reader's field takes its value from, as
    /// [`source`](crate::source) returns it; none at another writer's node.
    pub fn source(&self, w: NodeId, field: &Field) -> Option<usize>
        ensures { result ≡ source_of (fields_at (node_at (schema_nodes self.now.0) w.0)) (field_of field.now) }
    {
        source_among(fields_of(self.writer, w), field)
    }

    /// The same of a reader's field at an index of a record, by number.
    pub(crate) fn source_at(
        &self,
        w: NodeId,
        r: NodeId,
        index: usize,
        field: &Field,
    ) -> Option<usize>
        requires { slice_get (fields_at (node_at (schema_nodes self.now.1) r.0)) index ≡ Some (field_of field.now) }
        ensures { result ≡ source_of (fields_at (node_at (schema_nodes self.now.0) w.0)) (field_of field.now) }
    {
        if let Some(parts) = &self.parts {
            if let Some(found) = field_numbers_at(parts, w, r, index) {
                return source_by_numbers(parts, found);
            }
        }
        self.source(w, field)
    }

    /// The index of a symbol of a reader's enum, or of its default; none at another reader's node.
    pub fn symbol(&self, symbol: &str, q: NodeId) -> Option<u32>
        ensures { IsSymbol (enum_as symbol.now (node_at (schema_nodes self.now.1) q.0)) result }
    {
        if let Some(parts) = &self.parts {
            if let Some(found) = symbol_numbers_of(parts, symbol, q) {
                let index = symbol_by_numbers(parts, found);
                return symbol_of_place(self.reader, q, symbol, index);
            }
        }
        symbol_of_id(self.reader, q, symbol)
    }

    /// The same of the symbol at an index of a writer's enum, by number.
    pub(crate) fn symbol_at(&self, w: NodeId, index: usize, q: NodeId) -> Option<u32>
        ensures { IsSymbol (enum_as (symbol_at (node_at (schema_nodes self.now.0) w.0) index) (node_at (schema_nodes self.now.1) q.0)) result }
    {
        let symbol = text_of(self.writer, w, index);
        if let Some(parts) = &self.parts {
            if let Some(found) = symbol_numbers_at(parts, w, index, q) {
                let index = symbol_by_numbers(parts, found);
                return symbol_of_place(self.reader, q, symbol, index);
            }
        }
        symbol_of_id(self.reader, q, symbol)
    }

    /// Where a pair of nodes leads.
    pub fn target(&self, w: NodeId, r: NodeId) -> Target
        ensures targets { result ≡ target_at (schema_nodes self.now.0) (schema_nodes self.now.1) w r }
        ensures leads { IsTarget (schema_nodes self.now.0) (schema_nodes self.now.1)
            (node_at (schema_nodes self.now.0) w.0) (node_at (schema_nodes self.now.1) r.0) result }
    {
        target_by(self.types.as_ref(), self.writer, w, self.reader, r)
    }

    /// The seed of the tables, from all names and edges of the two schemas.
    pub fn seed(&self) -> Seeded {
        match &self.parts {
            Some(parts) => parts.seed,
            None => seed_of(self.writer, self.reader),
        }
    }

    /// The writer's schema.
    pub fn writer(&self) -> &Schema
        ensures { result.now ≡ self.now.0 }
    {
        self.writer
    }

    /// The reader's schema.
    pub fn reader(&self) -> &Schema
        ensures { result.now ≡ self.now.1 }
    {
        self.reader
    }
}
