use crate::error::SchemaError;
use crate::read::read_schema;
use avro_schema::Schema;
use std::alloc::Global;
use std::marker::Model;

/// A schema with the JSON text that declares it. Contracts see the bytes of the text and the schema.
#[derive(Drop)]
pub struct ReaderText {
    text: Vec<u8>,
    schema: Schema,
}

impl Model for ReaderText {
    ghost use Rattle.std.specs.Prelude.{ℕ, List};
    ghost use Rattle.std.specs.Coded.{codes};
    ghost use Rattle.avro_schema.specs.contracts.datum.Datum as datum;
    ghost use Rattle.avro_schema.specs.declared.schema.Schema.{Schema};
    ghost use Rattle.avro_schema.specs.SeenSchema.{schema_nodes};
    ghost use Rattle.avro_schema_json.specs.DeclaredText.{DeclaresText};

    ghost Value = { List ℕ × Schema };

    ghost coded = { Prim.hlevel (codes, datum.the_row.coded) };

    ghost view = { λ r. (r.text.items, r.schema) };

    ghost invariant = { λ r. DeclaresText r.text.items (schema_nodes r.schema) };
}

impl ReaderText {
    ghost use Rattle.std.specs.Prelude.{◌≡◌, ◌<◌, ◌≤◌, ◌↔◌, List, length, IfOk, IfErr, IsErrOf};
    ghost use Rattle.avro_schema.specs.Node.{Node};
    ghost use Rattle.avro_schema.specs.SeenSchema.{schema_nodes};
    ghost use Rattle.avro_schema_json.specs.Declaration.{max_text, HasTree, IsNoJson};
    ghost use Rattle.avro_schema_json.specs.DeclaredSchema.{DeclaresSchema};
    ghost use Rattle.avro_schema_json.specs.DeclaredText.{DeclaresText};
    ghost use Rattle.avro_schema_json.specs.Refusals.{HasMemory};
    ghost use Rattle.avro_schema_json.specs.TextRefusals.{IsRefusalOf};
    ghost use Rattle.serde_json.specs.Data.{Data};

    /// Reads a JSON text as [`read_schema`] does, and keeps it.
    ///
    /// # Errors
    ///
    /// Those of [`read_schema`].
    pub fn read(alloc: Global, text: &[u8]) -> Result<ReaderText, SchemaError>
        ensures kept { IfOk result (λ reader. reader.0 ≡ text.now) }
        ensures found { IfOk result (λ reader. DeclaresText text.now (schema_nodes reader.1)) }
        ensures complete { (tree : Data) (nodes : List Node) → HasTree text.now tree → DeclaresSchema tree nodes
            → length text.now ≤ max_text → IfErr result (λ e. e ≡ SchemaError.OutOfMemory) }
        ensures too_long { max_text < length text.now → IsErrOf result SchemaError.LimitExceeded }
        ensures not_json { IsErrOf result SchemaError.NotJson
            ↔ (HasMemory result × (length text.now ≤ max_text) × IsNoJson text.now) }
        ensures refused { IfErr result (IsRefusalOf text.now) }
    {
        let schema = read_schema(alloc, text)?;
        let text = Vec::from_slice(alloc, text)?;
        Ok(ReaderText { text, schema })
    }

    /// The text.
    pub fn text(&self) -> &[u8]
        ensures text { result.now ≡ self.now.0 }
        ensures declares { DeclaresText self.now.0 (schema_nodes self.now.1) }
    {
        &self.text
    }

    /// The schema that the text declares.
    pub fn schema(&self) -> &Schema
        ensures schema { result.now ≡ self.now.1 }
        ensures declares { DeclaresText self.now.0 (schema_nodes self.now.1) }
    {
        &self.schema
    }
}
