ghost use Rattle.std.specs.Prelude.{◌≡◌, ◌≢◌, ◌⊎◌, ◌<◌, ◌≤◌, ◌↔◌, List, false, length, IfOk, IfErr, IsErrOf};
ghost use Rattle.avro_schema.specs.Node.{Node};
ghost use Rattle.avro_schema.specs.SeenSchema.{schema_nodes};
ghost use Rattle.avro_schema_json.specs.Declaration.{max_text, HasTree, IsNoJson};
ghost use Rattle.avro_schema_json.specs.DeclaredFaults.{HasFault};
ghost use Rattle.avro_schema_json.specs.DeclaredSchema.{DeclaresSchema};
ghost use Rattle.avro_schema_json.specs.DeclaredText.{DeclaresText};
ghost use Rattle.avro_schema_json.specs.Refusals.{HasMemory};
ghost use Rattle.avro_schema_json.specs.TextRefusals.{IsRefusalOf};
ghost use Rattle.avro_schema_json.specs.declared.error.SchemaError.TheVariants.{NotJson, OutOfMemory};
ghost use Rattle.serde_json.specs.Data.{Data};
ghost use Rattle.serde_json.specs.View.{view};
ghost use Rattle.serde_json.specs.Written.{has_float};

use crate::completed::schema_of;
use crate::declarations::declarations;
use crate::error::SchemaError;
use crate::seeds::Seeds;
use crate::survey::Survey;
use avro_schema::Schema;
use serde_json::Value;
use std::alloc::Global;

/// The greatest length of a text.
const MAX_TEXT: usize = 1_048_576;

/// The schema that a JSON text declares (Avro 1.11, "Schema Declaration"), whenever it declares one and is not too long.
/// The length of the text is checked first, then its JSON, its numbers, the declarations, the rules of the whole schema,
/// and the defaults.
///
/// # Errors
///
/// One of the faults; each is described at its variant of [`SchemaError`].
pub fn read_schema(alloc: Global, text: &[u8]) -> Result<Schema, SchemaError>
    ensures found { IfOk result (λ schema. DeclaresText text.now (schema_nodes schema)) }
    ensures complete { (tree : Data) (nodes : List Node) → HasTree text.now tree → DeclaresSchema tree nodes
        → length text.now ≤ max_text → IfErr result (λ e. e ≡ OutOfMemory) }
    ensures too_long { max_text < length text.now → IsErrOf result SchemaError.LimitExceeded }
    ensures not_json { IsErrOf result SchemaError.NotJson
        ↔ (HasMemory result × (length text.now ≤ max_text) × IsNoJson text.now) }
    ensures refused { IfErr result (IsRefusalOf text.now) }
{
    if text.len() > MAX_TEXT {
        return Err(SchemaError::LimitExceeded);
    }
    let tree = read_tree(alloc, text)?;
    declared_schema(alloc, text, &tree)
}

/// The tree of a JSON text.
fn read_tree(alloc: Global, text: &[u8]) -> Result<Value, SchemaError>
    ensures found { IfOk result (λ tree. HasTree text.now (view tree)) }
    ensures not_json { IsErrOf result SchemaError.NotJson → IsNoJson text.now }
    ensures err { IfErr result (λ e. (e ≡ NotJson) ⊎ (e ≡ OutOfMemory)) }
{
    match Value::from_slice(alloc, text) {
        Ok(tree) => Ok(tree),
        Err(e) => Err(if e.is_memory() {
            SchemaError::OutOfMemory
        } else {
            SchemaError::NotJson
        }),
    }
}

/// The schema that a tree declares. The text only serves to hash names. What repeats is told before other faults of nodes, whether or
/// not defaults need tables: a tree that is refused without them is read once more with them.
fn declared_schema(alloc: Global, text: &[u8], tree: &Value) -> Result<Schema, SchemaError>
    ensures found { IfOk result (λ schema. DeclaresSchema (view tree.now) (schema_nodes schema)) }
    ensures refused { IfErr result (λ e. (e ≡ OutOfMemory) ⊎ HasFault (view tree.now) e) }
    ensures json { IfErr result (λ e. e ≢ NotJson) }
{
    let mut survey = Survey::new();
    if survey.has_float(tree) {
        return Err(SchemaError::UnsupportedNumber);
    }
    let seeds = Seeds::of(text, survey);
    let read = schema_by(alloc, seeds, tree);
    if read.is_err() && seeds.defaults.is_none() {
        return schema_by(alloc, seeds.with_tables(text), tree);
    }
    read
}

/// The schema that a tree declares, by tables with these seeds.
fn schema_by(alloc: Global, seeds: Seeds, tree: &Value) -> Result<Schema, SchemaError>
    requires whole { false ≡ has_float (view tree.now) }
    ensures found { IfOk result (λ schema. DeclaresSchema (view tree.now) (schema_nodes schema)) }
    ensures refused { IfErr result (λ e. (e ≡ OutOfMemory) ⊎ HasFault (view tree.now) e) }
    ensures json { IfErr result (λ e. e ≢ NotJson) }
{
    let raws = declarations(alloc, seeds, tree)?;
    schema_of(alloc, seeds, raws)
}
