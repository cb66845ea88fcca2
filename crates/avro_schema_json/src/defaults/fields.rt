ghost use Rattle.std.specs.Prelude.{◌≡◌, IfOk};
ghost use Rattle.avro_schema_json.specs.DeclaredDefaults.{member_keys, names_only};
ghost use Rattle.avro_schema_json.specs.inside.FieldNames.{HasNames};
ghost use Rattle.avro_schema_json.specs.inside.OwnDefaults.{fields_seen};
ghost use Rattle.serde_json.specs.View.{members_view};

use crate::raw::RawField;
use avro_schema::Memory;
use avro_texts::Seeded;
use indexmap::IndexMap;
use serde_json::{Map, Value};
use std::alloc::Global;

/// The names of fields, to look keys up in.
fn names_of<'a>(
    alloc: Global,
    seed: Seeded,
    fields: &'a [RawField<'_>],
) -> Result<IndexMap<&'a str, (), Seeded>, Memory>
    ensures { IfOk result (λ names. HasNames names (fields_seen fields.now)) }
{
    let mut names: IndexMap<&'a str, (), Seeded> = IndexMap::with_hasher(alloc, seed);
    for field in fields {
        names.insert(field.name.as_str(), ())?;
    }
    Ok(names)
}

/// Whether each key is the name of a field.
pub(crate) fn names_fields(
    alloc: Global,
    seed: Seeded,
    members: &Map<String, Value>,
    fields: &[RawField],
) -> Result<bool, Memory>
    ensures { IfOk result (λ answer. answer ≡ names_only (member_keys (members_view members.now.entries)) (fields_seen fields.now)) }
{
    let names = names_of(alloc, seed, fields)?;
    for (key, _) in members.iter() {
        if !names.contains_key(key.as_str()) {
            return Ok(false);
        }
    }
    Ok(true)
}
