//! Each node as a parent of its parts, and each enum as one of its symbols.

ghost use Rattle.std.specs.Prelude.{◌≡◌, ℕ, List, is_some, true, Some, IfOk, OnOk};
ghost use Rattle.avro_schema.specs.Seen.{ids_of, texts_of};
ghost use Rattle.avro_schema_json.specs.DeclaredAttributes.{symbol_index};
ghost use Rattle.avro_schema_json.specs.inside.Covers.{own_ids};
ghost use Rattle.avro_schema_json.specs.inside.OwnDefaults.{all_without_defaults, fields_seen, without_defaults};
ghost use Rattle.avro_schema_json.specs.inside.Parents.{AreFields, AreParents, HasParts, IsParent, KeepsLabels, KeepsParents, label_of as label_by, label_or_values};
ghost use Rattle.avro_schema_json.specs.inside.Symbols.{AreSymbols, HasSymbol, HasSymbols};

use crate::defaults::parents::{ITEMS, Parents, VALUES, put_parent};
use crate::defaults::rows::place_of;
use crate::raw::{RawField, RawNode};
use crate::raw_nodes::branches_at;
use avro_schema::{Memory, NodeId};
use avro_texts::Seeded;
use indexmap::IndexMap;
use std::alloc::Global;
use std::collections::BTreeMap;

/// The labels of the names of fields and of symbols.
pub(crate) type Labels<'a> = IndexMap<&'a str, u32, Seeded>;

/// The label of a word: that of the fields of this name, or of the values of maps where there is none.
pub(crate) fn label_of(labels: &Labels<'_>, name: &str) -> u32
    ensures { result ≡ label_or_values labels.now name.now }
{
    labels.get(name).copied().unwrap_or(VALUES)
}

/// The label of a word, which is a new one if there is none.
fn put_label<'a>(labels: &mut Labels<'a>, word: &'a str) -> Result<u32, Memory>
    ensures kept { OnOk result (KeepsLabels labels.old labels.new) }
    ensures found { IfOk result (λ label. label_by labels.new word.now ≡ Some label) }
{
    match labels.get(word) {
        Some(label) => return Ok(*label),
        None => {}
    }
    let Ok(count) = u32::try_from(labels.len()) else {
        return Err(Memory);
    };
    let Some(label) = count.checked_add(VALUES + 1) else {
        return Err(Memory);
    };
    labels.insert(word, label)?;
    Ok(label)
}

/// Adds a parent of nodes.
fn put_parts(
    alloc: Global,
    last: u32,
    parents: &mut Parents,
    ids: &[NodeId],
    label: u32,
    parent: u32,
) -> Result<(), Memory>
    ensures kept { OnOk result (KeepsParents parents.old parents.new) }
    ensures added { OnOk result (HasParts last (ids_of ids.now) parents.new label parent) }
{
    for id in ids {
        let place = place_of(last, id.0 as usize) as usize;
        put_parent(alloc, parents, place, label, parent)?;
    }
    Ok(())
}

/// Adds a parent of a node, or of the branches of a union.
fn put_part(
    alloc: Global,
    raws: &[RawNode],
    last: u32,
    parents: &mut Parents,
    part: NodeId,
    label: u32,
    parent: u32,
) -> Result<(), Memory>
    ensures kept { OnOk result (KeepsParents parents.old parents.new) }
    ensures added { OnOk result (HasParts last (own_ids (all_without_defaults raws.now) part.0) parents.new label parent) }
{
    match branches_at(&*raws, part) {
        Some(ids) => put_parts(alloc, last, parents, ids, label, parent),
        None => put_parts(alloc, last, parents, &[part], label, parent),
    }
}

/// Adds a record as a parent of its fields.
fn put_fields<'a>(
    alloc: Global,
    raws: &[RawNode],
    last: u32,
    parents: &mut Parents,
    labels: &mut Labels<'a>,
    fields: &'a [RawField<'_>],
    parent: u32,
) -> Result<(), Memory>
    ensures kept { OnOk result (KeepsParents parents.old parents.new) }
    ensures labels { OnOk result (KeepsLabels labels.old labels.new) }
    ensures added { OnOk result (AreFields (all_without_defaults raws.now) last labels.new parents.new (fields_seen fields.now) parent) }
{
    for field in fields {
        let label = put_label(labels, field.name.as_str())?;
        put_part(alloc, raws, last, parents, field.node, label, parent)?;
    }
    Ok(())
}

/// Adds an enum as a parent of texts, the symbols.
fn put_symbols<'a>(
    alloc: Global,
    last: u32,
    parents: &mut Parents,
    labels: &mut Labels<'a>,
    words: &'a [String],
    parent: u32,
) -> Result<(), Memory>
    ensures kept { OnOk result (KeepsParents parents.old parents.new) }
    ensures labels { OnOk result (KeepsLabels labels.old labels.new) }
    ensures added { OnOk result ((word : List ℕ) → is_some (symbol_index word (texts_of words.now)) ≡ true → HasSymbol labels.new parents.new last parent word) }
{
    for word in words {
        let label = put_label(labels, word.as_str())?;
        put_parent(alloc, parents, last as usize + 1, label, parent)?;
    }
    Ok(())
}

/// Adds a node as a parent of its parts.
fn put_node<'a>(
    alloc: Global,
    raws: &[RawNode],
    last: u32,
    parents: &mut Parents,
    labels: &mut Labels<'a>,
    raw: &'a RawNode<'_>,
    parent: u32,
) -> Result<(), Memory>
    ensures kept { OnOk result (KeepsParents parents.old parents.new) }
    ensures labels { OnOk result (KeepsLabels labels.old labels.new) }
    ensures added { OnOk result (IsParent (all_without_defaults raws.now) last labels.new parents.new (without_defaults raw.now) parent) }
    ensures symbols { OnOk result (HasSymbols labels.new parents.new last parent (without_defaults raw.now)) }
{
    match raw {
        RawNode::Array(items) => put_part(alloc, raws, last, parents, *items, ITEMS, parent),
        RawNode::Map(values) => put_part(alloc, raws, last, parents, *values, VALUES, parent),
        RawNode::Record(record) => {
            put_fields(alloc, raws, last, parents, labels, &record.fields, parent)
        }
        RawNode::Enum(of_enum) => {
            put_symbols(alloc, last, parents, labels, &of_enum.node.symbols, parent)
        }
        _ => Ok(()),
    }
}

/// The parents of all nodes, and the labels.
pub(crate) fn parents_of<'a>(
    alloc: Global,
    raws: &'a [RawNode<'_>],
    last: u32,
    labels: &mut Labels<'a>,
) -> Result<Parents, Memory>
    ensures parents { IfOk result (λ parents. AreParents (all_without_defaults raws.now) last labels.new parents) }
    ensures symbols { IfOk result (λ parents. AreSymbols (all_without_defaults raws.now) last labels.new parents) }
{
    let mut parents: Parents = BTreeMap::new(alloc);
    for i in 0..raws.len() {
        put_node(
            alloc,
            raws,
            last,
            &mut parents,
            labels,
            &raws[i],
            place_of(last, i),
        )?;
    }
    Ok(parents)
}
