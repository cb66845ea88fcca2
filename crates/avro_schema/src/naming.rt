//! The names that occur in nodes.

ghost use Rattle.std.specs.Prelude.{◌≡◌, ◌++◌, true, map, IfOk, option_map, filter_map, flat_map, string_bytes};
ghost use Rattle.std.specs.List.{list_all};
ghost use Rattle.avro_name.specs.Name.{is_simple_name, is_full_name, same_name};
ghost use Rattle.avro_schema.specs.Distinct.{are_distinct};
ghost use Rattle.avro_schema.specs.Node.{node_name};
ghost use Rattle.avro_schema.specs.Seen.{node_of, nodes_of, seen_fields, texts_of};
ghost use Rattle.avro_schema.specs.WellFormed.{field_names};

use crate::datum::Memory;
use crate::schema::{Field, Node};
use crate::uniqueness::are_unique;
use avro_name::{FullName, is_simple_name};
use std::alloc::Global;

/// Whether all texts are simple names.
pub(crate) fn are_simple_names(texts: &[&str]) -> bool
    ensures { result ≡ list_all is_simple_name (map (λ t. t.now) texts.now) }
{
    for text in texts {
        if !is_simple_name(text) {
            return false;
        }
    }
    true
}

/// Borrows each string as text.
pub(crate) fn texts(alloc: Global, strings: &[String]) -> Result<Vec<&str>, Memory>
    ensures { IfOk result (λ texts. map (λ t. t.now) texts.items ≡ texts_of strings.now) }
{
    let mut texts: Vec<&str> = Vec::new(alloc);
    for string in strings {
        texts.push(string.as_str())?;
    }
    Ok(texts)
}

/// The names and aliases of all fields.
pub(crate) fn names_of_fields(alloc: Global, fields: &[Field]) -> Result<Vec<&str>, Memory>
    ensures { IfOk result (λ names. map (λ t. t.now) names.items ≡ flat_map field_names (seen_fields fields.now)) }
{
    let mut names: Vec<&str> = Vec::new(alloc);
    for field in fields {
        names.push(field.name.as_str())?;
        for alias in &field.aliases {
            names.push(alias.as_str())?;
        }
    }
    Ok(names)
}

/// Tells the proof that a type's name and aliases are fullnames, as the rules of a node require.
pub(crate) fn read_names(name: &FullName, aliases: &[FullName])
    ensures own { is_full_name name.now ≡ true }
    ensures others { list_all is_full_name aliases.now ≡ true }
{
    // Only the contract of `simple` matters here: the name is a fullname.
    let _ = name.simple();
    for alias in aliases {
        let _ = alias.simple();
    }
}

/// The names of all records, enums and fixed.
fn names_of_types(alloc: Global, nodes: &[Node]) -> Result<Vec<&FullName>, Memory>
    ensures { IfOk result (λ names. map (λ n. n.now) names.items ≡ filter_map node_name (nodes_of nodes.now)) }
{
    let mut names: Vec<&FullName> = Vec::new(alloc);
    for node in nodes {
        match node.name() {
            Some(name) => names.push(name)?,
            None => {}
        }
    }
    Ok(names)
}

/// Whether no two types have the same fullname.
pub(crate) fn have_unique_names(alloc: Global, nodes: &[Node]) -> Result<bool, Memory>
    ensures { IfOk result (λ answer. answer ≡ are_distinct same_name (filter_map node_name (nodes_of nodes.now))) }
{
    are_unique(names_of_types(alloc, nodes)?)
}
