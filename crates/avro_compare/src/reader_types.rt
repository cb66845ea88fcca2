//! Which of the reader's types have an alias.

ghost use Rattle.std.specs.Prelude.{◌≡◌, ◌&&◌, ◌||◌, ◌==◌, ℕ, IfOk, OnOk, None, cond, nat_eq, true, Some, is_some};
ghost use Rattle.std.specs.BTreeMap.{get};
ghost use Rattle.std.specs.Ordering.{is_eq};
ghost use Rattle.indexmap.specs.IndexSet.{contains};
ghost use Rattle.avro_schema.specs.Node.{node_at};
ghost use Rattle.avro_schema.specs.SeenSchema.{schema_nodes};
ghost use Rattle.avro_compare.specs.inside.NamedTypes.{aliases_of, named_type as type_of};
ghost use Rattle.avro_compare.specs.inside.TypeNames.{HoldsAliases, NameKey, has_alias, holds, is_name, is_number, is_text, key_cmp, AreUnionTables, FindsFirst, FindsPlaces, IsUnionTable, branches_at, is_own, passes};
ghost use Rattle.std.specs.List.{list_all};
ghost use Rattle.avro_schema.specs.Seen.{ids_of};
ghost use Rattle.avro_schema.specs.WellFormed.{branch_kind};

use crate::named_type::NamedType;
use crate::type_names::{AliasSets, UnionTable, number, simple_of, type_at};
use avro_name::FullName;
use avro_schema::{Node, NodeId, Schema};
use avro_texts::Texts;
use indexmap::IndexSet;
use std::alloc::{AllocError, Global};
use std::collections::BTreeMap;

/// The namespace of a type with its number, if it has one. An alias is mostly in it, and a long one is compared faster
/// than it is looked up.
#[derive(Clone, Copy)]
pub(crate) struct Space<'s> {
    text: &'s str,
    number: Option<u32>,
}

/// The reader's types that have an alias, for each alias whose parts are numbered.
pub(crate) fn alias_sets(
    alloc: Global,
    texts: &Texts,
    reader: &Schema,
) -> Result<AliasSets, AllocError>
    ensures { IfOk result (HoldsAliases texts.now (schema_nodes reader.now)) }
{
    let mut sets = BTreeMap::new(alloc);
    for index in 0..reader.len() {
        add_type(alloc, &mut sets, texts, reader, NodeId(index as u32))?;
    }
    Ok(sets)
}

/// Adds a node for its aliases, if it is a type.
fn add_type(
    alloc: Global,
    sets: &mut AliasSets,
    texts: &Texts,
    reader: &Schema,
    id: NodeId,
) -> Result<(), AllocError>
    ensures { OnOk result ((key : NameKey) (b : ℕ) → holds sets.new key b
        ≡ ((id.0 == b && has_alias texts.now key (aliases_of (type_of (node_at (schema_nodes reader.now) id.0)))) || holds sets.old key b)) }
{
    match type_at(reader, id) {
        None => Ok(()),
        Some(named) => {
            if named.aliases.is_empty() {
                return Ok(());
            }
            let own = space_of(texts, named.name.namespace());
            add_aliases(alloc, sets, texts, own, named.aliases, id.0)
        }
    }
}

/// A namespace with its number.
fn space_of<'s>(texts: &Texts, text: &'s str) -> Space<'s>
    ensures text { result.text.now ≡ text.now }
    ensures number { (i : ℕ) → is_number i result.number ≡ is_text texts.now i text.now }
{
    Space {
        text,
        number: number(texts, text),
    }
}

/// Adds a type for some aliases.
fn add_aliases(
    alloc: Global,
    sets: &mut AliasSets,
    texts: &Texts,
    own: Space,
    aliases: &[FullName],
    id: u32,
) -> Result<(), AllocError>
    requires { (i : ℕ) → is_number i own.number ≡ is_text texts.now i own.text.now }
    ensures { OnOk result ((key : NameKey) (b : ℕ) → holds sets.new key b ≡ ((id == b && has_alias texts.now key aliases.now) || holds sets.old key b)) }
{
    let mut left = aliases.len();
    while left > 0 {
        left -= 1;
        add_alias(alloc, sets, texts, own, &aliases[left], id)?;
    }
    Ok(())
}

/// Adds a type for an alias, if both its parts have numbers.
fn add_alias(
    alloc: Global,
    sets: &mut AliasSets,
    texts: &Texts,
    own: Space,
    alias: &FullName,
    id: u32,
) -> Result<(), AllocError>
    requires { (i : ℕ) → is_number i own.number ≡ is_text texts.now i own.text.now }
    ensures { OnOk result ((key : NameKey) (b : ℕ) → holds sets.new key b ≡ ((id == b && is_name texts.now key alias.now) || holds sets.old key b)) }
{
    match number(texts, alias.simple()) {
        None => Ok(()),
        Some(simple) => match space_number(texts, own, alias.namespace()) {
            None => Ok(()),
            Some(space) => add_id(alloc, sets, (simple, space), id),
        },
    }
}

/// The number of a namespace, if it has one.
fn space_number(texts: &Texts, own: Space, text: &str) -> Option<u32>
    requires { (i : ℕ) → is_number i own.number ≡ is_text texts.now i own.text.now }
    ensures { (i : ℕ) → is_number i result ≡ is_text texts.now i text.now }
{
    if own.text == text {
        return own.number;
    }
    number(texts, text)
}

/// Adds a type for the numbers of an alias.
fn add_id(alloc: Global, sets: &mut AliasSets, key: (u32, u32), id: u32) -> Result<(), AllocError>
    ensures { OnOk result ((k : NameKey) (b : ℕ) → holds sets.new k b ≡ ((id == b && (key.0 == k.0 && key.1 == k.1)) || holds sets.old k b)) }
{
    let mut set = take_set(alloc, sets, key);
    set.insert(id)?;
    sets.insert(key, set)?;
    Ok(())
}

/// Takes out the set of an alias, or a new one.
fn take_set(alloc: Global, sets: &mut AliasSets, key: (u32, u32)) -> IndexSet<u32>
    ensures taken { (b : ℕ) → contains nat_eq result b ≡ holds sets.old key b }
    ensures others { (k : NameKey) → get key_cmp sets.new k ≡ cond (is_eq (key_cmp key k)) None (get key_cmp sets.old k) }
{
    match sets.remove(&key) {
        Some(set) => set,
        None => IndexSet::new(alloc),
    }
}

/// For each of the reader's nodes how its branches are found. A node that is no union has none.
pub(crate) fn union_tables(
    alloc: Global,
    texts: &Texts,
    reader: &Schema,
) -> Result<Vec<UnionTable>, AllocError>
    ensures { IfOk result (λ tables. AreUnionTables texts.now (schema_nodes reader.now) tables.items) }
{
    let mut tables = Vec::with_capacity(alloc, reader.len())?;
    for index in 0..reader.len() {
        let table = union_table(alloc, texts, reader, NodeId(index as u32))?;
        tables.push(table)?;
    }
    Ok(tables)
}

/// How the branches of a node are found.
fn union_table(
    alloc: Global,
    texts: &Texts,
    reader: &Schema,
    id: NodeId,
) -> Result<UnionTable, AllocError>
    ensures { IfOk result (IsUnionTable texts.now (schema_nodes reader.now) (node_at (schema_nodes reader.now) id.0)) }
{
    let branches = branches_of(reader, id);
    let firsts = first_branches(alloc, texts, reader, branches)?;
    let places = branch_places(alloc, branches)?;
    Ok(UnionTable { firsts, places })
}

/// The branches of a union, or none if the node is no union. No branch is a union itself.
pub(crate) fn branches_of(schema: &Schema, id: NodeId) -> &[NodeId]
    ensures ids { ids_of result.now ≡ branches_at (node_at (schema_nodes schema.now) id.0) }
    ensures plain { list_all (λ branch. is_some (branch_kind (node_at (schema_nodes schema.now) branch))) (ids_of result.now) ≡ true }
{
    match schema.get(id) {
        Node::Union(branches) => branches,
        _ => &[],
    }
}

/// The first branch of each kind and number of a simple name. Branches are gone through from the last, so that the
/// first is kept.
fn first_branches(
    alloc: Global,
    texts: &Texts,
    reader: &Schema,
    branches: &[NodeId],
) -> Result<BTreeMap<(u64, u32), usize>, AllocError>
    ensures { IfOk result (FindsFirst texts.now (schema_nodes reader.now) (ids_of branches.now)) }
{
    let mut firsts = BTreeMap::new(alloc);
    let mut left = branches.len();
    while left > 0 {
        left -= 1;
        add_branch(&mut firsts, texts, reader, branches[left], left)?;
    }
    Ok(firsts)
}

/// Adds a branch by its kind and its simple name, if it is a type.
fn add_branch(
    firsts: &mut BTreeMap<(u64, u32), usize>,
    texts: &Texts,
    reader: &Schema,
    id: NodeId,
    branch: usize,
) -> Result<(), AllocError>
    ensures { OnOk result ((key : NameKey) → get key_cmp firsts.new key
        ≡ cond (passes (schema_nodes reader.now) (is_own texts.now key.0 key.1) id.0) (Some branch) (get key_cmp firsts.old key)) }
{
    match type_at(reader, id) {
        None => Ok(()),
        Some(named) => add_named(firsts, texts, &named, branch),
    }
}

/// Adds a branch by its kind and its simple name, if the name has a number.
fn add_named(
    firsts: &mut BTreeMap<(u64, u32), usize>,
    texts: &Texts,
    named: &NamedType,
    branch: usize,
) -> Result<(), AllocError>
    ensures { OnOk result ((key : NameKey) → get key_cmp firsts.new key ≡ cond (is_own texts.now key.0 key.1 named.now) (Some branch) (get key_cmp firsts.old key)) }
{
    match simple_of(texts, named) {
        None => Ok(()),
        Some(simple) => {
            firsts.insert((named.kind, simple), branch)?;
            Ok(())
        }
    }
}

/// The first index of each branch.
fn branch_places(alloc: Global, branches: &[NodeId]) -> Result<BTreeMap<u32, usize>, AllocError>
    ensures { IfOk result (FindsPlaces (ids_of branches.now)) }
{
    let mut places = BTreeMap::new(alloc);
    let mut left = branches.len();
    while left > 0 {
        left -= 1;
        places.insert(branches[left].0, left)?;
    }
    Ok(places)
}
