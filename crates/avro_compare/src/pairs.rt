//! The first branch of a union that matches.

ghost use Rattle.std.specs.Prelude.{◌≡◌, slice_get, ℕ, Some};
ghost use Rattle.std.specs.Option.{IfSome};
ghost use Rattle.avro_schema.specs.Node.{node_at};
ghost use Rattle.avro_schema.specs.Seen.{ids_of, node_of};
ghost use Rattle.avro_schema.specs.SeenSchema.{schema_nodes};
ghost use Rattle.avro_compare.specs.Match.{first_match_at, first_match};
ghost use Rattle.avro_compare.specs.inside.TypeNames.{AreTypeNames, branches_at, key_cmp, least as least_of, listed, place_in};
ghost use Rattle.avro_compare.specs.Pairs.{IsTarget, IsFirst, target_at};
ghost use Rattle.avro_schema.proofs.public.Choices.{HasFewChoices};
ghost use Rattle.std.specs.BTreeMap.{get};
ghost use Rattle.indexmap.specs.IndexSet.{keys};
ghost use Rattle.avro_compare.specs.inside.NamedTypes.{named_type};

use crate::comparison::Target;
use crate::error::FaultKind;
use crate::matching::matches_by;
use crate::reader_types::branches_of;
use crate::type_names::{TypeNames, UnionTable, numbers_of, type_at};
use avro_schema::{Node, NodeId, Schema};
use indexmap::IndexSet;
use std::collections::BTreeMap;

/// The first branch of a reader's union that matches a writer's node, by its index among the
/// branches; none at another reader's node.
pub fn first_match(writer: &Schema, w: NodeId, reader: &Schema, r: NodeId) -> Option<usize>
    ensures { result ≡ first_match_at (schema_nodes writer.now) (schema_nodes reader.now)
        (node_at (schema_nodes writer.now) w.0) (node_at (schema_nodes reader.now) r.0) }
{
    first_index(None, writer, w, reader, r)
}

/// Where a pair of nodes leads.
pub fn target(writer: &Schema, w: NodeId, reader: &Schema, r: NodeId) -> Target
    ensures targets { result ≡ target_at (schema_nodes writer.now) (schema_nodes reader.now) w r }
    ensures leads { IsTarget (schema_nodes writer.now) (schema_nodes reader.now)
        (node_at (schema_nodes writer.now) w.0) (node_at (schema_nodes reader.now) r.0) result }
{
    target_by(None, writer, w, reader, r)
}

/// The same, by the names of types, if they are there.
pub(crate) fn target_by(
    names: Option<&TypeNames>,
    writer: &Schema,
    w: NodeId,
    reader: &Schema,
    r: NodeId,
) -> Target
    requires { IfSome names (λ n. AreTypeNames (schema_nodes writer.now) (schema_nodes reader.now) n.now) }
    ensures { result ≡ target_at (schema_nodes writer.now) (schema_nodes reader.now) w r }
{
    target_to(names, writer, w, reader, r, reader.get(r))
}

/// Where a pair of nodes leads, given the reader's node.
fn target_to(
    names: Option<&TypeNames>,
    writer: &Schema,
    w: NodeId,
    reader: &Schema,
    r: NodeId,
    node: &Node,
) -> Target
    requires names { IfSome names (λ n. AreTypeNames (schema_nodes writer.now) (schema_nodes reader.now) n.now) }
    requires there { node_of node.now ≡ node_at (schema_nodes reader.now) r.0 }
    requires few { HasFewChoices (node_of node.now) }
    ensures { result ≡ target_at (schema_nodes writer.now) (schema_nodes reader.now) w r }
{
    match node {
        Node::Union(branches) => match first_matched(names, writer, w, reader, r, branches) {
            Some(found) => Target::To(Some(found.0 as u32), found.1),
            None => Target::Fault(FaultKind::NoBranch),
        },
        _ => {
            if matches_by(names, writer, w, reader, r) {
                Target::To(None, r)
            } else {
                Target::Fault(FaultKind::NoMatch)
            }
        }
    }
}

/// The first of the branches of a reader's union that matches a writer's node, with its node.
fn first_matched(
    names: Option<&TypeNames>,
    writer: &Schema,
    w: NodeId,
    reader: &Schema,
    r: NodeId,
    branches: &[NodeId],
) -> Option<(usize, NodeId)>
    requires names { IfSome names (λ n. AreTypeNames (schema_nodes writer.now) (schema_nodes reader.now) n.now) }
    requires there { ids_of branches.now ≡ branches_at (node_at (schema_nodes reader.now) r.0) }
    ensures { IsFirst (schema_nodes writer.now) (schema_nodes reader.now)
        (node_at (schema_nodes writer.now) w.0) (ids_of branches.now) result }
{
    match first_index(names, writer, w, reader, r) {
        None => None,
        Some(index) => match branch_at(branches, index) {
            None => None,
            Some(branch) => Some((index, branch)),
        },
    }
}

/// The branch at an index.
fn branch_at(branches: &[NodeId], index: usize) -> Option<NodeId>
    ensures { result ≡ slice_get branches.now index }
{
    branches.get(index).copied()
}

/// The index of the first branch of a reader's union that matches a writer's node; none at another reader's node.
pub(crate) fn first_index(
    names: Option<&TypeNames>,
    writer: &Schema,
    w: NodeId,
    reader: &Schema,
    r: NodeId,
) -> Option<usize>
    requires { IfSome names (λ n. AreTypeNames (schema_nodes writer.now) (schema_nodes reader.now) n.now) }
    ensures { result ≡ first_match (schema_nodes writer.now) (schema_nodes reader.now)
        (node_at (schema_nodes writer.now) w.0) (branches_at (node_at (schema_nodes reader.now) r.0)) }
{
    match names {
        None => first_among(None, writer, w, reader, branches_of(reader, r)),
        Some(names) => first_by(names, writer, w, reader, r),
    }
}

/// The same of some branches, which are gone through.
fn first_among(
    names: Option<&TypeNames>,
    writer: &Schema,
    w: NodeId,
    reader: &Schema,
    branches: &[NodeId],
) -> Option<usize>
    requires { IfSome names (λ n. AreTypeNames (schema_nodes writer.now) (schema_nodes reader.now) n.now) }
    ensures { result ≡ first_match (schema_nodes writer.now) (schema_nodes reader.now) (node_at (schema_nodes writer.now) w.0) (ids_of branches.now) }
{
    for index in 0..branches.len() {
        if matches_by(names, writer, w, reader, branches[index]) {
            return Some(index);
        }
    }
    None
}

/// The same by the tables, if the writer's node is a type. Its name may be that of a branch, which the table of the union
/// has, or an alias of one: then the types with this alias are gone through, or the branches if they are fewer.
fn first_by(
    names: &TypeNames,
    writer: &Schema,
    w: NodeId,
    reader: &Schema,
    r: NodeId,
) -> Option<usize>
    requires { AreTypeNames (schema_nodes writer.now) (schema_nodes reader.now) names.now }
    ensures { result ≡ first_match (schema_nodes writer.now) (schema_nodes reader.now)
        (node_at (schema_nodes writer.now) w.0) (branches_at (node_at (schema_nodes reader.now) r.0)) }
{
    let branches = branches_of(reader, r);
    match numbers_of(names, w) {
        None => first_among(Some(names), writer, w, reader, branches),
        Some(full) => match union_at(&names.unions, r) {
            None => first_among(Some(names), writer, w, reader, branches),
            Some(table) => {
                let first = first_named(table, kind_at(writer, w), full.0);
                match names.aliases.get(&full) {
                    None => first,
                    Some(types) => {
                        if branches.len() <= types.len() {
                            return first_among(Some(names), writer, w, reader, branches);
                        }
                        first_listed(names, writer, w, reader, &table.places, first, types)
                    }
                }
            }
        },
    }
}

/// The table of a node.
fn union_at(unions: &[UnionTable], r: NodeId) -> Option<&UnionTable>
    ensures { IfSome result (λ table. slice_get unions.now r.0 ≡ Some table.now) }
{
    let at = r.0 as usize;
    if at >= unions.len() {
        return None;
    }
    Some(&unions[at])
}

/// The number of the kind of a node.
fn kind_at(writer: &Schema, w: NodeId) -> u64
    ensures { IfSome (named_type (node_at (schema_nodes writer.now) w.0)) (λ t. result ≡ t.kind) }
{
    match type_at(writer, w) {
        None => 0,
        Some(named) => named.kind,
    }
}

/// The first branch of a kind with a simple name of a number.
fn first_named(table: &UnionTable, kind: u64, simple: u32) -> Option<usize>
    ensures { result ≡ get key_cmp table.now.firsts (kind, simple) }
{
    table.firsts.get(&(kind, simple)).copied()
}

/// The lesser of an index and that of the first branch that matches a writer's node and is one of some types.
fn first_listed(
    names: &TypeNames,
    writer: &Schema,
    w: NodeId,
    reader: &Schema,
    places: &BTreeMap<u32, usize>,
    first: Option<usize>,
    types: &IndexSet<u32>,
) -> Option<usize>
    requires { AreTypeNames (schema_nodes writer.now) (schema_nodes reader.now) names.now }
    ensures { result ≡ listed (schema_nodes writer.now) (schema_nodes reader.now) (node_at (schema_nodes writer.now) w.0) places.now first (keys types.now) }
{
    let mut best = first;
    for index in 0..types.len() {
        best = least(
            best,
            place_at(names, writer, w, reader, places, types, index),
        );
    }
    best
}

/// The first index of the type at an index of some types, if the type matches a writer's node.
fn place_at(
    names: &TypeNames,
    writer: &Schema,
    w: NodeId,
    reader: &Schema,
    places: &BTreeMap<u32, usize>,
    types: &IndexSet<u32>,
    index: usize,
) -> Option<usize>
    requires { AreTypeNames (schema_nodes writer.now) (schema_nodes reader.now) names.now }
    ensures { (id : ℕ) → slice_get (keys types.now) index ≡ Some id
        → result ≡ place_in (schema_nodes writer.now) (schema_nodes reader.now) (node_at (schema_nodes writer.now) w.0) places.now id }
{
    match types.get_index(index) {
        None => None,
        Some(id) => place_of(names, writer, w, reader, places, *id),
    }
}

/// The first index of a type, if it matches a writer's node.
fn place_of(
    names: &TypeNames,
    writer: &Schema,
    w: NodeId,
    reader: &Schema,
    places: &BTreeMap<u32, usize>,
    id: u32,
) -> Option<usize>
    requires { AreTypeNames (schema_nodes writer.now) (schema_nodes reader.now) names.now }
    ensures { result ≡ place_in (schema_nodes writer.now) (schema_nodes reader.now) (node_at (schema_nodes writer.now) w.0) places.now id }
{
    match places.get(&id) {
        None => None,
        Some(place) => {
            if matches_by(Some(names), writer, w, reader, NodeId(id)) {
                Some(*place)
            } else {
                None
            }
        }
    }
}

/// The lesser of two indices, if there is one.
fn least(a: Option<usize>, b: Option<usize>) -> Option<usize>
    ensures { result ≡ least_of a b }
{
    match a {
        None => b,
        Some(i) => match b {
            None => a,
            Some(j) => { if i <= j { a } else { b } }
        },
    }
}
