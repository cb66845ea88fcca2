//! The names of the types of two schemas by number, so that a text is read once for each time that it is written, and
//! not for each pair of types.

ghost use Rattle.std.specs.Prelude.{◌≡◌, ℕ, Some, IfOk, ◌||◌, List, slice_get};
ghost use Rattle.avro_schema.specs.Node.{node_at, Node as SeenNode};
ghost use Rattle.avro_schema.specs.SeenSchema.{schema_nodes};
ghost use Rattle.avro_texts.specs.Texts.{KeepsNumbers};
ghost use Rattle.avro_compare.specs.inside.NamedTypes.{named_type as type_of, TellsAlike, named_type};
ghost use Rattle.avro_compare.specs.inside.TypeNames.{AreOfReader, AreOfWriter, AreTypeNames, IsFull, has_own, is_number, is_text, holds};
ghost use Rattle.std.specs.Option.{IfSome};

use crate::named_type::{NamedType, named_type};
use crate::reader_types::{alias_sets, union_tables};
use avro_schema::{NodeId, Schema};
use avro_texts::{Seeded, Texts};
use indexmap::IndexSet;
use std::alloc::{AllocError, Global};
use std::collections::BTreeMap;

/// The reader's types that have an alias, by the numbers of its simple name and of its namespace.
pub(crate) type AliasSets = BTreeMap<(u32, u32), IndexSet<u32>>;

/// How the branches of a union are found.
#[derive(Drop)]
pub struct UnionTable {
    /// The first branch of each kind and number of a simple name.
    pub firsts: BTreeMap<(u64, u32), usize>,
    /// The index of each branch, by its node.
    pub places: BTreeMap<u32, usize>,
}

/// The names of the types of two schemas by number.
#[derive(Drop)]
pub struct TypeNames<'w> {
    /// The simple names and the namespaces of the writer's types. The number of a text is its place.
    pub texts: Texts<'w>,
    /// For each of the writer's nodes the numbers of its simple name and of its namespace, if it is a type.
    pub writes: Vec<Option<(u32, u32)>>,
    /// For each of the reader's nodes the number of its simple name, if it has one.
    pub reads: Vec<Option<u32>>,
    /// The reader's types that have an alias.
    pub aliases: BTreeMap<(u32, u32), IndexSet<u32>>,
    /// For each of the reader's nodes how its branches are found.
    pub unions: Vec<UnionTable>,
}

/// The names of the types of two schemas by number. The seed has to come from the names of both.
pub(crate) fn type_names<'w>(
    alloc: Global,
    seed: Seeded,
    writer: &'w Schema,
    reader: &Schema,
) -> Result<TypeNames<'w>, AllocError>
    ensures { IfOk result (AreTypeNames (schema_nodes writer.now) (schema_nodes reader.now)) }
{
    let mut texts = Texts::new(alloc, seed);
    let writes = writer_numbers(alloc, &mut texts, writer)?;
    let reads = reader_numbers(alloc, &texts, reader)?;
    let aliases = alias_sets(alloc, &texts, reader)?;
    let unions = union_tables(alloc, &texts, reader)?;
    Ok(TypeNames {
        texts,
        writes,
        reads,
        aliases,
        unions,
    })
}

/// Gives the names of a writer's types numbers, which are listed for each node.
fn writer_numbers<'w>(
    alloc: Global,
    texts: &mut Texts<'w>,
    writer: &'w Schema,
) -> Result<Vec<Option<(u32, u32)>>, AllocError>
    ensures { IfOk result (λ numbers. AreOfWriter texts.new (schema_nodes writer.now) numbers.items) }
{
    let mut numbers = Vec::with_capacity(alloc, writer.len())?;
    for index in 0..writer.len() {
        let found = add_type(texts, writer, NodeId(index as u32))?;
        numbers.push(found)?;
    }
    Ok(numbers)
}

/// Gives the names of a node numbers, if it is a type.
fn add_type<'w>(
    texts: &mut Texts<'w>,
    writer: &'w Schema,
    id: NodeId,
) -> Result<Option<(u32, u32)>, AllocError>
    ensures numbered { IfOk result (λ found. IsFull texts.new (type_of (node_at (schema_nodes writer.now) id.0)) found) }
    ensures kept { KeepsNumbers texts.old texts.new }
{
    match type_at(writer, id) {
        None => Ok(None),
        Some(named) => add_names(texts, &named),
    }
}

/// Gives the simple name and the namespace of a type numbers.
fn add_names<'w>(
    texts: &mut Texts<'w>,
    named: &NamedType<'w>,
) -> Result<Option<(u32, u32)>, AllocError>
    ensures numbered { IfOk result (λ found. IsFull texts.new (Some named.now) found) }
    ensures kept { KeepsNumbers texts.old texts.new }
{
    let simple = texts.add(named.name.simple())?;
    let space = texts.add(named.name.namespace())?;
    Ok(Some((simple, space)))
}

/// The numbers of the simple names of a reader's types, for each node.
fn reader_numbers(
    alloc: Global,
    texts: &Texts,
    reader: &Schema,
) -> Result<Vec<Option<u32>>, AllocError>
    ensures { IfOk result (λ numbers. AreOfReader texts.now (schema_nodes reader.now) numbers.items) }
{
    let mut numbers = Vec::with_capacity(alloc, reader.len())?;
    for index in 0..reader.len() {
        numbers.push(simple_at(texts, reader, NodeId(index as u32)))?;
    }
    Ok(numbers)
}

/// The number of the simple name of a node, if it is a type whose name has one.
fn simple_at(texts: &Texts, reader: &Schema, id: NodeId) -> Option<u32>
    ensures { (i : ℕ) → is_number i result ≡ has_own texts.now i (type_of (node_at (schema_nodes reader.now) id.0)) }
{
    match type_at(reader, id) {
        None => None,
        Some(named) => simple_of(texts, &named),
    }
}

/// The number of the simple name of a type, if it has one.
pub(crate) fn simple_of(texts: &Texts, named: &NamedType) -> Option<u32>
    ensures { (i : ℕ) → is_number i result ≡ is_text texts.now i named.now.name.simple }
{
    number(texts, named.name.simple())
}

/// The number of a text, if it has one.
pub(crate) fn number(texts: &Texts, text: &str) -> Option<u32>
    ensures { (i : ℕ) → is_number i result ≡ is_text texts.now i text.now }
{
    texts.number(text)
}

/// What the node of an id is matched by, where it is a record, an enum or a fixed.
pub(crate) fn type_at(schema: &Schema, id: NodeId) -> Option<NamedType<'_>>
    ensures { result ≡ type_of (node_at (schema_nodes schema.now) id.0) }
{
    named_type(schema.get(id))
}

/// Whether a writer's node and a reader's are types that are named alike, if their names are there by number.
pub(crate) fn alike(
    names: Option<&TypeNames>,
    _writer: &Schema,
    w: NodeId,
    _reader: &Schema,
    r: NodeId,
) -> Option<bool>
    requires { IfSome names (λ n. AreTypeNames (schema_nodes _writer.now) (schema_nodes _reader.now) n.now) }
    ensures { TellsAlike (node_at (schema_nodes _writer.now) w.0) (node_at (schema_nodes _reader.now) r.0) result }
{
    match names {
        None => None,
        Some(names) => alike_by(names, w, r),
    }
}

/// The same, by the numbers.
fn alike_by(names: &TypeNames, w: NodeId, r: NodeId) -> Option<bool>
    ensures { (writer reader : List SeenNode) → AreTypeNames writer reader names.now → TellsAlike (node_at writer w.0) (node_at reader r.0) result }
{
    match numbers_of(names, w) {
        None => None,
        Some(full) => match simple_in_list(&names.reads, r) {
            None => None,
            Some(simple) => Some(has_name(simple, &names.aliases, full, r)),
        },
    }
}

/// The numbers of the name of a writer's node, if it is a type and they are there.
pub(crate) fn numbers_of(names: &TypeNames, w: NodeId) -> Option<(u32, u32)>
    ensures { (writer : List SeenNode) → AreOfWriter names.now.texts writer names.now.writes.items
        → IsFull names.now.texts (named_type (node_at writer w.0)) result }
{
    match full_in_list(&names.writes, w) {
        None => None,
        Some(full) => full,
    }
}

/// The entry of a node.
fn full_in_list(writes: &[Option<(u32, u32)>], w: NodeId) -> Option<Option<(u32, u32)>>
    ensures { result ≡ slice_get writes.now w.0 }
{
    writes.get(w.0 as usize).copied()
}

/// The entry of a node.
fn simple_in_list(reads: &[Option<u32>], r: NodeId) -> Option<Option<u32>>
    ensures { result ≡ slice_get reads.now r.0 }
{
    reads.get(r.0 as usize).copied()
}

/// Whether a fullname has the simple name of a reader's type, or is one of its aliases.
fn has_name(simple: Option<u32>, aliases: &AliasSets, full: (u32, u32), r: NodeId) -> bool
    ensures { result ≡ (is_number full.0 simple || holds aliases.now full r.0) }
{
    is_simple(simple, full.0) || has_alias(aliases, full, r)
}

/// Whether this is the number of a simple name.
fn is_simple(simple: Option<u32>, number: u32) -> bool
    ensures { result ≡ is_number number simple }
{
    match simple {
        None => false,
        Some(other) => other == number,
    }
}

/// Whether a fullname is an alias of a reader's type.
fn has_alias(aliases: &AliasSets, full: (u32, u32), r: NodeId) -> bool
    ensures { result ≡ holds aliases.now full r.0 }
{
    match aliases.get(&full) {
        None => false,
        Some(types) => types.contains(&r.0),
    }
}
