//! The names of fields and symbols by number.

ghost use Rattle.std.specs.Prelude.{◌≡◌, Some, IfOk, OnOk, slice_get, List};
ghost use Rattle.avro_schema.specs.Node.{node_at, Node};
ghost use Rattle.avro_schema.specs.Seen.{seen_fields, texts_of};
ghost use Rattle.avro_schema.specs.SeenSchema.{schema_nodes};
ghost use Rattle.avro_compare.specs.inside.PartNumbers.{AreAliases, AreLists, AreNumbersOf, AreParts, Grows, HasOwn, HasParts, KeepsLists, aliases_at, names_of, ArePartLists, ArePartNumbers};

use crate::part_finding::{index_number, places_of};
use crate::place::Place;
use crate::sourcing::fields_of;
use crate::symbols::symbols_of;
use avro_schema::{Field, NodeId, Schema};
use avro_texts::{Seeded, Texts};
use indexmap::IndexMap;
use std::alloc::{AllocError, Global};

/// The lists of the names of a node's fields and of its symbols, by their indices. Where there are none, there is no list.
#[derive(Clone, Copy)]
pub(crate) struct NodeParts {
    pub fields: Option<u32>,
    pub symbols: Option<u32>,
}

/// The names of the fields and symbols of two schemas, and the aliases of the reader's fields, each text once, and lists
/// of their numbers. A name is found in a list by its number.
#[derive(Drop)]
pub(crate) struct PartNumbers<'a> {
    // The seed of the tables.
    pub seed: Seeded,
    pub texts: Texts<'a>,
    // The lists that are searched, of the writer's fields and the reader's symbols and aliases, and the first index of
    // each of their numbers.
    pub tabled: Vec<Vec<u32>>,
    pub places: IndexMap<Place, usize, Seeded>,
    // The lists that are only read, of the writer's symbols and the reader's fields.
    pub plain: Vec<Vec<u32>>,
    // By nodes, and by the fields of the reader's.
    pub writes: Vec<NodeParts>,
    pub reads: Vec<NodeParts>,
    pub aliases: Vec<Vec<Option<u32>>>,
}

/// The numbers by which the source of a reader's field is found: the lists of the writer's fields and of its aliases, by
/// their indices, and the number of its name. Where it has no alias, there is no list of them.
#[derive(Clone, Copy)]
pub(crate) struct FieldNumbers {
    pub fields: u32,
    pub name: u32,
    pub aliases: Option<u32>,
}

/// The numbers by which the reader's symbol for a writer's is found: the list of the reader's symbols, by its index, and
/// the number of the writer's.
#[derive(Clone, Copy)]
pub(crate) struct SymbolNumbers {
    pub symbols: u32,
    pub symbol: u32,
}

/// The numbers of some texts.
fn text_numbers<'a>(
    alloc: Global,
    texts: &mut Texts<'a>,
    names: &'a [String],
) -> Result<Vec<u32>, AllocError>
    ensures has { IfOk result (λ numbers. AreNumbersOf texts.new (texts_of names.now) numbers.items) }
    ensures grows { OnOk result (Grows texts.old texts.new) }
{
    let mut numbers = Vec::with_capacity(alloc, names.len())?;
    for index in 0..names.len() {
        let number = texts.add(names[index].as_str())?;
        numbers.push(number)?;
    }
    Ok(numbers)
}

/// The numbers of the names of some fields.
fn field_numbers<'a>(
    alloc: Global,
    texts: &mut Texts<'a>,
    fields: &'a [Field],
) -> Result<Vec<u32>, AllocError>
    ensures has { IfOk result (λ numbers. AreNumbersOf texts.new (names_of (seen_fields fields.now)) numbers.items) }
    ensures grows { OnOk result (Grows texts.old texts.new) }
{
    let mut numbers = Vec::with_capacity(alloc, fields.len())?;
    for index in 0..fields.len() {
        let number = texts.add(fields[index].name.as_str())?;
        numbers.push(number)?;
    }
    Ok(numbers)
}

/// Adds a list, and returns its index.
fn add_list(lists: &mut Vec<Vec<u32>>, list: Vec<u32>) -> Result<u32, AllocError>
    ensures there { IfOk result (λ id. slice_get lists.new.items id ≡ Some list) }
    ensures kept { OnOk result (KeepsLists lists.old.items lists.new.items) }
{
    let id = index_number(lists.len())?;
    lists.push(list)?;
    Ok(id)
}

/// Adds the list of some texts, if there are any.
fn list_texts<'a>(
    alloc: Global,
    texts: &mut Texts<'a>,
    lists: &mut Vec<Vec<u32>>,
    names: &'a [String],
) -> Result<Option<u32>, AllocError>
    ensures has { IfOk result (λ id. HasOwn texts.new lists.new.items id (texts_of names.now)) }
    ensures grows { OnOk result (Grows texts.old texts.new) }
    ensures kept { OnOk result (KeepsLists lists.old.items lists.new.items) }
{
    if names.len() == 0 {
        return Ok(None);
    }
    let numbers = text_numbers(alloc, texts, names)?;
    let id = add_list(lists, numbers)?;
    Ok(Some(id))
}

/// Adds the list of the names of some fields, if there are any.
fn list_fields<'a>(
    alloc: Global,
    texts: &mut Texts<'a>,
    lists: &mut Vec<Vec<u32>>,
    fields: &'a [Field],
) -> Result<Option<u32>, AllocError>
    ensures has { IfOk result (λ id. HasOwn texts.new lists.new.items id (names_of (seen_fields fields.now))) }
    ensures grows { OnOk result (Grows texts.old texts.new) }
    ensures kept { OnOk result (KeepsLists lists.old.items lists.new.items) }
{
    if fields.len() == 0 {
        return Ok(None);
    }
    let numbers = field_numbers(alloc, texts, fields)?;
    let id = add_list(lists, numbers)?;
    Ok(Some(id))
}

/// Adds the lists of a node's fields and of its symbols, each to its own lists.
fn list_parts<'a>(
    alloc: Global,
    texts: &mut Texts<'a>,
    for_fields: &mut Vec<Vec<u32>>,
    for_symbols: &mut Vec<Vec<u32>>,
    schema: &'a Schema,
    id: NodeId,
) -> Result<NodeParts, AllocError>
    ensures has { IfOk result (λ parts. HasParts texts.new for_fields.new.items for_symbols.new.items (node_at (schema_nodes schema.now) id.0) parts) }
    ensures grows { OnOk result (Grows texts.old texts.new) }
    ensures fields { OnOk result (KeepsLists for_fields.old.items for_fields.new.items) }
    ensures symbols { OnOk result (KeepsLists for_symbols.old.items for_symbols.new.items) }
{
    let fields = list_fields(alloc, texts, for_fields, fields_of(schema, id))?;
    let symbols = list_texts(alloc, texts, for_symbols, symbols_of(schema, id))?;
    Ok(NodeParts { fields, symbols })
}

/// The same of all nodes of a schema.
pub(crate) fn schema_parts<'a>(
    alloc: Global,
    texts: &mut Texts<'a>,
    for_fields: &mut Vec<Vec<u32>>,
    for_symbols: &mut Vec<Vec<u32>>,
    schema: &'a Schema,
) -> Result<Vec<NodeParts>, AllocError>
    ensures has { IfOk result (λ all. AreParts texts.new for_fields.new.items for_symbols.new.items (schema_nodes schema.now) all.items) }
    ensures grows { OnOk result (Grows texts.old texts.new) }
    ensures fields { OnOk result (KeepsLists for_fields.old.items for_fields.new.items) }
    ensures symbols { OnOk result (KeepsLists for_symbols.old.items for_symbols.new.items) }
{
    let mut all = Vec::with_capacity(alloc, schema.len())?;
    for index in 0..schema.len() {
        let id = NodeId(index_number(index)?);
        all.push(list_parts(alloc, texts, for_fields, for_symbols, schema, id)?)?;
    }
    Ok(all)
}

/// Adds the lists of the aliases of some fields.
fn field_aliases<'a>(
    alloc: Global,
    texts: &mut Texts<'a>,
    lists: &mut Vec<Vec<u32>>,
    fields: &'a [Field],
) -> Result<Vec<Option<u32>>, AllocError>
    ensures has { IfOk result (λ ids. AreLists texts.new lists.new.items (aliases_at (seen_fields fields.now)) ids.items) }
    ensures grows { OnOk result (Grows texts.old texts.new) }
    ensures kept { OnOk result (KeepsLists lists.old.items lists.new.items) }
{
    let mut ids = Vec::with_capacity(alloc, fields.len())?;
    for index in 0..fields.len() {
        ids.push(list_texts(alloc, texts, lists, &fields[index].aliases)?)?;
    }
    Ok(ids)
}

/// The same of the fields of all nodes of a schema.
pub(crate) fn schema_aliases<'a>(
    alloc: Global,
    texts: &mut Texts<'a>,
    lists: &mut Vec<Vec<u32>>,
    schema: &'a Schema,
) -> Result<Vec<Vec<Option<u32>>>, AllocError>
    ensures has { IfOk result (λ all. AreAliases texts.new lists.new.items (schema_nodes schema.now) all.items) }
    ensures grows { OnOk result (Grows texts.old texts.new) }
    ensures kept { OnOk result (KeepsLists lists.old.items lists.new.items) }
{
    let mut all = Vec::with_capacity(alloc, schema.len())?;
    for index in 0..schema.len() {
        let id = NodeId(index_number(index)?);
        all.push(field_aliases(alloc, texts, lists, fields_of(schema, id))?)?;
    }
    Ok(all)
}

/// The names of two schemas by number. The seed has to come from all of them.
pub(crate) fn part_numbers<'a>(
    alloc: Global,
    seed: Seeded,
    writer: &'a Schema,
    reader: &'a Schema,
) -> Result<PartNumbers<'a>, AllocError>
    ensures { IfOk result (λ numbers. ArePartNumbers (schema_nodes writer.now) (schema_nodes reader.now) numbers) }
{
    let mut numbers = no_parts(alloc, seed);
    number_writer(alloc, &mut numbers, writer)?;
    number_reader(alloc, &mut numbers, reader)?;
    number_aliases(alloc, &mut numbers, reader)?;
    numbers.places = places_of(alloc, seed, &numbers.tabled)?;
    Ok(numbers)
}

/// No names.
pub(crate) fn no_parts<'a>(alloc: Global, seed: Seeded) -> PartNumbers<'a>
    ensures { (writer reader : List Node) → ArePartNumbers writer reader result }
{
    PartNumbers {
        seed,
        texts: Texts::new(alloc, seed),
        tabled: Vec::new(alloc),
        places: IndexMap::with_hasher(alloc, seed),
        plain: Vec::new(alloc),
        writes: Vec::new(alloc),
        reads: Vec::new(alloc),
        aliases: Vec::new(alloc),
    }
}

/// Numbers the writer's fields and symbols.
fn number_writer<'a>(
    alloc: Global,
    numbers: &mut PartNumbers<'a>,
    writer: &'a Schema,
) -> Result<(), AllocError>
    ensures { OnOk result ((reader : List Node) → ArePartLists (schema_nodes writer.now) reader numbers.old → ArePartLists (schema_nodes writer.now) reader numbers.new) }
{
    numbers.writes = schema_parts(
        alloc,
        &mut numbers.texts,
        &mut numbers.tabled,
        &mut numbers.plain,
        writer,
    )?;
    Ok(())
}

/// Numbers the reader's fields and symbols.
fn number_reader<'a>(
    alloc: Global,
    numbers: &mut PartNumbers<'a>,
    reader: &'a Schema,
) -> Result<(), AllocError>
    ensures { OnOk result ((writer : List Node) → ArePartLists writer (schema_nodes reader.now) numbers.old → ArePartLists writer (schema_nodes reader.now) numbers.new) }
{
    numbers.reads = schema_parts(
        alloc,
        &mut numbers.texts,
        &mut numbers.plain,
        &mut numbers.tabled,
        reader,
    )?;
    Ok(())
}

/// Numbers the aliases of the reader's fields.
fn number_aliases<'a>(
    alloc: Global,
    numbers: &mut PartNumbers<'a>,
    reader: &'a Schema,
) -> Result<(), AllocError>
    ensures { OnOk result ((writer : List Node) → ArePartLists writer (schema_nodes reader.now) numbers.old → ArePartLists writer (schema_nodes reader.now) numbers.new) }
{
    numbers.aliases = schema_aliases(alloc, &mut numbers.texts, &mut numbers.tabled, reader)?;
    Ok(())
}
