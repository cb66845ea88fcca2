//! Names that are found by number.

ghost use Rattle.std.specs.Prelude.{◌≡◌, ℕ, IfSome, List, Some, bytes_eq, position, slice_get, ◌==◌, IfOk, None, OnOk, cond};
ghost use Rattle.std.specs.Global.{Vec as SeenVec};
ghost use Rattle.avro_schema.specs.Node.{FieldNode, Node as SeenNode, node_at};
ghost use Rattle.avro_compare.specs.Resolve.{fields_at, symbol_at};
ghost use Rattle.avro_compare.specs.Source.{first_index, source_of, or_else};
ghost use Rattle.avro_compare.specs.inside.NameTables.{symbols_at};
ghost use Rattle.avro_compare.specs.inside.PartNumbers.{ArePartLists, HasField, HasList, HasSymbol, IsItemAt, IsTabled, names_of, FindsAll, FindsIn, first_number, first_of, same_place};
ghost use Rattle.avro_compare.specs.declared.place.Place.{Place};
ghost use Rattle.indexmap.specs.IndexMap.{get};
ghost use Rattle.avro_compare.specs.inside.Nearer.{field_in, nearer};

use crate::part_numbers::{FieldNumbers, NodeParts, PartNumbers, SymbolNumbers};
use crate::place::Place;
use avro_schema::NodeId;
use avro_texts::Seeded;
use indexmap::IndexMap;
use std::alloc::{AllocError, Global};

/// The lists of a node.
fn parts_at(all: &[NodeParts], id: NodeId) -> Option<NodeParts>
    ensures { result ≡ slice_get all.now id.0 }
{
    all.get(id.0 as usize).copied()
}

/// The number at an index of a list.
fn number_at(lists: &[Vec<u32>], id: u32, index: usize) -> Option<u32>
    ensures { IfSome result (λ number. IsItemAt lists.now id index number) }
{
    let list = lists.get(id as usize)?;
    let number = list.get(index)?;
    Some(*number)
}

/// The list of the aliases of the field at an index of a node.
fn aliases_at(all: &[Vec<Option<u32>>], r: NodeId, index: usize) -> Option<Option<u32>>
    ensures { IfSome result (λ aliases. IsItemAt all.now r.0 index aliases) }
{
    let lists = all.get(r.0 as usize)?;
    let aliases = lists.get(index)?;
    Some(*aliases)
}

/// The list of an index.
fn list_at(lists: &[Vec<u32>], id: u32) -> &[u32]
    ensures { (list : SeenVec ℕ) → slice_get lists.now id ≡ Some list → result.now ≡ list.items }
{
    match lists.get(id as usize) {
        Some(list) => list,
        None => &[],
    }
}

/// The numbers by which the source of a reader's field, by its record and its index, is found in a writer's record.
pub(crate) fn field_numbers_at(
    numbers: &PartNumbers,
    w: NodeId,
    r: NodeId,
    index: usize,
) -> Option<FieldNumbers>
    ensures { IfSome result (λ found. (writer reader : List SeenNode) (field : FieldNode) → ArePartLists writer reader numbers.now
        → slice_get (fields_at (node_at reader r.0)) index ≡ Some field → HasField numbers.now (fields_at (node_at writer w.0)) field found) }
{
    let writes = parts_at(&numbers.writes, w)?;
    let reads = parts_at(&numbers.reads, r)?;
    let fields = writes.fields?;
    let own = reads.fields?;
    let name = number_at(&numbers.plain, own, index)?;
    let aliases = aliases_at(&numbers.aliases, r, index)?;
    Some(FieldNumbers {
        fields,
        name,
        aliases,
    })
}

/// The source of a reader's field, by number.
pub(crate) fn source_by_numbers(numbers: &PartNumbers, found: FieldNumbers) -> Option<usize>
    ensures { (writes : List FieldNode) (field : FieldNode) → IsTabled numbers.now → HasField numbers.now writes field found → result ≡ source_of writes field }
{
    match place(&numbers.places, found.fields, found.name) {
        Some(index) => Some(index),
        None => match found.aliases {
            Some(aliases) => source_by_aliases(numbers, found.fields, aliases),
            None => None,
        },
    }
}

/// The same by a list of aliases alone. There is a step for each of them, or for each of the writer's fields if those are
/// fewer.
fn source_by_aliases(numbers: &PartNumbers, fields: u32, aliases: u32) -> Option<usize>
    ensures { (writes : List FieldNode) (names : List (List ℕ)) → IsTabled numbers.now → HasList numbers.now.texts numbers.now.tabled.items fields (names_of writes)
        → HasList numbers.now.texts numbers.now.tabled.items aliases names → result ≡ first_index writes names }
{
    let writes = list_at(&numbers.tabled, fields);
    let names = list_at(&numbers.tabled, aliases);
    if writes.len() < names.len() {
        first_among(&numbers.places, aliases, writes)
    } else {
        first_named(&numbers.places, fields, names)
    }
}

/// The numbers by which the reader's symbol for a writer's, by its enum and its index, is found in a reader's enum.
pub(crate) fn symbol_numbers_at(
    numbers: &PartNumbers,
    w: NodeId,
    index: usize,
    q: NodeId,
) -> Option<SymbolNumbers>
    ensures { IfSome result (λ found. (writer reader : List SeenNode) → ArePartLists writer reader numbers.now
        → HasSymbol numbers.now (symbols_at (node_at reader q.0)) (symbol_at (node_at writer w.0) index) found) }
{
    let writes = parts_at(&numbers.writes, w)?;
    let reads = parts_at(&numbers.reads, q)?;
    let own = writes.symbols?;
    let symbols = reads.symbols?;
    let symbol = number_at(&numbers.plain, own, index)?;
    Some(SymbolNumbers { symbols, symbol })
}

/// The numbers by which a symbol is found in a reader's enum, if its text has one.
pub(crate) fn symbol_numbers_of(
    numbers: &PartNumbers,
    symbol: &str,
    q: NodeId,
) -> Option<SymbolNumbers>
    ensures { IfSome result (λ found. (writer reader : List SeenNode) → ArePartLists writer reader numbers.now
        → HasSymbol numbers.now (symbols_at (node_at reader q.0)) symbol.now found) }
{
    let reads = parts_at(&numbers.reads, q)?;
    let symbols = reads.symbols?;
    let symbol = numbers.texts.number(symbol)?;
    Some(SymbolNumbers { symbols, symbol })
}

/// The first index of a symbol among the reader's, by number.
pub(crate) fn symbol_by_numbers(numbers: &PartNumbers, found: SymbolNumbers) -> Option<usize>
    ensures { (reads : List (List ℕ)) (symbol : List ℕ) → IsTabled numbers.now → HasSymbol numbers.now reads symbol found → result ≡ position (λ s. bytes_eq s symbol) reads }
{
    place(&numbers.places, found.symbols, found.symbol)
}

/// The first index of each number of each list, by the list's index and the number.
pub(crate) fn places_of(
    alloc: Global,
    seed: Seeded,
    lists: &[Vec<u32>],
) -> Result<IndexMap<Place, usize, Seeded>, AllocError>
    ensures { IfOk result (λ places. FindsAll places lists.now) }
{
    let mut places: IndexMap<Place, usize, Seeded> = IndexMap::with_hasher(alloc, seed);
    for index in 0..lists.len() {
        let id = index_number(index)?;
        add_places(&mut places, id, &lists[index])?;
    }
    Ok(places)
}

/// An index as a number of 32 bits.
pub(crate) fn index_number(index: usize) -> Result<u32, AllocError>
    ensures { IfOk result (λ id. id ≡ index) }
{
    match u32::try_from(index) {
        Ok(number) => Ok(number),
        Err(_) => Err(AllocError),
    }
}

/// Adds those of a list. Numbers are gone through from the last, so that the first index of one is kept.
fn add_places(
    places: &mut IndexMap<Place, usize, Seeded>,
    id: u32,
    list: &[u32],
) -> Result<(), AllocError>
    ensures { OnOk result ((key : Place) → get same_place places.new key ≡ or_else (cond (id == key.list) (first_of list.now key.number) None) (get same_place places.old key)) }
{
    let mut left = list.len();
    while left > 0 {
        left -= 1;
        let key = Place {
            list: id,
            number: list[left],
        };
        places.insert(key, left)?;
    }
    Ok(())
}

/// The first index of a number in a list.
pub(crate) fn place(places: &IndexMap<Place, usize, Seeded>, id: u32, number: u32) -> Option<usize>
    ensures { result ≡ get same_place places.now (record { list = id; number = number }) }
{
    places.get(&Place { list: id, number }).copied()
}

/// The index in a list of the first of some numbers that it has.
pub(crate) fn first_named(
    places: &IndexMap<Place, usize, Seeded>,
    id: u32,
    numbers: &[u32],
) -> Option<usize>
    ensures { (list : List ℕ) → FindsIn places.now id list → result ≡ first_number list numbers.now }
{
    for number in numbers {
        match place(places, id, *number) {
            Some(index) => return Some(index),
            None => {}
        }
    }
    None
}

/// The same, where the numbers have places, and the list is gone through from the last, so that the first of two of one
/// number is kept.
pub(crate) fn first_among(
    places: &IndexMap<Place, usize, Seeded>,
    id: u32,
    list: &[u32],
) -> Option<usize>
    ensures { (numbers : List ℕ) → FindsIn places.now id numbers → result ≡ first_number list.now numbers }
{
    let mut found = None;
    let mut left = list.len();
    while left > 0 {
        left -= 1;
        found = nearer(place(places, id, list[left]), left, found);
    }
    field_in(found)
}
/// Of an index in a list with what is there, if it has one, and another with its own, the one of the least index.
fn nearer(
    place: Option<usize>,
    field: usize,
    other: Option<(usize, usize)>,
) -> Option<(usize, usize)>
    ensures { result ≡ nearer place field other }
{
    match place {
        None => other,
        Some(place) => match other {
            None => Some((place, field)),
            Some(other) => {
                if other.0 < place {
                    Some(other)
                } else {
                    Some((place, field))
                }
            }
        },
    }
}

/// What is found.
fn field_in(found: Option<(usize, usize)>) -> Option<usize>
    ensures { result ≡ field_in found }
{
    match found {
        None => None,
        Some(found) => Some(found.1),
    }
}
