ghost use Rattle.std.specs.Prelude.{◌≡◌, ◌^◌, ◌-◌, List, min, IfOk};
ghost use Rattle.avro_schema.specs.Node.{node_at};
ghost use Rattle.avro_schema.specs.Seen.{value_of, values_of, entries_of, node_of, nodes_of};
ghost use Rattle.avro_schema.specs.Value.{size as value_size, values_size, entries_size, depth as value_depth, values_depth, entries_depth};

use std::alloc::{AllocError, AllocFailed, Global};
use thiserror::Error;

/// Memory ran out.
#[derive(Clone, Copy, Debug, PartialEq, Eq, Error)]
#[error("out of memory")]
pub struct Memory;

impl From<AllocError> for Memory {
    fn from(_error: AllocError) -> Memory {
        Memory
    }
}

impl<T: Drop> From<AllocFailed<T>> for Memory {
    fn from(_error: AllocFailed<T>) -> Memory {
        Memory
    }
}

/// A datum, whose type a schema gives (Avro 1.11, "Schema Declaration").
#[derive(Debug, PartialEq, Drop)]
pub enum Datum {
    /// Null.
    Null,
    /// A boolean.
    Bool(bool),
    /// An int.
    Int(i32),
    /// A long.
    Long(i64),
    /// Bytes.
    Bytes(Vec<u8>),
    /// A string.
    Str(String),
    /// The items of an array.
    Array(Vec<Datum>),
    /// The keys of a map, each with its value.
    Map(Vec<(String, Datum)>),
    /// The index of a union's branch, and the branch's value.
    Union(u32, Box<Datum>),
    /// A value for each field of a record.
    Record(Vec<Datum>),
    /// The index of an enum's symbol.
    Enum(u32),
    /// The bytes of a fixed.
    Fixed(Vec<u8>),
}

/// The number of nodes of a datum, or `u64::MAX` if there are more. A union is a node, and its value
/// is another; keys are not counted.
#[cycle(size)]
pub fn size(datum: &Datum) -> u64
    ensures { result ≡ min (value_size (value_of datum.now)) (2 ^ 64 - 1) }
{
    match datum {
        Datum::Null
        | Datum::Bool(_)
        | Datum::Int(_)
        | Datum::Long(_)
        | Datum::Bytes(_)
        | Datum::Str(_)
        | Datum::Enum(_)
        | Datum::Fixed(_) => 1,
        Datum::Array(items) => size_of_items(items).saturating_add(1),
        Datum::Map(entries) => size_of_entries(entries).saturating_add(1),
        Datum::Union(_, value) => size(value).saturating_add(1),
        Datum::Record(values) => size_of_items(values).saturating_add(1),
    }
}

/// The total number of nodes of some data.
#[cycle(size)]
fn size_of_items(items: &[Datum]) -> u64
    ensures { result ≡ min (values_size (values_of items.now)) (2 ^ 64 - 1) }
{
    let mut all: u64 = 0;
    for item in items {
        all = all.saturating_add(size(item));
    }
    all
}

/// The total number of nodes of a map's values.
#[cycle(size)]
fn size_of_entries(entries: &[(String, Datum)]) -> u64
    ensures { result ≡ min (entries_size (entries_of entries.now)) (2 ^ 64 - 1) }
{
    let mut all: u64 = 0;
    for entry in entries {
        all = all.saturating_add(size(&entry.1));
    }
    all
}

/// The depth of a datum, or `u64::MAX` if it is deeper: 1 for a datum without parts, otherwise one
/// more than the depth of its deepest part.
#[cycle(depth)]
pub fn depth(datum: &Datum) -> u64
    ensures { result ≡ min (value_depth (value_of datum.now)) (2 ^ 64 - 1) }
{
    match datum {
        Datum::Null
        | Datum::Bool(_)
        | Datum::Int(_)
        | Datum::Long(_)
        | Datum::Bytes(_)
        | Datum::Str(_)
        | Datum::Enum(_)
        | Datum::Fixed(_) => 1,
        Datum::Array(items) => depth_of_items(items).saturating_add(1),
        Datum::Map(entries) => depth_of_entries(entries).saturating_add(1),
        Datum::Union(_, value) => depth(value).saturating_add(1),
        Datum::Record(values) => depth_of_items(values).saturating_add(1),
    }
}

/// The greatest depth of some data.
#[cycle(depth)]
fn depth_of_items(items: &[Datum]) -> u64
    ensures { result ≡ min (values_depth (values_of items.now)) (2 ^ 64 - 1) }
{
    let mut deepest: u64 = 0;
    for item in items {
        deepest = deepest.max(depth(item));
    }
    deepest
}

/// The greatest depth of a map's values.
#[cycle(depth)]
fn depth_of_entries(entries: &[(String, Datum)]) -> u64
    ensures { result ≡ min (entries_depth (entries_of entries.now)) (2 ^ 64 - 1) }
{
    let mut deepest: u64 = 0;
    for entry in entries {
        deepest = deepest.max(depth(&entry.1));
    }
    deepest
}

impl Clone for Datum {
    ghost use Rattle.std.specs.Prelude.{◌≡◌};
    ghost use Rattle.avro_schema.specs.Seen.{value_of};

    ghost is_clone = { λ d e. value_of e ≡ value_of d };

    #[cycle(copy)]
    fn clone(&self) -> Result<Datum, AllocError> {
        match self {
            Datum::Null => Ok(Datum::Null),
            Datum::Bool(value) => Ok(Datum::Bool(*value)),
            Datum::Int(value) => Ok(Datum::Int(*value)),
            Datum::Long(value) => Ok(Datum::Long(*value)),
            Datum::Bytes(bytes) => Ok(Datum::Bytes(bytes.to_vec(*bytes.allocator())?)),
            Datum::Str(text) => Ok(Datum::Str(text.clone()?)),
            Datum::Array(items) => Ok(Datum::Array(copy_of_items(*items.allocator(), items)?)),
            Datum::Map(entries) => {
                Ok(Datum::Map(copy_of_entries(*entries.allocator(), entries)?))
            }
            Datum::Union(branch, value) => {
                let alloc = *Box::allocator(value);
                let copy: Datum = Datum::clone(value)?;
                Ok(Datum::Union(*branch, Box::new(alloc, copy)?))
            }
            Datum::Record(values) => Ok(Datum::Record(copy_of_items(*values.allocator(), values)?)),
            Datum::Enum(symbol) => Ok(Datum::Enum(*symbol)),
            Datum::Fixed(bytes) => Ok(Datum::Fixed(bytes.to_vec(*bytes.allocator())?)),
        }
    }
}

/// A copy of some data.
#[cycle(copy)]
fn copy_of_items(alloc: Global, items: &[Datum]) -> Result<Vec<Datum>, AllocError>
    ensures { IfOk result (λ copy. values_of copy.items ≡ values_of items.now) }
{
    let mut copy: Vec<Datum> = Vec::new(alloc);
    for item in items {
        copy.push(item.clone()?)?;
    }
    Ok(copy)
}

/// A copy of a map's keys and values.
#[cycle(copy)]
fn copy_of_entries(
    alloc: Global,
    entries: &[(String, Datum)],
) -> Result<Vec<(String, Datum)>, AllocError>
    ensures { IfOk result (λ copy. entries_of copy.items ≡ entries_of entries.now) }
{
    let mut copy: Vec<(String, Datum)> = Vec::new(alloc);
    for entry in entries {
        copy.push((entry.0.clone()?, entry.1.clone()?))?;
    }
    Ok(copy)
}
