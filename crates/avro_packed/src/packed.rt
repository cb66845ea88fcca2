//! The builder of plain encodings.

ghost use Rattle.std.specs.Prelude.{◌≡◌, ◌++◌, ◌+◌, [], IfOk, OnOk, map};
ghost use Rattle.std.specs.List.{concat};
ghost use Rattle.avro_cursor.specs.Encoding.{plain_blocks, plain_bytes};

use crate::joining::append_measured;
use crate::numbers::{append_byte, append_number};
use avro_binary::{Build, append_plain};
use avro_schema::Datum;
use std::alloc::{AllocError, Global};

/// Builds the plain encoding of a datum (Avro 1.11, "Binary Encoding"). The bytes of a part are copied again into each whole
/// that has it; those that [`Appending`](crate::Appending) writes in their order are not.
#[derive(Clone, Copy, Drop)]
pub struct Packed;

/// How many items or entries there are, and their plain encodings one after another.
#[derive(Drop)]
pub struct Parts {
    count: u64,
    bytes: Vec<u8>,
}

impl Build for Packed {
    ghost use Rattle.std.specs.Prelude.{◌≡◌, List, length, IfOk};
    ghost use Rattle.std.specs.List.{AllZip};
    ghost use Rattle.avro_schema.specs.Seen.{values_from, entries_from};
    ghost use Rattle.avro_schema.specs.Value.{Value};
    ghost use Rattle.avro_cursor.specs.Encoding.{plain, plain_values, plain_entries};

    type Out = Vec<u8>;

    type Items = Parts;

    type Entries = Parts;

    ghost stands_for = { λ out v. out.items ≡ plain v };

    ghost items_stand_for = { λ parts vs. (parts.count ≡ length vs) × (parts.bytes.items ≡ plain_values (values_from vs)) };

    ghost entries_stand_for = { λ parts es. (parts.count ≡ length es) × (parts.bytes.items ≡ plain_entries (entries_from es)) };

    fn null(&mut self, alloc: Global) -> Result<Vec<u8>, AllocError> {
        Ok(Vec::new(alloc))
    }

    fn boolean(&mut self, alloc: Global, value: bool) -> Result<Vec<u8>, AllocError> {
        self.default(alloc, &Datum::Bool(value))
    }

    fn int(&mut self, alloc: Global, value: i32) -> Result<Vec<u8>, AllocError> {
        self.default(alloc, &Datum::Int(value))
    }

    fn long(&mut self, alloc: Global, value: i64) -> Result<Vec<u8>, AllocError> {
        self.default(alloc, &Datum::Long(value))
    }

    fn bytes(&mut self, alloc: Global, content: &[u8]) -> Result<Vec<u8>, AllocError> {
        measured(alloc, content)
    }

    fn string(&mut self, alloc: Global, text: &str) -> Result<Vec<u8>, AllocError> {
        measured(alloc, text.as_bytes())
    }

    fn fixed(&mut self, alloc: Global, content: &[u8]) -> Result<Vec<u8>, AllocError> {
        content.to_vec(alloc)
    }

    fn symbol(&mut self, alloc: Global, index: u32) -> Result<Vec<u8>, AllocError> {
        self.default(alloc, &Datum::Enum(index))
    }

    fn branch(&mut self, alloc: Global, index: u32, value: Vec<u8>) -> Result<Vec<u8>, AllocError> {
        let mut out = Vec::new(alloc);
        append_number(i64::from(index), &mut out)?;
        out.extend_from_slice(&value)?;
        Ok(out)
    }

    fn fields(&mut self, alloc: Global, values: Vec<Vec<u8>>) -> Result<Vec<u8>, AllocError>
        ensures { (vs : List Value) → AllZip (λ out v. out.items ≡ plain v) values.items vs → IfOk result (λ out. out.items ≡ plain (Value.record_of (values_from vs))) }
    {
        joined(alloc, &values)
    }

    fn items(&mut self, alloc: Global) -> Result<Parts, AllocError> {
        Ok(Parts::new(alloc))
    }

    fn item(
        &mut self,
        _alloc: Global,
        items: &mut Parts,
        value: Vec<u8>,
    ) -> Result<(), AllocError> {
        items.add(&value)
    }

    #[tactic(auto, using(crate::proofs::Joined::array_is_plain))]
    fn array(&mut self, alloc: Global, items: Parts) -> Result<Vec<u8>, AllocError> {
        block(alloc, &items)
    }

    fn entries(&mut self, alloc: Global) -> Result<Parts, AllocError> {
        Ok(Parts::new(alloc))
    }

    fn entry(
        &mut self,
        _alloc: Global,
        entries: &mut Parts,
        key: &str,
        value: Vec<u8>,
    ) -> Result<(), AllocError> {
        append_measured(key.as_bytes(), &mut entries.bytes)?;
        entries.add(&value)
    }

    #[tactic(auto, using(crate::proofs::Joined::map_is_plain))]
    fn map(&mut self, alloc: Global, entries: Parts) -> Result<Vec<u8>, AllocError> {
        block(alloc, &entries)
    }

    fn default(&mut self, alloc: Global, datum: &Datum) -> Result<Vec<u8>, AllocError> {
        let mut out = Vec::new(alloc);
        append_plain(datum, &mut out)?;
        Ok(out)
    }
}

impl Parts {
    /// No items and no entries.
    fn new(alloc: Global) -> Parts
        ensures count { result.count ≡ 0 }
        ensures bytes { result.bytes.items ≡ [] }
    {
        Parts {
            count: 0,
            bytes: Vec::new(alloc),
        }
    }

    /// Adds one more. A count that no block can have is refused.
    fn add(&mut self, value: &[u8]) -> Result<(), AllocError>
        ensures count { OnOk result (self.new.count ≡ self.old.count + 1) }
        ensures bytes { OnOk result (self.new.bytes.items ≡ self.old.bytes.items ++ value.now) }
    {
        match self.count.checked_add(1) {
            Some(count) => {
                self.count = count;
                self.bytes.extend_from_slice(value)
            }
            None => Err(AllocError),
        }
    }
}

/// The one block of items or entries, if there are any, and the end.
fn block(alloc: Global, parts: &Parts) -> Result<Vec<u8>, AllocError>
    ensures { IfOk result (λ out. out.items ≡ plain_blocks parts.now.count parts.now.bytes.items) }
{
    let mut out = Vec::new(alloc);
    if parts.count > 0 {
        match i64::try_from(parts.count) {
            Ok(count) => append_number(count, &mut out)?,
            Err(_) => return Err(AllocError),
        }
        out.extend_from_slice(&parts.bytes)?;
    }
    append_byte(0, &mut out)?;
    Ok(out)
}

/// A length, and the bytes.
fn measured(alloc: Global, content: &[u8]) -> Result<Vec<u8>, AllocError>
    ensures { IfOk result (λ out. out.items ≡ plain_bytes content.now) }
{
    let mut out = Vec::new(alloc);
    append_measured(content, &mut out)?;
    Ok(out)
}

/// Encodings one after another.
fn joined(alloc: Global, values: &[Vec<u8>]) -> Result<Vec<u8>, AllocError>
    ensures { IfOk result (λ out. out.items ≡ concat (map (λ value. value.items) values.now)) }
{
    let mut out = Vec::new(alloc);
    for value in values {
        out.extend_from_slice(value)?;
    }
    Ok(out)
}
