use crate::build::Build;
use avro_schema::Datum;
use std::alloc::{AllocError, Global};

/// Builds the datum itself.
#[derive(Clone, Copy, Drop)]
pub struct Tree;

impl Build for Tree {
    ghost use Rattle.std.specs.Prelude.{◌≡◌, List, ℕ, map, IfOk};
    ghost use Rattle.std.specs.List.{AllZip};
    ghost use Rattle.avro_schema.specs.Seen.{value_of, values_from, pair_of};
    ghost use Rattle.avro_schema.specs.Value.{Value};

    type Out = Datum;

    type Items = Vec<Datum>;

    type Entries = Vec<(String, Datum)>;

    ghost stands_for = { λ datum v. value_of datum ≡ v };

    ghost items_stand_for = { λ items vs. map value_of items.items ≡ vs };

    ghost entries_stand_for = { λ entries es. map pair_of entries.items ≡ es };

    fn null(&mut self, _alloc: Global) -> Result<Datum, AllocError> {
        Ok(Datum::Null)
    }

    fn boolean(&mut self, _alloc: Global, value: bool) -> Result<Datum, AllocError> {
        Ok(Datum::Bool(value))
    }

    fn int(&mut self, _alloc: Global, value: i32) -> Result<Datum, AllocError> {
        Ok(Datum::Int(value))
    }

    fn long(&mut self, _alloc: Global, value: i64) -> Result<Datum, AllocError> {
        Ok(Datum::Long(value))
    }

    fn bytes(&mut self, alloc: Global, content: &[u8]) -> Result<Datum, AllocError> {
        Ok(Datum::Bytes(content.to_vec(alloc)?))
    }

    fn string(&mut self, alloc: Global, text: &str) -> Result<Datum, AllocError> {
        Ok(Datum::Str(String::from_str(alloc, text)?))
    }

    fn fixed(&mut self, alloc: Global, content: &[u8]) -> Result<Datum, AllocError> {
        Ok(Datum::Fixed(content.to_vec(alloc)?))
    }

    fn symbol(&mut self, _alloc: Global, index: u32) -> Result<Datum, AllocError> {
        Ok(Datum::Enum(index))
    }

    fn branch(&mut self, alloc: Global, index: u32, value: Datum) -> Result<Datum, AllocError> {
        Ok(Datum::Union(index, Box::new(alloc, value)?))
    }

    fn items(&mut self, alloc: Global) -> Result<Vec<Datum>, AllocError> {
        Ok(Vec::new(alloc))
    }

    fn item(
        &mut self,
        _alloc: Global,
        items: &mut Vec<Datum>,
        value: Datum,
    ) -> Result<(), AllocError> {
        items.push(value)?;
        Ok(())
    }

    fn array(&mut self, _alloc: Global, items: Vec<Datum>) -> Result<Datum, AllocError> {
        Ok(Datum::Array(items))
    }

    fn fields(&mut self, _alloc: Global, values: Vec<Datum>) -> Result<Datum, AllocError>
        ensures { (vs : List Value) → AllZip (λ datum v. value_of datum ≡ v) values.items vs → IfOk result (λ out. value_of out ≡ Value.record_of (values_from vs)) }
    {
        Ok(Datum::Record(values))
    }

    fn entries(&mut self, alloc: Global) -> Result<Vec<(String, Datum)>, AllocError> {
        Ok(Vec::new(alloc))
    }

    fn entry(
        &mut self,
        alloc: Global,
        entries: &mut Vec<(String, Datum)>,
        key: &str,
        value: Datum,
    ) -> Result<(), AllocError> {
        let key = String::from_str(alloc, key)?;
        entries.push((key, value))?;
        Ok(())
    }

    fn map(&mut self, _alloc: Global, entries: Vec<(String, Datum)>) -> Result<Datum, AllocError> {
        Ok(Datum::Map(entries))
    }

    fn default(&mut self, _alloc: Global, datum: &Datum) -> Result<Datum, AllocError> {
        Ok(datum.clone()?)
    }
}
