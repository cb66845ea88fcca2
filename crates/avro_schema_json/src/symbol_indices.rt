//! The indices of symbols.

ghost use Rattle.std.specs.Prelude.{◌≡◌, ℕ, List, option_map, IfOk, IfSome};
ghost use Rattle.avro_schema.specs.Seen.{texts_of, value_of};
ghost use Rattle.avro_schema.specs.Value.{Value as SeenValue};
ghost use Rattle.avro_schema_json.specs.DeclaredAttributes.{symbol_index};
ghost use Rattle.avro_schema_json.specs.inside.SymbolIndices.{FindsSymbols};

use crate::raw::RawEnum;
use crate::texts::copy_of_text;
use avro_schema::{Datum, Memory};
use avro_texts::Seeded;
use indexmap::IndexMap;
use std::alloc::Global;

/// The first index of each symbol, to look words up in. The symbols are gone through from the
/// last, so that the first index of one that repeats is kept.
pub(crate) fn symbol_indices(
    alloc: Global,
    seed: Seeded,
    symbols: &[String],
) -> Result<IndexMap<String, u32, Seeded>, Memory>
    ensures { IfOk result (λ indices. FindsSymbols (texts_of symbols.now) indices) }
{
    let mut indices: IndexMap<String, u32, Seeded> = IndexMap::with_capacity_and_hasher(
        alloc,
        symbols.len(),
        seed,
    )?;
    let mut left = symbols.len();
    while left > 0 {
        left -= 1;
        let Ok(index) = u32::try_from(left) else {
            return Err(Memory);
        };
        let symbol = copy_of_text(alloc, symbols[left].as_str())?;
        indices.insert(symbol, index)?;
    }
    Ok(indices)
}

/// The same, if there is a seed.
pub(crate) fn known_indices(
    alloc: Global,
    seed: Option<Seeded>,
    symbols: &[String],
) -> Result<Option<Box<IndexMap<String, u32, Seeded>>>, Memory>
    ensures { IfOk result (λ indices. IfSome indices (λ i. FindsSymbols (texts_of symbols.now) i.value)) }
{
    match seed {
        Some(seed) => {
            let indices = symbol_indices(alloc, seed, symbols)?;
            Ok(Some(Box::new(alloc, indices)?))
        }
        None => Ok(None),
    }
}

/// The first index of a symbol. One past the range of numbers would exceed any memory.
pub(crate) fn index_of_symbol(symbols: &[String], word: &str) -> Result<Option<u32>, Memory>
    ensures { IfOk result (λ index. index ≡ symbol_index word.now (texts_of symbols.now)) }
{
    for index in 0..symbols.len() {
        if word == symbols[index].as_str() {
            let Ok(index) = u32::try_from(index) else {
                return Err(Memory);
            };
            return Ok(Some(index));
        }
    }
    Ok(None)
}

/// The index of a symbol of an enum.
fn index_in(raw: &RawEnum, word: &str) -> Result<Option<u32>, Memory>
    ensures { IfOk result (λ index. index ≡ symbol_index word.now (texts_of raw.now.node.symbols.items)) }
{
    match &raw.indices {
        Some(indices) => Ok(indices.get(word).copied()),
        None => index_of_symbol(&raw.node.symbols, word),
    }
}

/// The default of an enum that a word gives.
pub(crate) fn symbol_default(raw: &RawEnum, word: &str) -> Result<Option<Datum>, Memory>
    ensures { IfOk result (λ datum. option_map value_of datum ≡ option_map SeenValue.enum (symbol_index word.now (texts_of raw.now.node.symbols.items))) }
{
    match index_in(raw, word)? {
        Some(index) => Ok(Some(Datum::Enum(index))),
        None => Ok(None),
    }
}
