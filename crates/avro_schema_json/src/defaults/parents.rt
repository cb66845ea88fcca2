//! Under which labels a node is a part of which nodes, its parents: as items of arrays, as values of maps, or as
//! fields of a name, also as a branch of a union there. A text that is a symbol has its enums as parents.

ghost use Rattle.std.specs.Prelude.{◌≡◌, ◌/◌, ℕ, true, OnOk};
ghost use Rattle.std.specs.Int.{bit_at};
ghost use Rattle.avro_schema_json.specs.inside.Parents.{KeepsParents, KeepsPlaces, KeepsUnder, has_bit, has_parent, has_parent_of, has_parent_under};
ghost use Rattle.avro_schema_json.specs.inside.Rows.{has_place, IsWithin};
ghost use Rattle.avro_schema_json.specs.inside.Steps.{Follows};

use crate::defaults::rows::{Row, empty_row, put_bits, word_of};
use avro_schema::Memory;
use std::alloc::Global;
use std::collections::BTreeMap;

/// The label of items of arrays.
pub(crate) const ITEMS: u32 = 0;

/// The label of values of maps.
pub(crate) const VALUES: u32 = 1;

/// A word of a row by its index, with some bits.
#[derive(Clone, Copy, Drop)]
pub(crate) struct RowWord {
    pub index: usize,
    pub bits: u64,
}

/// Some of 64 places, by the bits of a mask, and their parents: those words of a row that have bits, each once.
#[derive(Drop)]
pub(crate) struct Places {
    pub mask: u64,
    pub parents: Vec<RowWord>,
}

/// The parents of each place under one label, by words of 64 places.
pub(crate) type Under = BTreeMap<usize, Vec<Places>>;

/// The parents under each label.
pub(crate) type Parents = BTreeMap<u32, Under>;

/// Adds a parent of a place under a label.
pub(crate) fn put_parent(
    alloc: Global,
    parents: &mut Parents,
    place: usize,
    label: u32,
    parent: u32,
) -> Result<(), Memory>
    ensures kept { OnOk result (KeepsParents parents.old parents.new) }
    ensures added { OnOk result (has_parent_of parents.new place label parent) }
{
    let mut under = parents.remove(&label).unwrap_or(BTreeMap::new(alloc));
    put_under(alloc, &mut under, place, parent)?;
    parents.insert(label, under)?;
    Ok(())
}

/// Adds a parent of a place.
fn put_under(alloc: Global, under: &mut Under, place: usize, parent: u32) -> Result<(), Memory>
    ensures kept { OnOk result (KeepsUnder under.old under.new) }
    ensures added { OnOk result (has_parent_under under.new place parent) }
{
    let word = place / 64;
    let mut places = under.remove(&word).unwrap_or(Vec::new(alloc));
    put_in(alloc, &mut places, 1 << (place % 64), parent)?;
    under.insert(word, places)?;
    Ok(())
}

/// Adds a parent of the places of a mask.
fn put_in(alloc: Global, places: &mut Vec<Places>, mask: u64, parent: u32) -> Result<(), Memory>
    ensures kept { OnOk result (KeepsPlaces places.old.items places.new.items) }
    ensures added { OnOk result ((i : ℕ) → bit_at mask i ≡ 1 → has_parent places.new.items i parent) }
{
    for i in 0..places.len() {
        if places[i].mask == mask {
            add_parent(&mut places[i].parents, parent)?;
            return Ok(());
        }
    }
    let mut parents = Vec::new(alloc);
    add_parent(&mut parents, parent)?;
    places.push(Places { mask, parents })?;
    Ok(())
}

/// Adds a parent.
fn add_parent(words: &mut Vec<RowWord>, parent: u32) -> Result<(), Memory>
    ensures kept { OnOk result ((p : ℕ) → has_bit words.old.items p → has_bit words.new.items p) }
    ensures added { OnOk result (has_bit words.new.items parent) }
{
    let index = parent as usize / 64;
    let bits = 1 << (parent % 64);
    for i in 0..words.len() {
        if words[i].index == index {
            words[i].bits |= bits;
            return Ok(());
        }
    }
    words.push(RowWord { index, bits })?;
    Ok(())
}

/// Adds parents to a row.
pub(crate) fn put_parents(row: &mut Row, words: &[RowWord])
    ensures kept { IsWithin row.old.words row.new.words }
    ensures added { (p : ℕ) → has_bit words.now p → has_place row.new.words p ≡ true }
{
    for word in words {
        put_bits(row, word.index, word.bits);
    }
}

/// Adds the parents of those of 64 places that are among bits.
fn put_parents_in(row: &mut Row, places: &[Places], among: u64)
    ensures kept { IsWithin row.old.words row.new.words }
    ensures added { (i p : ℕ) → bit_at among i ≡ 1 → has_parent places.now i p → has_place row.new.words p ≡ true }
{
    for place in places {
        if place.mask & among != 0 {
            put_parents(row, &place.parents);
        }
    }
}

/// Adds the parents of a place under a label.
pub(crate) fn put_parents_at(row: &mut Row, parents: &Parents, label: u32, place: usize)
    ensures kept { IsWithin row.old.words row.new.words }
    ensures added { (p : ℕ) → has_parent_of parents.now place label p → has_place row.new.words p ≡ true }
{
    let Some(under) = parents.get(&label) else {
        return;
    };
    let Some(places) = under.get(&(place / 64)) else {
        return;
    };
    put_parents_in(row, places, 1 << (place % 64));
}

/// The parents under a label of what is in a row. Only the places that have some are looked at.
pub(crate) fn parents_of_row(parents: &Parents, label: u32, row: &Row) -> Row
    ensures { Follows parents.now label row.now.words result.words }
{
    let mut found = empty_row();
    let Some(under) = parents.get(&label) else {
        return found;
    };
    for (word, places) in under.iter() {
        let among = word_of(row, *word);
        if among != 0 {
            put_parents_in(&mut found, places, among);
        }
    }
    found
}
