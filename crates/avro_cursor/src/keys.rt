ghost use Rattle.std.specs.Prelude.{◌≡◌, ◌||◌, [], true, None, not, OnOk, OnErr, IfOk};
ghost use Rattle.std.specs.FinSet as set;
ghost use Rattle.avro_cursor.specs.KeySet.{KeySet, with_key};

use std::alloc::{AllocError, Global};
use std::collections::BTreeSet;
use std::marker::Model;

/// The keys of a map that have been read so far.
///
/// Up to three are stored inline, without allocation. The others are in a tree in byte order, so that no choice of keys
/// makes a lookup slow.
#[derive(Drop)]
pub struct Keys<'a> {
    first: Option<&'a [u8]>,
    second: Option<&'a [u8]>,
    third: Option<&'a [u8]>,
    keys: BTreeSet<&'a [u8]>,
}

impl<'a> Model for Keys<'a> {
    ghost use Rattle.std.specs.Prelude.{map};
    ghost use Rattle.std.specs.FinSet as set;
    ghost use Rattle.std.specs.Coded.{coded_ℕ, coded_list};
    ghost use Rattle.avro_cursor.specs.KeySet.{KeySet, key_set, with_key};

    ghost Value = { KeySet };

    ghost coded = { set.code (coded_list coded_ℕ) };

    ghost view = { λ a. with_key a.first (with_key a.second (with_key a.third (key_set (map (λ k. k.now) a.keys.keys)))) };
}

impl<'a> Keys<'a> {
    /// No keys.
    pub fn new(alloc: Global) -> Self
        ensures { result ≡ set.empty }
    {
        Keys {
            first: None,
            second: None,
            third: None,
            keys: BTreeSet::new(alloc),
        }
    }

    /// Adds a key, and returns whether it is new.
    ///
    /// # Errors
    ///
    /// Memory ran out; the keys are unchanged.
    pub fn add(&mut self, key: &'a [u8]) -> Result<bool, AllocError>
        ensures is_new { IfOk result (λ is_new. is_new ≡ not (set.contains self.old key.now)) }
        ensures added { OnOk result (self.new ≡ set.insert self.old key.now) }
        ensures unchanged { OnErr result (self.new ≡ self.old) }
    {
        let is_known = is_among(self.first, self.second, self.third, key);
        if is_known {
            return Ok(false);
        }
        let is_free = is_free(self.third, &self.keys);
        if is_free {
            self.third = self.second;
            self.second = self.first;
            self.first = Some(key);
            return Ok(true);
        }
        Ok(self.keys.insert(key)?)
    }
}

/// Whether an inline slot is free and the tree is empty.
#[inline(always)]
fn is_free(third: Option<&[u8]>, keys: &BTreeSet<&[u8]>) -> bool
    ensures third { result ≡ true → third.entry ≡ None }
    ensures others { result ≡ true → keys.now.keys ≡ [] }
{
    match third {
        Some(_) => false,
        None => keys.is_empty(),
    }
}

/// Whether `key` is one of the inline keys.
#[inline(always)]
fn is_among(first: Option<&[u8]>, second: Option<&[u8]>, third: Option<&[u8]>, key: &[u8]) -> bool
    ensures { (keys : KeySet) → set.contains (with_key first.entry (with_key second.entry (with_key third.entry keys))) key.now ≡ (result || set.contains keys key.now) }
{
    let is_first = is_key(first, key);
    if is_first {
        return true;
    }
    let is_second = is_key(second, key);
    if is_second {
        return true;
    }
    is_key(third, key)
}

/// Whether `kept` is this key.
#[inline(always)]
fn is_key(kept: Option<&[u8]>, key: &[u8]) -> bool
    ensures { (keys : KeySet) → set.contains (with_key kept.entry keys) key.now ≡ (result || set.contains keys key.now) }
{
    match kept {
        Some(kept) => key == kept,
        None => false,
    }
}
