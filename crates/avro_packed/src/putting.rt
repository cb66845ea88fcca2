//! Appending the plain encodings of what data are for a reader.

ghost use Rattle.std.specs.Prelude.{◌≡◌, ◌++◌, ℕ, List, OnOk};
ghost use Rattle.avro_schema.specs.Seen.{value_of};
ghost use Rattle.avro_zigzag.specs.Number.{number_bytes};
ghost use Rattle.avro_cursor.specs.Encoding.{plain};
ghost use Rattle.avro_binary.specs.LeafValue.{leaf_value};
ghost use Rattle.avro_binary.specs.Outputs.{Grows};

use crate::appending::Appending;
use crate::gathered::Gathered;
use crate::joining::{append_measured, is_nothing};
use crate::numbers::{append_byte, append_bytes, append_number};
use crate::written::Written;
use avro_binary::{Leaf, Make, Place, append_plain, give_list, list};
use avro_schema::{Datum, NodeId};
use std::alloc::{AllocError, Global};

/// Appends a datum without parts.
#[inline(always)]
fn append_leaf(leaf: Leaf<'_>, out: &mut Vec<u8>) -> Result<(), AllocError>
    ensures appended { OnOk result (out.new.items ≡ out.old.items ++ plain (leaf_value leaf.entry)) }
    ensures stays { (front : List ℕ) → Grows front out.old.items → Grows front out.new.items }
{
    match leaf {
        Leaf::Null => Ok(()),
        Leaf::Boolean(value) => append_byte(u8::from(value), out),
        Leaf::Int(value) => append_number(i64::from(value), out),
        Leaf::Long(value) => append_number(value, out),
        Leaf::Bytes(content) => append_measured(content, out),
        Leaf::Text(text) => append_measured(text.as_bytes(), out),
        Leaf::Fixed(content) => append_bytes(content, out),
        Leaf::Symbol(index) => append_number(i64::from(index), out),
    }
}

/// Appends a datum at hand.
#[inline(always)]
fn append_datum(datum: &Datum, out: &mut Vec<u8>) -> Result<(), AllocError>
    ensures appended { OnOk result (out.new.items ≡ out.old.items ++ plain (value_of datum.now)) }
    ensures stays { (front : List ℕ) → Grows front out.old.items → Grows front out.new.items }
{
    match datum {
        Datum::Int(value) => append_int(value, out),
        Datum::Long(value) => append_long(value, out),
        Datum::Str(text) => append_measured(text.as_bytes(), out),
        _ => append_whole(datum, out),
    }
}

/// Appends a datum at hand, whatever it is.
#[inline(always)]
fn append_whole(datum: &Datum, out: &mut Vec<u8>) -> Result<(), AllocError>
    ensures appended { OnOk result (out.new.items ≡ out.old.items ++ plain (value_of datum.now)) }
    ensures stays { (front : List ℕ) → Grows front out.old.items → Grows front out.new.items }
{
    append_plain(datum, out)
}

/// Appends an int at hand.
#[inline(always)]
fn append_int(value: &i32, out: &mut Vec<u8>) -> Result<(), AllocError>
    ensures appended { OnOk result (out.new.items ≡ out.old.items ++ number_bytes value.now) }
    ensures stays { (front : List ℕ) → Grows front out.old.items → Grows front out.new.items }
{
    append_number(i64::from(*value), out)
}

/// Appends a long at hand.
#[inline(always)]
fn append_long(value: &i64, out: &mut Vec<u8>) -> Result<(), AllocError>
    ensures appended { OnOk result (out.new.items ≡ out.old.items ++ number_bytes value.now) }
    ensures stays { (front : List ℕ) → Grows front out.old.items → Grows front out.new.items }
{
    append_number(*value, out)
}

impl Appending {
    ghost use Rattle.std.specs.Prelude.{IfOk};
    ghost use Rattle.avro_packed.specs.Appended.{Holds, Keeps, branch_bytes};

    /// Writes the index of a branch, if there is one, and nothing behind it.
    #[inline(always)]
    fn begun(&mut self, branch: Option<u32>) -> Result<Written, AllocError>
        ensures kept { OnOk result (Keeps self.old self.new) }
        ensures holds { IfOk result (λ out. Holds self.new.bytes out (branch_bytes branch)) }
        ensures stays { (front : List ℕ) → Grows front self.old.bytes → Grows front self.new.bytes }
    {
        let start = self.begin(branch)?;
        Ok(self.since(start))
    }
}

impl Make for Appending {
    ghost use Rattle.std.specs.Prelude.{◌≡◌, ◌++◌, [], refl};
    ghost use Rattle.avro_schema.specs.Seen.{values_from, entries_from};
    ghost use Rattle.avro_cursor.specs.Encoding.{plain, plain_values, plain_entries};
    ghost use Rattle.avro_binary.specs.Outputs.{Grows};
    ghost use Rattle.avro_binary.specs.Places.{MayBeAt, alone, branch_place, in_branch};
    ghost use Rattle.avro_packed.specs.Appended.{Holds, Keeps, branch_bytes, AreItems, AreEntries};
    ghost use Rattle.avro_packed.specs.inside.Outputs.{keeps_none, keeps_on, still_holds};

    type At = Place;

    type Out = Written;

    type Items = Gathered;

    type Entries = Gathered;

    type Fields = Written;

    ghost keeps = { Keeps };

    ghost begins = { λ m front. Grows front m.bytes };

    ghost stands_for = { λ m nodes n at out v. MayBeAt n at → Holds m.bytes out (plain (in_branch at.branch v)) };

    ghost items_stand_for = { λ m nodes id at items vs. (items.into ≡ at.branch) × AreItems m.bytes items vs };

    ghost entries_stand_for = { λ m nodes id at entries es. (entries.into ≡ at.branch) × AreEntries m.bytes entries es };

    ghost fields_stand_for = { λ m nodes fs at fields vs. Holds m.bytes fields (branch_bytes at.branch ++ plain_values (values_from vs)) };

    ghost branch_at = { λ _ at branch id. branch_place branch id };

    ghost item_at = { λ _ items id. alone id };

    ghost entry_at = { λ _ entries id. alone id };

    ghost field_at = { λ _ fields id. alone id };

    ghost keeps_itself = { keeps_none };

    ghost keeps_on = { keeps_on };

    ghost still_stands = { λ s t nodes n at out v kept stand may. still_holds s.bytes t.bytes out (plain (in_branch at.branch v)) kept.1 (stand may) };

    ghost items_kept = { λ s t nodes id at items vs kept stand. (stand.0, (stand.1.0, still_holds s.bytes t.bytes items.written (plain_values (values_from vs)) kept.1 stand.1.1)) };

    ghost entries_kept = { λ s t nodes id at entries es kept stand. (stand.0, (stand.1.0, still_holds s.bytes t.bytes entries.written (plain_entries (entries_from es)) kept.1 stand.1.1)) };

    ghost fields_kept = { λ s t nodes fs at fields vs kept stand. still_holds s.bytes t.bytes fields (branch_bytes at.branch ++ plain_values (values_from vs)) kept.1 stand };

    ghost branch_at_kept = { λ s t at branch id kept. refl };

    ghost item_at_kept = { λ s t items id kept. refl };

    ghost entry_at_kept = { λ s t entries id kept. refl };

    ghost field_at_kept = { λ s t fields id kept. refl };

    #[inline(always)]
    fn empty(&mut self, _alloc: Global, at: Place) -> Result<Option<Written>, AllocError> {
        let begun = self.begun(at.branch)?;
        Ok(Some(begun))
    }

    #[inline(always)]
    fn leaf(&mut self, _alloc: Global, at: Place, leaf: Leaf<'_>) -> Result<Written, AllocError> {
        let start = self.begin(at.branch)?;
        append_leaf(leaf, &mut self.out)?;
        Ok(self.since(start))
    }

    #[inline(always)]
    fn branch_at(&self, _at: Place, branch: u32, node: NodeId) -> Place {
        Place::in_branch(branch, node)
    }

    #[inline(always)]
    fn branch(
        &mut self,
        _alloc: Global,
        _branch: u32,
        value: Written,
    ) -> Result<Written, AllocError> {
        Ok(value)
    }

    #[inline(always)]
    fn default(
        &mut self,
        _alloc: Global,
        at: Place,
        datum: &Datum,
    ) -> Result<Option<Written>, AllocError> {
        let start = self.begin(at.branch)?;
        append_datum(datum, &mut self.out)?;
        Ok(Some(self.since(start)))
    }

    #[inline(always)]
    fn copied(
        &mut self,
        _alloc: Global,
        at: Place,
        content: &[u8],
    ) -> Result<Option<Written>, AllocError> {
        let start = self.begin(at.branch)?;
        append_bytes(content, &mut self.out)?;
        Ok(Some(self.since(start)))
    }

    #[inline(always)]
    fn items(&mut self, _alloc: Global, at: Place) -> Result<Gathered, AllocError> {
        Ok(self.gather(at.branch))
    }

    #[inline(always)]
    fn item_at(&self, _items: &Gathered, node: NodeId) -> Place {
        Place::of(node)
    }

    #[inline(always)]
    fn item(
        &mut self,
        alloc: Global,
        items: &mut Gathered,
        value: Written,
    ) -> Result<(), AllocError> {
        items.count_more(1)?;
        self.join(alloc, &mut items.written, value)
    }

    fn repeat(&self, items: &mut Gathered, value: &Written, count: u32) -> bool {
        if is_nothing(value) {
            return match items.count_more(count) {
                Ok(()) => true,
                Err(_) => false,
            };
        }
        false
    }

    #[inline(always)]
    fn array(&mut self, alloc: Global, items: Gathered) -> Result<Written, AllocError> {
        self.block(alloc, items)
    }

    #[inline(always)]
    fn entries(&mut self, _alloc: Global, at: Place) -> Result<Gathered, AllocError> {
        Ok(self.gather(at.branch))
    }

    #[inline(always)]
    fn entry_at(&self, _entries: &Gathered, node: NodeId) -> Place {
        Place::of(node)
    }

    #[inline(always)]
    fn entry(
        &mut self,
        alloc: Global,
        entries: &mut Gathered,
        key: &str,
        value: Written,
    ) -> Result<(), AllocError> {
        entries.count_more(1)?;
        self.join_key(alloc, &mut entries.written, key.as_bytes())?;
        self.join(alloc, &mut entries.written, value)
    }

    #[inline(always)]
    fn map(&mut self, alloc: Global, entries: Gathered) -> Result<Written, AllocError> {
        self.block(alloc, entries)
    }

    #[inline(always)]
    fn fields(&mut self, _alloc: Global, at: Place) -> Result<Written, AllocError> {
        match at.branch {
            None => Ok(self.here()),
            Some(_) => self.begun(at.branch),
        }
    }

    #[inline(always)]
    fn field_at(&self, _fields: &Written, node: NodeId) -> Place {
        Place::of(node)
    }

    #[inline(always)]
    fn field(
        &mut self,
        alloc: Global,
        fields: &mut Written,
        value: Written,
    ) -> Result<(), AllocError> {
        self.join(alloc, fields, value)
    }

    fn empty_fields(&self, _fields: &mut Written, _count: u32) -> bool {
        true
    }

    #[inline(always)]
    fn record(&mut self, _alloc: Global, fields: Written) -> Result<Written, AllocError> {
        Ok(fields)
    }

    #[inline(always)]
    fn slots(&mut self, alloc: Global) -> Vec<Option<Written>>
        ensures kept { Keeps self.old self.new }
        ensures none { result.items ≡ [] }
    {
        list(alloc, &mut self.slots)
    }

    #[inline(always)]
    fn keep_slots(&mut self, slots: Vec<Option<Written>>)
        ensures kept { Keeps self.old self.new }
    {
        give_list(&mut self.slots, slots);
    }

    #[inline(always)]
    fn spare_ends(&mut self, alloc: Global) -> Option<Vec<usize>> {
        if self.sparing {
            return None;
        }
        Some(list(alloc, &mut self.ends))
    }

    #[inline(always)]
    fn keep_ends(&mut self, ends: Vec<usize>) {
        give_list(&mut self.ends, ends);
    }
}
