ghost use Rattle.std.specs.Prelude.{◌≡◌, ℕ, List, [], ◌∷◌, ◌++◌, IfOk, OnOk};
ghost use Rattle.std.specs.List.{AllZip};
ghost use Rattle.avro_schema.specs.Seen.{values_from, entries_from, value_of};
ghost use Rattle.avro_schema.specs.Value.{Value};

use avro_schema::Datum;
use std::alloc::{AllocError, Global};

/// What is built from a datum that is read: one call for each kind of datum, and calls for the
/// items of an array and the entries of a map (Avro 1.11, "Binary Encoding").
///
/// A call fails only where memory runs out. Its law is its contract: where its arguments stand for
/// their parts, its result stands for the whole. What a result stands for depends on the result
/// alone, so a builder may keep what it likes.
pub trait Build {
    /// What is built from a datum.
    type Out: Drop;

    /// What is built from the items of an array, so far.
    type Items: Drop;

    /// What is built from the entries of a map, so far.
    type Entries: Drop;

    /// Which datum a result stands for.
    ghost stands_for: { Self.Out → Value → Type 0 };

    /// Which data some items stand for.
    ghost items_stand_for: { Self.Items → List Value → Type 0 };

    /// Which keys and data some entries stand for.
    ghost entries_stand_for: { Self.Entries → List (List ℕ × Value) → Type 0 };

    /// Builds null.
    fn null(&mut self, alloc: Global) -> Result<Self::Out, AllocError>
        ensures { IfOk result (λ out. stands_for out Value.null) };

    /// Builds a boolean.
    fn boolean(&mut self, alloc: Global, value: bool) -> Result<Self::Out, AllocError>
        ensures { IfOk result (λ out. stands_for out (Value.boolean value)) };

    /// Builds an int.
    fn int(&mut self, alloc: Global, value: i32) -> Result<Self::Out, AllocError>
        ensures { IfOk result (λ out. stands_for out (Value.int value)) };

    /// Builds a long.
    fn long(&mut self, alloc: Global, value: i64) -> Result<Self::Out, AllocError>
        ensures { IfOk result (λ out. stands_for out (Value.long value)) };

    /// Builds bytes.
    fn bytes(&mut self, alloc: Global, content: &[u8]) -> Result<Self::Out, AllocError>
        ensures { IfOk result (λ out. stands_for out (Value.bytes content.now)) };

    /// Builds a string.
    fn string(&mut self, alloc: Global, text: &str) -> Result<Self::Out, AllocError>
        ensures { IfOk result (λ out. stands_for out (Value.string text.now)) };

    /// Builds a fixed.
    fn fixed(&mut self, alloc: Global, content: &[u8]) -> Result<Self::Out, AllocError>
        ensures { IfOk result (λ out. stands_for out (Value.fixed content.now)) };

    /// Builds an enum from the index of its symbol.
    fn symbol(&mut self, alloc: Global, index: u32) -> Result<Self::Out, AllocError>
        ensures { IfOk result (λ out. stands_for out (Value.enum index)) };

    /// Builds a union from the index of its branch and what was built from its value.
    fn branch(
        &mut self,
        alloc: Global,
        index: u32,
        value: Self::Out,
    ) -> Result<Self::Out, AllocError>
        ensures { (v : Value) → stands_for value v → IfOk result (λ out. stands_for out (Value.union index v)) };

    /// Builds a record from what was built from the values of its fields, in order.
    fn fields(&mut self, alloc: Global, values: Vec<Self::Out>) -> Result<Self::Out, AllocError>
        ensures { (vs : List Value) → AllZip stands_for values.items vs → IfOk result (λ out. stands_for out (Value.record_of (values_from vs))) };

    /// No items.
    fn items(&mut self, alloc: Global) -> Result<Self::Items, AllocError>
        ensures { IfOk result (λ items. items_stand_for items []) };

    /// Adds an item after those before.
    fn item(
        &mut self,
        alloc: Global,
        items: &mut Self::Items,
        value: Self::Out,
    ) -> Result<(), AllocError>
        ensures { (vs : List Value) (v : Value) → items_stand_for items.old vs → stands_for value v → OnOk result (items_stand_for items.new (vs ++ v ∷ [])) };

    /// Builds an array from its items.
    fn array(&mut self, alloc: Global, items: Self::Items) -> Result<Self::Out, AllocError>
        ensures { (vs : List Value) → items_stand_for items vs → IfOk result (λ out. stands_for out (Value.array (values_from vs))) };

    /// No entries.
    fn entries(&mut self, alloc: Global) -> Result<Self::Entries, AllocError>
        ensures { IfOk result (λ entries. entries_stand_for entries []) };

    /// Adds an entry after those before.
    fn entry(
        &mut self,
        alloc: Global,
        entries: &mut Self::Entries,
        key: &str,
        value: Self::Out,
    ) -> Result<(), AllocError>
        ensures { (es : List (List ℕ × Value)) (v : Value) → entries_stand_for entries.old es → stands_for value v → OnOk result (entries_stand_for entries.new (es ++ (key.now, v) ∷ [])) };

    /// Builds a map from its entries.
    fn map(&mut self, alloc: Global, entries: Self::Entries) -> Result<Self::Out, AllocError>
        ensures { (es : List (List ℕ × Value)) → entries_stand_for entries es → IfOk result (λ out. stands_for out (Value.map_of (entries_from es))) };

    /// Builds a datum that is at hand: the default of a field.
    fn default(&mut self, alloc: Global, datum: &Datum) -> Result<Self::Out, AllocError>
        ensures { IfOk result (λ out. stands_for out (value_of datum.now)) };
}
