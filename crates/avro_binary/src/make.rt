ghost use Rattle.std.specs.Prelude.{◌≡◌, ◌<◌, ℕ, List, [], ◌∷◌, ◌++◌, Option, Some, true, false, length, replicate, take, drop, slice_get, IfOk, IfSome, OnOk};
ghost use Rattle.avro_name.specs.Name.{Name};
ghost use Rattle.avro_schema.specs.Empty.{are_empty, is_empty};
ghost use Rattle.avro_schema.specs.Fits.{fields_fit, fits};
ghost use Rattle.avro_schema.specs.Node.{Node, FieldNode, node_at, field_ids};
ghost use Rattle.avro_schema.specs.Seen.{values_from, entries_from, value_of};
ghost use Rattle.avro_schema.specs.Value.{Value};
ghost use Rattle.avro_cursor.specs.Encoding.{plain};
ghost use Rattle.avro_binary.specs.LeafValue.{has_no_parts, leaf_value};
ghost use Rattle.avro_binary.specs.Pieces.{ArePieces};
ghost use Rattle.avro_binary.specs.Places.{is_union};

use crate::leaf::Leaf;
use avro_schema::{Datum, NodeId};
use std::alloc::{AllocError, Global};

/// What is made from a datum of a node that is read, and from each of its parts. The maker is told the node of each part, and says what
/// the part is for.
///
/// A call fails only where memory runs out. What a result stands for is said for the maker as it then is; it stays so for every later one that keeps it.
pub trait Make {
    /// What a part is for.
    type At: Copy;

    /// What is made from a datum.
    type Out: Drop;

    /// What is made from the items of an array, so far.
    type Items: Drop;

    /// What is made from the entries of a map, so far.
    type Entries: Drop;

    /// What is made from the fields of a record, so far.
    type Fields: Drop;

    /// Which later makers keep what one has made.
    ghost keeps: { Self → Self → Type 0 };

    /// With which bytes a maker begins. It does so for good, whether a call returns something or fails.
    ghost begins: { Self → List ℕ → Type 0 };

    /// Which datum of a node a result stands for, by what it is for.
    ghost stands_for: { Self → List Node → Node → Self.At → Self.Out → Value → Type 0 };

    /// Which data the items of an array stand for, by the id of their node and what the array is for.
    ghost items_stand_for: { Self → List Node → ℕ → Self.At → Self.Items → List Value → Type 0 };

    /// Which keys and data the entries of a map stand for, by the id of their node and what the map is for.
    ghost entries_stand_for: { Self → List Node → ℕ → Self.At → Self.Entries → List (List ℕ × Value) → Type 0 };

    /// Which data the first fields of a record stand for, by what the record is for.
    ghost fields_stand_for: { Self → List Node → List FieldNode → Self.At → Self.Fields → List Value → Type 0 };

    /// What the value of a branch is for, by the branch and the id of its node.
    ghost branch_at: { Self → Self.At → ℕ → ℕ → Self.At };

    /// What the next item is for, by the id of its node.
    ghost item_at: { Self → Self.Items → ℕ → Self.At };

    /// What the value of the next entry is for, by the id of its node.
    ghost entry_at: { Self → Self.Entries → ℕ → Self.At };

    /// What the value of the next field is for, by the id of its node.
    ghost field_at: { Self → Self.Fields → ℕ → Self.At };

    /// Makes at once what a datum without bytes is made into, or `None` where its parts are needed for that.
    fn empty(&mut self, _alloc: Global, _at: Self::At) -> Result<Option<Self::Out>, AllocError>
        ensures kept { OnOk result (keeps self.old self.new) }
        ensures stays { (front : List ℕ) → begins self.old front → begins self.new front }
        ensures stands { (nodes : List Node) (n : Node) (v : Value) → fits nodes n v ≡ true → is_empty v ≡ true → IfOk result (λ o. IfSome o (λ out. stands_for self.new nodes n _at out v)) }
    {
        Ok(None)
    }

    /// A list for the ends of the encodings of a record's fields, where the record may be made from these, or `None` where its parts
    /// are needed.
    fn ends(&mut self, _alloc: Global, _at: Self::At) -> Option<Vec<usize>>
        ensures kept { keeps self.old self.new }
        ensures stays { (front : List ℕ) → begins self.old front → begins self.new front }
    {
        None
    }

    /// The same, where a maker makes leaves from their encodings: a record for a reader is then made of some, and of defaults.
    fn spare_ends(&mut self, _alloc: Global) -> Option<Vec<usize>>
        ensures kept { keeps self.old self.new }
        ensures stays { (front : List ℕ) → begins self.old front → begins self.new front }
    {
        None
    }

    /// Keeps such a list for later, or lets it go.
    fn keep_ends(&mut self, _ends: Vec<usize>)
        ensures kept { keeps self.old self.new }
        ensures stays { (front : List ℕ) → begins self.old front → begins self.new front }
    {}

    /// Makes a record from the encodings of its fields, each of which stands in the bytes from one end to the next, or `None` where its
    /// parts are needed for that. No field has parts.
    fn pieces(
        &mut self,
        _alloc: Global,
        _at: Self::At,
        _bytes: &[u8],
        _ends: Vec<usize>,
    ) -> Result<Option<Self::Out>, AllocError>
        ensures kept { OnOk result (keeps self.old self.new) }
        ensures stays { (front : List ℕ) → begins self.old front → begins self.new front }
        ensures stands { (nodes : List Node) (name : Name) (aliases : List Name) (fs : List FieldNode) (vs : List Value) → ArePieces vs _bytes.now _ends.items
            → fields_fit nodes (field_ids fs) (values_from vs) ≡ true → IfOk result (λ o. IfSome o (λ out. stands_for self.new nodes (Node.record_of name aliases fs) _at out (Value.record_of (values_from vs)))) }
    {
        Ok(None)
    }

    /// Makes a datum of a leaf's node from its plain encoding, or `None` where the datum itself is needed for that.
    fn copied(
        &mut self,
        _alloc: Global,
        _at: Self::At,
        _content: &[u8],
    ) -> Result<Option<Self::Out>, AllocError>
        ensures kept { OnOk result (keeps self.old self.new) }
        ensures stays { (front : List ℕ) → begins self.old front → begins self.new front }
        ensures stands { (nodes : List Node) (n : Node) (v : Value) → has_no_parts n ≡ true → fits nodes n v ≡ true → plain v ≡ _content.now
            → IfOk result (λ o. IfSome o (λ out. stands_for self.new nodes n _at out v)) }
    {
        Ok(None)
    }

    /// Makes a datum at hand, the default of a field, or `None` where it has to be given part by part.
    fn default(
        &mut self,
        _alloc: Global,
        _at: Self::At,
        _datum: &Datum,
    ) -> Result<Option<Self::Out>, AllocError>
        ensures kept { OnOk result (keeps self.old self.new) }
        ensures stays { (front : List ℕ) → begins self.old front → begins self.new front }
        ensures stands { (nodes : List Node) (n : Node) → fits nodes n (value_of _datum.now) ≡ true
            → IfOk result (λ o. IfSome o (λ out. stands_for self.new nodes n _at out (value_of _datum.now))) }
    {
        Ok(None)
    }

    /// Makes a datum without parts.
    fn leaf(&mut self, alloc: Global, at: Self::At, leaf: Leaf<'_>) -> Result<Self::Out, AllocError>
        ensures kept { OnOk result (keeps self.old self.new) }
        ensures stays { (front : List ℕ) → begins self.old front → begins self.new front }
        ensures stands { (nodes : List Node) (n : Node) → fits nodes n (leaf_value leaf.entry) ≡ true → IfOk result (λ out. stands_for self.new nodes n at out (leaf_value leaf.entry)) };

    /// What the value of a branch is for.
    fn branch_at(&self, at: Self::At, branch: u32, node: NodeId) -> Self::At
        ensures { result ≡ branch_at self.now at branch node.0 };

    /// Makes a union from the index of its branch and what was made from its value, which is of no union.
    fn branch(
        &mut self,
        alloc: Global,
        branch: u32,
        value: Self::Out,
    ) -> Result<Self::Out, AllocError>
        ensures kept { OnOk result (keeps self.old self.new) }
        ensures stays { (front : List ℕ) → begins self.old front → begins self.new front }
        ensures stands { (nodes : List Node) (ids : List ℕ) (id : ℕ) (at : Self.At) (v : Value) → slice_get ids branch ≡ Some id → is_union (node_at nodes id) ≡ false
            → stands_for self.old nodes (node_at nodes id) (branch_at self.old at branch id) value v
            → IfOk result (λ out. stands_for self.new nodes (Node.union ids) at out (Value.union branch v)) };

    /// No items of an array.
    fn items(&mut self, alloc: Global, at: Self::At) -> Result<Self::Items, AllocError>
        ensures kept { OnOk result (keeps self.old self.new) }
        ensures stays { (front : List ℕ) → begins self.old front → begins self.new front }
        ensures stands { (nodes : List Node) (id : ℕ) → IfOk result (λ items. items_stand_for self.new nodes id at items []) };

    /// What the next item is for.
    fn item_at(&self, items: &Self::Items, node: NodeId) -> Self::At
        ensures { result ≡ item_at self.now items.now node.0 };

    /// Adds an item after those before.
    fn item(
        &mut self,
        alloc: Global,
        items: &mut Self::Items,
        value: Self::Out,
    ) -> Result<(), AllocError>
        ensures kept { OnOk result (keeps self.old self.new) }
        ensures stays { (front : List ℕ) → begins self.old front → begins self.new front }
        ensures stands { (nodes : List Node) (id : ℕ) (at : Self.At) (vs : List Value) (v : Value) → items_stand_for self.old nodes id at items.old vs
            → stands_for self.old nodes (node_at nodes id) (item_at self.old items.old id) value v
            → OnOk result (items_stand_for self.new nodes id at items.new (vs ++ v ∷ [])) };

    /// Adds a number of items, each of which is what `value` stands for, and says so, or adds none.
    ///
    /// It is asked of an item without bytes before that item is added itself: all the others of its block are the same.
    fn repeat(&self, _items: &mut Self::Items, _value: &Self::Out, _count: u32) -> bool
        ensures added { (nodes : List Node) (id : ℕ) (at : Self.At) (vs : List Value) (v : Value) → result ≡ true → items_stand_for self.now nodes id at _items.old vs
            → stands_for self.now nodes (node_at nodes id) (item_at self.now _items.old id) _value.now v
            → items_stand_for self.now nodes id at _items.new (vs ++ replicate _count v) }
        ensures next { (id : ℕ) → item_at self.now _items.new id ≡ item_at self.now _items.old id }
        ensures none { result ≡ false → _items.new ≡ _items.old }
    {
        false
    }

    /// Makes an array from its items.
    fn array(&mut self, alloc: Global, items: Self::Items) -> Result<Self::Out, AllocError>
        ensures kept { OnOk result (keeps self.old self.new) }
        ensures stays { (front : List ℕ) → begins self.old front → begins self.new front }
        ensures stands { (nodes : List Node) (id : ℕ) (at : Self.At) (vs : List Value) → items_stand_for self.old nodes id at items vs
            → IfOk result (λ out. stands_for self.new nodes (Node.array id) at out (Value.array (values_from vs))) };

    /// No entries of a map.
    fn entries(&mut self, alloc: Global, at: Self::At) -> Result<Self::Entries, AllocError>
        ensures kept { OnOk result (keeps self.old self.new) }
        ensures stays { (front : List ℕ) → begins self.old front → begins self.new front }
        ensures stands { (nodes : List Node) (id : ℕ) → IfOk result (λ entries. entries_stand_for self.new nodes id at entries []) };

    /// What the value of the next entry is for.
    fn entry_at(&self, entries: &Self::Entries, node: NodeId) -> Self::At
        ensures { result ≡ entry_at self.now entries.now node.0 };

    /// Adds an entry after those before.
    fn entry(
        &mut self,
        alloc: Global,
        entries: &mut Self::Entries,
        key: &str,
        value: Self::Out,
    ) -> Result<(), AllocError>
        ensures kept { OnOk result (keeps self.old self.new) }
        ensures stays { (front : List ℕ) → begins self.old front → begins self.new front }
        ensures stands { (nodes : List Node) (id : ℕ) (at : Self.At) (es : List (List ℕ × Value)) (v : Value) → entries_stand_for self.old nodes id at entries.old es
            → stands_for self.old nodes (node_at nodes id) (entry_at self.old entries.old id) value v
            → OnOk result (entries_stand_for self.new nodes id at entries.new (es ++ (key.now, v) ∷ [])) };

    /// Makes a map from its entries.
    fn map(&mut self, alloc: Global, entries: Self::Entries) -> Result<Self::Out, AllocError>
        ensures kept { OnOk result (keeps self.old self.new) }
        ensures stays { (front : List ℕ) → begins self.old front → begins self.new front }
        ensures stands { (nodes : List Node) (id : ℕ) (at : Self.At) (es : List (List ℕ × Value)) → entries_stand_for self.old nodes id at entries es
            → IfOk result (λ out. stands_for self.new nodes (Node.map_of id) at out (Value.map_of (entries_from es))) };

    /// No fields of a record.
    fn fields(&mut self, alloc: Global, at: Self::At) -> Result<Self::Fields, AllocError>
        ensures kept { OnOk result (keeps self.old self.new) }
        ensures stays { (front : List ℕ) → begins self.old front → begins self.new front }
        ensures stands { (nodes : List Node) (fs : List FieldNode) → IfOk result (λ fields. fields_stand_for self.new nodes fs at fields []) };

    /// What the value of the next field is for.
    fn field_at(&self, fields: &Self::Fields, node: NodeId) -> Self::At
        ensures { result ≡ field_at self.now fields.now node.0 };

    /// Adds the value of the next field after those before.
    fn field(
        &mut self,
        alloc: Global,
        fields: &mut Self::Fields,
        value: Self::Out,
    ) -> Result<(), AllocError>
        ensures kept { OnOk result (keeps self.old self.new) }
        ensures stays { (front : List ℕ) → begins self.old front → begins self.new front }
        ensures stands { (nodes : List Node) (fs : List FieldNode) (id : ℕ) (at : Self.At) (vs : List Value) (v : Value) → fields_stand_for self.old nodes fs at fields.old vs
            → slice_get (field_ids fs) (length vs) ≡ Some id → stands_for self.old nodes (node_at nodes id) (field_at self.old fields.old id) value v
            → OnOk result (fields_stand_for self.new nodes fs at fields.new (vs ++ v ∷ [])) };

    /// Adds at once the values of the next fields, each of which is a datum without bytes, and says so, or adds none.
    fn empty_fields(&self, _fields: &mut Self::Fields, _count: u32) -> bool
        ensures added { (nodes : List Node) (fs : List FieldNode) (at : Self.At) (vs ws : List Value) → result ≡ true → length ws ≡ _count → are_empty (values_from ws) ≡ true
            → fields_fit nodes (take _count (drop (length vs) (field_ids fs))) (values_from ws) ≡ true → fields_stand_for self.now nodes fs at _fields.old vs
            → fields_stand_for self.now nodes fs at _fields.new (vs ++ ws) }
        ensures none { result ≡ false → _fields.new ≡ _fields.old }
    {
        false
    }

    /// Makes a record from the values of its fields.
    fn record(&mut self, alloc: Global, fields: Self::Fields) -> Result<Self::Out, AllocError>
        ensures kept { OnOk result (keeps self.old self.new) }
        ensures stays { (front : List ℕ) → begins self.old front → begins self.new front }
        ensures stands { (nodes : List Node) (name : Name) (aliases : List Name) (fs : List FieldNode) (at : Self.At) (vs : List Value) → fields_stand_for self.old nodes fs at fields vs
            → fields_fit nodes (field_ids fs) (values_from vs) ≡ true → IfOk result (λ out. stands_for self.new nodes (Node.record_of name aliases fs) at out (Value.record_of (values_from vs))) };

    /// An empty list for what is made of a record's fields until the record is whole.
    fn slots(&mut self, alloc: Global) -> Vec<Option<Self::Out>>
        ensures kept { keeps self.old self.new }
        ensures none { result.items ≡ [] }
    {
        Vec::new(alloc)
    }

    /// Keeps such a list for later, or lets it go.
    fn keep_slots(&mut self, slots: Vec<Option<Self::Out>>)
        ensures kept { keeps self.old self.new };

    /// A maker keeps what it has made.
    ghost keeps_itself: { (s : Self) → keeps s s };
    /// What is kept stays kept.
    ghost keeps_on: { (s t u : Self) → keeps s t → keeps t u → keeps s u };
    /// Items stand for the same data at a later maker.
    ghost items_kept: { (s t : Self) (nodes : List Node) (id : ℕ) (at : Self.At) (items : Self.Items) (vs : List Value) → keeps s t
        → items_stand_for s nodes id at items vs → items_stand_for t nodes id at items vs };
    /// Entries stand for the same keys and data at a later maker.
    ghost entries_kept: { (s t : Self) (nodes : List Node) (id : ℕ) (at : Self.At) (entries : Self.Entries) (es : List (List ℕ × Value)) → keeps s t
        → entries_stand_for s nodes id at entries es → entries_stand_for t nodes id at entries es };
    /// Fields stand for the same data at a later maker.
    ghost fields_kept: { (s t : Self) (nodes : List Node) (fs : List FieldNode) (at : Self.At) (fields : Self.Fields) (vs : List Value) → keeps s t
        → fields_stand_for s nodes fs at fields vs → fields_stand_for t nodes fs at fields vs };
    /// A result stands for the same datum at a later maker.
    ghost still_stands: { (s t : Self) (nodes : List Node) (n : Node) (at : Self.At) (out : Self.Out) (v : Value) → keeps s t
        → stands_for s nodes n at out v → stands_for t nodes n at out v };
    /// The parts are for the same at a later maker.
    ghost branch_at_kept: { (s t : Self) (at : Self.At) (branch id : ℕ) → keeps s t → branch_at s at branch id ≡ branch_at t at branch id };
    /// The next item is for the same.
    ghost item_at_kept: { (s t : Self) (items : Self.Items) (id : ℕ) → keeps s t → item_at s items id ≡ item_at t items id };
    /// The next entry is for the same.
    ghost entry_at_kept: { (s t : Self) (entries : Self.Entries) (id : ℕ) → keeps s t → entry_at s entries id ≡ entry_at t entries id };
    /// The next field is for the same.
    ghost field_at_kept: { (s t : Self) (fields : Self.Fields) (id : ℕ) → keeps s t → field_at s fields id ≡ field_at t fields id };
}
