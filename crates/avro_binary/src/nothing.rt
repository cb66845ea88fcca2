use crate::build::Build;
use crate::leaf::Leaf;
use crate::make::Make;
use crate::place::Place;
use avro_schema::{Datum, NodeId};
use std::alloc::{AllocError, Global};

/// Builds nothing: its result stands for any datum.
#[derive(Clone, Copy, Drop)]
pub struct Nothing;

impl Build for Nothing {
    ghost use Rattle.std.specs.Prelude.{List, ℕ, IfOk};
    ghost use Rattle.std.specs.List.{AllZip};
    ghost use Rattle.avro_schema.specs.Value.{Value};

    type Out = ();

    type Items = ();

    type Entries = ();

    ghost stands_for = { λ _ v. Unit {0} };

    ghost items_stand_for = { λ _ vs. Unit {0} };

    ghost entries_stand_for = { λ _ es. Unit {0} };

    fn null(&mut self, _alloc: Global) -> Result<(), AllocError> {
        Ok(())
    }

    fn boolean(&mut self, _alloc: Global, _value: bool) -> Result<(), AllocError> {
        Ok(())
    }

    fn int(&mut self, _alloc: Global, _value: i32) -> Result<(), AllocError> {
        Ok(())
    }

    fn long(&mut self, _alloc: Global, _value: i64) -> Result<(), AllocError> {
        Ok(())
    }

    fn bytes(&mut self, _alloc: Global, _content: &[u8]) -> Result<(), AllocError> {
        Ok(())
    }

    fn string(&mut self, _alloc: Global, _text: &str) -> Result<(), AllocError> {
        Ok(())
    }

    fn fixed(&mut self, _alloc: Global, _content: &[u8]) -> Result<(), AllocError> {
        Ok(())
    }

    fn symbol(&mut self, _alloc: Global, _index: u32) -> Result<(), AllocError> {
        Ok(())
    }

    fn branch(&mut self, _alloc: Global, _index: u32, _value: ()) -> Result<(), AllocError> {
        Ok(())
    }

    fn items(&mut self, _alloc: Global) -> Result<(), AllocError> {
        Ok(())
    }

    fn item(&mut self, _alloc: Global, _items: &mut (), _value: ()) -> Result<(), AllocError> {
        Ok(())
    }

    fn array(&mut self, _alloc: Global, _items: ()) -> Result<(), AllocError> {
        Ok(())
    }

    fn fields(&mut self, _alloc: Global, _values: Vec<()>) -> Result<(), AllocError>
        ensures { (vs : List Value) → AllZip (λ _ v. Unit {0}) _values.items vs → IfOk result (λ out. Unit {0}) }
    {
        Ok(())
    }

    fn entries(&mut self, _alloc: Global) -> Result<(), AllocError> {
        Ok(())
    }

    fn entry(
        &mut self,
        _alloc: Global,
        _entries: &mut (),
        _key: &str,
        _value: (),
    ) -> Result<(), AllocError> {
        Ok(())
    }

    fn map(&mut self, _alloc: Global, _entries: ()) -> Result<(), AllocError> {
        Ok(())
    }

    fn default(&mut self, _alloc: Global, _datum: &Datum) -> Result<(), AllocError> {
        Ok(())
    }
}

/// Makes nothing, and takes no memory for the fields of records either.
impl Make for Nothing {
    ghost use Rattle.std.specs.Prelude.{List, ℕ, refl};
    ghost use Rattle.avro_schema.specs.Node.{Node, FieldNode};
    ghost use Rattle.avro_schema.specs.Value.{Value};
    ghost use Rattle.avro_binary.specs.Places.{alone, branch_place};

    type At = Place;

    type Out = ();

    type Items = ();

    type Entries = ();

    type Fields = ();

    ghost keeps = { λ _ _. Unit {0} };

    ghost begins = { λ _ _. Unit {0} };

    ghost stands_for = { λ _ nodes n at out v. Unit {0} };

    ghost items_stand_for = { λ _ nodes id at items vs. Unit {0} };

    ghost entries_stand_for = { λ _ nodes id at entries es. Unit {0} };

    ghost fields_stand_for = { λ _ nodes fs at fields vs. Unit {0} };

    ghost branch_at = { λ _ at branch id. branch_place branch id };

    ghost item_at = { λ _ items id. alone id };

    ghost entry_at = { λ _ entries id. alone id };

    ghost field_at = { λ _ fields id. alone id };

    ghost keeps_itself = { λ s. tt };

    ghost keeps_on = { λ s t u before after. tt };

    ghost items_kept = { λ s t nodes id at items vs kept stand. tt };

    ghost entries_kept = { λ s t nodes id at entries es kept stand. tt };

    ghost fields_kept = { λ s t nodes fs at fields vs kept stand. tt };

    ghost still_stands = { λ s t nodes n at out v kept stand. tt };

    ghost branch_at_kept = { λ s t at branch id kept. refl };

    ghost item_at_kept = { λ s t items id kept. refl };

    ghost entry_at_kept = { λ s t entries id kept. refl };

    ghost field_at_kept = { λ s t fields id kept. refl };

    fn empty(&mut self, _alloc: Global, _at: Place) -> Result<Option<()>, AllocError> {
        Ok(Some(()))
    }

    fn default(
        &mut self,
        _alloc: Global,
        _at: Place,
        _datum: &Datum,
    ) -> Result<Option<()>, AllocError> {
        Ok(Some(()))
    }

    fn leaf(&mut self, _alloc: Global, _at: Place, _leaf: Leaf<'_>) -> Result<(), AllocError> {
        Ok(())
    }

    fn branch_at(&self, _at: Place, branch: u32, node: NodeId) -> Place {
        Place::in_branch(branch, node)
    }

    fn branch(&mut self, _alloc: Global, _branch: u32, _value: ()) -> Result<(), AllocError> {
        Ok(())
    }

    fn items(&mut self, _alloc: Global, _at: Place) -> Result<(), AllocError> {
        Ok(())
    }

    fn item_at(&self, _items: &(), node: NodeId) -> Place {
        Place::of(node)
    }

    fn item(&mut self, _alloc: Global, _items: &mut (), _value: ()) -> Result<(), AllocError> {
        Ok(())
    }

    fn repeat(&self, _items: &mut (), _value: &(), _count: u32) -> bool {
        true
    }

    fn array(&mut self, _alloc: Global, _items: ()) -> Result<(), AllocError> {
        Ok(())
    }

    fn entries(&mut self, _alloc: Global, _at: Place) -> Result<(), AllocError> {
        Ok(())
    }

    fn entry_at(&self, _entries: &(), node: NodeId) -> Place {
        Place::of(node)
    }

    fn entry(
        &mut self,
        _alloc: Global,
        _entries: &mut (),
        _key: &str,
        _value: (),
    ) -> Result<(), AllocError> {
        Ok(())
    }

    fn map(&mut self, _alloc: Global, _entries: ()) -> Result<(), AllocError> {
        Ok(())
    }

    fn fields(&mut self, _alloc: Global, _at: Place) -> Result<(), AllocError> {
        Ok(())
    }

    fn field_at(&self, _fields: &(), node: NodeId) -> Place {
        Place::of(node)
    }

    fn field(&mut self, _alloc: Global, _fields: &mut (), _value: ()) -> Result<(), AllocError> {
        Ok(())
    }

    fn empty_fields(&self, _fields: &mut (), _count: u32) -> bool {
        true
    }

    fn record(&mut self, _alloc: Global, _fields: ()) -> Result<(), AllocError> {
        Ok(())
    }

    fn keep_slots(&mut self, _slots: Vec<Option<()>>)
        ensures kept { Unit {0} }
    {}
}
