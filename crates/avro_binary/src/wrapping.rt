ghost use Rattle.std.specs.Prelude.{IfOk};
ghost use Rattle.avro_binary.specs.LeafValue.{leaf_value};

use crate::build::Build;
use crate::leaf::Leaf;
use crate::make::Make;
use crate::place::Place;
use avro_schema::{Datum, NodeId};
use std::alloc::{AllocError, Global};

/// Makes what a builder builds.
#[derive(Drop)]
pub struct Wrapping<'b, B> {
    builder: &'b mut B,
}

impl<'b, B> Wrapping<'b, B> {
    /// A maker of what the builder builds.
    pub fn new(builder: &'b mut B) -> Self {
        Wrapping { builder }
    }
}

/// Builds a datum without parts.
#[inline(always)]
fn build_leaf<B: Build>(
    alloc: Global,
    builder: &mut B,
    leaf: Leaf<'_>,
) -> Result<B::Out, AllocError>
    ensures { IfOk result (λ out. B.stands_for out (leaf_value leaf.entry)) }
{
    match leaf {
        Leaf::Null => builder.null(alloc),
        Leaf::Boolean(value) => builder.boolean(alloc, value),
        Leaf::Int(value) => builder.int(alloc, value),
        Leaf::Long(value) => builder.long(alloc, value),
        Leaf::Bytes(content) => builder.bytes(alloc, content),
        Leaf::Text(text) => builder.string(alloc, text),
        Leaf::Fixed(content) => builder.fixed(alloc, content),
        Leaf::Symbol(index) => builder.symbol(alloc, index),
    }
}

impl<'b, B: Build> Make for Wrapping<'b, B> {
    ghost use Rattle.std.specs.Prelude.{refl};
    ghost use Rattle.std.specs.List.{AllZip};
    ghost use Rattle.avro_binary.specs.Places.{alone, branch_place};

    type At = Place;

    type Out = B::Out;

    type Items = B::Items;

    type Entries = B::Entries;

    type Fields = Vec<B::Out>;

    ghost keeps = { λ _ _. Unit {0} };

    ghost begins = { λ _ _. Unit {0} };

    ghost stands_for = { λ _ nodes n at out v. B.stands_for out v };

    ghost items_stand_for = { λ _ nodes id at items vs. B.items_stand_for items vs };

    ghost entries_stand_for = { λ _ nodes id at entries es. B.entries_stand_for entries es };

    ghost fields_stand_for = { λ _ nodes fs at fields vs. AllZip B.stands_for fields.items vs };

    ghost branch_at = { λ _ at branch id. branch_place branch id };

    ghost item_at = { λ _ items id. alone id };

    ghost entry_at = { λ _ entries id. alone id };

    ghost field_at = { λ _ fields id. alone id };

    ghost keeps_itself = { λ s. tt };

    ghost keeps_on = { λ s t u before after. tt };

    ghost items_kept = { λ s t nodes id at items vs kept stand. stand };

    ghost entries_kept = { λ s t nodes id at entries es kept stand. stand };

    ghost fields_kept = { λ s t nodes fs at fields vs kept stand. stand };

    ghost still_stands = { λ s t nodes n at out v kept stand. stand };

    ghost branch_at_kept = { λ s t at branch id kept. refl };

    ghost item_at_kept = { λ s t items id kept. refl };

    ghost entry_at_kept = { λ s t entries id kept. refl };

    ghost field_at_kept = { λ s t fields id kept. refl };

    fn default(
        &mut self,
        alloc: Global,
        _at: Place,
        datum: &Datum,
    ) -> Result<Option<B::Out>, AllocError> {
        let out = self.builder.default(alloc, datum)?;
        Ok(Some(out))
    }

    #[inline(always)]
    fn leaf(&mut self, alloc: Global, _at: Place, leaf: Leaf<'_>) -> Result<B::Out, AllocError> {
        build_leaf(alloc, self.builder, leaf)
    }

    fn branch_at(&self, _at: Place, branch: u32, node: NodeId) -> Place {
        Place::in_branch(branch, node)
    }

    fn branch(&mut self, alloc: Global, branch: u32, value: B::Out) -> Result<B::Out, AllocError> {
        self.builder.branch(alloc, branch, value)
    }

    fn items(&mut self, alloc: Global, _at: Place) -> Result<B::Items, AllocError> {
        self.builder.items(alloc)
    }

    fn item_at(&self, _items: &B::Items, node: NodeId) -> Place {
        Place::of(node)
    }

    fn item(
        &mut self,
        alloc: Global,
        items: &mut B::Items,
        value: B::Out,
    ) -> Result<(), AllocError> {
        self.builder.item(alloc, items, value)
    }

    fn array(&mut self, alloc: Global, items: B::Items) -> Result<B::Out, AllocError> {
        self.builder.array(alloc, items)
    }

    fn entries(&mut self, alloc: Global, _at: Place) -> Result<B::Entries, AllocError> {
        self.builder.entries(alloc)
    }

    fn entry_at(&self, _entries: &B::Entries, node: NodeId) -> Place {
        Place::of(node)
    }

    fn entry(
        &mut self,
        alloc: Global,
        entries: &mut B::Entries,
        key: &str,
        value: B::Out,
    ) -> Result<(), AllocError> {
        self.builder.entry(alloc, entries, key, value)
    }

    fn map(&mut self, alloc: Global, entries: B::Entries) -> Result<B::Out, AllocError> {
        self.builder.map(alloc, entries)
    }

    fn fields(&mut self, alloc: Global, _at: Place) -> Result<Vec<B::Out>, AllocError> {
        Ok(Vec::new(alloc))
    }

    fn field_at(&self, _fields: &Vec<B::Out>, node: NodeId) -> Place {
        Place::of(node)
    }

    fn field(
        &mut self,
        _alloc: Global,
        fields: &mut Vec<B::Out>,
        value: B::Out,
    ) -> Result<(), AllocError> {
        fields.push(value)?;
        Ok(())
    }

    fn record(&mut self, alloc: Global, fields: Vec<B::Out>) -> Result<B::Out, AllocError> {
        self.builder.fields(alloc, fields)
    }

    fn keep_slots(&mut self, _slots: Vec<Option<B::Out>>)
        ensures kept { Unit {0} }
    {}
}
