//! The display of a datum, made while the datum is read.

use crate::composing::{append_encoded, append_entries, append_items, append_members};
use crate::leaf::append_leaf;
use crate::scratch::Scratch;
use crate::spans::{KeyedSpans, Span, Spans};
use avro_binary::{Leaf, Make, Place};
use avro_display::DisplayTable;
use avro_schema::NodeId;
use std::alloc::{AllocError, Global};
use std::collections::BTreeMap;

/// Makes the display of what is read as data of a table's schema.
///
/// The display of a whole is copied together from those of its parts.
#[derive(Drop)]
pub(crate) struct Displaying<'a> {
    pub(crate) table: &'a DisplayTable<'a>,
    pub(crate) scratch: &'a mut Scratch,
}

impl<'a> Displaying<'a> {
    ghost use Rattle.avro_schema.specs.Node.{node_at};
    ghost use Rattle.avro_schema.specs.SeenSchema.{schema_nodes};
    ghost use Rattle.avro_show.specs.Spans.{IsOpening};

    /// The text that opens the value of a branch at a place, if it is one that is opened: null is not.
    #[inline(always)]
    fn opening(&self, at: Place) -> Option<&'a [u8]>
        ensures { IsOpening result (node_at (schema_nodes self.now.table.now) at.node.0) at.branch }
    {
        let table = self.table;
        match at.branch {
            Some(_) => table.opening(at.node),
            None => None,
        }
    }
}

impl<'a> Make for Displaying<'a> {
    ghost use Rattle.std.specs.Prelude.{◌≡◌, [], refl};
    ghost use Rattle.std.proofs.Common.{◌∙◌};
    ghost use Rattle.avro_binary.specs.Places.{alone, branch_place};
    ghost use Rattle.avro_show.specs.Spans.{EntriesStandFor, FieldsStandFor, ItemsStandFor, Keeps, StandsFor};
    ghost use Rattle.avro_binary.specs.Growing.{grows_none, grows_on};
    ghost use Rattle.avro_show.specs.inside.Later.{entries_later, fields_later, items_later, stands_later};

    type At = Place;

    type Out = Span;

    type Items = Spans;

    type Entries = KeyedSpans;

    type Fields = Spans;

    ghost keeps = { λ s t. Keeps s.table.now s.scratch.now.text t.table.now t.scratch.now.text × (t.scratch.ghost_name ≡ s.scratch.ghost_name) };

    ghost begins = { λ _ _. Unit {0} };

    ghost stands_for = { λ s nodes n at out v. StandsFor s.table.now s.scratch.now.text nodes n at out v };

    ghost items_stand_for = { λ s nodes id at items vs. ItemsStandFor s.table.now s.scratch.now.text nodes id at items vs };

    ghost entries_stand_for = { λ s nodes id at entries es. EntriesStandFor s.table.now s.scratch.now.text nodes id at entries es };

    ghost fields_stand_for = { λ s nodes fs at fields vs. FieldsStandFor s.table.now s.scratch.now.text nodes fs at fields vs };

    ghost branch_at = { λ _ at branch id. branch_place branch id };

    ghost item_at = { λ _ items id. alone id };

    ghost entry_at = { λ _ entries id. alone id };

    ghost field_at = { λ _ fields id. alone id };

    ghost keeps_itself = { λ s. ((refl, grows_none s.scratch.now.text), refl) };

    ghost keeps_on = { λ s t u before after. ((after.0.0 ∙ before.0.0, grows_on s.scratch.now.text t.scratch.now.text u.scratch.now.text before.0.1 after.0.1), after.1 ∙ before.1) };

    ghost items_kept = { λ s t nodes id at items vs kept stand. items_later s.table.now t.table.now s.scratch.now.text t.scratch.now.text nodes id at items vs kept.0.0 kept.0.1 stand };

    ghost entries_kept = { λ s t nodes id at entries es kept stand. entries_later s.table.now t.table.now s.scratch.now.text t.scratch.now.text nodes id at entries es kept.0.0 kept.0.1 stand };

    ghost fields_kept = { λ s t nodes fs at fields vs kept stand. fields_later s.table.now t.table.now s.scratch.now.text t.scratch.now.text nodes fs at fields vs kept.0.0 kept.0.1 stand };

    ghost still_stands = { λ s t nodes n at out v kept stand. stands_later s.table.now t.table.now s.scratch.now.text t.scratch.now.text nodes n at out v kept.0.0 kept.0.1 stand };

    ghost branch_at_kept = { λ s t at branch id kept. refl };

    ghost item_at_kept = { λ s t items id kept. refl };

    ghost entry_at_kept = { λ s t entries id kept. refl };

    ghost field_at_kept = { λ s t fields id kept. refl };

    fn spare_ends(&mut self, alloc: Global) -> Option<Vec<usize>> {
        Some(self.scratch.take_ends(alloc))
    }

    fn keep_ends(&mut self, ends: Vec<usize>) {
        self.scratch.keep_ends(ends);
    }

    fn copied(
        &mut self,
        _alloc: Global,
        at: Place,
        content: &[u8],
    ) -> Result<Option<Span>, AllocError> {
        let opening = self.opening(at);
        let node = self.table.schema().get(at.node);
        let start = self.scratch.begin(opening)?;
        append_encoded(&mut self.scratch.text, node, content)?;
        Ok(Some(self.scratch.end(opening, start)?))
    }

    #[inline(always)]
    fn leaf(&mut self, _alloc: Global, at: Place, leaf: Leaf<'_>) -> Result<Span, AllocError> {
        let opening = self.opening(at);
        let node = self.table.schema().get(at.node);
        let start = self.scratch.begin(opening)?;
        append_leaf(&mut self.scratch.text, node, leaf)?;
        self.scratch.end(opening, start)
    }

    fn branch_at(&self, _at: Place, branch: u32, node: NodeId) -> Place {
        Place::in_branch(branch, node)
    }

    fn branch(&mut self, _alloc: Global, _branch: u32, value: Span) -> Result<Span, AllocError> {
        Ok(value)
    }

    fn items(&mut self, alloc: Global, at: Place) -> Result<Spans, AllocError> {
        Ok(self.scratch.spans(alloc, at))
    }

    fn item_at(&self, _items: &Spans, node: NodeId) -> Place {
        Place::of(node)
    }

    fn item(&mut self, _alloc: Global, items: &mut Spans, value: Span) -> Result<(), AllocError> {
        items.parts.push(value)?;
        Ok(())
    }

    fn array(&mut self, _alloc: Global, items: Spans) -> Result<Span, AllocError> {
        let opening = self.opening(items.owner);
        let scratch = &mut *self.scratch;
        scratch.whole.clear();
        append_items(&mut scratch.whole, scratch.text.as_slice(), &items.parts)?;
        scratch.keep_spans(items);
        scratch.composed(opening)
    }

    fn entries(&mut self, alloc: Global, at: Place) -> Result<KeyedSpans, AllocError> {
        Ok(KeyedSpans {
            owner: at,
            parts: BTreeMap::new(alloc),
            bytes: 0,
        })
    }

    fn entry_at(&self, _entries: &KeyedSpans, node: NodeId) -> Place {
        Place::of(node)
    }

    fn entry(
        &mut self,
        alloc: Global,
        entries: &mut KeyedSpans,
        key: &str,
        value: Span,
    ) -> Result<(), AllocError> {
        entries.bytes = entries.bytes.saturating_add(key.len());
        if self.scratch.is_full(entries.bytes) {
            return Err(AllocError);
        }
        let key = String::from_str(alloc, key)?;
        entries.parts.insert(key, value)?;
        Ok(())
    }

    fn map(&mut self, _alloc: Global, entries: KeyedSpans) -> Result<Span, AllocError> {
        let opening = self.opening(entries.owner);
        let scratch = &mut *self.scratch;
        scratch.whole.clear();
        append_entries(&mut scratch.whole, scratch.text.as_slice(), &entries.parts)?;
        scratch.composed(opening)
    }

    fn fields(&mut self, alloc: Global, at: Place) -> Result<Spans, AllocError> {
        Ok(self.scratch.spans(alloc, at))
    }

    fn field_at(&self, _fields: &Spans, node: NodeId) -> Place {
        Place::of(node)
    }

    fn field(&mut self, _alloc: Global, fields: &mut Spans, value: Span) -> Result<(), AllocError> {
        fields.parts.push(value)?;
        Ok(())
    }

    fn record(&mut self, _alloc: Global, fields: Spans) -> Result<Span, AllocError> {
        let opening = self.opening(fields.owner);
        let members = self.table.members(fields.owner.node);
        let scratch = &mut *self.scratch;
        scratch.whole.clear();
        append_members(
            &mut scratch.whole,
            scratch.text.as_slice(),
            members,
            &fields.parts,
        )?;
        scratch.keep_spans(fields);
        scratch.composed(opening)
    }

    fn slots(&mut self, alloc: Global) -> Vec<Option<Span>>
        ensures kept { Keeps self.old.table.now self.old.scratch.now.text self.new.table.now self.new.scratch.now.text × (self.new.scratch.ghost_name ≡ self.old.scratch.ghost_name) }
        ensures none { result.items ≡ [] }
    {
        self.scratch.slots(alloc)
    }

    fn keep_slots(&mut self, slots: Vec<Option<Span>>)
        ensures kept { Keeps self.old.table.now self.old.scratch.now.text self.new.table.now self.new.scratch.now.text × (self.new.scratch.ghost_name ≡ self.old.scratch.ghost_name) }
    {
        self.scratch.keep_slots(slots);
    }
}
