pub(crate) mod copying;
pub(crate) mod failing;
pub(crate) mod guided;
pub(crate) mod leaves;
pub(crate) mod list_maker;
pub(crate) mod record_maker;
pub(crate) mod slots;

use crate::plan::plan_ref::PlanRef;
use crate::resolving::copying::copy_record;
use crate::resolving::failing::step_apart;
use crate::resolving::guided::{Filling, Made, Part, Run};
use crate::resolving::leaves::make_leaf;
use crate::resolving::list_maker::{
    make_array, make_map, next_part, put_entry, put_item, repeat_item, start_entries, start_items,
};
use crate::resolving::record_maker::{
    fill_next, make_record, next_field_part, skip_fields, start_filling,
};
use avro_binary::{Leaf, Make, Place};
use avro_compare::At;
use avro_schema::NodeId;
use std::alloc::{AllocError, Global};

/// Makes each part of a writer's datum as what it is for a reader, by a plan and a maker that is told the reader's node of each part.
/// A part that no reader's field takes is read and not made, and so are all parts after a fault.
#[derive(Drop)]
pub struct Resolving<'p, 'a, 'b, M> {
    plan: &'p PlanRef<'a>,
    maker: &'b mut M,
}

impl<'p, 'a, 'b, M> Resolving<'p, 'a, 'b, M> {
    ghost use Rattle.std.specs.Prelude.{◌≡◌};

    /// A maker for a reader, by a plan and a maker.
    pub fn new(plan: &'p PlanRef<'a>, maker: &'b mut M) -> Self
        ensures plan { result.plan.now ≡ plan.now }
        ensures lent { result.maker.ghost_name ≡ maker.entry.ghost_name }
        ensures starts { result.maker.now ≡ maker.old }
    {
        Resolving { plan, maker }
    }
}

impl<'p, 'a, 'b, M: Make<At = Place>> Make for Resolving<'p, 'a, 'b, M> {
    ghost use Rattle.std.specs.Prelude.{◌≡◌, List, refl};
    ghost use Rattle.std.proofs.Common.{◌∙◌, ap, subst};
    ghost use Rattle.avro_schema.specs.Node.{Node};
    ghost use Rattle.avro_schema.specs.SeenSchema.{schema_nodes};
    ghost use Rattle.avro_resolve.specs.inside.Guided.{AreKept, StandsAs, ItemsStandAs, EntriesStandAs, FillsAs, branch_part, field_part, part_below, next_at};
    ghost use Rattle.avro_binary.specs.Places.{AreTold};
    ghost use Rattle.avro_resolve.specs.inside.Later.{items_later, entries_later, fills_later, stands_later};

    type At = Part;

    type Out = Made<M::Out>;

    type Items = (Run<M::Items>, u32);

    type Entries = (Run<M::Entries>, u32);

    type Fields = Filling<'a, M::Out, M::Fields>;

    ghost keeps = { λ s t. AreKept (M.keeps s.maker.now t.maker.now × (t.maker.ghost_name ≡ s.maker.ghost_name)) (schema_nodes s.plan.now.0) (schema_nodes s.plan.now.1) (schema_nodes t.plan.now.0) (schema_nodes t.plan.now.1) };

    ghost begins = { λ _ _. Unit {0} };

    ghost stands_for = { λ m nodes n at out v. AreTold M.branch_at M.item_at M.entry_at M.field_at → StandsAs (M.stands_for m.maker.now) (schema_nodes m.plan.now.0) (schema_nodes m.plan.now.1) nodes n at.at out v };

    ghost items_stand_for = { λ m nodes id at items vs. AreTold M.branch_at M.item_at M.entry_at M.field_at → ItemsStandAs (M.items_stand_for m.maker.now) (schema_nodes m.plan.now.0) (schema_nodes m.plan.now.1) nodes id at.at items.0 vs };

    ghost entries_stand_for = { λ m nodes id at entries es. AreTold M.branch_at M.item_at M.entry_at M.field_at → EntriesStandAs (M.entries_stand_for m.maker.now) (schema_nodes m.plan.now.0) (schema_nodes m.plan.now.1) nodes id at.at entries.0 es };

    ghost fields_stand_for = { λ m nodes fs at fields vs. AreTold M.branch_at M.item_at M.entry_at M.field_at → FillsAs (M.stands_for m.maker.now) (M.fields_stand_for m.maker.now) (schema_nodes m.plan.now.0) (schema_nodes m.plan.now.1) nodes fs at.at fields vs };

    ghost branch_at = { λ m at branch id. branch_part (schema_nodes m.plan.now.0) at branch };

    ghost item_at = { λ m items id. part_below (next_at items.0) items.1 };

    ghost entry_at = { λ m entries id. part_below (next_at entries.0) entries.1 };

    ghost field_at = { λ m fields id. field_part (schema_nodes m.plan.now.0) (schema_nodes m.plan.now.1) fields };

    ghost keeps_itself = { λ s. ((M.keeps_itself s.maker.now, refl), refl) };

    ghost keeps_on = { λ s t u before after. ((M.keeps_on s.maker.now t.maker.now u.maker.now before.0.0 after.0.0, after.0.1 ∙ before.0.1), before.1 ∙ after.1) };

    ghost items_kept = { λ s t nodes id at items vs kept stand told. subst (λ (g : List Node × List Node). ItemsStandAs (M.items_stand_for t.maker.now) g.0 g.1 nodes id at.at items.0 vs) kept.1
        (items_later (M.items_stand_for s.maker.now) (M.items_stand_for t.maker.now) (λ ns k to i us. M.items_kept s.maker.now t.maker.now ns k to i us kept.0.0) (schema_nodes s.plan.now.0) (schema_nodes s.plan.now.1) nodes id at.at items.0 vs (stand told)) };

    ghost entries_kept = { λ s t nodes id at entries es kept stand told. subst (λ (g : List Node × List Node). EntriesStandAs (M.entries_stand_for t.maker.now) g.0 g.1 nodes id at.at entries.0 es) kept.1
        (entries_later (M.entries_stand_for s.maker.now) (M.entries_stand_for t.maker.now) (λ ns k to i us. M.entries_kept s.maker.now t.maker.now ns k to i us kept.0.0) (schema_nodes s.plan.now.0) (schema_nodes s.plan.now.1) nodes id at.at entries.0 es (stand told)) };

    ghost fields_kept = { λ s t nodes fs at fields vs kept stand told. subst (λ (g : List Node × List Node). FillsAs (M.stands_for t.maker.now) (M.fields_stand_for t.maker.now) g.0 g.1 nodes fs at.at fields vs) kept.1
        (fills_later (M.stands_for s.maker.now) (M.stands_for t.maker.now) (λ ns n to o u. M.still_stands s.maker.now t.maker.now ns n to o u kept.0.0)
        (M.fields_stand_for s.maker.now) (M.fields_stand_for t.maker.now) (λ ns gs to k us. M.fields_kept s.maker.now t.maker.now ns gs to k us kept.0.0) (schema_nodes s.plan.now.0) (schema_nodes s.plan.now.1) nodes fs at.at fields vs (stand told)) };

    ghost still_stands = { λ s t nodes n at out v kept stand told. subst (λ (g : List Node × List Node). StandsAs (M.stands_for t.maker.now) g.0 g.1 nodes n at.at out v) kept.1
        (stands_later (M.stands_for s.maker.now) (M.stands_for t.maker.now) (λ ns m to o u. M.still_stands s.maker.now t.maker.now ns m to o u kept.0.0) (schema_nodes s.plan.now.0) (schema_nodes s.plan.now.1) nodes n at.at out v (stand told)) };

    ghost branch_at_kept = { λ s t at branch id kept. ap (λ (g : List Node × List Node). branch_part g.0 at branch) kept.1 };

    ghost item_at_kept = { λ s t items id kept. refl };

    ghost entry_at_kept = { λ s t entries id kept. refl };

    ghost field_at_kept = { λ s t fields id kept. ap (λ (g : List Node × List Node). field_part g.0 g.1 fields) kept.1 };

    #[inline(always)]
    fn empty(&mut self, _alloc: Global, at: Part) -> Result<Option<Made<M::Out>>, AllocError> {
        match at.at {
            At::Ignored => Ok(Some(Made::Nothing)),
            At::Pair(..) => Ok(None),
        }
    }

    #[inline(always)]
    fn ends(&mut self, alloc: Global, at: Part) -> Option<Vec<usize>> {
        match at.at {
            At::Ignored => None,
            At::Pair(..) => {
                if !self.plan.is_verbatim(self.plan.index_of(at)) {
                    return None;
                }
                self.maker.spare_ends(alloc)
            }
        }
    }

    #[inline(always)]
    fn pieces(
        &mut self,
        alloc: Global,
        at: Part,
        bytes: &[u8],
        ends: Vec<usize>,
    ) -> Result<Option<Made<M::Out>>, AllocError> {
        copy_record(alloc, self.maker, self.plan, at, bytes, ends)
    }

    #[inline(always)]
    fn leaf(
        &mut self,
        alloc: Global,
        at: Part,
        leaf: Leaf<'_>,
    ) -> Result<Made<M::Out>, AllocError> {
        make_leaf(alloc, self.maker, self.plan, at, leaf)
    }

    fn branch_at(&self, at: Part, branch: u32, _node: NodeId) -> Part {
        self.plan.part_of_branch(at, branch)
    }

    fn branch(
        &mut self,
        _alloc: Global,
        _branch: u32,
        value: Made<M::Out>,
    ) -> Result<Made<M::Out>, AllocError> {
        match value {
            Made::Good(out) => Ok(Made::Good(out)),
            Made::Faulty(fault) => {
                let outer = step_apart(0, fault)?;
                Ok(Made::Faulty(outer))
            }
            Made::Nothing => Ok(Made::Nothing),
        }
    }

    fn items(&mut self, alloc: Global, at: Part) -> Result<(Run<M::Items>, u32), AllocError> {
        start_items(alloc, self.maker, self.plan, at)
    }

    fn item_at(&self, items: &(Run<M::Items>, u32), _node: NodeId) -> Part {
        next_part(&items.0, items.1)
    }

    fn item(
        &mut self,
        alloc: Global,
        items: &mut (Run<M::Items>, u32),
        value: Made<M::Out>,
    ) -> Result<(), AllocError> {
        put_item(alloc, self.maker, &mut items.0, value)
    }

    fn repeat(&self, items: &mut (Run<M::Items>, u32), value: &Made<M::Out>, count: u32) -> bool {
        repeat_item(self.maker, &mut items.0, value, count)
    }

    fn array(
        &mut self,
        alloc: Global,
        items: (Run<M::Items>, u32),
    ) -> Result<Made<M::Out>, AllocError> {
        make_array(alloc, self.maker, items.0)
    }

    fn entries(&mut self, alloc: Global, at: Part) -> Result<(Run<M::Entries>, u32), AllocError> {
        start_entries(alloc, self.maker, self.plan, at)
    }

    fn entry_at(&self, entries: &(Run<M::Entries>, u32), _node: NodeId) -> Part {
        next_part(&entries.0, entries.1)
    }

    fn entry(
        &mut self,
        alloc: Global,
        entries: &mut (Run<M::Entries>, u32),
        key: &str,
        value: Made<M::Out>,
    ) -> Result<(), AllocError> {
        put_entry(alloc, self.maker, &mut entries.0, key, value)
    }

    fn map(
        &mut self,
        alloc: Global,
        entries: (Run<M::Entries>, u32),
    ) -> Result<Made<M::Out>, AllocError> {
        make_map(alloc, self.maker, entries.0)
    }

    #[inline(always)]
    fn fields(
        &mut self,
        alloc: Global,
        at: Part,
    ) -> Result<Filling<'a, M::Out, M::Fields>, AllocError> {
        start_filling(alloc, self.maker, self.plan, at)
    }

    #[inline(always)]
    fn field_at(&self, fields: &Filling<'a, M::Out, M::Fields>, _node: NodeId) -> Part {
        next_field_part(self.plan, fields.known, fields.parts, &fields.slots)
    }

    #[inline(always)]
    fn field(
        &mut self,
        _alloc: Global,
        fields: &mut Filling<'a, M::Out, M::Fields>,
        value: Made<M::Out>,
    ) -> Result<(), AllocError> {
        fill_next(self.maker, fields, value)
    }

    #[inline(always)]
    fn empty_fields(&self, fields: &mut Filling<'a, M::Out, M::Fields>, _count: u32) -> bool {
        skip_fields(self.maker, &fields.slots)
    }

    #[inline(always)]
    fn record(
        &mut self,
        alloc: Global,
        fields: Filling<'a, M::Out, M::Fields>,
    ) -> Result<Made<M::Out>, AllocError> {
        make_record(alloc, self.maker, self.plan, fields.index, fields.slots)
    }

    fn keep_slots(&mut self, _slots: Vec<Option<Made<M::Out>>>)
        ensures kept { AreKept (M.keeps self.old.maker.now self.new.maker.now × (self.new.maker.ghost_name ≡ self.old.maker.ghost_name)) (schema_nodes self.old.plan.now.0) (schema_nodes self.old.plan.now.1) (schema_nodes self.new.plan.now.0) (schema_nodes self.new.plan.now.1) }
    {}
}
