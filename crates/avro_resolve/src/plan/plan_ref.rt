ghost use Rattle.std.specs.Prelude.{◌≡◌, slice_get};
ghost use Rattle.avro_resolve.specs.inside.Guided.{kept_or};

use crate::error::{ReadResolveError, ResolveError};
use crate::plan::known::{count, index_in};
use crate::plan::lookup::{inside_of, pair_of, part_known, whole_kept};
use crate::plan::parts::{branch_of, items_of, values_of};
use crate::plan::verbatim::{is_set, verbatim_kept};
use crate::read::{put_planned, read_planned};
use crate::resolution::put_datum;
use crate::resolving::guided::Part;
use avro_binary::{Build, Make, Place};
use avro_compare::{At, Comparison, Target, fields_of, missing, part_for, symbol_for, target};
use avro_schema::{Datum, Limits, NodeId, Schema};
use avro_texts::Seeded;
use indexmap::IndexSet;
use std::alloc::Global;
use std::marker::Model;

/// A plan by reference: the two schemas, and what is kept of pairs of their nodes. Contracts see the two schemas.
#[derive(Drop)]
pub struct PlanRef<'a> {
    writer: &'a Schema,
    reader: &'a Schema,
    pairs: &'a [Comparison],
    parts: &'a [Vec<u32>],
    flags: &'a [bool],
    root: u32,
    known: Option<&'a IndexSet<u64, Seeded>>,
}

impl<'a> Model for PlanRef<'a> {
    ghost use Rattle.std.specs.Coded.{codes};
    ghost use Rattle.avro_schema.specs.contracts.datum.Datum as datum;
    ghost use Rattle.avro_schema.specs.declared.schema.Schema.{Schema};
    ghost use Rattle.avro_schema.specs.SeenSchema.{schema_nodes};
    ghost use Rattle.avro_compare.specs.Planned.{AreComparisons};
    ghost use Rattle.avro_resolve.specs.Copied.{AreFlags};

    ghost Value = { Schema × Schema };

    ghost coded = { Prim.hlevel (codes, datum.the_row.coded) };

    ghost view = { λ p. (p.writer.now, p.reader.now) };

    ghost invariant = { λ p. AreComparisons (schema_nodes p.writer.now) (schema_nodes p.reader.now) p.pairs.now
        × AreFlags (schema_nodes p.writer.now) (schema_nodes p.reader.now) p.pairs.now p.flags.now };
}

impl<'a> PlanRef<'a> {
    ghost use Rattle.std.specs.Prelude.{◌≡◌, true, IfSome, OnOk};
    ghost use Rattle.avro_schema.specs.Fits.{fits};
    ghost use Rattle.avro_schema.specs.Node.{node_at, root_of};
    ghost use Rattle.avro_schema.specs.Seen.{value_of};
    ghost use Rattle.avro_schema.specs.SeenSchema.{schema_nodes};
    ghost use Rattle.avro_schema.specs.declared.schema.NodeId.{NodeId};
    ghost use Rattle.avro_compare.specs.declared.comparison.At.TheVariants.{Pair};
    ghost use Rattle.avro_resolve.specs.inside.Guided.{ArrivesAt, IsWhole, branch_part, known_part, of_node};
    ghost use Rattle.avro_binary.specs.Places.{AreTold};
    ghost use Rattle.avro_schema.specs.WellFormed.{is_schema};
    ghost use Rattle.avro_compare.specs.Pairs.{IsTarget, IsSymbol, target_at, field_for, item_id, value_id, branch_id};
    ghost use Rattle.avro_compare.specs.Planned.{AreComparisons, AreFor, AreInside, AreSources, IsComparison};
    ghost use Rattle.avro_resolve.specs.Copied.{AreFlags, IsVerbatim};
    ghost use Rattle.avro_resolve.specs.Reading.{BuildsResolved};
    ghost use Rattle.avro_resolve.specs.Seen.{StandsForResult};
    ghost use Rattle.avro_compare.specs.Resolve.{enum_as, fields_at, resolve_root, symbol_at};
    ghost use Rattle.avro_compare.specs.Source.{missing_field};

    /// The plan of two schemas that keeps these pairs. `parts` holds for each pair the indices of the pairs of its
    /// parts, `flags` which pairs are verbatim, and `root` is the index of the roots' pair. A pair that is not at its
    /// index is looked for by its number, where `known` has those of all, and else it is resolved by its names.
    pub(crate) fn new(
        writer: &'a Schema,
        reader: &'a Schema,
        pairs: &'a [Comparison],
        parts: &'a [Vec<u32>],
        flags: &'a [bool],
        root: u32,
        known: Option<&'a IndexSet<u64, Seeded>>,
    ) -> PlanRef<'a>
        requires pairs { AreComparisons (schema_nodes writer.now) (schema_nodes reader.now) pairs.now }
        requires flags { AreFlags (schema_nodes writer.now) (schema_nodes reader.now) pairs.now flags.now }
        ensures { result ≡ (writer.now, reader.now) }
    {
        PlanRef {
            writer,
            reader,
            pairs,
            parts,
            flags,
            root,
            known,
        }
    }

    /// Reads a writer's datum as [`Plan::read`](crate::Plan::read) does.
    ///
    /// # Errors
    ///
    /// The first fault of the bytes, and else the first fault of resolution; `OutOfMemory`.
    pub fn read<B: Build>(
        &self,
        alloc: Global,
        bytes: &[u8],
        limits: &Limits,
        builder: &mut B,
    ) -> Result<(B::Out, usize), ReadResolveError>
        ensures { BuildsResolved B.stands_for (schema_nodes self.now.0) (schema_nodes self.now.1) limits.now bytes.now result }
    {
        read_planned(alloc, self, bytes, limits, builder)
    }

    /// Reads a writer's datum once, as [`read`](PlanRef::read) does, and returns what a [`Make`](crate::Make) makes of what it is
    /// for the reader, with the length of its encoding. Where that is `Ok`, the maker keeps what it had made.
    ///
    /// # Errors
    ///
    /// The first fault of the bytes, and else the first fault of resolution; `OutOfMemory`.
    pub fn put<M: Make<At = Place>>(
        &self,
        alloc: Global,
        bytes: &[u8],
        limits: &Limits,
        maker: &mut M,
    ) -> Result<(M::Out, usize), ReadResolveError>
        requires told { AreTold M.branch_at M.item_at M.entry_at M.field_at }
        ensures reads { BuildsResolved (of_node (M.stands_for maker.new) (schema_nodes self.now.1) 0) (schema_nodes self.now.0) (schema_nodes self.now.1) limits.now bytes.now result }
        ensures kept { OnOk result (M.keeps maker.old maker.new) }
    {
        put_planned(alloc, self, bytes, limits, maker)
    }

    /// What a [`Make`](crate::Make) makes of what a writer's datum is for the reader. No datum is built in between.
    ///
    /// # Errors
    ///
    /// The first fault of resolution, with its path in the datum; or memory ran out.
    pub fn of_datum<M: Make<At = Place>>(
        &self,
        alloc: Global,
        datum: &Datum,
        maker: &mut M,
    ) -> Result<M::Out, ResolveError>
        requires told { AreTold M.branch_at M.item_at M.entry_at M.field_at }
        requires fitting { fits (schema_nodes self.now.0) (root_of (schema_nodes self.now.0)) (value_of datum.now) ≡ true }
        ensures answers { StandsForResult (of_node (M.stands_for maker.new) (schema_nodes self.now.1) 0) result (resolve_root (schema_nodes self.now.0) (schema_nodes self.now.1) (value_of datum.now)) }
    {
        put_datum(alloc, self, datum, maker)
    }

    /// The writer's schema.
    pub fn writer(&self) -> &'a Schema
        ensures { result.now ≡ self.now.0 }
    {
        self.writer
    }

    /// The reader's schema.
    pub fn reader(&self) -> &'a Schema
        ensures { result.now ≡ self.now.1 }
    {
        self.reader
    }

    /// The index at which the roots' pair is kept, if it is kept.
    pub(crate) fn root(&self) -> u32 {
        self.root
    }

    /// The index at which the pair of a part is kept, if it is kept.
    #[inline(always)]
    pub(crate) fn index_of(&self, part: Part) -> u32 {
        match part.branch {
            Some(branch) => self.index_below(part.index, branch as usize),
            None => part.index,
        }
    }

    /// The index at which the pair of a part is kept, if it is kept. The part is one of the pair at `index`.
    #[inline(always)]
    pub(crate) fn index_below(&self, index: u32, part: usize) -> u32 {
        index_at(self.parts(index), part)
    }

    /// The indices at which the pairs of the parts of the pair at `index` are kept, as far as they are known.
    #[inline(always)]
    pub(crate) fn parts(&self, index: u32) -> &'a [u32] {
        match self.parts.get(index as usize) {
            Some(parts) => parts,
            None => &[],
        }
    }

    /// The index of the pair that the pair at `index` leads to, if it is kept. That is another pair
    /// if it leads to a branch of the reader's union, and else the same.
    #[inline(always)]
    pub(crate) fn index_to(&self, index: u32, branch: Option<u32>) -> u32 {
        match branch {
            Some(_) => self.index_below(index, 0),
            None => index,
        }
    }

    /// What is kept of two nodes, where their number is kept.
    fn pair_by(&self, w: NodeId, r: NodeId) -> Option<&'a Comparison>
        ensures { IfSome result (λ p. IsComparison (schema_nodes self.now.0) (schema_nodes self.now.1) p.now × (p.now.w ≡ w) × (p.now.r ≡ r)) }
    {
        match self.known {
            Some(known) => pair_of(self.pairs, index_in(known, count(self.reader), w, r), w, r),
            None => None,
        }
    }

    /// What is kept of two nodes and inside them, where their number is kept. It stands apart from what reading runs
    /// through where it is passed the indices.
    #[cold]
    #[inline(never)]
    fn inside_by(&self, w: NodeId, q: NodeId) -> Option<&'a Comparison>
        ensures { IfSome result (λ p. AreInside (node_at (schema_nodes self.now.0) w.0) (node_at (schema_nodes self.now.1) q.0) p.now) }
    {
        match self.pair_by(w, q) {
            Some(pair) => inside_of(pair),
            None => None,
        }
    }

    /// What is kept of two nodes and inside them, at an index or else where their number is kept.
    #[inline(always)]
    fn inside(&self, index: u32, w: NodeId, q: NodeId) -> Option<&'a Comparison>
        ensures { IfSome result (λ p. AreInside (node_at (schema_nodes self.now.0) w.0) (node_at (schema_nodes self.now.1) q.0) p.now) }
    {
        match pair_of(self.pairs, index, w, q) {
            Some(pair) => inside_of(pair),
            None => self.inside_by(w, q),
        }
    }

    /// Where a pair of nodes leads.
    #[inline(always)]
    pub(crate) fn target(&self, index: u32, w: NodeId, r: NodeId) -> Target
        ensures leads { IsTarget (schema_nodes self.now.0) (schema_nodes self.now.1)
            (node_at (schema_nodes self.now.0) w.0) (node_at (schema_nodes self.now.1) r.0) result }
        ensures arrives { ArrivesAt (schema_nodes self.now.0) (schema_nodes self.now.1) (node_at (schema_nodes self.now.0) w.0) r.0 result }
        ensures formed { is_schema (schema_nodes self.now.1) ≡ true }
    {
        // Its contract says that the schema is well formed.
        let _root = self.reader.root();
        match pair_of(self.pairs, index, w, r) {
            Some(pair) => pair.target,
            None => self.target_by(w, r),
        }
    }

    /// Where a pair of nodes leads, as it is kept where their number is kept, or else by name. It stands apart as well.
    #[cold]
    #[inline(never)]
    fn target_by(&self, w: NodeId, r: NodeId) -> Target
        ensures { result ≡ target_at (schema_nodes self.now.0) (schema_nodes self.now.1) w r }
    {
        match self.pair_by(w, r) {
            Some(pair) => pair.target,
            None => target(self.writer, w, self.reader, r),
        }
    }

    /// The nodes of the items of two nodes.
    pub(crate) fn items(&self, w: NodeId, q: NodeId) -> (NodeId, NodeId)
        ensures of_writer { result.0.0 ≡ item_id (node_at (schema_nodes self.now.0) w.0) }
        ensures of_reader { result.1.0 ≡ item_id (node_at (schema_nodes self.now.1) q.0) }
    {
        (items_of(self.writer, w), items_of(self.reader, q))
    }

    /// The nodes of the values of two nodes.
    pub(crate) fn values(&self, w: NodeId, q: NodeId) -> (NodeId, NodeId)
        ensures of_writer { result.0.0 ≡ value_id (node_at (schema_nodes self.now.0) w.0) }
        ensures of_reader { result.1.0 ≡ value_id (node_at (schema_nodes self.now.1) q.0) }
    {
        (values_of(self.writer, w), values_of(self.reader, q))
    }

    /// The node of a branch of a writer's node.
    pub(crate) fn branch(&self, w: NodeId, branch: u32) -> NodeId
        ensures { result.0 ≡ branch_id (node_at (schema_nodes self.now.0) w.0) branch }
    {
        branch_of(self.writer, w, branch)
    }

    /// What the whole of a writer's datum is for.
    pub(crate) fn root_part(&self) -> Part
        ensures { (w r : NodeId) × (result.at ≡ Pair w r) × (w.0 ≡ 0) × (r.0 ≡ 0) }
    {
        Part {
            at: At::Pair(self.writer.root(), self.reader.root()),
            index: self.root(),
            branch: None,
        }
    }

    /// What the value of a branch of a part is for.
    #[inline(always)]
    pub(crate) fn part_of_branch(&self, part: Part, branch: u32) -> Part
        ensures { result ≡ branch_part (schema_nodes self.now.0) part branch }
    {
        let at = match part.at {
            At::Ignored => At::Ignored,
            At::Pair(w, r) => At::Pair(self.branch(w, branch), r),
        };
        Part {
            at,
            index: part.index,
            branch: Some(branch),
        }
    }

    /// The reader's first field without a source and a default.
    #[inline(always)]
    pub(crate) fn missing(&self, index: u32, w: NodeId, q: NodeId) -> Option<usize>
        ensures { result ≡ missing_field (fields_at (node_at (schema_nodes self.now.0) w.0)) (fields_at (node_at (schema_nodes self.now.1) q.0)) }
    {
        match self.inside(index, w, q) {
            Some(pair) => pair.missing,
            None => missing(fields_of(self.writer, w), fields_of(self.reader, q)),
        }
    }

    /// What the writer's fields are for, where two nodes lead to each other, no field is missing, and this is kept.
    #[inline(always)]
    pub(crate) fn whole(&self, index: u32, w: NodeId, r: NodeId) -> Option<&'a [(usize, At)]>
        ensures { IfSome result (λ known. IsWhole (schema_nodes self.now.0) (schema_nodes self.now.1) w r known.now) }
    {
        whole_kept(self.pairs, index, w, r)
    }

    /// What the writer's fields are for, if it is kept.
    #[inline(always)]
    pub(crate) fn fields(&self, index: u32, w: NodeId, q: NodeId) -> Option<&'a [(usize, At)]>
        ensures { IfSome result (λ known. AreFor (fields_at (node_at (schema_nodes self.now.0) w.0)) (fields_at (node_at (schema_nodes self.now.1) q.0)) known.now) }
    {
        match self.inside(index, w, q) {
            Some(pair) => Some(&pair.fields),
            None => None,
        }
    }

    /// What the writer's field at an index is for, by what is known from there on.
    #[inline(always)]
    pub(crate) fn field(
        &self,
        known: Option<&[(usize, At)]>,
        w: NodeId,
        q: NodeId,
        field: usize,
    ) -> At
        ensures { result ≡ known_part known.entry field (field_for (fields_at (node_at (schema_nodes self.now.0) w.0)) (fields_at (node_at (schema_nodes self.now.1) q.0)) field) }
    {
        match known {
            Some(known) => part_known(known, field),
            None => part_for(fields_of(self.writer, w), fields_of(self.reader, q), field),
        }
    }

    /// The sources of the reader's fields, if they are kept.
    #[inline(always)]
    pub(crate) fn sources(&self, index: u32, w: NodeId, q: NodeId) -> Option<&[(usize, usize)]>
        ensures { IfSome result (λ sources. AreSources (fields_at (node_at (schema_nodes self.now.0) w.0)) (fields_at (node_at (schema_nodes self.now.1) q.0)) sources.now) }
    {
        match self.inside(index, w, q) {
            Some(pair) => Some(&pair.sources),
            None => None,
        }
    }

    /// Whether the pair at an index is flagged as verbatim.
    #[inline(always)]
    pub(crate) fn is_verbatim(&self, index: u32) -> bool {
        is_set(self.flags, index)
    }

    /// The sources of the reader's fields, where the two nodes are kept at the index and are verbatim.
    #[inline(always)]
    pub(crate) fn verbatim(&self, index: u32, w: NodeId, r: NodeId) -> Option<&'a [(usize, usize)]>
        ensures { IfSome result (λ sources. IsVerbatim (schema_nodes self.now.0) (schema_nodes self.now.1) w r
            × AreSources (fields_at (node_at (schema_nodes self.now.0) w.0)) (fields_at (node_at (schema_nodes self.now.1) r.0)) sources.now) }
    {
        verbatim_kept(self.pairs, self.flags, index, w, r)
    }

    /// The reader's symbol for a writer's.
    pub(crate) fn symbol(&self, index: u32, w: NodeId, symbol: u32, q: NodeId) -> Option<u32>
        ensures { IsSymbol (enum_as (symbol_at (node_at (schema_nodes self.now.0) w.0) symbol) (node_at (schema_nodes self.now.1) q.0)) result }
    {
        match self.inside(index, w, q) {
            Some(pair) => {
                if (symbol as usize) < pair.symbols.len() {
                    return pair.symbols[symbol as usize];
                }
            }
            None => {}
        }
        symbol_for(self.writer, w, symbol, self.reader, q)
    }
}

/// The index at which the pair of a part is kept, and 0 where it is not known.
#[inline(always)]
pub(crate) fn index_at(parts: &[u32], part: usize) -> u32
    ensures { result ≡ kept_or (slice_get parts.now part) 0 }
{
    match parts.get(part) {
        Some(below) => *below,
        None => 0,
    }
}
