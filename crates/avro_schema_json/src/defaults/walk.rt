//! What the walk from the root of a default down asks of the sets.

ghost use Rattle.std.specs.Prelude.{◌≡◌, true, Some, None, IfOk, OnOk, slice_get};
ghost use Rattle.avro_schema.specs.Node.{node_at, branches_of};
ghost use Rattle.avro_schema.specs.Seen.{ids_of};
ghost use Rattle.avro_schema_json.specs.inside.OwnDefaults.{own_default};
ghost use Rattle.avro_schema_json.specs.inside.Marks.{part_at};
ghost use Rattle.avro_schema_json.specs.inside.Walk.{AreFirsts, AreMemberMarks, FitsNoneBefore, HasNoneBefore, IsKnown, nodes_of};
ghost use Rattle.serde_json.specs.Data.{Data};
ghost use Rattle.serde_json.specs.Find.{get_member};
ghost use Rattle.serde_json.specs.View.{view, members_view};

use crate::defaults::parts::{Mark, Marks};
use crate::defaults::rows::{Row, has, place_of};
use crate::defaults::sets::row_of;
use crate::raw::RawNode;
use avro_schema::{Memory, NodeId};
use avro_texts::Seeded;
use indexmap::IndexMap;
use serde_json::{Map, Value};
use std::alloc::Global;
use std::collections::BTreeMap;

/// The seed of tables of names, the nodes, and the marks of a default's parts.
#[derive(Clone, Copy, Drop)]
pub(crate) struct Walk<'r, 'n, 'm> {
    pub seed: Seeded,
    pub raws: &'r [RawNode<'n>],
    /// The place that all nodes past it share.
    pub last: u32,
    pub marks: &'m Marks,
}

/// The first branch of each union that may be in each set.
pub(crate) type Firsts = BTreeMap<(u32, u32), usize>;

/// The mark at an index.
fn mark_at(marks: &[Mark], index: usize) -> Option<Mark>
    ensures { result ≡ slice_get marks.now index }
{
    marks.get(index).copied()
}

/// The mark of a part of JSON by its index: of an item, or of a member in the order of keys.
pub(crate) fn part_mark(walk: &Walk, part: &Value, mark: Option<Mark>, index: usize) -> Option<Mark>
    requires { (d : Data) × IsKnown walk.now d mark × (part_at index d ≡ Some (view part.now)) }
    ensures { IsKnown walk.now (view part.now) result }
{
    let Some(mark) = mark else {
        return None;
    };
    if index >= mark.count as usize {
        return None;
    }
    mark_at(&walk.marks.all, mark.parts as usize + index)
}

/// The marks of the members of an object, by their keys.
pub(crate) fn marks_of_members<'v>(
    alloc: Global,
    walk: &Walk,
    members: &'v Map<String, Value>,
    mark: Option<Mark>,
) -> Result<IndexMap<&'v str, Option<Mark>, Seeded>, Memory>
    requires known { IsKnown walk.now (Data.object (members_view members.now.entries)) mark }
    ensures { IfOk result (AreMemberMarks walk.now (members_view members.now.entries)) }
{
    let mut marks: IndexMap<&'v str, Option<Mark>, Seeded> = IndexMap::with_hasher(
        alloc, walk.seed,
    );
    let mut index: usize = 0;
    for (key, member) in members.iter() {
        let part = part_mark(walk, member, mark, index);
        marks.insert(key.as_str(), part)?;
        let Some(next) = index.checked_add(1) else {
            return Err(Memory);
        };
        index = next;
    }
    Ok(marks)
}

/// The mark of a member, which is that of its key.
pub(crate) fn member_mark(
    walk: &Walk,
    members: &Map<String, Value>,
    member: &Value,
    marks: &IndexMap<&str, Option<Mark>, Seeded>,
    key: &str,
) -> Option<Mark>
    requires marks { AreMemberMarks walk.now (members_view members.now.entries) marks.now }
    requires member { get_member key.now (members_view members.now.entries) ≡ Some (view member.now) }
    ensures { IsKnown walk.now (view member.now) result }
{
    marks.get(key).copied().unwrap_or(None)
}

/// Whether JSON is no default of the node of an id, since its set has not the node.
pub(crate) fn is_ruled_out(walk: &Walk, mark: Option<Mark>, id: NodeId) -> bool
    ensures { result ≡ true → (d : Data) → IsKnown walk.now d mark → own_default (nodes_of walk.now) d (node_at (nodes_of walk.now) id.0) ≡ None }
{
    let Some(mark) = mark else {
        return false;
    };
    match row_of(&walk.marks.memo.sets, mark.set) {
        Some(row) => !has(row, place_of(walk.last, id.0 as usize) as usize),
        None => false,
    }
}

/// The index of the first branch that a row has, or how many there are.
fn first_in(last: u32, row: &Row, ids: &[NodeId]) -> usize
    ensures { HasNoneBefore last row.now.words (ids_of ids.now) result }
{
    for i in 0..ids.len() {
        if has(row, place_of(last, ids[i].0 as usize) as usize) {
            return i;
        }
    }
    ids.len()
}

/// The index of the first branch of a union that JSON may be a default of, by its mark, found once for each set.
pub(crate) fn first_branch(
    walk: &Walk,
    mark: Option<Mark>,
    union: NodeId,
    ids: &[NodeId],
    firsts: &mut Firsts,
) -> Result<usize, Memory>
    requires branches { branches_of (node_at (nodes_of walk.now) union.0) ≡ Some (ids_of ids.now) }
    requires firsts { AreFirsts walk.now firsts.old }
    ensures firsts { OnOk result (AreFirsts walk.now firsts.new) }
    ensures first { IfOk result (λ first. (d : Data) → IsKnown walk.now d mark → FitsNoneBefore (nodes_of walk.now) d (ids_of ids.now) first) }
{
    let Some(mark) = mark else {
        return Ok(0);
    };
    match firsts.get(&(union.0, mark.set)) {
        Some(first) => return Ok(*first),
        None => {}
    }
    let Some(row) = row_of(&walk.marks.memo.sets, mark.set) else {
        return Ok(0);
    };
    let first = first_in(walk.last, row, ids);
    firsts.insert((union.0, mark.set), first)?;
    Ok(first)
}
