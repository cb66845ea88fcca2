//! Unions in which a branch occurs twice, and records that have two fields of one name: they are refused before any
//! default is read, since each value of a default could be tried for many branches of one kind, or read for each of the
//! fields.

ghost use Rattle.std.specs.Prelude.{◌≡◌, ◌⊎◌, ℕ, false, true, IfOk, OnOk};
ghost use Rattle.std.specs.Ordering.{nat_cmp};
ghost use Rattle.std.specs.BTreeSet.{contains};
ghost use Rattle.avro_schema.specs.Seen.{ids_of};
ghost use Rattle.avro_schema_json.specs.inside.OwnDefaults.{all_without_defaults, fields_seen, without_defaults};
ghost use Rattle.avro_schema_json.specs.inside.Repeats.{AreFieldsDistinct, AreNamesDistinct, HasDistinctNames, RecordRepeatsName, Repeats, RepeatsName, SomeRepeats, SomeRepeatsName, code_by};

use crate::raw::{RawField, RawNode};
use crate::raw_nodes::{are_edges, branches, raw_at};
use avro_schema::{Memory, NodeId};
use avro_texts::Seeded;
use indexmap::IndexMap;
use std::alloc::Global;
use std::collections::BTreeSet;

/// The code of a branch: an even one for each kind without a name, an odd one for each other node.
fn code_of(raws: &[RawNode], branch: NodeId) -> u64
    ensures { result ≡ code_by (all_without_defaults raws.now) branch.0 }
{
    let odd = u64::from(branch.0) * 2 + 1;
    match raw_at(&*raws, branch) {
        None => 0,
        Some(RawNode::Null) => 0,
        Some(RawNode::Boolean) => 2,
        Some(RawNode::Int) => 4,
        Some(RawNode::Long) => 6,
        Some(RawNode::Bytes) => 8,
        Some(RawNode::Str) => 10,
        Some(RawNode::Array(_)) => 12,
        Some(RawNode::Map(_)) => 14,
        Some(RawNode::Union(_)) => odd,
        Some(RawNode::Record(_)) => odd,
        Some(RawNode::Enum(_)) => odd,
        Some(RawNode::Fixed(_)) => odd,
    }
}

/// Adds a code, and returns whether it is new.
fn add(codes: &mut BTreeSet<u64>, code: u64) -> Result<bool, Memory>
    ensures new { IfOk result (λ new. new ≡ false → contains nat_cmp codes.old code ≡ true) }
    ensures added { OnOk result ((m : ℕ) → contains nat_cmp codes.new m ≡ true → (contains nat_cmp codes.old m ≡ true) ⊎ (m ≡ code)) }
{
    let new = codes.insert(code)?;
    Ok(new)
}

/// Whether two branches have one code.
fn repeats_branch(alloc: Global, raws: &[RawNode], branches: &[NodeId]) -> Result<bool, Memory>
    ensures { IfOk result (λ answer. answer ≡ true → Repeats (all_without_defaults raws.now) (ids_of branches.now)) }
{
    let mut codes: BTreeSet<u64> = BTreeSet::new(alloc);
    for branch in branches {
        let code = code_of(raws, *branch);
        if !add(&mut codes, code)? {
            return Ok(true);
        }
    }
    Ok(false)
}

/// Whether a branch occurs twice in one of the unions whose edges are good.
pub(crate) fn has_repeated_branch(alloc: Global, raws: &[RawNode]) -> Result<bool, Memory>
    ensures { IfOk result (λ answer. answer ≡ true → SomeRepeats (all_without_defaults raws.now)) }
{
    for i in 0..raws.len() {
        match branches(&raws[i]) {
            Some(branches) => {
                if are_edges(raws, i, branches) && repeats_branch(alloc, raws, branches)? {
                    return Ok(true);
                }
            }
            None => {}
        }
    }
    Ok(false)
}

/// Whether two fields have one name.
fn repeats_name(alloc: Global, seed: Seeded, fields: &[RawField]) -> Result<bool, Memory>
    ensures found { IfOk result (λ answer. answer ≡ true → RepeatsName (fields_seen fields.now)) }
    ensures distinct { IfOk result (λ answer. answer ≡ false → AreFieldsDistinct (fields_seen fields.now)) }
{
    let mut names: IndexMap<&str, usize, Seeded> = IndexMap::with_capacity_and_hasher(
        alloc,
        fields.len(),
        seed,
    )?;
    for i in 0..fields.len() {
        let name = fields[i].name.as_str();
        let old = names.insert(name, i)?;
        if old.is_some() {
            return Ok(true);
        }
    }
    Ok(false)
}

/// Whether a node is a record with two fields of one name.
fn repeats_field(alloc: Global, seed: Seeded, raw: &RawNode) -> Result<bool, Memory>
    ensures found { IfOk result (λ answer. answer ≡ true → RecordRepeatsName (without_defaults raw.now)) }
    ensures distinct { IfOk result (λ answer. answer ≡ false → HasDistinctNames (without_defaults raw.now)) }
{
    match raw {
        RawNode::Record(record) => repeats_name(alloc, seed, &record.fields),
        _ => Ok(false),
    }
}

/// Whether one of the records has two fields of one name.
pub(crate) fn has_repeated_field(
    alloc: Global,
    seed: Seeded,
    raws: &[RawNode],
) -> Result<bool, Memory>
    ensures found { IfOk result (λ answer. answer ≡ true → SomeRepeatsName (all_without_defaults raws.now)) }
    ensures distinct { IfOk result (λ answer. answer ≡ false → AreNamesDistinct (all_without_defaults raws.now)) }
{
    for i in 0..raws.len() {
        if repeats_field(alloc, seed, &raws[i])? {
            return Ok(true);
        }
    }
    Ok(false)
}
