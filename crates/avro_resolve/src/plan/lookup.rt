//! What is kept of a pair of nodes.

ghost use Rattle.std.specs.Prelude.{◌≡◌, List, IfSome};
ghost use Rattle.avro_schema.specs.Node.{Node, node_at};
ghost use Rattle.avro_compare.specs.Entries.{first_entry};
ghost use Rattle.avro_compare.specs.Planned.{AreInside, AreComparisons, IsComparison, part_or_none};
ghost use Rattle.avro_resolve.specs.inside.Guided.{IsWhole};

use avro_compare::{At, Comparison, Target, first_entry};
use avro_schema::NodeId;

/// What is kept at an index, if it is of these two nodes.
#[inline(always)]
pub(crate) fn pair_of(pairs: &[Comparison], index: u32, w: NodeId, r: NodeId) -> Option<&Comparison>
    ensures { (writer reader : List Node) → AreComparisons writer reader pairs.now
        → IfSome result (λ p. IsComparison writer reader p.now × (p.now.w ≡ w) × (p.now.r ≡ r)) }
{
    if (index as usize) >= pairs.len() {
        return None;
    }
    let pair = &pairs[index as usize];
    if pair.w == w && pair.r == r {
        Some(pair)
    } else {
        None
    }
}

/// The same comparison, if it is of what is inside its two nodes.
#[inline(always)]
pub(crate) fn inside_of(pair: &Comparison) -> Option<&Comparison>
    ensures { (writer reader : List Node) → IsComparison writer reader pair.now
        → IfSome result (λ p. AreInside (node_at writer pair.now.w.0) (node_at reader pair.now.r.0) p.now) }
{
    match pair.target {
        Target::To(None, _) => Some(pair),
        Target::To(Some(_), _) => None,
        Target::Fault(_) => None,
    }
}

/// What the writer's fields are for, as it is kept at an index, where the two nodes lead to each other and no field is missing.
#[inline(always)]
pub(crate) fn whole_kept(
    pairs: &[Comparison],
    index: u32,
    w: NodeId,
    r: NodeId,
) -> Option<&[(usize, At)]>
    ensures { (writer reader : List Node) → AreComparisons writer reader pairs.now
        → IfSome result (λ known. IsWhole writer reader w r known.now) }
{
    match pair_of(pairs, index, w, r) {
        Some(pair) => match pair.target {
            Target::To(None, _) => match pair.missing {
                None => Some(&pair.fields),
                Some(_) => None,
            },
            Target::To(Some(_), _) => None,
            Target::Fault(_) => None,
        },
        None => None,
    }
}

/// What a writer's field, by its index in its record, is for, by what is known from there on.
#[inline(always)]
pub(crate) fn part_known(known: &[(usize, At)], field: usize) -> At
    ensures { result ≡ part_or_none (first_entry known.now field) }
{
    match first_entry(known, field) {
        Some(at) => at,
        None => At::Ignored,
    }
}
