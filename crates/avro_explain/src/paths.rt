//! The way from the roots to a place.

ghost use Rattle.std.specs.Prelude.{◌≡◌, ◌<◌, ◌++◌, ℕ, List, Some, IfOk, OnOk, IfNone, slice_get};
ghost use Rattle.std.specs.Option.{IfSome};
ghost use Rattle.avro_schema.specs.Node.{Node};
ghost use Rattle.avro_explain.specs.Places.{ArePlaced};
ghost use Rattle.avro_explain.specs.Ways.{IsWay, IsWayTo, writer_steps, reader_steps};
ghost use Rattle.avro_explain.specs.declared.found.Place.{Place};
ghost use Rattle.avro_compare.specs.declared.comparison.Step.{Step as SeenStep};

use crate::found::{PathStep, Place};
use avro_compare::Step;
use avro_schema::Memory;
use std::alloc::Global;

/// The way to a pair of nodes: in the writer's schema, and in the reader's.
#[derive(Debug, Drop)]
pub struct Way {
    /// The steps from the writer's root to the writer's node.
    pub writer: Vec<PathStep>,
    /// The steps from the reader's root to the reader's node.
    pub reader: Vec<PathStep>,
}

/// The way to the place at an index.
///
/// # Errors
///
/// Memory ran out.
pub fn way_to(alloc: Global, places: &[Place], at: usize) -> Result<Way, Memory>
    ensures writer { IfOk result (λ way. (writer reader : List Node) (p : Place) → ArePlaced writer reader places.now → slice_get places.now at ≡ Some p
        → IsWay writer way.writer.items p.w.0) }
    ensures reader { IfOk result (λ way. (writer reader : List Node) (p : Place) → ArePlaced writer reader places.now → slice_get places.now at ≡ Some p
        → IsWay reader way.reader.items p.r.0) }
    // Both are, step by step, those of the places between.
    ensures ways { IfOk result (λ way. (writer reader : List Node) (p : Place) → ArePlaced writer reader places.now → slice_get places.now at ≡ Some p
        → IsWayTo places.now at way.writer.items way.reader.items) }
{
    let mut way = Way {
        writer: Vec::new(alloc),
        reader: Vec::new(alloc),
    };
    let mut here = at;
    while let Some((before, step)) = step_before(places, here) {
        add_step(&mut way, step)?;
        here = before;
    }
    way.writer.reverse();
    way.reader.reverse();
    Ok(way)
}

/// The place before the one at an index, and the step from there.
fn step_before(places: &[Place], at: usize) -> Option<(usize, Step)>
    ensures before { IfSome result (λ from. from.0 < at) }
    ensures from { (p : Place) → slice_get places.now at ≡ Some p → IfSome result (λ from. p.from ≡ Some from) }
    ensures none { IfNone result ((p : Place) → slice_get places.now at ≡ Some p → (from : ℕ × SeenStep) → p.from ≡ Some from → from.0 < at → ⊥) }
{
    let place = places.get(at)?;
    let (before, step) = place.from?;
    if before < at {
        Some((before, step))
    } else {
        None
    }
}

/// Adds a step, in each of the schemas in which it is one.
fn add_step(way: &mut Way, step: Step) -> Result<(), Memory>
    ensures writer { OnOk result (way.new.writer.items ≡ way.old.writer.items ++ writer_steps step) }
    ensures reader { OnOk result (way.new.reader.items ≡ way.old.reader.items ++ reader_steps step) }
{
    match step {
        Step::Branch(k) => way.writer.push(PathStep::Branch(k))?,
        Step::Choice(k) => way.reader.push(PathStep::Branch(k))?,
        Step::Items => {
            way.writer.push(PathStep::Items)?;
            way.reader.push(PathStep::Items)?;
        }
        Step::Values => {
            way.writer.push(PathStep::Values)?;
            way.reader.push(PathStep::Values)?;
        }
        Step::Field(source, field) => {
            way.writer.push(PathStep::Field(source))?;
            way.reader.push(PathStep::Field(field))?;
        }
    }
    Ok(())
}
