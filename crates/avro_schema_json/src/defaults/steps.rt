//! Which sets follow which, found once.

ghost use Rattle.std.specs.Prelude.{◌≡◌, IfOk, IfSome, OnOk};
ghost use Rattle.avro_schema_json.specs.inside.Sets.{KeepsRows};
ghost use Rattle.avro_schema_json.specs.inside.Steps.{AreSteps, LeadsTo};

use crate::defaults::parents::{Parents, parents_of_row};
use crate::defaults::sets::{Sets, number_of, row_of};
use avro_schema::Memory;
use std::alloc::Global;
use std::collections::BTreeMap;

/// Sets, and for a label and a set the one of the parents under the label of what is in the set.
#[derive(Drop)]
pub(crate) struct Memo {
    pub sets: Sets,
    pub steps: BTreeMap<(u32, u32), u32>,
}

/// The set of the parents under a label of what is in a set, found once.
pub(crate) fn step(
    alloc: Global,
    parents: &Parents,
    memo: &mut Memo,
    label: u32,
    set: u32,
) -> Result<Option<u32>, Memory>
    requires steps { AreSteps parents.now memo.old }
    ensures steps { OnOk result (AreSteps parents.now memo.new) }
    ensures kept { OnOk result (KeepsRows memo.old.sets memo.new.sets) }
    ensures found { IfOk result (λ found. IfSome found (λ n. LeadsTo parents.now memo.new.sets label set n)) }
{
    match memo.steps.get(&(label, set)) {
        Some(number) => return Ok(Some(*number)),
        None => {}
    }
    let Some(row) = row_of(&memo.sets, set) else {
        return Ok(None);
    };
    let found = parents_of_row(parents, label, row);
    let number = number_of(alloc, &mut memo.sets, &found)?;
    memo.steps.insert((label, set), number)?;
    Ok(Some(number))
}
