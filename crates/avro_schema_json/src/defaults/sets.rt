//! Sets of nodes, each kept once, by its number. They are looked up in order: a hash with a fixed seed could be made to
//! collide by whoever writes a text.

ghost use Rattle.std.specs.Prelude.{◌≡◌, true, Some, option_map, IfOk, OnOk};
ghost use Rattle.avro_schema_json.specs.inside.Sets.{row_at, KeepsRows};

use crate::defaults::rows::Row;
use avro_schema::Memory;
use std::alloc::Global;
use std::collections::BTreeMap;
use std::rc::Rc;

#[derive(Drop)]
pub(crate) struct Sets {
    pub rows: Vec<Rc<Row>>,
    pub numbers: BTreeMap<Rc<Row>, u32>,
}

/// The number of the set of a row. What is looked up is checked, so that nothing need be known of the numbers.
pub(crate) fn number_of(alloc: Global, sets: &mut Sets, row: &Row) -> Result<u32, Memory>
    ensures kept { OnOk result (KeepsRows sets.old sets.new) }
    ensures found { IfOk result (λ n. row_at sets.new n ≡ Some row.now.words) }
{
    let kept = Rc::new(alloc, *row)?;
    match sets.numbers.get(&kept) {
        Some(number) => {
            let number = *number;
            if is_at(sets, number, row) {
                return Ok(number);
            }
        }
        None => {}
    }
    let Ok(number) = u32::try_from(sets.rows.len()) else {
        return Err(Memory);
    };
    sets.rows.push(kept.clone()?)?;
    sets.numbers.insert(kept, number)?;
    Ok(number)
}

/// Whether a set is that of a row.
fn is_at(sets: &Sets, number: u32, row: &Row) -> bool
    ensures { result ≡ true → row_at sets.now number ≡ Some row.now.words }
{
    match row_of(sets, number) {
        Some(there) => *there == *row,
        None => false,
    }
}

/// The row of the set of a number, if it is one of a set.
pub(crate) fn row_of(sets: &Sets, number: u32) -> Option<&Row>
    ensures { option_map (λ row. row.now.words) result ≡ row_at sets.now number }
{
    match sets.rows.get(number as usize) {
        Some(row) => Some(row),
        None => None,
    }
}
