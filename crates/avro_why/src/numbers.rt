//! Numbers, wherever they are.

use crate::fault::Fault;
use crate::places::PlaceId;
use crate::walk::{Members, Walk};
use serde_json::Value;
use std::alloc::AllocError;

impl<'a> Walk<'a> {
    /// Notes each number in a tree that is not a 64-bit integer.
    #[cycle(numbers)]
    pub(crate) fn read_numbers(
        &mut self,
        tree: &'a Value,
        place: PlaceId,
    ) -> Result<(), AllocError> {
        match tree {
            Value::Null | Value::Bool(_) | Value::String(_) => Ok(()),
            Value::Number(number) => {
                if number.is_f64() {
                    let text = self.places.number(place);
                    self.note(place, Fault::NotInteger(text))?;
                }
                Ok(())
            }
            Value::Array(items) => self.read_numbers_of_items(items, place),
            Value::Object(members) => self.read_numbers_of_members(members, place),
        }
    }

    /// The same of the items of an array.
    #[cycle(numbers)]
    fn read_numbers_of_items(
        &mut self,
        items: &'a Vec<Value>,
        place: PlaceId,
    ) -> Result<(), AllocError> {
        for (index, item) in items.iter().enumerate() {
            let at = self.places.item(place, index);
            self.read_numbers(item, at)?;
        }
        Ok(())
    }

    /// The same of the members of an object.
    #[cycle(numbers)]
    fn read_numbers_of_members(
        &mut self,
        members: &'a Members,
        place: PlaceId,
    ) -> Result<(), AllocError> {
        for (key, value) in members.iter() {
            let at = self.places.member(place, key.as_str());
            self.read_numbers(value, at)?;
        }
        Ok(())
    }
}
