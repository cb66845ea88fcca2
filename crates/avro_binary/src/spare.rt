//! Lists that makers keep for later, so that an array or a record need not take memory of its own.

ghost use Rattle.std.specs.Prelude.{◌≡◌, []};

use std::alloc::Global;

/// How many lists are kept at most, and how many items each has room for at most.
const LISTS: usize = 16;

const ITEMS: usize = 256;

/// An empty list, one of those that are kept if there is one.
#[inline(always)]
pub fn list<T: Drop>(alloc: Global, kept: &mut Vec<Vec<T>>) -> Vec<T>
    ensures { result.items ≡ [] }
{
    match kept.pop() {
        Some(list) => {
            let mut list = list;
            list.clear();
            list
        }
        None => Vec::new(alloc),
    }
}

/// Keeps a list for later, where few are kept and it is small. Where memory runs out it is let go.
#[inline(always)]
pub fn give_list<T: Drop>(kept: &mut Vec<Vec<T>>, list: Vec<T>) {
    if list.capacity() <= ITEMS && kept.len() < LISTS {
        let mut list = list;
        list.clear();
        match kept.push(list) {
            Ok(()) => {}
            Err(_) => {}
        }
    }
}
