//! How names and namespaces compare: `Eq`, `Ord` and `Hash` agree.

use avro_name::{FullName, Namespace};
use std::alloc::Global;
use std::cmp::Ordering;
use std::hash::{DefaultHasher, Hash, Hasher};
use std::test::Fail;

/// Two namespaces, and their order.
const NAMESPACES: [(&str, &str, Ordering); 5] = [
    ("", "", Ordering::Equal),
    ("", "a", Ordering::Less),
    ("a.b", "a.b", Ordering::Equal),
    ("a.b", "a", Ordering::Greater),
    ("B", "a", Ordering::Less),
];

/// Two fullnames, and their order: that of their simple names, and then of their namespaces.
const FULLNAMES: [(&str, &str, Ordering); 5] = [
    ("a.B", "a.B", Ordering::Equal),
    ("z.B", "a.C", Ordering::Less),
    ("b.C", "a.C", Ordering::Greater),
    ("C", "a.C", Ordering::Less),
    ("Ca", "C", Ordering::Greater),
];

/// What is hashed of a value.
fn digest<T: Hash>(value: &T) -> u64 {
    let mut state = DefaultHasher::new();
    value.hash(&mut state);
    state.finish()
}

/// Whether two namespaces compare so, either way round.
fn are_spaces(first: &Namespace, second: &Namespace, order: Ordering) -> bool {
    let is_equal = order == Ordering::Equal;
    first.cmp(second) == order
        && second.cmp(first) == order.reverse()
        && first.eq(second) == is_equal
        && (digest(first) == digest(second)) == is_equal
}

/// Whether two fullnames compare so, either way round.
fn are_names(first: &FullName, second: &FullName, order: Ordering) -> bool {
    let is_equal = order == Ordering::Equal;
    first.cmp(second) == order
        && second.cmp(first) == order.reverse()
        && first.eq(second) == is_equal
        && (digest(first) == digest(second)) == is_equal
}

/// The same for the namespaces of two texts.
fn is_space_row(alloc: Global, row: &(&str, &str, Ordering)) -> Result<bool, Fail> {
    let first = Namespace::read(alloc, row.0)?;
    let second = Namespace::read(alloc, row.1)?;
    Ok(are_spaces(&first, &second, row.2))
}

/// The same for the fullnames of two texts.
fn is_name_row(alloc: Global, row: &(&str, &str, Ordering)) -> Result<bool, Fail> {
    let outside = Namespace::read(alloc, "")?;
    let first = FullName::read(alloc, row.0, &outside)?;
    let second = FullName::read(alloc, row.1, &outside)?;
    Ok(are_names(&first, &second, row.2))
}

/// The number of the first row, if any, that compares otherwise.
fn wrong_space(alloc: Global, rows: &[(&str, &str, Ordering)]) -> Result<Option<usize>, Fail> {
    for (number, row) in rows.iter().enumerate() {
        if !is_space_row(alloc, row)? {
            return Ok(Some(number));
        }
    }
    Ok(None)
}

/// The same of fullnames.
fn wrong_name(alloc: Global, rows: &[(&str, &str, Ordering)]) -> Result<Option<usize>, Fail> {
    for (number, row) in rows.iter().enumerate() {
        if !is_name_row(alloc, row)? {
            return Ok(Some(number));
        }
    }
    Ok(None)
}

#[test]
fn namespaces_are_in_the_order_of_their_bytes(rt: HostRuntime) -> Result<(), Fail> {
    assert_eq!(rt; wrong_space(rt.alloc(), &NAMESPACES[..])?, None);
    Ok(())
}

#[test]
fn fullnames_are_in_the_order_of_their_simple_names(rt: HostRuntime) -> Result<(), Fail> {
    assert_eq!(rt; wrong_name(rt.alloc(), &FULLNAMES[..])?, None);
    Ok(())
}
