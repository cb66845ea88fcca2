//! Nodes by their kinds.

ghost use Rattle.std.specs.Prelude.{◌≡◌, ◌≤◌, ℕ, true, length, IfOk, OnOk};
ghost use Rattle.avro_schema_json.specs.inside.Kinds.{AreKinds, HasKind, KeepsKinds, kind_of as kind_by};
ghost use Rattle.avro_schema_json.specs.inside.OwnDefaults.{all_without_defaults, without_defaults};
ghost use Rattle.avro_schema_json.specs.inside.Rows.{has_place, IsWithin};

use crate::defaults::rows::{Row, add_row, empty_row, place_of, put};
use crate::raw::RawNode;
use avro_schema::Memory;
use std::alloc::Global;
use std::collections::BTreeMap;

/// The number of a kind; for a record with the number of its fields, for a fixed with that of its bytes.
pub(crate) type Kind = (u32, u64);

pub(crate) const NULL: Kind = (0, 0);

pub(crate) const BOOLEAN: Kind = (1, 0);

pub(crate) const INT: Kind = (2, 0);

pub(crate) const LONG: Kind = (3, 0);

pub(crate) const BYTES: Kind = (4, 0);

pub(crate) const TEXT: Kind = (5, 0);

pub(crate) const ARRAY: Kind = (6, 0);

pub(crate) const MAP: Kind = (7, 0);

const UNION: Kind = (8, 0);

pub(crate) const RECORD: u32 = 9;

const ENUM: Kind = (10, 0);

pub(crate) const FIXED: u32 = 11;

/// The kind of a node.
fn kind_of(raw: &RawNode) -> Kind
    ensures { result ≡ kind_by (without_defaults raw.now) }
{
    match raw {
        RawNode::Null => NULL,
        RawNode::Boolean => BOOLEAN,
        RawNode::Int => INT,
        RawNode::Long => LONG,
        RawNode::Bytes => BYTES,
        RawNode::Str => TEXT,
        RawNode::Array(_) => ARRAY,
        RawNode::Map(_) => MAP,
        RawNode::Union(_) => UNION,
        RawNode::Record(record) => (RECORD, record.fields.len() as u64),
        RawNode::Enum(_) => ENUM,
        RawNode::Fixed(fixed) => (FIXED, u64::from(fixed.size)),
    }
}

/// The row of a kind.
pub(crate) fn row_of_kind(rows: &BTreeMap<Kind, Row>, kind: Kind) -> Row
    ensures { (p : ℕ) → HasKind rows.now kind p → has_place result.words p ≡ true }
{
    match rows.get(&kind) {
        Some(row) => *row,
        None => empty_row(),
    }
}

/// Adds a place to the row of a kind.
fn put_kind(rows: &mut BTreeMap<Kind, Row>, kind: Kind, place: u32) -> Result<(), Memory>
    ensures kept { OnOk result (KeepsKinds rows.old rows.new) }
    ensures added { OnOk result (HasKind rows.new kind place) }
{
    let mut row = row_of_kind(rows, kind);
    put(&mut row, place);
    rows.insert(kind, row)?;
    Ok(())
}

/// The nodes by their kinds.
pub(crate) fn kinds_of(
    alloc: Global,
    raws: &[RawNode],
    last: u32,
) -> Result<BTreeMap<Kind, Row>, Memory>
    requires { last ≤ length raws.now }
    ensures { IfOk result (λ rows. AreKinds (all_without_defaults raws.now) last rows) }
{
    let mut rows: BTreeMap<Kind, Row> = BTreeMap::new(alloc);
    put_kind(&mut rows, NULL, last)?;
    for i in 0..raws.len() {
        put_kind(&mut rows, kind_of(&raws[i]), place_of(last, i))?;
    }
    Ok(rows)
}

/// Adds the nodes of a kind to a row.
pub(crate) fn add_kind(row: &mut Row, rows: &BTreeMap<Kind, Row>, kind: Kind)
    ensures kept { IsWithin row.old.words row.new.words }
    ensures added { (p : ℕ) → HasKind rows.now kind p → has_place row.new.words p ≡ true }
{
    add_row(row, &row_of_kind(rows, kind));
}
