//! The order in which keys are displayed.

ghost use Rattle.std.specs.Prelude.{◌≡◌, ◌∷◌, ℕ, List, IfOk, map};
ghost use Rattle.avro_schema.specs.Seen.{seen_fields};
ghost use Rattle.serde_json.specs.Data.{Data};
ghost use Rattle.avro_display.specs.Displayed.{AreOrdered, EntriesAre};
ghost use Rattle.avro_display.specs.inside.Tables.{AreNamed, seen_place};
ghost use Rattle.avro_display.specs.Order.{IsOrder};
ghost use Rattle.avro_display.specs.Table.{AreMembers, field_id, head_text};

use crate::displayed::Displayed;
use crate::member::Member;
use crate::text::Text;
use avro_schema::{Field, Memory, NodeId};
use std::alloc::Global;
use std::collections::BTreeMap;

/// The fields in the order in which they are displayed.
pub(crate) fn members_of(alloc: Global, fields: &[Field]) -> Result<Vec<Member>, Memory>
    ensures { IfOk result (λ members. AreMembers (seen_fields fields.now) members.items) }
{
    let order = field_order(alloc, fields)?;
    members_in(alloc, fields, &order)
}

/// The fields in an order.
fn members_in(
    alloc: Global,
    fields: &[Field],
    order: &BTreeMap<&str, usize>,
) -> Result<Vec<Member>, Memory>
    ensures { IsOrder (map (λ f. f.name) (seen_fields fields.now)) (map seen_place order.now.entries)
        → AreNamed (seen_fields fields.now) (map seen_place order.now.entries)
        → IfOk result (λ members. AreMembers (seen_fields fields.now) members.items) }
{
    let mut members = Vec::with_capacity(alloc, order.len())?;
    let mut opener = b'{';
    for (name, field) in order.iter() {
        members.push(member(alloc, fields, opener, name, *field)?)?;
        opener = b',';
    }
    Ok(members)
}

/// The names of fields in order, each with its field's index.
fn field_order<'a>(alloc: Global, fields: &'a [Field]) -> Result<BTreeMap<&'a str, usize>, Memory>
    ensures order { IfOk result (λ order. IsOrder (map (λ f. f.name) (seen_fields fields.now)) (map seen_place order.entries)) }
    ensures named { IfOk result (λ order. AreNamed (seen_fields fields.now) (map seen_place order.entries)) }
{
    let mut order = BTreeMap::new(alloc);
    for i in 0..fields.len() {
        order.insert(fields[i].name.as_str(), i)?;
    }
    Ok(order)
}

/// The keys of entries in order, each with its entry's index.
pub(crate) fn entry_order<'a, D: Displayed>(
    alloc: Global,
    displayed: &'a D,
    object: D::Part,
    count: usize,
) -> Result<BTreeMap<&'a str, usize>, Memory>
    ensures order { (keys : List (List ℕ)) (tree : ℕ → Data) → EntriesAre (D.entry_shows displayed.now) object count keys tree
        → IfOk result (λ order. IsOrder keys (map seen_place order.entries)) }
    ensures have { (keys : List (List ℕ)) (tree : ℕ → Data) → EntriesAre (D.entry_shows displayed.now) object count keys tree
        → IfOk result (λ order. AreOrdered (D.entry_shows displayed.now) object (map seen_place order.entries) tree) }
{
    let mut order = BTreeMap::new(alloc);
    for index in 0..count {
        order.insert(displayed.key(object, index), index)?;
    }
    Ok(order)
}

/// The member of a name that is a field's.
fn member(
    alloc: Global,
    fields: &[Field],
    opener: u8,
    name: &str,
    field: usize,
) -> Result<Member, Memory>
    ensures node { IfOk result (λ m. m.node.0 ≡ field_id (seen_fields fields.now) m.field) }
    ensures field { IfOk result (λ m. m.field ≡ field) }
    ensures head { IfOk result (λ m. m.head.items ≡ opener ∷ head_text name.now) }
{
    let mut head = Text::new(alloc);
    head.append_byte(opener)?;
    head.append_key(name)?;
    Ok(Member {
        field,
        node: field_node(fields, field),
        head: head.into_inner(),
    })
}

/// The node of the field at an index.
fn field_node(fields: &[Field], index: usize) -> NodeId
    ensures { result.0 ≡ field_id (seen_fields fields.now) index }
{
    match fields.get(index) {
        Some(field) => field.node,
        None => NodeId(0),
    }
}
