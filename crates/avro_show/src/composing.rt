//! The display of a whole from those of its parts.

ghost use Rattle.std.specs.Prelude.{◌≡◌, ◌++◌, List, ℕ, true, OnOk};
ghost use Rattle.std.specs.List.{AllByRecursion};
ghost use Rattle.serde_json.specs.Data.{Data, Items, Members, array, object};
ghost use Rattle.serde_json.specs.Written.{compact_text};
ghost use Rattle.avro_display.specs.Displayed.{object_text};
ghost use Rattle.avro_schema.specs.Fits.{fits};
ghost use Rattle.avro_schema.specs.Node.{Node as SeenNode};
ghost use Rattle.avro_schema.specs.Seen.{node_of};
ghost use Rattle.avro_schema.specs.Value.{Value};
ghost use Rattle.avro_cursor.specs.Encoding.{Spells};
ghost use Rattle.avro_display.specs.DisplayTree.{display_text};
ghost use Rattle.avro_binary.specs.Outputs.{Grows};
ghost use Rattle.avro_show.specs.Spans.{AreItemsAt, AreMembersAt, IsSpanAt, StandsIn};

use crate::leaf::append_leaf;
use crate::spans::Span;
use avro_binary::leaf_of;
use avro_display::{Member, Text};
use avro_schema::Node;
use std::alloc::AllocError;
use std::collections::BTreeMap;

/// The bytes of a text where a span says.
#[inline(always)]
pub(crate) fn bytes_at(text: &[u8], span: Span) -> &[u8]
    ensures { (bytes : List ℕ) → StandsIn text.now span bytes → result.now ≡ bytes }
{
    if span.start > span.end || span.end > text.len() {
        return &[];
    }
    let (_, rest) = text.split_at(span.start);
    let (bytes, _) = rest.split_at(span.end - span.start);
    bytes
}

/// Appends the display of an array, whose items stand in a text.
pub(crate) fn append_items(whole: &mut Text, text: &[u8], items: &[Span]) -> Result<(), AllocError>
    ensures { (ds : Items) → AreItemsAt text.now items.now ds → OnOk result (whole.new ≡ whole.old ++ compact_text (array ds)) }
{
    whole.append_byte(b'[')?;
    let mut later = false;
    for item in items {
        whole.append_comma(later)?;
        whole.append(bytes_at(text, *item))?;
        later = true;
    }
    whole.append_byte(b']')
}

/// Appends the display of an object, whose values stand in a text.
pub(crate) fn append_entries(
    whole: &mut Text,
    text: &[u8],
    entries: &BTreeMap<String, Span>,
) -> Result<(), AllocError>
    ensures { (ms : Members) → AreMembersAt text.now entries.now.entries ms → OnOk result (whole.new ≡ whole.old ++ compact_text (object ms)) }
{
    whole.append_byte(b'{')?;
    let mut later = false;
    for (key, value) in entries.iter() {
        whole.append_entry_key(later, key.as_str())?;
        whole.append(bytes_at(text, *value))?;
        later = true;
    }
    whole.append_byte(b'}')
}

/// Appends the display of an object of members, whose values stand in a text.
pub(crate) fn append_members(
    whole: &mut Text,
    text: &[u8],
    members: &[Member],
    values: &[Span],
) -> Result<(), AllocError>
    ensures { (tree : ℕ → Data) → AllByRecursion (λ m. IsSpanAt text.now values.now m.field (compact_text (tree m.field))) members.now
        → OnOk result (whole.new ≡ whole.old ++ object_text tree members.now) }
{
    if members.is_empty() {
        return whole.append(b"{}");
    }
    for member in members {
        whole.append(member.head())?;
        match values.get(member.field) {
            Some(value) => whole.append(bytes_at(text, *value))?,
            None => return Err(AllocError),
        }
    }
    whole.append_byte(b'}')
}

/// Appends the display of the datum without parts of a node that is encoded as these bytes.
///
/// # Errors
///
/// The bytes are no such encoding, or the node has parts; memory ran out.
pub(crate) fn append_encoded(text: &mut Text, node: &Node, bytes: &[u8]) -> Result<(), AllocError>
    ensures shown { (nodes : List SeenNode) (v : Value) → fits nodes (node_of node.now) v ≡ true → Spells v bytes.now
        → OnOk result (text.new ≡ text.old ++ display_text nodes (node_of node.now) v) }
    ensures kept { OnOk result (Grows text.old text.new) }
{
    match leaf_of(node, bytes) {
        Some(leaf) => append_leaf(text, node, leaf),
        None => Err(AllocError),
    }
}
