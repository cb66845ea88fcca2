//! Putting what is displayed, one part after another.

ghost use Rattle.std.specs.Prelude.{◌≡◌, ◌≢◌, ◌⊎◌, ◌++◌, ◌∷◌, ℕ, [], List, OnOk, OnErr, IsErrOf, map};
ghost use Rattle.std.specs.List.{AllByRecursion};
ghost use Rattle.serde_json.specs.Data.{Data, Items, array, object, no_members};
ghost use Rattle.serde_json.specs.Written.{compact_text};
ghost use Rattle.avro_device.specs.PutFront.{PutsFrontOf};
ghost use Rattle.avro_display.specs.Displayed.{AreOrdered, EntriesAre, IsShown, ItemsAre, object_text};
ghost use Rattle.avro_display.specs.Order.{in_order, put_each};
ghost use Rattle.avro_display.specs.Pieces.{PutsText};
ghost use Rattle.avro_display.specs.inside.Tables.{seen_place};
ghost use Rattle.avro_display.specs.declared.put_error.PutError.{PutError};

use crate::displayed::{Displayed, Opened};
use crate::member::Member;
use crate::members::entry_order;
use crate::pieces::{
    put_bool, put_byte, put_characters, put_null, put_number, put_plain, put_quoted,
};
use crate::put_error::PutError;
use crate::text::Text;
use avro_device::Output;
use std::alloc::AllocError;
use std::collections::BTreeMap;

/// Appends the display of a part to a text, and puts the text in pieces if it is long: what the text held, and then the
/// display, is what was put, and then what the text holds. A part that is not there is null.
///
/// # Errors
///
/// The output failed, or took none of the bytes; memory ran out. A prefix of what the text held and then the display was put.
#[cycle(putting)]
pub fn put_displayed<O: Output, D: Displayed>(
    out: &mut O,
    text: &mut Text,
    displayed: &D,
    part: Option<D::Part>,
) -> Result<(), PutError>
    ensures put { (d : Data) → IsShown (D.shows displayed.now) part d → OnOk result (PutsText O.keeps out.old text.old (compact_text d) out.new text.new) }
    ensures front { (d : Data) → IsShown (D.shows displayed.now) part d → OnErr result (PutsFrontOf O.keeps out.old out.new (text.old ++ compact_text d)) }
    ensures works { OnOk result (O.failures out.new ≡ O.failures out.old) }
    ensures fails { IsErrOf result PutError.CannotWrite → (O.failures out.new ≢ O.failures out.old) ⊎ O.stuck out.new }
    ensures memory { IsErrOf result PutError.OutOfMemory → O.failures out.new ≡ O.failures out.old }
{
    let Some(part) = part else {
        return put_null(out, text);
    };
    let opened = displayed.open(part);
    match opened {
        Opened::Null => put_null(out, text),
        Opened::Bool(value) => put_bool(out, text, value),
        Opened::Number(value) => put_number(out, text, value),
        Opened::Bytes(bytes) => put_characters(out, text, bytes),
        Opened::Text(string) => put_quoted(out, text, string),
        Opened::Branch(opening, value) => put_branch(out, text, displayed, opening, value),
        Opened::Items(items, count) => put_items(out, text, displayed, items, count),
        Opened::Entries(entries, count) => put_entries(out, text, displayed, entries, count),
        Opened::Members(owner, members) => { put_members(out, text, displayed, owner, members) }
    }
}

/// Puts the display of the value of a union's branch, behind the text that opens it.
#[cycle(putting)]
fn put_branch<O: Output, D: Displayed>(
    out: &mut O,
    text: &mut Text,
    displayed: &D,
    opening: &[u8],
    value: D::Part,
) -> Result<(), PutError>
    ensures put { (d : Data) → D.shows displayed.now value d
        → OnOk result (PutsText O.keeps out.old text.old (opening.now ++ (compact_text d ++ 125 ∷ [])) out.new text.new) }
    ensures front { (d : Data) → D.shows displayed.now value d
        → OnErr result (PutsFrontOf O.keeps out.old out.new (text.old ++ (opening.now ++ (compact_text d ++ 125 ∷ [])))) }
    ensures works { OnOk result (O.failures out.new ≡ O.failures out.old) }
    ensures fails { IsErrOf result PutError.CannotWrite → (O.failures out.new ≢ O.failures out.old) ⊎ O.stuck out.new }
    ensures memory { IsErrOf result PutError.OutOfMemory → O.failures out.new ≡ O.failures out.old }
{
    text.append(opening)?;
    put_displayed(&mut *out, &mut *text, displayed, Some(value))?;
    put_byte(out, text, b'}')
}

/// Puts the display of an array of so many items.
#[cycle(putting)]
fn put_items<O: Output, D: Displayed>(
    out: &mut O,
    text: &mut Text,
    displayed: &D,
    items: D::Part,
    count: usize,
) -> Result<(), PutError>
    ensures put { (ds : Items) → ItemsAre (D.item_shows displayed.now) items count ds
        → OnOk result (PutsText O.keeps out.old text.old (compact_text (array ds)) out.new text.new) }
    ensures front { (ds : Items) → ItemsAre (D.item_shows displayed.now) items count ds
        → OnErr result (PutsFrontOf O.keeps out.old out.new (text.old ++ compact_text (array ds))) }
    ensures works { OnOk result (O.failures out.new ≡ O.failures out.old) }
    ensures fails { IsErrOf result PutError.CannotWrite → (O.failures out.new ≢ O.failures out.old) ⊎ O.stuck out.new }
    ensures memory { IsErrOf result PutError.OutOfMemory → O.failures out.new ≡ O.failures out.old }
{
    text.append_byte(b'[')?;
    let mut later = false;
    for index in 0..count {
        text.append_comma(later)?;
        let item = displayed.item(items, index);
        put_displayed(&mut *out, &mut *text, displayed, item)?;
        later = true;
    }
    put_byte(out, text, b']')
}

/// Puts the display of an object of so many entries.
#[cycle(putting)]
fn put_entries<O: Output, D: Displayed>(
    out: &mut O,
    text: &mut Text,
    displayed: &D,
    entries: D::Part,
    count: usize,
) -> Result<(), PutError>
    ensures put { (keys : List (List ℕ)) (tree : ℕ → Data) → EntriesAre (D.entry_shows displayed.now) entries count keys tree
        → OnOk result (PutsText O.keeps out.old text.old (compact_text (object (put_each tree 0 keys no_members))) out.new text.new) }
    ensures front { (keys : List (List ℕ)) (tree : ℕ → Data) → EntriesAre (D.entry_shows displayed.now) entries count keys tree
        → OnErr result (PutsFrontOf O.keeps out.old out.new (text.old ++ compact_text (object (put_each tree 0 keys no_members)))) }
    ensures works { OnOk result (O.failures out.new ≡ O.failures out.old) }
    ensures fails { IsErrOf result PutError.CannotWrite → (O.failures out.new ≢ O.failures out.old) ⊎ O.stuck out.new }
    ensures memory { IsErrOf result PutError.OutOfMemory → O.failures out.new ≡ O.failures out.old }
{
    let order = entry_order(text.allocator(), displayed, entries, count)?;
    put_ordered(out, text, displayed, entries, &order)
}

/// Puts the display of entries in the order of their keys.
#[cycle(putting)]
fn put_ordered<O: Output, D: Displayed>(
    out: &mut O,
    text: &mut Text,
    displayed: &D,
    entries: D::Part,
    order: &BTreeMap<&str, usize>,
) -> Result<(), PutError>
    ensures put { (tree : ℕ → Data) → AreOrdered (D.entry_shows displayed.now) entries (map seen_place order.now.entries) tree
        → OnOk result (PutsText O.keeps out.old text.old (compact_text (object (in_order tree (map seen_place order.now.entries)))) out.new text.new) }
    ensures front { (tree : ℕ → Data) → AreOrdered (D.entry_shows displayed.now) entries (map seen_place order.now.entries) tree
        → OnErr result (PutsFrontOf O.keeps out.old out.new (text.old ++ compact_text (object (in_order tree (map seen_place order.now.entries))))) }
    ensures works { OnOk result (O.failures out.new ≡ O.failures out.old) }
    ensures fails { IsErrOf result PutError.CannotWrite → (O.failures out.new ≢ O.failures out.old) ⊎ O.stuck out.new }
    ensures memory { IsErrOf result PutError.OutOfMemory → O.failures out.new ≡ O.failures out.old }
{
    text.append_byte(b'{')?;
    let mut later = false;
    for (key, index) in order.iter() {
        text.append_entry_key(later, key)?;
        let value = displayed.entry(entries, *index);
        put_displayed(&mut *out, &mut *text, displayed, value)?;
        later = true;
    }
    put_byte(out, text, b'}')
}

/// Puts the display of an object of members.
#[cycle(putting)]
fn put_members<O: Output, D: Displayed>(
    out: &mut O,
    text: &mut Text,
    displayed: &D,
    owner: D::Part,
    members: &[Member],
) -> Result<(), PutError>
    ensures put { (tree : ℕ → Data) → AllByRecursion (λ m. D.member_shows displayed.now owner m (tree m.field)) members.now
        → OnOk result (PutsText O.keeps out.old text.old (object_text tree members.now) out.new text.new) }
    ensures front { (tree : ℕ → Data) → AllByRecursion (λ m. D.member_shows displayed.now owner m (tree m.field)) members.now
        → OnErr result (PutsFrontOf O.keeps out.old out.new (text.old ++ object_text tree members.now)) }
    ensures works { OnOk result (O.failures out.new ≡ O.failures out.old) }
    ensures fails { IsErrOf result PutError.CannotWrite → (O.failures out.new ≢ O.failures out.old) ⊎ O.stuck out.new }
    ensures memory { IsErrOf result PutError.OutOfMemory → O.failures out.new ≡ O.failures out.old }
{
    if members.is_empty() {
        return put_plain(out, text, b"{}");
    }
    for member in members {
        text.append(member.head())?;
        let value = displayed.member(owner, member);
        put_displayed(&mut *out, &mut *text, displayed, value)?;
    }
    put_byte(out, text, b'}')
}
