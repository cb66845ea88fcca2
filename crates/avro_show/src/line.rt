//! The display of a datum, read from its encoding.

ghost use Rattle.std.specs.Prelude.{◌≡◌, ◌≤◌, ◌++◌, [], ◌∷◌, List, Ok, Err, ℕ, length, take, true, IfOk, OnErr, OnOk};
ghost use Rattle.std.specs.Result.{IfErr};
ghost use Rattle.std.specs.Option.{IfSome};
ghost use Rattle.avro_schema.specs.Fits.{is_within};
ghost use Rattle.avro_schema.specs.Node.{root_of};
ghost use Rattle.avro_schema.specs.SeenSchema.{schema_nodes};
ghost use Rattle.avro_schema.specs.Value.{Value};
ghost use Rattle.avro_cursor.specs.Breaks.{Breaks};
ghost use Rattle.avro_cursor.specs.Encoding.{Encodes};
ghost use Rattle.avro_cursor.specs.Fault.{ReadFault};
ghost use Rattle.avro_cursor.specs.Seen.{Reports, UnlessOutOfMemory, read_fault};
ghost use Rattle.avro_compare.specs.Seen.{fault_of};
ghost use Rattle.avro_resolve.specs.Reading.{ReadsAs};
ghost use Rattle.avro_resolve.specs.Seen.{IfUnread, IfUnresolved};
ghost use Rattle.avro_display.specs.DisplayTree.{display_text};
ghost use Rattle.avro_show.specs.Spans.{StandsIn};

use crate::displaying::Displaying;
use crate::scratch::Scratch;
use avro_binary::{Place, ReadError, read_made};
use avro_display::{DisplayTable, Text};
use avro_resolve::{PlanRef, ReadResolveError};
use avro_schema::Limits;
use std::alloc::{AllocError, Global};

/// Reads a datum of the root of the table's schema from the front of bytes, makes its display, which the scratch shows, and returns the
/// length of its encoding. The scratch is kept from datum to datum.
///
/// # Errors
///
/// Those of [`avro_binary::decode`]; `OutOfMemory` also if the display and those of its parts have more than 64 KiB. No clause says that a
/// short display is made: another way is then only slower.
pub fn display_read(
    alloc: Global,
    table: &DisplayTable<'_>,
    bytes: &[u8],
    limits: &Limits,
    scratch: &mut Scratch,
) -> Result<usize, ReadError>
    ensures found { IfOk result (λ len. (v : Value) × (len ≤ length bytes.now) × Encodes (schema_nodes table.now) (root_of (schema_nodes table.now)) v (take len bytes.now)
        × (is_within limits.now v ≡ true) × StandsIn scratch.new.text scratch.new.shown (display_text (schema_nodes table.now) (root_of (schema_nodes table.now)) v)) }
    ensures begins { (v : Value) (front rest : List ℕ) → Encodes (schema_nodes table.now) (root_of (schema_nodes table.now)) v front → is_within limits.now v ≡ true
        → bytes.now ≡ front ++ rest → UnlessOutOfMemory result (result ≡ Ok (length front)) }
    ensures breaks { (fault : ReadFault) → Breaks (schema_nodes table.now) limits.now (root_of (schema_nodes table.now)) bytes.now fault → UnlessOutOfMemory result (Reports result fault) }
    ensures refused { IfErr result (λ e. IfSome (read_fault e) (Breaks (schema_nodes table.now) limits.now (root_of (schema_nodes table.now)) bytes.now)) }
{
    scratch.text.clear();
    let schema = table.schema();
    let root = schema.root();
    let mut displaying = Displaying {
        table,
        scratch: &mut *scratch,
    };
    let place = Place::of(root);
    let (shown, len) = read_made(alloc, schema, root, bytes, limits, &mut displaying, place)?;
    scratch.shown = shown;
    Ok(len)
}

/// The same of a writer's datum, as what it is for the reader of a plan, whose schema the table's is.
///
/// # Errors
///
/// Those of [`PlanRef::read`]; `OutOfMemory` as well if the display and those of its parts have more than 64 KiB.
pub fn display_resolved(
    alloc: Global,
    plan: &PlanRef<'_>,
    table: &DisplayTable<'_>,
    bytes: &[u8],
    limits: &Limits,
    scratch: &mut Scratch,
) -> Result<usize, ReadResolveError>
    ensures found { schema_nodes table.now ≡ schema_nodes plan.now.1 → IfOk result (λ len. (u : Value) × ReadsAs (schema_nodes plan.now.0) (schema_nodes plan.now.1) limits.now bytes.now len (Ok u)
        × StandsIn scratch.new.text scratch.new.shown (display_text (schema_nodes table.now) (root_of (schema_nodes table.now)) u)) }
    ensures faulty { IfUnresolved result (λ f. (len : ℕ) × ReadsAs (schema_nodes plan.now.0) (schema_nodes plan.now.1) limits.now bytes.now len (Err (fault_of f))) }
    ensures refused { IfUnread result (λ e. IfSome (read_fault e) (Breaks (schema_nodes plan.now.0) limits.now (root_of (schema_nodes plan.now.0)) bytes.now)) }
{
    scratch.text.clear();
    let mut displaying = Displaying {
        table,
        scratch: &mut *scratch,
    };
    let (shown, len) = plan.put(alloc, bytes, limits, &mut displaying)?;
    scratch.shown = shown;
    Ok(len)
}

/// Appends the line of the display that a scratch shows, which is the display and a line feed, to lines.
///
/// # Errors
///
/// Memory ran out; the lines are as they were.
pub fn append_line(scratch: &Scratch, lines: &mut Text) -> Result<(), AllocError>
    ensures appended { (bytes : List ℕ) → StandsIn scratch.now.text scratch.now.shown bytes → OnOk result (lines.new ≡ lines.old ++ (bytes ++ 10 ∷ [])) }
    ensures unchanged { OnErr result (lines.new ≡ lines.old) }
{
    let held = lines.len();
    lines.append(scratch.shown())?;
    let ended = lines.append_byte(b'\n');
    if ended.is_err() {
        lines.truncate(held);
    }
    ended
}
