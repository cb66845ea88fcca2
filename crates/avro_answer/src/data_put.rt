//! Putting the text of a datum.

ghost use Rattle.std.specs.Prelude.{◌≡◌, ◌≢◌, ◌⊎◌, ◌++◌, ℕ, List, Ok, OnOk, OnErr, IsErrOf};
ghost use Rattle.std.specs.Result.{IfErr};
ghost use Rattle.avro_schema.specs.Node.{root_of};
ghost use Rattle.avro_schema.specs.Seen.{value_of};
ghost use Rattle.avro_schema.specs.SeenSchema.{schema_nodes};
ghost use Rattle.avro_schema.specs.Value.{Value};
ghost use Rattle.avro_cursor.specs.declared.error.ReadError.{ReadError};
ghost use Rattle.avro_resolve.specs.declared.error.ReadResolveError.TheVariants.{Read};
ghost use Rattle.avro_compare.specs.Resolve.{resolve_root};
ghost use Rattle.avro_device.specs.PutFront.{PutsFrontOf};
ghost use Rattle.avro_display.specs.DisplayTree.{display_text};
ghost use Rattle.avro_display.specs.Pieces.{PutsText};
ghost use Rattle.avro_display.specs.declared.put_error.PutError.{PutError};
ghost use Rattle.avro_show.specs.Spans.{StandsIn};
ghost use Rattle.avro_answer.specs.inside.AtFront.{of_put};
ghost use Rattle.avro_answer.specs.inside.DatumParts.{text_around};

use crate::data_error::DataError;
use crate::datum_texts::append_text;
use crate::form::Form;
use crate::putting::put_text;
use avro_binary::ReadError;
use avro_device::Output;
use avro_display::{DisplayTable, Plain, PutError, Text, put_displayed};
use avro_resolve::{Plan, ReadResolveError};
use avro_schema::Datum;
use avro_show::{Resolved, Scratch, put_resolved};
use std::alloc::Global;

/// Appends the text of a datum whose display a scratch shows. It fails only where memory runs out.
pub(crate) fn append_shown(
    text: &mut Vec<u8>,
    scratch: &Scratch,
    len: usize,
    form: Form,
) -> Result<(), ReadResolveError>
    ensures appended { (display : List ℕ) → StandsIn scratch.now.text scratch.now.shown display → OnOk result (text.new.items ≡ text.old.items ++ text_around form display len) }
    ensures memory { IfErr result (λ e. e ≡ Read ReadError.OutOfMemory) }
{
    match append_text(text, scratch.shown(), len, form) {
        Ok(()) => Ok(()),
        Err(_) => Err(ReadResolveError::Read(ReadError::OutOfMemory)),
    }
}

/// Puts the text of a datum whose display a scratch shows.
pub(crate) fn put_shown<O: Output>(
    out: &mut O,
    alloc: Global,
    scratch: &mut Scratch,
    len: usize,
    form: Form,
) -> Result<(), PutError>
    ensures put { (display : List ℕ) → StandsIn scratch.old.text scratch.old.shown display → OnOk result (O.keeps out.old (text_around form display len) out.new) }
    ensures front { (display : List ℕ) → StandsIn scratch.old.text scratch.old.shown display → OnErr result (PutsFrontOf O.keeps out.old out.new (text_around form display len)) }
    ensures works { OnOk result (O.failures out.new ≡ O.failures out.old) }
    ensures fails { IsErrOf result PutError.CannotWrite → (O.failures out.new ≢ O.failures out.old) ⊎ O.stuck out.new }
    ensures memory { IsErrOf result PutError.OutOfMemory → O.failures out.new ≡ O.failures out.old }
{
    let mut text = scratch.take_line(alloc);
    append_text(&mut text, scratch.shown(), len, form)?;
    let put = put_text(out, &text);
    scratch.keep_line(text);
    put
}

/// Appends the display of what a writer's datum is for a plan's reader, whose schema the table's is, to a text that is put in pieces.
pub(crate) fn put_for<O: Output>(
    out: &mut O,
    text: &mut Text,
    plan: &Plan<'_>,
    table: &DisplayTable<'_>,
    datum: &Datum,
) -> Result<(), PutError>
    ensures put { (u : Value) → resolve_root (schema_nodes plan.now.0) (schema_nodes plan.now.1) (value_of datum.now) ≡ Ok u
        → OnOk result (PutsText O.keeps out.old text.old (display_text (schema_nodes table.now) (root_of (schema_nodes table.now)) u) out.new text.new) }
    ensures front { (u : Value) → resolve_root (schema_nodes plan.now.0) (schema_nodes plan.now.1) (value_of datum.now) ≡ Ok u
        → OnErr result (PutsFrontOf O.keeps out.old out.new (text.old ++ display_text (schema_nodes table.now) (root_of (schema_nodes table.now)) u)) }
    ensures works { OnOk result (O.failures out.new ≡ O.failures out.old) }
    ensures fails { IsErrOf result PutError.CannotWrite → (O.failures out.new ≢ O.failures out.old) ⊎ O.stuck out.new }
    ensures memory { IsErrOf result PutError.OutOfMemory → O.failures out.new ≡ O.failures out.old }
{
    let plan = plan.by_ref();
    put_resolved(out, text, &Resolved::new(&plan, table), datum)
}

/// The same of a datum of a table's schema as it is.
pub(crate) fn put_plain<O: Output>(
    out: &mut O,
    text: &mut Text,
    table: &DisplayTable<'_>,
    datum: &Datum,
) -> Result<(), PutError>
    ensures put { OnOk result (PutsText O.keeps out.old text.old
        (display_text (schema_nodes table.now) (root_of (schema_nodes table.now)) (value_of datum.now)) out.new text.new) }
    ensures front { OnErr result (PutsFrontOf O.keeps out.old out.new
        (text.old ++ display_text (schema_nodes table.now) (root_of (schema_nodes table.now)) (value_of datum.now))) }
    ensures works { OnOk result (O.failures out.new ≡ O.failures out.old) }
    ensures fails { IsErrOf result PutError.CannotWrite → (O.failures out.new ≢ O.failures out.old) ⊎ O.stuck out.new }
    ensures memory { IsErrOf result PutError.OutOfMemory → O.failures out.new ≡ O.failures out.old }
{
    let root = table.schema().root();
    put_displayed(out, text, &Plain::new(table), Some((Some(root), datum)))
}

/// A result of putting, as one of data.
pub(crate) fn as_data(put: Result<(), PutError>) -> Result<(), DataError>
    ensures { result ≡ of_put put }
{
    match put {
        Ok(()) => Ok(()),
        Err(error) => Err(DataError::Put(error)),
    }
}
