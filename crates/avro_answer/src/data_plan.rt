//! How encoded data are read.

ghost use Rattle.std.specs.Option.{IfSome};
ghost use Rattle.avro_schema.specs.SeenSchema.{schema_nodes};

use crate::data_error::DataError;
use crate::data_found::{display_for, display_plain, pass_for, pass_plain};
use crate::data_put::{append_shown, as_data, put_for, put_plain, put_shown};
use crate::datum_texts::{behind, head, is_memory, tail};
use crate::form::Form;
use crate::putting::put_text;
use avro_binary::{ReadError, decode};
use avro_device::{Output, WriteOutput};
use avro_display::{DisplayTable, PutError, Text};
use avro_resolve::{Plan, ReadResolveError};
use avro_schema::{Datum, Limits, Memory, Schema};
use avro_show::Scratch;
use std::alloc::Global;
use std::marker::Model;
use std::mem::replace;

/// A writer's schema, the plan by which its data are read for a reader's, where there is one, and the displays of what is
/// read. Contracts see the schemas.
#[derive(Drop)]
pub struct DataPlan<'a> {
    writer: &'a Schema,
    plan: Option<Plan<'a>>,
    table: DisplayTable<'a>,
}

impl<'a> Model for DataPlan<'a> {
    ghost use Rattle.std.specs.Prelude.{◌≡◌, Option, option_map};
    ghost use Rattle.std.specs.Option.{IfSome};
    ghost use Rattle.std.specs.Coded.{codes};
    ghost use Rattle.avro_schema.specs.contracts.datum.Datum as datum;
    ghost use Rattle.avro_schema.specs.declared.schema.Schema.{Schema};
    ghost use Rattle.avro_schema.specs.SeenSchema.{schema_nodes};
    ghost use Rattle.avro_answer.specs.ReadAnswer.{nodes_for};

    ghost Value = { Schema × Option Schema };

    ghost coded = { Prim.hlevel (codes, datum.the_row.coded) };

    ghost view = { λ p. (p.writer.now, option_map (λ q. q.1) p.plan) };

    ghost invariant = { λ p. IfSome p.plan (λ q. q.0 ≡ p.writer.now)
        × (schema_nodes p.table ≡ nodes_for (schema_nodes p.writer.now) (option_map schema_nodes (option_map (λ q. q.1) p.plan))) };
}

impl<'a> DataPlan<'a> {
    ghost use Rattle.std.specs.Prelude.{◌≡◌, ◌≢◌, ◌⊎◌, ◌++◌, ℕ, List, Ok, IfOk, OnOk, OnErr, IsErrOf, option_map, option_copied};
    ghost use Rattle.std.specs.Option.{IfSome};
    ghost use Rattle.std.specs.Result.{IfErr};
    ghost use Rattle.avro_schema.specs.Node.{root_of};
    ghost use Rattle.avro_schema.specs.Seen.{value_of};
    ghost use Rattle.avro_schema.specs.SeenSchema.{schema_nodes};
    ghost use Rattle.avro_schema.specs.Value.{Value};
    ghost use Rattle.avro_device.specs.PutFront.{PutsFrontOf};
    ghost use Rattle.avro_display.specs.DisplayTree.{display_text};
    ghost use Rattle.avro_display.specs.Pieces.{PutsText};
    ghost use Rattle.avro_display.specs.declared.put_error.PutError.{PutError};
    ghost use Rattle.avro_show.specs.Spans.{StandsIn};
    ghost use Rattle.avro_answer.specs.DataPut.{DatumPut};
    ghost use Rattle.avro_answer.specs.DataRead.{fault_found, IsDatumTold};
    ghost use Rattle.avro_answer.specs.ReadAnswer.{datum, IsAllFound, nodes_for, read_as};
    ghost use Rattle.avro_answer.specs.inside.AtFront.{AppendsDatum, IsDisplayed};
    ghost use Rattle.avro_answer.specs.inside.DatumParts.{text_around};
    ghost use Rattle.avro_answer.specs.declared.data_error.DataError.{DataError};

    /// The plan of a writer's schema, and of a reader's where there is one.
    ///
    /// # Errors
    ///
    /// Memory ran out.
    pub fn new(
        alloc: Global,
        writer: &'a Schema,
        reader: Option<&'a Schema>,
    ) -> Result<DataPlan<'a>, Memory>
        ensures { IfOk result (λ p. p ≡ (writer.now, option_copied reader.entry)) }
    {
        let table = DisplayTable::new(alloc, reader.unwrap_or(writer))?;
        let plan = match reader {
            Some(reader) => Some(Plan::reached(alloc, writer, reader)?),
            None => None,
        };
        Ok(DataPlan {
            writer,
            plan,
            table,
        })
    }

    /// Reads the datum after a number of bytes, as what it is for the reader where there is one, and returns its text.
    ///
    /// # Errors
    ///
    /// The first fault of the bytes, and else the first fault of resolution; `OutOfMemory`.
    pub(crate) fn tell(
        &self,
        alloc: Global,
        bytes: &[u8],
        skip: usize,
        limits: &Limits,
        form: Form,
        scratch: &mut Scratch,
    ) -> Result<Vec<u8>, ReadResolveError>
        ensures read { IfOk result (λ text. IsDatumTold (schema_nodes self.now.0) (option_map schema_nodes self.now.1) limits.now form skip bytes.now text.items) }
        ensures refused { IfErr result (λ e. IfSome (fault_found e) (IsAllFound (schema_nodes self.now.0) (option_map schema_nodes self.now.1) limits.now skip bytes.now)) }
    {
        match behind(bytes, skip) {
            Ok(data) => {
                let mut text = Vec::new(alloc);
                self.append(&mut text, alloc, data, limits, form, scratch)?;
                Ok(text)
            }
            Err(error) => Err(error),
        }
    }

    /// Appends the text of the datum at the front of bytes.
    ///
    /// # Errors
    ///
    /// The first fault of the bytes, and else the first fault of resolution: nothing was appended. `OutOfMemory`.
    pub(crate) fn append(
        &self,
        text: &mut Vec<u8>,
        alloc: Global,
        bytes: &[u8],
        limits: &Limits,
        form: Form,
        scratch: &mut Scratch,
    ) -> Result<(), ReadResolveError>
        ensures read { OnOk result (AppendsDatum (schema_nodes self.now.0) (option_map schema_nodes self.now.1) limits.now form bytes.now text.old.items text.new.items) }
        ensures refused { IfErr result (λ e. IfSome (fault_found e) (IsAllFound (schema_nodes self.now.0) (option_map schema_nodes self.now.1) limits.now 0 bytes.now)) }
        ensures unchanged { IfErr result (λ e. IfSome (fault_found e) (λ _. text.new.items ≡ text.old.items)) }
    {
        match self.display(alloc, bytes, limits, &mut *scratch) {
            Ok(len) => append_shown(text, scratch, len, form),
            Err(error) => {
                if is_memory(&error) {
                    return self.append_long(text, alloc, bytes, limits, form);
                }
                Err(error)
            }
        }
    }

    /// The same of one that is put in pieces.
    fn append_long(
        &self,
        text: &mut Vec<u8>,
        alloc: Global,
        bytes: &[u8],
        limits: &Limits,
        form: Form,
    ) -> Result<(), ReadResolveError>
        ensures read { OnOk result (AppendsDatum (schema_nodes self.now.0) (option_map schema_nodes self.now.1) limits.now form bytes.now text.old.items text.new.items) }
        ensures refused { IfErr result (λ e. IfSome (fault_found e) (IsAllFound (schema_nodes self.now.0) (option_map schema_nodes self.now.1) limits.now 0 bytes.now)) }
        ensures unchanged { IfErr result (λ e. IfSome (fault_found e) (λ _. text.new.items ≡ text.old.items)) }
    {
        let mut out = WriteOutput::new(replace(text, Vec::new(alloc)));
        let put = self.put_long(&mut out, alloc, bytes, limits, form);
        *text = out.into_inner();
        match put {
            Ok(()) => Ok(()),
            Err(DataError::Refused(error)) => Err(error),
            Err(DataError::Put(_)) => Err(ReadResolveError::Read(ReadError::OutOfMemory)),
        }
    }

    /// Puts the text of the datum at the front of bytes: at once, or in pieces if it is long, where nothing of it is kept. The scratch is
    /// kept from datum to datum.
    ///
    /// # Errors
    ///
    /// `Refused`: the first fault of the bytes, and else the first fault of resolution, or memory ran out; nothing was put. `Put`: the
    /// output failed, or took none of the bytes, or memory ran out; a prefix of the text was put.
    pub fn put<O: Output>(
        &self,
        out: &mut O,
        alloc: Global,
        bytes: &[u8],
        limits: &Limits,
        form: Form,
        scratch: &mut Scratch,
    ) -> Result<(), DataError>
        ensures { DatumPut O.keeps O.failures O.stuck (schema_nodes self.now.0) (option_map schema_nodes self.now.1) limits.now form 0 bytes.now out.old out.new result }
    {
        match self.display(alloc, bytes, limits, &mut *scratch) {
            Ok(len) => as_data(put_shown(out, alloc, scratch, len, form)),
            Err(error) => {
                if is_memory(&error) {
                    return self.put_long(out, alloc, bytes, limits, form);
                }
                Err(DataError::Refused(error))
            }
        }
    }

    /// Makes the display of the datum at the front of bytes, and returns the length of its encoding.
    fn display(
        &self,
        alloc: Global,
        bytes: &[u8],
        limits: &Limits,
        scratch: &mut Scratch,
    ) -> Result<usize, ReadResolveError>
        ensures shown { IfOk result (λ len. (display : List ℕ) × IsDisplayed (schema_nodes self.now.0) (option_map schema_nodes self.now.1) limits.now bytes.now len display
            × StandsIn scratch.new.text scratch.new.shown display) }
        ensures refused { IfErr result (λ e. IfSome (fault_found e) (IsAllFound (schema_nodes self.now.0) (option_map schema_nodes self.now.1) limits.now 0 bytes.now)) }
    {
        match &self.plan {
            Some(plan) => display_for(alloc, plan, &self.table, bytes, limits, scratch),
            None => display_plain(alloc, &self.table, bytes, limits, scratch),
        }
    }

    /// Passes the datum at the front of bytes, and returns the length of its encoding.
    fn pass(&self, alloc: Global, bytes: &[u8], limits: &Limits) -> Result<usize, ReadResolveError>
        ensures found { IfOk result (λ len. (u : Value) × IsAllFound (schema_nodes self.now.0) (option_map schema_nodes self.now.1) limits.now 0 bytes.now (datum u len)) }
        ensures refused { IfErr result (λ e. IfSome (fault_found e) (IsAllFound (schema_nodes self.now.0) (option_map schema_nodes self.now.1) limits.now 0 bytes.now)) }
    {
        match &self.plan {
            Some(plan) => pass_for(alloc, plan, bytes, limits),
            None => pass_plain(alloc, self.writer, bytes, limits),
        }
    }

    /// Puts the text of the datum at the front of bytes in pieces. The datum is passed first, so that its faults are found before anything
    /// is put.
    fn put_long<O: Output>(
        &self,
        out: &mut O,
        alloc: Global,
        bytes: &[u8],
        limits: &Limits,
        form: Form,
    ) -> Result<(), DataError>
        ensures { DatumPut O.keeps O.failures O.stuck (schema_nodes self.now.0) (option_map schema_nodes self.now.1) limits.now form 0 bytes.now out.old out.new result }
    {
        match self.pass(alloc, bytes, limits) {
            Ok(len) => as_data(self.put_found(out, alloc, bytes, limits, len, form)),
            Err(error) => Err(DataError::Refused(error)),
        }
    }

    /// Puts the text of a datum that is at the front of bytes, by the length of its encoding.
    fn put_found<O: Output>(
        &self,
        out: &mut O,
        alloc: Global,
        bytes: &[u8],
        limits: &Limits,
        len: usize,
        form: Form,
    ) -> Result<(), PutError>
        ensures put { (u : Value) → IsAllFound (schema_nodes self.now.0) (option_map schema_nodes self.now.1) limits.now 0 bytes.now (datum u len)
            → OnOk result (O.keeps out.old (text_around form (display_text (nodes_for (schema_nodes self.now.0) (option_map schema_nodes self.now.1)) (root_of (nodes_for (schema_nodes self.now.0) (option_map schema_nodes self.now.1))) u) len) out.new) }
        ensures front { (u : Value) → IsAllFound (schema_nodes self.now.0) (option_map schema_nodes self.now.1) limits.now 0 bytes.now (datum u len)
            → OnErr result (PutsFrontOf O.keeps out.old out.new (text_around form (display_text (nodes_for (schema_nodes self.now.0) (option_map schema_nodes self.now.1)) (root_of (nodes_for (schema_nodes self.now.0) (option_map schema_nodes self.now.1))) u) len)) }
        ensures works { OnOk result (O.failures out.new ≡ O.failures out.old) }
        ensures fails { IsErrOf result PutError.CannotWrite → (O.failures out.new ≢ O.failures out.old) ⊎ O.stuck out.new }
        ensures memory { IsErrOf result PutError.OutOfMemory → O.failures out.new ≡ O.failures out.old }
    {
        let datum = self.datum_of(alloc, bytes, limits)?;
        self.put_pieces(out, alloc, &datum, len, form)
    }

    /// The writer's datum at the front of bytes.
    fn datum_of(&self, alloc: Global, bytes: &[u8], limits: &Limits) -> Result<Datum, Memory>
        ensures { (u : Value) (len : ℕ) → IsAllFound (schema_nodes self.now.0) (option_map schema_nodes self.now.1) limits.now 0 bytes.now (datum u len)
            → IfOk result (λ d. read_as (schema_nodes self.now.0) (option_map schema_nodes self.now.1) (value_of d) ≡ Ok u) }
    {
        match decode(alloc, self.writer, self.writer.root(), bytes, limits) {
            Ok(read) => Ok(read.0),
            Err(_) => Err(Memory),
        }
    }

    /// Puts the text of what a writer's datum is for the reader, where there is one, in pieces.
    fn put_pieces<O: Output>(
        &self,
        out: &mut O,
        alloc: Global,
        datum: &Datum,
        len: usize,
        form: Form,
    ) -> Result<(), PutError>
        ensures put { (u : Value) → read_as (schema_nodes self.now.0) (option_map schema_nodes self.now.1) (value_of datum.now) ≡ Ok u
            → OnOk result (O.keeps out.old (text_around form (display_text (nodes_for (schema_nodes self.now.0) (option_map schema_nodes self.now.1)) (root_of (nodes_for (schema_nodes self.now.0) (option_map schema_nodes self.now.1))) u) len) out.new) }
        ensures front { (u : Value) → read_as (schema_nodes self.now.0) (option_map schema_nodes self.now.1) (value_of datum.now) ≡ Ok u
            → OnErr result (PutsFrontOf O.keeps out.old out.new (text_around form (display_text (nodes_for (schema_nodes self.now.0) (option_map schema_nodes self.now.1)) (root_of (nodes_for (schema_nodes self.now.0) (option_map schema_nodes self.now.1))) u) len)) }
        ensures works { OnOk result (O.failures out.new ≡ O.failures out.old) }
        ensures fails { IsErrOf result PutError.CannotWrite → (O.failures out.new ≢ O.failures out.old) ⊎ O.stuck out.new }
        ensures memory { IsErrOf result PutError.OutOfMemory → O.failures out.new ≡ O.failures out.old }
    {
        let head = head(alloc, len, form)?;
        let mut text = Text::holding(head);
        self.put_datum(&mut *out, &mut text, datum)?;
        text.append(tail(form))?;
        put_text(out, text.as_slice())
    }

    /// Appends the display of what a writer's datum is for the reader, where there is one, to a text that is put in pieces.
    fn put_datum<O: Output>(
        &self,
        out: &mut O,
        text: &mut Text,
        datum: &Datum,
    ) -> Result<(), PutError>
        ensures put { (u : Value) → read_as (schema_nodes self.now.0) (option_map schema_nodes self.now.1) (value_of datum.now) ≡ Ok u
            → OnOk result (PutsText O.keeps out.old text.old (display_text (nodes_for (schema_nodes self.now.0) (option_map schema_nodes self.now.1))
            (root_of (nodes_for (schema_nodes self.now.0) (option_map schema_nodes self.now.1))) u) out.new text.new) }
        ensures front { (u : Value) → read_as (schema_nodes self.now.0) (option_map schema_nodes self.now.1) (value_of datum.now) ≡ Ok u
            → OnErr result (PutsFrontOf O.keeps out.old out.new (text.old ++ display_text (nodes_for (schema_nodes self.now.0) (option_map schema_nodes self.now.1))
            (root_of (nodes_for (schema_nodes self.now.0) (option_map schema_nodes self.now.1))) u)) }
        ensures works { OnOk result (O.failures out.new ≡ O.failures out.old) }
        ensures fails { IsErrOf result PutError.CannotWrite → (O.failures out.new ≢ O.failures out.old) ⊎ O.stuck out.new }
        ensures memory { IsErrOf result PutError.OutOfMemory → O.failures out.new ≡ O.failures out.old }
    {
        match &self.plan {
            Some(plan) => put_for(out, text, plan, &self.table, datum),
            None => put_plain(out, text, &self.table, datum),
        }
    }
}
