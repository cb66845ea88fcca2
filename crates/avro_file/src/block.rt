//! A block, and reading its data.

ghost use Rattle.std.specs.Prelude.{◌≡◌, None, Some, Ok, IfOk, OnOk, List, true, option_map};
ghost use Rattle.std.specs.Option.{IfSome, option_copied};
ghost use Rattle.std.specs.Result.{IfErr};
ghost use Rattle.avro_schema.specs.Fits.{fits};
ghost use Rattle.avro_schema.specs.Node.{Node, root_of};
ghost use Rattle.avro_schema.specs.SeenSchema.{schema_nodes};
ghost use Rattle.avro_schema.specs.Value.{Value, Values};
ghost use Rattle.avro_file.specs.BlockFails.{DataAreWhole};
ghost use Rattle.avro_file.specs.DataRead.{FitAll, IsDataFault, StandForData, read_nodes, reading, resolution};
ghost use Rattle.avro_file.specs.FileFault.{FileFault};
ghost use Rattle.avro_file.specs.FileSeen.{file_fault};

pub(crate) mod blocks;
pub(crate) mod checker;
pub(crate) mod datum;
pub(crate) mod frame;
pub(crate) mod head;

use crate::block::datum::{datum_error, read_by_plan, walk_data};
use crate::error::CopyError;
use crate::header::Header;
use crate::limits::FileLimits;
use avro_binary::Build;
use avro_resolve::laws::resolved_fits;
use avro_resolve::{Plan, PlanRef};
use avro_schema::Schema;
use avro_schema_json::ReaderText;

/// A block of a file, whose data are not read yet.
#[derive(Drop)]
pub struct Block<'a> {
    pub(crate) header: &'a Header,
    pub(crate) limits: FileLimits,
    pub(crate) number: u64,
    pub(crate) count: u32,
    pub(crate) body: Vec<u8>,
}

impl<'a> Block<'a> {
    /// The number of data that the block claims to have.
    pub fn count(&self) -> u32
        ensures { result ≡ self.now.count }
    {
        self.count
    }

    /// The bytes of its data.
    pub fn body(&self) -> &[u8]
        ensures { result.now ≡ self.now.body.items }
    {
        &self.body
    }

    /// Reads the data one by one, and returns what the builder makes of each, resolved for the reader if there is one. They are the whole
    /// body of the block. A plan is made for the reader; [`Block::read_by`] uses an existing one.
    ///
    /// # Errors
    ///
    /// The first of `LimitExceeded`, `InvalidDatum` and `UnresolvedDatum`; `BytesLeft` after the last datum; `OutOfMemory`.
    pub fn read<B: Build>(
        &self,
        reader: Option<&ReaderText>,
        builder: &mut B,
    ) -> Result<Vec<B::Out>, CopyError>
        ensures found { IfOk result (λ outs. StandForData B.stands_for
            (reading self.now.limits (schema_nodes self.now.header.now.schema) self.now.header.now.sync (option_map (λ r. schema_nodes r.1) (option_copied reader.entry)))
            self.now.count self.now.body.items outs.items) }
        ensures fit { IfOk result (λ outs. FitAll B.stands_for
            (read_nodes (schema_nodes self.now.header.now.schema) (option_map (λ r. schema_nodes r.1) (option_copied reader.entry))) outs.items) }
        ensures refused { IfErr result (λ e. (f : FileFault) → file_fault e ≡ Some f → IsDataFault
            (reading self.now.limits (schema_nodes self.now.header.now.schema) self.now.header.now.sync (option_map (λ r. schema_nodes r.1) (option_copied reader.entry)))
            self.now.number self.now.count self.now.body.items f) }
        ensures memory { IfErr result (λ e. file_fault e ≡ None → e ≡ CopyError.OutOfMemory) }
    {
        let schema = self.header.schema();
        match reader {
            Some(reader) => {
                let plan = Plan::reached(*self.body.allocator(), schema, reader.schema())?;
                self.read_by(&plan, builder)
            }
            None => self.read_data(schema, &None, builder),
        }
    }

    /// Reads the data one by one as data of a plan's writer, and returns what the builder makes of each,
    /// resolved for the plan's reader.
    ///
    /// # Errors
    ///
    /// Those of [`Block::read`].
    pub fn read_by<B: Build>(
        &self,
        plan: &Plan<'_>,
        builder: &mut B,
    ) -> Result<Vec<B::Out>, CopyError>
        ensures found { IfOk result (λ outs. StandForData B.stands_for
            (reading self.now.limits (schema_nodes plan.now.0) self.now.header.now.sync (Some (schema_nodes plan.now.1)))
            self.now.count self.now.body.items outs.items) }
        ensures fit { IfOk result (λ outs. FitAll B.stands_for (schema_nodes plan.now.1) outs.items) }
        ensures refused { IfErr result (λ e. (f : FileFault) → file_fault e ≡ Some f → IsDataFault
            (reading self.now.limits (schema_nodes plan.now.0) self.now.header.now.sync (Some (schema_nodes plan.now.1)))
            self.now.number self.now.count self.now.body.items f) }
        ensures memory { IfErr result (λ e. file_fault e ≡ None → e ≡ CopyError.OutOfMemory) }
    {
        let plan = plan.by_ref();
        let schema = plan.writer();
        self.read_data(schema, &Some(plan), builder)
    }

    /// Reads the data one by one without building anything: Ok only if they are the whole body. Memory is allocated only for the keys of maps.
    ///
    /// # Errors
    ///
    /// Those of [`Block::read`] without a reader.
    pub fn check(&self) -> Result<(), CopyError>
        ensures found { OnOk result ((values : Values) × DataAreWhole
            (reading self.now.limits (schema_nodes self.now.header.now.schema) self.now.header.now.sync None)
            self.now.count self.now.body.items values) }
        ensures refused { IfErr result (λ e. (f : FileFault) → file_fault e ≡ Some f → IsDataFault
            (reading self.now.limits (schema_nodes self.now.header.now.schema) self.now.header.now.sync None)
            self.now.number self.now.count self.now.body.items f) }
        ensures memory { IfErr result (λ e. file_fault e ≡ None → e ≡ CopyError.OutOfMemory) }
    {
        let alloc = *self.body.allocator();
        match walk_data(
            alloc,
            self.header,
            &self.limits,
            self.number,
            self.count,
            &self.body,
        ) {
            Ok(_) => Ok(()),
            Err(error) => Err(error),
        }
    }

    /// Reads the data one by one as data of a schema, by a plan if there is one.
    fn read_data<B: Build>(
        &self,
        schema: &Schema,
        plan: &Option<PlanRef<'_>>,
        builder: &mut B,
    ) -> Result<Vec<B::Out>, CopyError>
        requires { IfSome plan.now (λ p. p.0 ≡ schema.now) }
        ensures found { IfOk result (λ outs. StandForData B.stands_for
            (reading self.now.limits (schema_nodes schema.now) self.now.header.now.sync (option_map (λ p. schema_nodes p.1) plan.now))
            self.now.count self.now.body.items outs.items) }
        ensures fit { IfOk result (λ outs. FitAll B.stands_for (read_nodes (schema_nodes schema.now) (option_map (λ p. schema_nodes p.1) plan.now)) outs.items) }
        ensures refused { IfErr result (λ e. (f : FileFault) → file_fault e ≡ Some f → IsDataFault
            (reading self.now.limits (schema_nodes schema.now) self.now.header.now.sync (option_map (λ p. schema_nodes p.1) plan.now))
            self.now.number self.now.count self.now.body.items f) }
        ensures memory { IfErr result (λ e. file_fault e ≡ None → e ≡ CopyError.OutOfMemory) }
    {
        let alloc = *self.body.allocator();
        let limits = self.limits.datum();
        let count = self.count();
        let end = self.body.len();
        made_data_fit(plan);
        let mut answers = Vec::new(alloc);
        let mut start = 0;
        let mut datum = 0;
        while datum < count {
            let (_, rest) = self.body.split_at(start);
            match read_by_plan(alloc, schema, plan, rest, &limits, builder) {
                Ok((answer, len)) => {
                    answers.push(answer)?;
                    start += len;
                    datum += 1;
                }
                Err(error) => return Err(datum_error(self.number, datum, start, error)),
            }
        }
        if start < end {
            return Err(CopyError::BytesLeft(self.number));
        }
        Ok(answers)
    }
}

/// What a datum resolves to is a datum of the reader's schema.
fn made_data_fit(plan: &Option<PlanRef<'_>>)
    ensures { (nodes : List Node) (v u : Value) → fits nodes (root_of nodes) v ≡ true
        → resolution (option_map (λ p. schema_nodes p.1) plan.now) nodes v ≡ Ok u
        → fits (read_nodes nodes (option_map (λ p. schema_nodes p.1) plan.now))
        (root_of (read_nodes nodes (option_map (λ p. schema_nodes p.1) plan.now))) u ≡ true }
{
    resolved_fits();
    match plan {
        Some(plan) => {
            // Only the contract of this call matters here: the schema is well formed.
            let _ = plan.reader().len();
        }
        None => {}
    }
}
