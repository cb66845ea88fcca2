//! A copier, and its steps.

ghost use Rattle.std.specs.Prelude.{◌≡◌, ◌+◌, ◌≤◌, [], None, length};
ghost use Rattle.std.specs.Option.{ForSome, option_copied};
ghost use Rattle.std.specs.Coded.{codes};
ghost use Rattle.avro_schema.specs.contracts.datum.Datum as datum;
ghost use Rattle.avro_file.specs.Held.{held};
ghost use Rattle.avro_file.specs.HeaderTaken.{header_value};
ghost use Rattle.avro_container.specs.inside.DataPacked.{IsKeptOf};
ghost use Rattle.avro_container.specs.Steps.{reading_of};
ghost use Rattle.avro_container.specs.TaskSeen.{job_of};

use crate::copying::Step;
use crate::copying::block::copy_block;
use crate::copying::header::copy_header;
use crate::copying::opened::Opened;
use crate::copying::state::{BlockTask, Store, Task};
use avro_device::{Input, Output};
use avro_file::{CopyError, FileLimits};
use avro_schema_json::ReaderText;
use std::alloc::Global;

/// Copies a file in one pass, step by step.
#[derive(Drop)]
pub struct Copier<'a> {
    pub(crate) alloc: Global,
    pub(crate) task: Task<'a>,
    pub(crate) opened: Option<Opened<'a>>,
    pub(crate) blocks: u64,
    pub(crate) store: Store,
    pub(crate) ended: bool,
    pub(crate) failed: bool,
    ghost near: { length (held store.buffer) ≤ task.limits.block + 36 },
    // nothing is held before the header
    ghost none_yet: { opened ≡ None → held store.buffer ≡ [] },
    ghost known: { ForSome opened (λ o. IsKeptOf (reading_of (job_of task) task.limits (header_value o.0)) store.empty) },
    // the data are read for the task's reader
    ghost same: { ForSome opened (λ o. o.1 ≡ option_copied task.reader) } by { Prim.hlevel (codes, datum.the_row.coded) },
}

impl<'a> Copier<'a> {
    ghost use Rattle.std.specs.Prelude.{◌≢◌, ◌⊎◌, true, OnOk, Ok, Err, IfOk};
    ghost use Rattle.std.specs.Result.{IfErr};
    ghost use Rattle.avro_container.specs.inside.BlockCopied.{GivesWithin, RefusesWithin};
    ghost use Rattle.avro_container.specs.CopierSeen.{job_in, limits_in, outcome_of, stored_of};
    ghost use Rattle.avro_container.specs.Copying.{IfBlock, Moves};
    ghost use Rattle.avro_file.specs.FileSeen.{file_fault};
    ghost use Rattle.avro_container.specs.Moved.{Moved};
    ghost use Rattle.avro_file.specs.Named.{IsNamed};
    ghost use Rattle.avro_container.specs.Steps.{GoesOn, fresh, most_ahead};
    ghost use Rattle.avro_container.specs.TaskSeen.{job_from};

    /// A copier of a file of which nothing was taken yet: for a reader's schema, if given, and with this marker, or the file's
    /// if none is given.
    pub fn new(
        alloc: Global,
        reader: Option<&'a ReaderText>,
        sync: Option<[u8; 16]>,
        limits: &FileLimits,
    ) -> Copier<'a>
        ensures fresh { stored_of result ≡ fresh }
        ensures job { job_in result ≡ job_from reader.entry sync }
        ensures limits { limits_in result ≡ limits.now }
    {
        Copier {
            alloc,
            task: Task {
                reader,
                sync,
                limits: *limits,
            },
            opened: None,
            blocks: 0,
            store: Store::new(alloc),
            ended: false,
            failed: false,
        }
    }

    /// The bytes that were taken beyond the parts that steps have returned.
    pub fn ahead(&self) -> &[u8]
        ensures ahead { result.now ≡ (stored_of self.now).ahead }
        ensures bounded { length result.now ≤ most_ahead (limits_in self.now) }
    {
        self.store.buffer.bytes()
    }

    /// Reads the header or the next block, and puts its copy. Once the input has reported its end, each later step returns the
    /// end. What is held between steps is bounded by the limits.
    ///
    /// # Errors
    ///
    /// The first fault of the part, of which nothing was put then; `InputFailed`, `OutputFailed`, `OutOfMemory`, where a prefix of the
    /// part's copy may have been put. After an error, `FailedBefore`, which leaves both devices as they were.
    pub fn step<I: Input, O: Output>(
        &mut self,
        input: &mut I,
        output: &mut O,
    ) -> Result<Step, CopyError>
        ensures moves { Moves I.gives O.keeps (I.ended input.new) input.old input.new output.old output.new self.old self.new result }
        ensures before { (stored_of self.old).failed ≡ true → (result ≡ Err CopyError.FailedBefore) × (input.new ≡ input.old) × (output.new ≡ output.old) }
        ensures job { job_in self.new ≡ job_in self.old }
        ensures limits { limits_in self.new ≡ limits_in self.old }
        ensures few { IfBlock result (λ n. n ≤ 16777216) }
        ensures input_works { OnOk result (I.failures input.new ≡ I.failures input.old) }
        ensures input_fails { result ≡ Err CopyError.InputFailed → I.failures input.new ≢ I.failures input.old }
        ensures output_works { OnOk result (O.failures output.new ≡ O.failures output.old) }
        ensures output_fails { result ≡ Err CopyError.OutputFailed → (O.failures output.new ≢ O.failures output.old) ⊎ O.stuck output.new }
        ensures only_before { result ≡ Err CopyError.FailedBefore → (stored_of self.old).failed ≡ true }
        ensures named { IfErr result IsNamed }
    {
        if self.failed {
            return Err(CopyError::FailedBefore);
        }
        if self.ended {
            return Ok(Step::End);
        }
        match self.next_part(input, output) {
            Ok(step) => Ok(step),
            Err(error) => {
                self.failed = true;
                Err(error)
            }
        }
    }

    /// Reads the header or the next block, and puts its copy.
    fn next_part<I: Input, O: Output>(
        &mut self,
        input: &mut I,
        output: &mut O,
    ) -> Result<Step, CopyError>
        ensures gives { GoesOn (stored_of self.old) → IfOk result (λ step. Moved I.gives O.keeps input.old input.new output.old output.new
            (GivesWithin (job_in self.old) (limits_in self.old) (I.ended input.new) (stored_of self.old) (stored_of self.new) (outcome_of (Ok step)))) }
        ensures refused { IfErr result (λ e. Moved I.gives O.keeps input.old input.new output.old output.new
            (RefusesWithin (job_in self.old) (limits_in self.old) (I.ended input.new) (stored_of self.old) (file_fault e))) }
        ensures job { job_in self.new ≡ job_in self.old }
        ensures limits { limits_in self.new ≡ limits_in self.old }
        ensures few { IfBlock result (λ n. n ≤ 16777216) }
        ensures input_works { OnOk result (I.failures input.new ≡ I.failures input.old) }
        ensures input_fails { result ≡ Err CopyError.InputFailed → I.failures input.new ≢ I.failures input.old }
        ensures output_works { OnOk result (O.failures output.new ≡ O.failures output.old) }
        ensures output_fails { result ≡ Err CopyError.OutputFailed → (O.failures output.new ≢ O.failures output.old) ⊎ O.stuck output.new }
        ensures first { result ≢ Err CopyError.FailedBefore }
        ensures named { IfErr result IsNamed }
    {
        match &self.opened {
            Some(opened) => {
                let block = BlockTask {
                    number: self.blocks,
                    task: &self.task,
                    header: opened.header(),
                    plan: opened.plan(),
                };
                match copy_block(input, output, &mut self.store, &block)? {
                    Some(count) => {
                        self.blocks += 1;
                        Ok(Step::Block(u64::from(count)))
                    }
                    None => {
                        self.ended = true;
                        Ok(Step::End)
                    }
                }
            }
            None => {
                let opened = copy_header(self.alloc, input, output, &mut self.store, &self.task)?;
                self.store.empty = None;
                self.opened = Some(opened);
                Ok(Step::Header)
            }
        }
    }
}
