//! The blocks of a file, one after another.

ghost use Rattle.std.specs.Prelude.{◌≡◌, ◌≢◌, ◌<◌, ◌+◌, [], true, false, OnOk, OnErr, IfOk, IfSome, IfNone, Some, None, Ok, Err};
ghost use Rattle.std.specs.Result.{IfErr};
ghost use Rattle.avro_file.specs.BlockFails.{max_blocks};
ghost use Rattle.avro_file.specs.BlockTaken.{TakesBlock, TakesFault};
ghost use Rattle.avro_file.specs.FileFault.{FileFault};
ghost use Rattle.avro_file.specs.FileSeen.{file_fault};
ghost use Rattle.avro_file.specs.Filled.{TakesSome};
ghost use Rattle.avro_file.specs.Named.{IsNamed};

use crate::block::Block;
use crate::block::frame::take_block;
use crate::error::CopyError;
use crate::header::Header;
use crate::input::Reach;
use crate::input::buffer::Buffer;
use crate::limits::FileLimits;
use avro_device::Input;
use std::alloc::Global;

/// The blocks after a file's header, taken one by one (Avro 1.11, "Object Container Files").
#[derive(Drop)]
pub struct Blocks<'a> {
    alloc: Global,
    header: &'a Header,
    limits: FileLimits,
    buffer: Buffer,
    number: u64,
    ended: bool,
    failed: bool,
}

impl<'a> Blocks<'a> {
    /// The blocks after a header, none of which is taken yet.
    pub fn new(alloc: Global, header: &'a Header, limits: &FileLimits) -> Blocks<'a>
        ensures header { result.header ≡ header.entry }
        ensures limits { result.limits ≡ limits.now }
        ensures number { result.number ≡ 0 }
        ensures begins { (result.ended ≡ false) × (result.failed ≡ false) }
    {
        Blocks {
            alloc,
            header,
            limits: *limits,
            buffer: Buffer::new(alloc),
            number: 0,
            ended: false,
            failed: false,
        }
    }

    /// Takes the next block, and no byte after it.
    fn take_next<I: Input>(&mut self, input: &mut I) -> Result<Option<Block<'a>>, CopyError>
        ensures found { IfOk result (λ found. IfSome found (λ block. TakesBlock I.gives input.old input.new self.old.limits self.old.header.now.sync block.count block.body.items)) }
        ensures few { IfOk result (λ found. IfSome found (λ block. self.old.number ≡ block.number)) }
        ensures limited { IfOk result (λ found. IfSome found (λ block. self.old.number < max_blocks)) }
        ensures none { IfOk result (λ found. IfNone found (I.gives input.old [] input.new)) }
        ensures told { IfOk result (λ found. IfNone found (I.ended input.new)) }
        ensures refused { IfErr result (λ e. (f : FileFault) → file_fault e ≡ Some f → TakesFault I.gives I.ended input.old input.new self.old.limits self.old.header.now.sync self.old.number f) }
        ensures lost { OnErr result (TakesSome I.gives input.old input.new) }
        ensures counted { IfOk result (λ found. IfSome found (λ block. self.new.number ≡ self.old.number + 1)) }
        ensures kept { (self.new.header ≡ self.old.header) × (self.new.limits ≡ self.old.limits) × (self.new.failed ≡ self.old.failed) × (self.new.ended ≡ self.old.ended) }
        ensures works { OnOk result (I.failures input.new ≡ I.failures input.old) }
        ensures fails { result ≡ Err CopyError.InputFailed → I.failures input.new ≢ I.failures input.old }
        ensures no_output { result ≢ Err CopyError.OutputFailed }
        ensures first { result ≢ Err CopyError.FailedBefore }
        ensures made { IfOk result (λ found. IfSome found (λ block. (block.header ≡ self.old.header) × (block.limits ≡ self.old.limits))) }
        ensures named { IfErr result IsNamed }
    {
        let done = self.buffer.len();
        self.buffer.pass(done);
        let reach = Reach {
            limit: self.limits.block() as usize + 36,
            ahead: 0,
        };
        let number = self.number;
        let header = self.header;
        match take_block(
            input,
            &mut self.buffer,
            number,
            &self.limits,
            header.sync(),
            reach,
        )? {
            None => Ok(None),
            Some(head) => {
                let (_, data) = self.buffer.bytes().split_at(head.start);
                let (data, _) = data.split_at(head.size);
                let body = Vec::from_slice(self.alloc, data)?;
                self.number += 1;
                Ok(Some(Block {
                    header,
                    limits: self.limits,
                    number,
                    count: head.count,
                    body,
                }))
            }
        }
    }

    /// Takes the next block, and no byte after it; `None` if the input ends before it, and in all later calls.
    ///
    /// Pass the same input to each call. A call after the end takes nothing, so that the end reported is that of the input
    /// passed before; nothing is known of another input.
    ///
    /// # Errors
    ///
    /// `LimitExceeded`, `InvalidCount`, `CutBlock`, `WrongMarker`; `InputFailed`, `OutOfMemory`. After an error,
    /// `FailedBefore`.
    pub fn next<I: Input>(&mut self, input: &mut I) -> Result<Option<Block<'a>>, CopyError>
        ensures before { self.old.failed ≡ true → (result ≡ Err CopyError.FailedBefore) × (input.new ≡ input.old) }
        ensures over { self.old.failed ≡ false → self.old.ended ≡ true → (result ≡ Ok None) × (input.new ≡ input.old) }
        ensures found { IfOk result (λ found. IfSome found (λ block. TakesBlock I.gives input.old input.new self.old.limits self.old.header.now.sync block.count block.body.items)) }
        ensures numbered { IfOk result (λ found. IfSome found (λ block. self.old.number ≡ block.number)) }
        ensures counted { IfOk result (λ found. IfSome found (λ block. self.new.number ≡ self.old.number + 1)) }
        ensures none { IfOk result (λ found. IfNone found (I.gives input.old [] input.new)) }
        ensures told { (self.old.ended ≡ true → I.ended input.old) → IfOk result (λ found. IfNone found (I.ended input.new)) }
        ensures ends { IfOk result (λ found. IfNone found (self.new.ended ≡ true)) }
        ensures refused { IfErr result (λ e. (f : FileFault) → file_fault e ≡ Some f → TakesFault I.gives I.ended input.old input.new self.old.limits self.old.header.now.sync self.old.number f) }
        ensures lost { OnErr result (TakesSome I.gives input.old input.new) }
        ensures stays { OnErr result (self.new.failed ≡ true) }
        ensures goes_on { OnOk result (self.new.failed ≡ false) }
        ensures more { IfOk result (λ found. IfSome found (λ _. self.new.ended ≡ false)) }
        ensures no_output { result ≢ Err CopyError.OutputFailed }
        ensures few { IfOk result (λ found. IfSome found (λ _. self.old.number < max_blocks)) }
        ensures same { (self.new.header ≡ self.old.header) × (self.new.limits ≡ self.old.limits) }
        ensures works { OnOk result (I.failures input.new ≡ I.failures input.old) }
        ensures fails { result ≡ Err CopyError.InputFailed → I.failures input.new ≢ I.failures input.old }
        ensures only_before { result ≡ Err CopyError.FailedBefore → self.old.failed ≡ true }
        ensures made { IfOk result (λ found. IfSome found (λ block. (block.header ≡ self.old.header) × (block.limits ≡ self.old.limits))) }
        ensures named { IfErr result IsNamed }
    {
        if self.failed {
            return Err(CopyError::FailedBefore);
        }
        if self.ended {
            return Ok(None);
        }
        match self.take_next(input) {
            Ok(Some(block)) => Ok(Some(block)),
            Ok(None) => {
                self.ended = true;
                Ok(None)
            }
            Err(error) => {
                self.failed = true;
                Err(error)
            }
        }
    }
}
