//! Checking a whole file.

ghost use Rattle.std.specs.Prelude.{◌≡◌, ◌≢◌, ◌+◌, [], false, length, OnOk, IfOk, IfSome, IfNone, Err, Some};
ghost use Rattle.std.specs.Result.{IfErr};
ghost use Rattle.avro_file.specs.FileFault.{FileFault};
ghost use Rattle.avro_file.specs.FileSeen.{file_fault};
ghost use Rattle.avro_file.specs.HeaderTaken.{header_value};
ghost use Rattle.avro_file.specs.Named.{IsNamed};
ghost use Rattle.avro_container.specs.Checking.{Takes, IsWhole, IsFaulty};
ghost use Rattle.avro_container.specs.inside.BlocksChecked.{AreCounted, FailsAfter, IsCounted, IsFaultOf};

use crate::copying::Counts;
use avro_device::Input;
use avro_file::{Blocks, Checker, CopyError, FileLimits, Header};
use std::alloc::Global;

/// Reads a whole file within the limits in one pass, to where the input reports its end, and returns the number of its data and blocks.
/// Each datum is read, and nothing is built.
///
/// # Errors
///
/// The first fault of the file; `InputFailed`, `OutOfMemory`.
pub fn check<I: Input>(
    alloc: Global,
    input: &mut I,
    limits: &FileLimits,
) -> Result<Counts, CopyError>
    ensures whole { IfOk result (λ counts. Takes I.gives input.old input.new
        (IsWhole limits.now (I.ended input.new) counts.items counts.blocks)) }
    ensures fault { IfErr result (λ e. (f : FileFault) → file_fault e ≡ Some f → Takes I.gives input.old input.new
        (IsFaulty limits.now (I.ended input.new) f)) }
    ensures named { IfErr result IsNamed }
    ensures input_works { OnOk result (I.failures input.new ≡ I.failures input.old) }
    ensures input_fails { result ≡ Err CopyError.InputFailed → I.failures input.new ≢ I.failures input.old }
    ensures no_output { result ≢ Err CopyError.OutputFailed }
    ensures first { result ≢ Err CopyError.FailedBefore }
{
    let header = Header::read(alloc, input, limits)?;
    match check_blocks(alloc, input, &header, limits) {
        Ok(counts) => Ok(counts),
        Err(error) => Err(error),
    }
}

/// Reads the blocks after a header, and returns the number of their data and theirs.
///
/// # Errors
///
/// The first fault of a block; `InputFailed`, `OutOfMemory`.
fn check_blocks<I: Input>(
    alloc: Global,
    input: &mut I,
    header: &Header,
    limits: &FileLimits,
) -> Result<Counts, CopyError>
    requires marker { length header.now.sync ≡ 16 }
    ensures whole { IfOk result (λ counts. Takes I.gives input.old input.new
        (AreCounted limits.now (header_value header.now) counts.items counts.blocks)) }
    ensures told { OnOk result (I.ended input.new) }
    ensures fault { IfErr result (λ e. (f : FileFault) → file_fault e ≡ Some f → Takes I.gives input.old input.new
        (FailsAfter limits.now (header_value header.now) (I.ended input.new) f)) }
    ensures named { IfErr result IsNamed }
    ensures input_works { OnOk result (I.failures input.new ≡ I.failures input.old) }
    ensures input_fails { result ≡ Err CopyError.InputFailed → I.failures input.new ≢ I.failures input.old }
    ensures no_output { result ≢ Err CopyError.OutputFailed }
    ensures first { result ≢ Err CopyError.FailedBefore }
{
    let mut blocks = Blocks::new(alloc, header, limits);
    let mut checker = Checker::new(alloc, header, limits);
    let mut counts = Counts {
        items: 0,
        blocks: 0,
    };
    loop {
        match check_next(input, &mut blocks, &mut checker)? {
            Some(count) => {
                counts.items += u64::from(count);
                counts.blocks += 1;
            }
            None => break,
        }
    }
    Ok(counts)
}

/// Reads the data of the next block, if there is one, and returns their number.
///
/// # Errors
///
/// The first fault of the block; `InputFailed`, `OutOfMemory`.
fn check_next<I: Input>(
    input: &mut I,
    blocks: &mut Blocks<'_>,
    checker: &mut Checker<'_>,
) -> Result<Option<u32>, CopyError>
    requires goes_on { (blocks.old.failed ≡ false) × (blocks.old.ended ≡ false) }
    requires same { checker.old ≡ (blocks.old.header.now, blocks.old.limits) }
    requires marker { length blocks.old.header.now.sync ≡ 16 }
    ensures found { IfOk result (λ found. IfSome found (λ count. Takes I.gives input.old input.new
        (IsCounted blocks.old.limits (header_value blocks.old.header.now) blocks.old.number count))) }
    ensures none { IfOk result (λ found. IfNone found (I.gives input.old [] input.new)) }
    ensures told { IfOk result (λ found. IfNone found (I.ended input.new)) }
    ensures fault { IfErr result (λ e. (f : FileFault) → file_fault e ≡ Some f → Takes I.gives input.old input.new
        (IsFaultOf blocks.old.limits (header_value blocks.old.header.now) blocks.old.number (I.ended input.new) f)) }
    ensures counted { IfOk result (λ found. IfSome found (λ _. blocks.new.number ≡ blocks.old.number + 1)) }
    ensures more { IfOk result (λ found. IfSome found (λ _. (blocks.new.failed ≡ false) × (blocks.new.ended ≡ false))) }
    ensures kept { (blocks.new.header ≡ blocks.old.header) × (blocks.new.limits ≡ blocks.old.limits) }
    ensures checks { checker.new ≡ checker.old }
    ensures named { IfErr result IsNamed }
    ensures input_works { OnOk result (I.failures input.new ≡ I.failures input.old) }
    ensures input_fails { result ≡ Err CopyError.InputFailed → I.failures input.new ≢ I.failures input.old }
    ensures no_output { result ≢ Err CopyError.OutputFailed }
    ensures first { result ≢ Err CopyError.FailedBefore }
{
    match blocks.next(input)? {
        Some(block) => {
            checker.check(&block)?;
            Ok(Some(block.count()))
        }
        None => Ok(None),
    }
}
