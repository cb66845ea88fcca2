//! Laws about copies: what a run of steps does, given what each step does, and what a copy is.

ghost use Rattle.std.specs.Prelude.{◌≡◌, ℕ, ◌^◌, ◌<◌, ◌≤◌, List, [], ◌++◌, length, Option, Some};
ghost use Rattle.std.specs.List.{sum};
ghost use Rattle.avro_schema.specs.Node.{Node};
ghost use Rattle.avro_schema.specs.Value.{Values};
ghost use Rattle.avro_schema_json.specs.DeclaredText.{DeclaresText};
ghost use Rattle.avro_cursor.specs.Encoding.{plain_values};
ghost use Rattle.avro_file.specs.BlockFails.{BlockFails, BlockReading, DataFail, FileLimitValues, IsNotTooMuch, max_blocks};
ghost use Rattle.avro_file.specs.BlockStands.{BlockStands};
ghost use Rattle.avro_file.specs.Copied.{EachResolved, Job, IsCopied, into, or_else, unchanged};
ghost use Rattle.avro_file.specs.File.{HeaderValue, IsFile, IsHeader};
ghost use Rattle.avro_file.specs.FileFault.{BlockFault, FileFault, in_block};
ghost use Rattle.avro_container.specs.CopiedFile.{for_reader, as_written, IsMarker, header_for, IsFileOfMade, ResolveWithin};
ghost use Rattle.avro_container.specs.Steps.{BeginsWith, IsBlockWithin, Stored, Run, Done, EndStep, CopiedWhole, RefusedStep, PutInAll, FaultStands, Outcome, Steps, TakenAhead, AreMadeWithin, most_ahead};

use avro_binary::laws::{fault_or_within, plain_encodes, prefix};
use avro_device::Input;
use avro_resolve::laws::resolved_fits;
use avro_schema_json::laws::{declared_is_schema, one_schema};

/// A run of steps without an error has put exactly the copy of the header and the blocks that the steps
/// returned, each with as many data as its step said.
pub fn run_copies()
    ensures { (job : Job) (limits : FileLimitValues) (s : Stored) (counts taken put : List ℕ) → Run job limits s counts taken put → Done job limits s counts taken put }
{}

/// If a run is followed by the end, a whole file within the limits was taken, and its copy was put.
pub fn run_ends<I: Input>()
    ensures { (input : I) (job : Job) (limits : FileLimitValues) (s t : Stored) (counts taken put more out : List ℕ) → Run job limits s counts taken put
        → EndStep (I.ended input) s t more out → CopiedWhole job limits (I.ended input) (sum counts) s.blocks (taken ++ more) (put ++ out) }
{}

/// If a run is followed by an error, what was put is a prefix of the copy of what was taken; and a fault of the file that
/// is reported comes right after what was put.
pub fn run_refused<I: Input>()
    ensures { (input : I) (job : Job) (limits : FileLimitValues) (s t : Stored) (counts taken put more out : List ℕ) (fault : Option FileFault) → Run job limits s counts taken put
        → RefusedStep job limits (I.ended input) s t more out fault → length (s.ahead ++ more) ≤ most_ahead limits → PutInAll job limits (taken ++ more) (put ++ out)
        × ((f : FileFault) → fault ≡ Some f → FaultStands job limits (I.ended input) (taken ++ more) (put ++ out) f) }
{}

/// After a run and one more step, whatever its outcome, the bytes taken in all exceed the header and the blocks put before
/// that step by no more than the bytes that may be held.
pub fn run_bounded<I: Input>()
    ensures { (input : I) (job : Job) (limits : FileLimitValues) (s t : Stored) (counts taken put more out : List ℕ) (outcome : Outcome) → Run job limits s counts taken put
        → Steps job limits (I.ended input) s t more out outcome → TakenAhead job limits (taken ++ more) put }
{}

/// The copy of a file for a reader is a file of the reader's schema, whose data are what resolution gives of those of the file.
/// The text of the reader's schema and the data of each block of the copy have below 2^63 bytes, as those of each `copy` have.
pub fn copy_is_file()
    ensures { (h : HeaderValue) (blocks : List Values) (bytes text : List ℕ) (reader : List Node) (sync : Option (List ℕ)) (limit : ℕ) (out : List ℕ)
        → IsFile h blocks bytes → DeclaresText text reader → length text < 2 ^ 63 → IsMarker sync
        → AreMadeWithin limit (into reader h.nodes) blocks → limit < 2 ^ 63
        → IsCopied (for_reader text reader sync) h blocks out
        → IsFileOfMade (into reader h.nodes) (header_for (for_reader text reader sync) reader h) blocks out }
{
    plain_encodes();
    resolved_fits();
    declared_is_schema();
}

/// The copy of a file without a reader is a file of the same header but for the marker, and of the same data.
pub fn copy_is_same_file()
    ensures { (h : HeaderValue) (blocks : List Values) (bytes : List ℕ) (sync : Option (List ℕ)) (out : List ℕ)
        → IsFile h blocks bytes → IsMarker sync → IsCopied (as_written sync) h blocks out
        → IsFileOfMade (unchanged h.nodes) (header_for (as_written sync) h.nodes h) blocks out
        × IsFile (record h { sync = or_else sync h.sync }) blocks out }
{
    plain_encodes();
    declared_is_schema();
}

/// A file has one copy.
pub fn one_copy()
    ensures { (job : Job) (h : HeaderValue) (blocks : List Values) (a b : List ℕ) → IsCopied job h blocks a → IsCopied job h blocks b → a ≡ b }
{}

/// The copy of a copy, without a reader and with the copy's marker, is the copy itself, byte for byte. It is one where the copy is
/// a file, as the laws `copy_is_file` and `copy_is_same_file` say.
pub fn copy_again()
    ensures { (job : Job) (h k : HeaderValue) (target : List Node) (blocks others : List Values) (sync : Option (List ℕ)) (out : List ℕ)
        → IsCopied job h blocks out → IsFileOfMade (job.resolve h.nodes) (header_for job target h) blocks out → IsFile k others out → or_else sync k.sync ≡ k.sync
        → IsCopied (as_written sync) k others out × ((again : List ℕ) → IsCopied (as_written sync) k others again → again ≡ out) }
{
    prefix();
    one_schema();
}

/// A block within the limits has no fault, whatever follows it, if each of its data resolves and the block of the copy, where one
/// is made, is within the limit. What is not taken yet is `more`: nothing, where the input has reported its end.
pub fn block_has_no_fault<I: Input>()
    ensures { (input : I) (r : BlockReading) (h : HeaderValue) (vs us : Values) (number : ℕ) (front block bytes more later : List ℕ) (f : BlockFault)
        → IsHeader h front → r.nodes ≡ h.nodes → r.sync ≡ h.sync → IsBlockWithin r.limits h vs block → number < max_blocks
        → EachResolved r.resolve vs us → IsNotTooMuch r (plain_values us) → bytes ++ more ≡ block ++ later → (I.ended input → more ≡ [])
        → BlockFails r number (I.ended input) bytes f → ⊥ }
{
    prefix();
    fault_or_within();
    declared_is_schema();
}

/// The data of such a block have no fault once it was taken: neither a check nor a reading reports one.
pub fn data_have_no_fault()
    ensures { (r : BlockReading) (h : HeaderValue) (vs us : Values) (count : ℕ) (front bytes body : List ℕ) (f : BlockFault)
        → IsHeader h front → r.nodes ≡ h.nodes → IsBlockWithin r.limits h vs bytes → EachResolved r.resolve vs us → IsNotTooMuch r (plain_values us)
        → BlockStands r.limits h.sync count body bytes → DataFail r count body f → ⊥ }
{
    prefix();
    fault_or_within();
    declared_is_schema();
}

/// A file within the limits, of which each datum resolves and whose copy is within them, has no fault behind its header: no copy
/// reports one of a block.
pub fn copy_has_no_fault<I: Input>()
    ensures { (input : I) (job : Job) (limits : FileLimitValues) (h : HeaderValue) (blocks : List Values) (taken more put : List ℕ) (n : ℕ) (f : BlockFault)
        → BeginsWith limits h blocks (taken ++ more) [] → ResolveWithin limits.block (job.resolve h.nodes) blocks → (I.ended input → more ≡ [])
        → FaultStands job limits (I.ended input) taken put (in_block n f) → ⊥ }
{
    prefix();
    one_schema();
    fault_or_within();
    declared_is_schema();
}
