//! Laws about files of a schema that a reader takes: no datum of such a file fails to resolve.

ghost use Rattle.std.specs.Prelude.{◌≡◌, ℕ, List, Some};
ghost use Rattle.std.specs.List.{AllByRecursion, slice_get};
ghost use Rattle.avro_schema.specs.Node.{Node};
ghost use Rattle.avro_compare.specs.Fault.{ResolutionFault};
ghost use Rattle.avro_certificate.specs.Compatible.{AreCompatible};
ghost use Rattle.avro_file.specs.BlockFails.{BlockReading, BlockFails, FileLimitValues};
ghost use Rattle.avro_file.specs.Copied.{Job, into};
ghost use Rattle.avro_file.specs.DataRead.{IsDataFault, reading};
ghost use Rattle.avro_file.specs.File.{HeaderValue};
ghost use Rattle.avro_file.specs.FileFault.{in_block, unresolved_datum};
ghost use Rattle.avro_container.specs.Steps.{HasFault, Stored};

use avro_device::Input;

/// If no datum of a file's schema fails for a reader, no block fails by a datum that does not resolve, whatever its bytes are.
pub fn never_unresolved<I: Input>()
    ensures { (input : I) (r : BlockReading) (reader : List Node) (number : ℕ) (bytes : List ℕ) (m : ℕ) (f : ResolutionFault)
        → AreCompatible r.nodes reader → r.resolve ≡ into reader r.nodes → BlockFails r number (I.ended input) bytes (unresolved_datum m f) → ⊥ }
{}

/// After a header of such a schema, no step of a copy for that reader reports a datum that does not resolve.
pub fn step_resolves<I: Input>()
    ensures { (input : I) (job : Job) (limits : FileLimitValues) (before : Stored) (bytes : List ℕ) (h : HeaderValue) (reader : List Node) (n m : ℕ) (f : ResolutionFault)
        → before.header ≡ Some h → AreCompatible h.nodes reader → job.resolve ≡ into reader
        → HasFault job limits (I.ended input) before bytes (in_block n (unresolved_datum m f)) → ⊥ }
{}

/// The data of a block that are read for such a reader, as `show` reads them, have no fault of resolution.
pub fn read_resolves()
    ensures { (limits : FileLimitValues) (writer reader : List Node) (sync : List ℕ) (number count : ℕ) (body : List ℕ) (n m : ℕ) (f : ResolutionFault)
        → AreCompatible writer reader → IsDataFault (reading limits writer sync (Some reader)) number count body (in_block n (unresolved_datum m f)) → ⊥ }
{}

/// After a yes on a history, each version is a schema of which no datum fails for the reader: what is said of one schema holds of
/// the files of every version.
pub fn each_of_history()
    ensures { (writers : List (List Node)) (reader : List Node) (i : ℕ) (writer : List Node)
        → AllByRecursion (λ nodes. AreCompatible nodes reader) writers → slice_get writers i ≡ Some writer → AreCompatible writer reader }
{}
