ghost use Rattle.std.specs.Prelude.{◌≡◌, ◌≢◌, ℕ, List, IfOk};
ghost use denote.Ref.{Bor};
ghost use Rattle.avro_certificate.specs.declared.error.CertError.{CertError};
ghost use Rattle.avro_schema_json.specs.declared.error.SchemaError.{SchemaError};
ghost use Rattle.avro_tool.specs.FailureText.{exit_status, IsFileFailure, IsRefusal};
ghost use Rattle.avro_tool.specs.TextsRefused.{RefusesNothing};
ghost use Rattle.avro_file.specs.Named.{IsNamed};
ghost use Rattle.avro_file.specs.declared.error.CopyError.{CopyError};
ghost use Rattle.avro_cursor.specs.declared.error.ReadError.{ReadError};
ghost use Rattle.avro_resolve.specs.declared.error.ReadResolveError.TheVariants.{Read};
ghost use Rattle.avro_tool.specs.declared.failure.Failure.TheVariants.{Schema, Certificate, Container, Data, CannotRead, CannotWrite, CannotPrint, OutOfMemory};

use crate::container_line::container_line;
use crate::number_options::NumberOption;
use avro_answer::{PutError, certificate_refusal, data_refusal, schema_refusal};
use avro_binary::ReadError;
use avro_file::CopyError;
use avro_judge::CertError;
use avro_resolve::ReadResolveError;
use avro_schema::Memory;
use avro_schema_json::SchemaError;
use clap::error::ErrorKind;
use std::alloc::{AllocError, Global};
use std::io;

/// Why the program ends without an answer. A word is the argument that names the file.
#[derive(Drop)]
pub(crate) enum Failure<'a> {
    /// A schema's text was refused.
    Schema(&'a str, SchemaError),
    /// A certificate's text was refused.
    Certificate(&'a str, CertError),
    /// A container was refused.
    Container(&'a str, CopyError),
    /// Encoded data were refused.
    Data(&'a str, ReadResolveError),
    /// A file could not be opened or read.
    CannotRead(&'a str),
    /// A file could not be created or written.
    CannotWrite(&'a str),
    /// Standard output could not be written.
    CannotPrint,
    /// Memory ran out.
    OutOfMemory,
    /// The words are not a request, or ask for help.
    Usage(clap::Error),
    /// An argument is not UTF-8.
    NotText,
    /// A file was to be copied into itself.
    OneWord,
    /// The word for a marker is not 32 hexadecimal digits.
    NoMarker,
    /// A file was to be copied into itself, by another name.
    OneFile,
    /// A file of the words is standard output.
    IsOutput(&'a str),
    /// OUT of a copy is the pipe that standard output is.
    IsPipe(&'a str),
    /// A file of the words is standard error.
    IsError(&'a str),
    /// A file of the words is both, so that no line is written.
    IsStreams,
    /// A file that is to be written is one of those that are read.
    IsRead(&'a str),
    /// A file that is to be written contains a schema.
    IsSchema(&'a str),
    /// The word after an option is not a number in its range.
    OutOfRange(NumberOption),
    /// The word after the option for a number of lines is not a number.
    NoLimit,
    /// The word after the option for a number of bytes to skip is not a number in its range.
    NoSkip,
}

impl<'a> Failure<'a> {
    /// The failure of taking the words from the system.
    pub(crate) fn of_words(error: &io::Error) -> Failure<'a> {
        if error.kind() == io::ErrorKind::OutOfMemory {
            Failure::OutOfMemory
        } else {
            Failure::NotText
        }
    }

    /// The failure of reading a file.
    pub(crate) fn of_reading(word: &'a str, error: &io::Error) -> Failure<'a>
        ensures { RefusesNothing result }
    {
        if error.kind() == io::ErrorKind::OutOfMemory {
            Failure::OutOfMemory
        } else {
            Failure::CannotRead(word)
        }
    }

    /// The failure of writing a file.
    pub(crate) fn of_writing(word: &'a str, error: &io::Error) -> Failure<'a>
        ensures { RefusesNothing result }
    {
        if error.kind() == io::ErrorKind::OutOfMemory {
            Failure::OutOfMemory
        } else {
            Failure::CannotWrite(word)
        }
    }

    /// The failure of reading a schema's text.
    pub(crate) fn of_schema(word: &'a str, error: SchemaError) -> Failure<'a>
        ensures memory { error ≡ SchemaError.OutOfMemory → result ≡ OutOfMemory }
        ensures refused { error ≢ SchemaError.OutOfMemory → result ≡ Schema word.exit error }
    {
        if error == SchemaError::OutOfMemory {
            Failure::OutOfMemory
        } else {
            Failure::Schema(word, error)
        }
    }

    /// The failure of reading a certificate's text.
    pub(crate) fn of_certificate(word: &'a str, error: CertError) -> Failure<'a>
        ensures memory { error ≡ CertError.OutOfMemory → result ≡ OutOfMemory }
        ensures refused { error ≢ CertError.OutOfMemory → result ≡ Certificate word.exit error }
    {
        if error == CertError::OutOfMemory {
            Failure::OutOfMemory
        } else {
            Failure::Certificate(word, error)
        }
    }

    /// The failure of reading or writing a container.
    pub(crate) fn of_container(word: &'a str, error: CopyError) -> Failure<'a>
        ensures read { error ≡ CopyError.InputFailed → result ≡ CannotRead word.exit }
        ensures written { error ≡ CopyError.OutputFailed → result ≡ CannotWrite word.exit }
        ensures memory { error ≡ CopyError.OutOfMemory → result ≡ OutOfMemory }
        ensures refused { error ≢ CopyError.InputFailed → error ≢ CopyError.OutputFailed → error ≢ CopyError.OutOfMemory → result ≡ Container word.exit error }
        ensures only_read { (w : Bor (List ℕ)) → result ≡ CannotRead w → error ≡ CopyError.InputFailed }
        ensures not_printed { result ≢ CannotPrint }
        ensures named { IsNamed error → error ≢ CopyError.OutputFailed → error ≢ CopyError.FailedBefore → IsFileFailure word.exit result }
    {
        match error {
            CopyError::InputFailed => Failure::CannotRead(word),
            CopyError::OutputFailed => Failure::CannotWrite(word),
            CopyError::OutOfMemory => Failure::OutOfMemory,
            refused => Failure::Container(word, refused),
        }
    }

    /// The failure of reading encoded data.
    pub(crate) fn of_data(word: &'a str, error: ReadResolveError) -> Failure<'a>
        ensures memory { error ≡ Read ReadError.OutOfMemory → result ≡ OutOfMemory }
        ensures refused { error ≢ Read ReadError.OutOfMemory → result ≡ Data word.exit error }
    {
        match error {
            ReadResolveError::Read(ReadError::OutOfMemory) => Failure::OutOfMemory,
            refused => Failure::Data(word, refused),
        }
    }

    /// The exit status.
    pub(crate) fn status(&self) -> u8
        ensures { result ≡ exit_status self.now }
    {
        match self {
            Failure::Schema(..) | Failure::Certificate(..) | Failure::Container(..) => 3,
            Failure::Data(..) => 3,
            Failure::CannotRead(_) | Failure::CannotWrite(_) | Failure::CannotPrint => 4,
            Failure::OutOfMemory => 5,
            Failure::Usage(_) | Failure::NotText | Failure::OneWord | Failure::NoMarker => 64,
            Failure::IsOutput(_) | Failure::IsPipe(_) | Failure::IsError(_) => 64,
            Failure::IsStreams | Failure::OneFile | Failure::IsRead(_) | Failure::IsSchema(_) => 64,
            Failure::OutOfRange(_) | Failure::NoLimit | Failure::NoSkip => 64,
        }
    }

    /// The line of the failure, or the text of usage.
    pub(crate) fn line(&self, alloc: Global) -> Result<Vec<u8>, AllocError>
        ensures { IfOk result (λ line. IsRefusal self.now line.items) }
    {
        match self {
            Failure::Schema(word, error) => schema_refusal(alloc, word, *error),
            Failure::Certificate(word, error) => certificate_refusal(alloc, word, *error),
            Failure::Container(word, error) => container_line(alloc, word, error),
            Failure::Data(word, error) => data_refusal(alloc, word, error),
            other => Ok(other.other_line(alloc)?.into_bytes()),
        }
    }

    /// The line of a failure other than a refusal.
    fn other_line(&self, alloc: Global) -> Result<String, AllocError> {
        match self {
            Failure::CannotRead(word) => format!(in alloc; "avro: {word}: cannot read\n"),
            Failure::CannotWrite(word) => format!(in alloc; "avro: {word}: cannot write\n"),
            Failure::Usage(text) => format!(in alloc; "{text}"),
            Failure::IsOutput(word) => format!(in alloc; "avro: {word} is the standard output\n"),
            Failure::IsPipe(word) => {
                format!(in alloc; "avro: {word} is the standard output: use avro pipe\n")
            }
            Failure::IsError(word) => format!(in alloc; "avro: {word} is the standard error\n"),
            Failure::IsRead(word) => { format!(in alloc; "avro: {word} is also an input\n") }
            Failure::IsSchema(word) => format!(in alloc; "avro: {word} is a schema\n"),
            Failure::OutOfRange(option) => range_line(alloc, *option),
            other => String::from_str(alloc, other.fixed_line()),
        }
    }

    /// The line of a failure that names no word, which allocates nothing; empty for other failures.
    pub(crate) fn fixed_line(&self) -> &'static str {
        match self {
            Failure::CannotPrint => "avro: output: cannot write\n",
            Failure::OutOfMemory => "avro: out of memory\n",
            Failure::NotText => "avro: an argument is not UTF-8\n",
            Failure::OneWord => "avro: IN and OUT are one word\n",
            Failure::NoMarker => "avro: --sync takes 32 hexadecimal digits\n",
            Failure::OneFile => "avro: IN and OUT are the same file\n",
            Failure::NoLimit => "avro: --limit takes 0 to 18446744073709551615\n",
            Failure::NoSkip => "avro: --skip takes 0 to 16777216\n",
            _ => "",
        }
    }
}

/// The line for a word that is not a number in an option's range.
fn range_line(alloc: Global, option: NumberOption) -> Result<String, AllocError> {
    let word = option.word();
    let most = option.most();
    format!(in alloc; "avro: --{word} takes 1 to {most}\n")
}

impl<'a> From<Memory> for Failure<'a> {
    ghost use Rattle.std.specs.Prelude.{◌≡◌};
    ghost use Rattle.avro_tool.specs.declared.failure.Failure.TheVariants.{OutOfMemory};

    ghost from_gives = { λ _ failure. failure ≡ OutOfMemory };

    fn from(_e: Memory) -> Failure<'a> {
        Failure::OutOfMemory
    }
}

impl<'a> From<AllocError> for Failure<'a> {
    ghost use Rattle.std.specs.Prelude.{◌≡◌};
    ghost use Rattle.avro_tool.specs.declared.failure.Failure.TheVariants.{OutOfMemory};

    ghost from_gives = { λ _ failure. failure ≡ OutOfMemory };

    fn from(_e: AllocError) -> Failure<'a> {
        Failure::OutOfMemory
    }
}

impl<'a> From<PutError> for Failure<'a> {
    ghost use Rattle.std.specs.Prelude.{◌≡◌};
    ghost use Rattle.avro_tool.specs.FailureText.{put_failure};

    ghost from_gives = { λ e failure. failure ≡ put_failure e };

    fn from(e: PutError) -> Failure<'a> {
        match e {
            PutError::CannotWrite => Failure::CannotPrint,
            PutError::OutOfMemory => Failure::OutOfMemory,
        }
    }
}

impl<'a> From<clap::Error> for Failure<'a> {
    ghost use Rattle.avro_tool.specs.FailureText.{IsUsageOf};

    ghost from_gives = { λ e failure. IsUsageOf e failure };

    fn from(e: clap::Error) -> Failure<'a> {
        if e.kind() == ErrorKind::OutOfMemory {
            Failure::OutOfMemory
        } else {
            Failure::Usage(e)
        }
    }
}
