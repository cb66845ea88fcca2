//! What a caller asks for by numbers.

ghost use Rattle.std.specs.Prelude.{◌≡◌, ◌≤◌, ◌↔◌, IsTrue, length, sum, SomeIff, option_copied};
ghost use Rattle.avro_schema.specs.Ranges.{AreLimits};
ghost use Rattle.avro_c.specs.Asked.{asked_or, asked_limits, AreAskedLimits, asked_shown, asked_reader, asked_data_limits, IsReading};

use avro_answer::Shown;
use avro_judge::JudgeLimits;
use avro_schema::Limits;

/// The limits of judging that a caller asks for; 0 asks for the default.
#[repr(C)]
#[derive(Drop)]
pub struct AvroLimits {
    /// How many bytes the caller's struct has.
    pub struct_size: u32,
    /// The greatest product of the two numbers of nodes.
    pub pairs: u32,
    /// The greatest number of nodes of a datum that refutes.
    pub size: u32,
    /// Its greatest depth.
    pub depth: u32,
}

/// How a caller asks for data to be read; a limit of 0 is the default one.
#[repr(C)]
#[derive(Drop)]
pub struct AvroReading {
    /// How many bytes are skipped first.
    pub skip: usize,
    /// 1 where there is a reader's text, and 0 where there is none.
    pub has_reader: u32,
    /// The greatest depth of a datum.
    pub depth: u32,
    /// Its greatest number of nodes.
    pub nodes: u32,
    /// The greatest length of one of its strings.
    pub blob: u32,
}

/// The limits of a datum that a caller asks for, or nothing where one is out of range, or where it is not said whether
/// there is a reader.
pub(crate) fn reading_of(asked: &AvroReading) -> Option<Limits>
    ensures { SomeIff result (IsReading asked.now.has_reader asked.now.depth asked.now.nodes asked.now.blob) (asked_data_limits asked.now.depth asked.now.nodes asked.now.blob) }
{
    if asked.has_reader > 1 {
        return None;
    }
    let depth = or_default(asked.depth, 128);
    let nodes = or_default(asked.nodes, 1_048_576);
    let blob = or_default(asked.blob, 16_777_216);
    Limits::new(depth, nodes, blob)
}

/// The reader's text, where there is one.
pub(crate) fn reader_of(has_reader: u32, reader: &[u8]) -> Option<&[u8]>
    ensures { option_copied result ≡ asked_reader has_reader reader.now }
{
    if has_reader == 0 { None } else { Some(reader) }
}

/// The limits that a caller asks for, or nothing where one is out of range, or where the struct is of another size.
pub(crate) fn limits_of(asked: &AvroLimits) -> Option<JudgeLimits>
    ensures { SomeIff result (AreAskedLimits asked.now.struct_size asked.now.pairs asked.now.size asked.now.depth) (asked_limits asked.now.pairs asked.now.size asked.now.depth) }
{
    if asked.struct_size != 16 {
        return None;
    }
    let pairs = or_default(asked.pairs, 4_194_304);
    let size = or_default(asked.size, 4096);
    let depth = or_default(asked.depth, 128);
    match Limits::new(depth, 1_048_576, 16_777_216) {
        Some(limits) => JudgeLimits::new(pairs, size, limits),
        None => None,
    }
}

/// The pairs of nodes that a caller asks for, or nothing where they are too many.
pub(crate) fn pairs_of(asked: u32) -> Option<usize>
    ensures { SomeIff result (asked_or asked 4194304 ≤ 16777216) (asked_or asked 4194304) }
{
    let pairs = or_default(asked, 4_194_304);
    if pairs <= 16_777_216 {
        Some(pairs as usize)
    } else {
        None
    }
}

/// The limit that a number asks for.
fn or_default(number: u32, default: u32) -> u32
    ensures { result ≡ asked_or number default }
{
    if number == 0 { default } else { number }
}

/// What a number asks to be shown of a schema.
pub(crate) fn shown_of(asked: u32) -> Option<Shown>
    ensures { SomeIff result (asked ≤ 2) (asked_shown asked) }
{
    match asked {
        0 => Some(Shown::Count),
        1 => Some(Shown::Canonical),
        2 => Some(Shown::Fingerprint),
        _ => None,
    }
}

/// Whether lengths are those of texts that follow one another, and are all of these bytes.
pub(crate) fn are_lengths_of(lengths: &[usize], texts: &[u8]) -> bool
    ensures { IsTrue result ↔ (sum lengths.now ≡ length texts.now) }
{
    let mut left = texts.len();
    for part in lengths {
        if *part > left {
            return false;
        }
        left -= *part;
    }
    left == 0
}
