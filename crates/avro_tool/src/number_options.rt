//! Options that take a number, or the digits of a marker.
ghost use Rattle.std.specs.Prelude.{◌≡◌, None, Some, Ok, codes};
ghost use Rattle.clap.specs.Words.{first_value, found_of, one_text};
ghost use Rattle.avro_tool.specs.inside.PlainFound.{default_digits, default_number, option_word, LeavesLimits};
ghost use Rattle.avro_tool.specs.PlainWords.{default_judge_limits};

use crate::failure::Failure;
use avro_judge::JudgeLimits;
use avro_schema::Limits;
use clap::ArgMatches;
use hex::FromHex;

/// The most bytes that are skipped.
const MAX_SKIP: u32 = 16_777_216;

/// An option that takes a number from 1 to a maximum.
#[derive(Clone, Copy)]
pub(crate) enum NumberOption {
    /// The greatest product of the two node counts.
    MaxPairs,
    /// The greatest number of nodes of a datum that refutes.
    MaxSize,
    /// The greatest depth of a datum that refutes.
    MaxDepth,
}

impl NumberOption {
    /// The word of the option.
    pub(crate) fn word(self) -> &'static str
        ensures { result.now ≡ option_word self }
    {
        match self {
            NumberOption::MaxPairs => "max-pairs",
            NumberOption::MaxSize => "max-size",
            NumberOption::MaxDepth => "max-depth",
        }
    }

    /// The maximum.
    pub(crate) fn most(self) -> u32 {
        match self {
            NumberOption::MaxPairs => JudgeLimits::MAX_PAIRS,
            NumberOption::MaxSize => Limits::default().nodes(),
            NumberOption::MaxDepth => Limits::MAX_DEPTH,
        }
    }
}

/// The limits of judging that the words give.
pub(crate) fn limits_in<'a>(matches: &ArgMatches<'a>) -> Result<JudgeLimits, Failure<'a>>
    ensures { LeavesLimits (found_of matches.now) → result ≡ Ok default_judge_limits }
{
    let pairs = pairs_in(matches)?;
    let size = number_in(matches, NumberOption::MaxSize)?;
    let depth = number_in(matches, NumberOption::MaxDepth)?;
    let data = Limits::default();
    let Some(limits) = Limits::new(depth, data.nodes(), data.blob()) else {
        return Err(Failure::OutOfRange(NumberOption::MaxDepth));
    };
    match JudgeLimits::new(pairs, size, limits) {
        Some(limits) => Ok(limits),
        None => Err(Failure::OutOfRange(NumberOption::MaxSize)),
    }
}

/// The limit of pairs of nodes that the words give.
pub(crate) fn pairs_in<'a>(matches: &ArgMatches<'a>) -> Result<u32, Failure<'a>>
    ensures { one_text (found_of matches.now) (codes "max-pairs") ≡ Some (codes "4194304") → result ≡ Ok 4194304 }
{
    let pairs = number_in(matches, NumberOption::MaxPairs)?;
    if (1..=JudgeLimits::MAX_PAIRS).contains(&pairs) {
        Ok(pairs)
    } else {
        Err(Failure::OutOfRange(NumberOption::MaxPairs))
    }
}

/// The number of an option.
fn number_in<'a>(matches: &ArgMatches<'a>, option: NumberOption) -> Result<u32, Failure<'a>>
    ensures { one_text (found_of matches.now) (option_word option) ≡ Some (default_digits option) → result ≡ Ok (default_number option) }
{
    match matches.get_one::<u32>(option.word()) {
        Some(number) => Ok(number),
        None => Err(Failure::OutOfRange(option)),
    }
}

/// The greatest number of lines that the words ask for, if any.
pub(crate) fn lines_in<'a>(matches: &ArgMatches<'a>) -> Result<Option<u64>, Failure<'a>>
    ensures { first_value (found_of matches.now) (codes "limit") ≡ None → result ≡ Ok None }
{
    let Some(word) = matches.get_str("limit") else {
        return Ok(None);
    };
    match word.parse::<u64>() {
        Ok(lines) => Ok(Some(lines)),
        Err(_) => Err(Failure::NoLimit),
    }
}

/// How many bytes the words ask to skip.
pub(crate) fn skip_in<'a>(matches: &ArgMatches<'a>) -> Result<u32, Failure<'a>>
    ensures { first_value (found_of matches.now) (codes "skip") ≡ None → result ≡ Ok 0 }
{
    let Some(word) = matches.get_str("skip") else {
        return Ok(0);
    };
    match word.parse::<u32>() {
        Ok(skip) if skip <= MAX_SKIP => Ok(skip),
        _ => Err(Failure::NoSkip),
    }
}

/// The marker that the words give, if any.
pub(crate) fn marker_in<'a>(matches: &ArgMatches<'a>) -> Result<Option<[u8; 16]>, Failure<'a>>
    ensures { first_value (found_of matches.now) (codes "sync") ≡ None → result ≡ Ok None }
{
    let Some(digits) = matches.get_str("sync") else {
        return Ok(None);
    };
    match <[u8; 16] as FromHex>::from_hex(digits) {
        Ok(sync) => Ok(Some(sync)),
        Err(_) => Err(Failure::NoMarker),
    }
}
