//! Words and numbers of a line.

use crate::escapes::halves;
use anyhow::Result;

/// The first two words of a text, and what comes after them.
pub(crate) fn thirds(text: &str) -> (&str, &str, &str) {
    let (first, others) = halves(text);
    let (second, rest) = halves(others);
    (first, second, rest)
}

/// The number that a word is.
pub(crate) fn number_of(word: &str) -> Result<u32> {
    Ok(word.parse::<u32>()?)
}

/// The three numbers that words are.
pub(crate) fn three_of((first, second, third): (&str, &str, &str)) -> Result<(u32, u32, u32)> {
    Ok((number_of(first)?, number_of(second)?, number_of(third)?))
}
