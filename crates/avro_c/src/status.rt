//! What a call answers beside the statuses of answers, which are 0 to 2.

/// What was asked for was done.
pub(crate) const GOOD: u32 = 0;

/// A text is refused.
pub(crate) const REFUSED: u32 = 3;

/// Memory ran out.
pub(crate) const OUT_OF_MEMORY: u32 = 5;

/// A number is out of its range.
pub(crate) const USAGE: u32 = 64;
