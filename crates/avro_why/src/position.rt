ghost use Rattle.std.specs.Prelude.{◌≤◌, length, min};
ghost use Rattle.avro_why.specs.Position.{EndsAt, IsPosition};

/// A position in a text.
#[derive(Clone, Copy)]
pub(crate) struct Position {
    /// The line, counted from 1.
    pub(crate) line: usize,
    /// The column, in bytes, counted from 1.
    pub(crate) column: usize,
}

impl Position {
    /// The beginning of a text.
    pub(crate) const BEGINNING: Position = Position { line: 1, column: 1 };
}

/// The position of an offset; of one past the end, that of the end.
pub(crate) fn position_at(text: &[u8], offset: usize) -> Position
    requires small { length text.now ≤ 1048576 }
    ensures { IsPosition text.now (min offset (length text.now)) result.line result.column }
{
    let (before, _) = text.split_at(offset.min(text.len()));
    end_of(before)
}

/// The position of the end.
fn end_of(text: &[u8]) -> Position
    requires small { length text.now ≤ 1048576 }
    ensures { EndsAt text.now result.line result.column }
{
    let mut line = 1;
    let mut column = 1;
    for byte in text {
        if *byte == b'\n' {
            line += 1;
            column = 1;
        } else {
            column += 1;
        }
    }
    Position { line, column }
}
