//! The buffer that a caller gives for a text.

ghost use Rattle.std.specs.Prelude.{◌≡◌, ◌≤◌, ◌++◌, drop, length, take};
ghost use Rattle.avro_c.specs.Buffer.{IsPut};

/// A longer text is copied in several pieces.
const PIECE: usize = 1_048_576;

/// Copies the front of a text that there is room for, and answers the length of the whole.
pub(crate) fn put(text: &[u8], out: &mut [u8]) -> usize
    ensures { IsPut text.now out.old out.new result }
{
    if text.len() <= out.len() {
        let (buffer, _) = out.split_at_mut(text.len());
        buffer.copy_from_slice(text);
    } else {
        let (front, _) = text.split_at(out.len());
        out.copy_from_slice(front);
    }
    text.len()
}

/// The same of a text that is no longer needed: its memory is given back piece by piece, the last piece first, so that text and copy
/// are not both held whole.
pub(crate) fn put_all(text: Vec<u8>, out: &mut [u8]) -> usize
    ensures { IsPut text.items out.old out.new result }
{
    let mut text = text;
    let whole = text.len();
    text.truncate(out.len());
    while text.len() > PIECE {
        let from = text.len() - PIECE;
        put_from(&text, from, out);
        text.truncate(from);
        text.shrink_to_fit();
    }
    put(&text, out);
    whole
}

/// Copies what a text has from an offset on to the same place.
fn put_from(text: &[u8], from: usize, out: &mut [u8])
    requires { (from ≤ length text.now) × (length text.now ≤ length out.old) }
    ensures { out.new ≡ take from out.old ++ (drop from text.now ++ drop (length text.now) out.old) }
{
    let (_, piece) = text.split_at(from);
    let (_, rest) = out.split_at_mut(from);
    let (place, _) = rest.split_at_mut(piece.len());
    place.copy_from_slice(piece);
}

/// Answers a status without a text.
pub(crate) fn put_nothing(status: u32, wanted: &mut usize) -> u32
    ensures status { result ≡ status }
    ensures wanted { wanted.new ≡ 0 }
{
    *wanted = 0;
    status
}
