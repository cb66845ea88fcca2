ghost use Rattle.std.specs.Prelude.{◌≡◌, IfSome};
ghost use Rattle.avro_binary.specs.Pieces.{piece};

/// The encodings of the fields of a record, one after another: each stands from one end to the next.
#[derive(Clone, Copy)]
pub struct Pieces<'b> {
    /// The bytes in which they stand.
    pub bytes: &'b [u8],
    /// Where the first begins, and where each ends.
    pub ends: &'b [usize],
}

/// The encoding of a field, by its index, among the encodings of some fields; none if there are too few. No clause says that there is
/// one: the record is then read part by part.
#[inline(always)]
pub fn piece_of<'b>(pieces: Pieces<'b>, field: usize) -> Option<&'b [u8]>
    ensures { IfSome result (λ content. content.now ≡ piece pieces.entry.bytes.now pieces.entry.ends.now field) }
{
    let (bytes, ends) = (pieces.bytes, pieces.ends);
    if field >= ends.len() {
        return None;
    }
    let next = field + 1;
    if next >= ends.len() {
        return None;
    }
    let start = ends[field];
    let end = ends[next];
    if start > end || end > bytes.len() {
        return None;
    }
    Some(&bytes[start..end])
}
