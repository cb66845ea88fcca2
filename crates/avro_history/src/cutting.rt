//! Finding the end of the first of several certificates.

ghost use Rattle.std.specs.Prelude.{◌≡◌, ◌≤◌, List, ℕ, ◌++◌, length};
ghost use Rattle.avro_history.specs.HistoryText.{Sets, sets_text};

/// Splits a text after the certificate that it starts with. A text without one may be split anywhere.
pub(crate) fn split_certificate(text: &[u8]) -> (&[u8], &[u8])
    ensures whole { text.now ≡ result.0.now ++ result.1.now }
    ensures parted { (s : Sets) (more : List ℕ) → text.now ≡ sets_text s ++ more → (result.0.now ≡ sets_text s) × (result.1.now ≡ more) }
{
    text.split_at(certificate_len(text))
}

/// The length of the certificate at the start of a text. Only its last line contains an `n`, as the second
/// letter.
fn certificate_len(text: &[u8]) -> usize
    ensures within { result ≤ length text.now }
    ensures exact { (s : Sets) (more : List ℕ) → text.now ≡ sets_text s ++ more → result ≡ length (sets_text s) }
{
    for (i, byte) in text.iter().enumerate() {
        if *byte == b'n' {
            return text.len().min(i + 3);
        }
    }
    text.len()
}
