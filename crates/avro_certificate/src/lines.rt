//! The lines of a certificate's text.

ghost use Rattle.std.specs.Prelude.{◌≡◌, ◌≢◌, ℕ, List, ◌++◌, ◌∷◌, MatchOption, ◌<◌, ◌-◌, length, slice_index};
ghost use Rattle.avro_certificate.specs.CertificateText.{decimal, dead_line, pair_line};
ghost use Rattle.avro_certificate.specs.inside.CertificateLines.{bounded, bounded_pair};
ghost use Rattle.avro_compare.specs.Children.{Pair};
ghost use Rattle.avro_certificate.specs.SeenPair.{pair_of};

/// One more than the greatest number in a certificate. Stands for all greater numbers.
const TOO_LARGE: u32 = 4096;

/// Parses a decimal number without leading zeros; 4,096 stands for all greater numbers.
fn number_of(numeral: &[u8]) -> Option<u32>
    ensures { MatchOption result ((n : ℕ) → numeral.now ≢ decimal n) (λ v. (n : ℕ) × (numeral.now ≡ decimal n) × (v ≡ bounded n)) }
{
    let mut number = 0;
    for (i, digit) in numeral.iter().enumerate() {
        if !digit.is_ascii_digit() {
            return None;
        }
        if i > 0 && number == 0 {
            return None;
        }
        number = TOO_LARGE.min(number * 10 + u32::from(*digit - b'0'));
    }
    if numeral.is_empty() {
        None
    } else {
        Some(number)
    }
}

/// The number of bytes before the first `stop`.
fn length_before(bytes: &[u8], stop: u8) -> Option<usize>
    ensures { MatchOption result ((k : ℕ) → k < length bytes.now → slice_index bytes.now k ≢ stop)
        (λ k. (k < length bytes.now) × (slice_index bytes.now k ≡ stop) × ((j : ℕ) → j < k → slice_index bytes.now j ≢ stop)) }
{
    for (i, byte) in bytes.iter().enumerate() {
        if *byte == stop {
            return Some(i);
        }
    }
    None
}

/// The text after the word that it starts with.
pub(crate) fn after<'a>(text: &'a [u8], word: &[u8]) -> Option<&'a [u8]>
    ensures { MatchOption result ((rest : List ℕ) → text.now ≢ word.now ++ rest) (λ rest. text.now ≡ word.now ++ rest.now) }
{
    text.strip_prefix(word)
}

/// The number at the start of a text, which `stop` ends, and the text after `stop`.
fn read_number(text: &[u8], stop: u8) -> Option<(u32, &[u8])>
    requires { stop < 48 }
    ensures { MatchOption result ((n : ℕ) (more : List ℕ) → text.now ≢ decimal n ++ (stop ∷ more))
        (λ r. (n : ℕ) × (text.now ≡ decimal n ++ (stop ∷ r.1.now)) × (r.0 ≡ bounded n)) }
{
    let length = length_before(text, stop)?;
    let number = number_of(&text[..length])?;
    Some((number, &text[length + 1..]))
}

/// The dead node in the first line of a text, and the text after that line.
pub(crate) fn read_dead_line(text: &[u8]) -> Option<(u32, &[u8])>
    ensures { MatchOption result ((n : ℕ) (more : List ℕ) → text.now ≢ dead_line n ++ more)
        (λ r. (n : ℕ) × (text.now ≡ dead_line n ++ r.1.now) × (r.0 ≡ bounded n)) }
{
    let numeral = after(text, b"dead ")?;
    read_number(numeral, b'\n')
}

/// The pair in the first line of a text, and the text after that line.
pub(crate) fn read_pair_line(text: &[u8]) -> Option<((u32, u32), &[u8])>
    ensures { MatchOption result ((p : Pair) (more : List ℕ) → text.now ≢ pair_line p ++ more)
        (λ r. (p : Pair) × (text.now ≡ pair_line p ++ r.1.now) × (pair_of r.0 ≡ bounded_pair p)) }
{
    let numerals = after(text, b"pair ")?;
    let (writer, numeral) = read_number(numerals, b' ')?;
    let (reader, rest) = read_number(numeral, b'\n')?;
    Some(((writer, reader), rest))
}
