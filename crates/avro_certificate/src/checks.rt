//! Checks on the lists of a certificate.

ghost use Rattle.std.specs.Prelude.{◌≡◌, nat_lt, option_map};
ghost use Rattle.std.specs.List.{list_all};
ghost use Rattle.avro_certificate.specs.CertificateText.{is_small, is_small_pair, are_small, is_rising, is_before};
ghost use Rattle.avro_certificate.specs.inside.CertificateLines.{follows};
ghost use Rattle.avro_certificate.specs.SeenPair.{pair_of, pairs_of};

/// The greatest node number in any schema.
const MAX_NUMBER: u32 = 4095;

/// Whether no number is over 4,095.
pub(crate) fn are_small(dead: &[u32], pairs: &[(u32, u32)]) -> bool
    ensures { result ≡ are_small dead.now (pairs_of pairs.now) }
{
    small_numbers(dead) && small_pairs(pairs)
}

fn small_numbers(numbers: &[u32]) -> bool
    ensures { result ≡ list_all is_small numbers.now }
{
    for number in numbers {
        if *number > MAX_NUMBER {
            return false;
        }
    }
    true
}

fn small_pairs(pairs: &[(u32, u32)]) -> bool
    ensures { result ≡ list_all is_small_pair (pairs_of pairs.now) }
{
    for pair in pairs {
        if pair.0 > MAX_NUMBER || pair.1 > MAX_NUMBER {
            return false;
        }
    }
    true
}

/// Whether the numbers are strictly increasing.
pub(crate) fn numbers_rise(numbers: &[u32]) -> bool
    ensures { result ≡ is_rising nat_lt numbers.now }
{
    let mut last = None;
    for number in numbers {
        if !number_follows(last, *number) {
            return false;
        }
        last = Some(*number);
    }
    true
}

fn number_follows(last: Option<u32>, number: u32) -> bool
    ensures { result ≡ follows nat_lt last number }
{
    match last {
        None => true,
        Some(before) => before < number,
    }
}

/// Whether the pairs are strictly increasing, by first number and then by second.
pub(crate) fn pairs_rise(pairs: &[(u32, u32)]) -> bool
    ensures { result ≡ is_rising is_before (pairs_of pairs.now) }
{
    let mut last = None;
    for pair in pairs {
        if !pair_follows(last, *pair) {
            return false;
        }
        last = Some(*pair);
    }
    true
}

fn pair_follows(last: Option<(u32, u32)>, pair: (u32, u32)) -> bool
    ensures { result ≡ follows is_before (option_map pair_of last) (pair_of pair) }
{
    match last {
        None => true,
        Some(before) => before.0 < pair.0 || (before.0 == pair.0 && before.1 < pair.1),
    }
}
