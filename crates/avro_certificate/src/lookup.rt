//! Looking up nodes and pairs in a certificate.

ghost use Rattle.std.specs.Prelude.{◌≡◌, ◌||◌, true, false};
ghost use Rattle.std.specs.List.Sorted.{IsPartitionPoint};
ghost use Rattle.avro_certificate.specs.CertificateText.{is_before, is_rising};
ghost use Rattle.avro_certificate.specs.Closed.{is_among, is_among_pairs};
ghost use Rattle.avro_certificate.specs.SeenCertificate.{dead_of, pairs_in};
ghost use Rattle.avro_certificate.specs.SeenPair.{pair_of, pairs_of};

use crate::kept::Certificate;

/// Whether a pair is accounted for: its writer's node is dead, or the certificate has the pair.
pub(crate) fn has(certificate: &Certificate, w: u32, r: u32) -> bool
    ensures { result ≡ (is_among (dead_of certificate.now) w || is_among_pairs (pairs_in certificate.now) (record { w = w; r = r })) }
{
    has_dead(certificate, w) || has_pair(certificate, w, r)
}

/// Whether a node is one of the dead nodes.
pub(crate) fn has_dead(certificate: &Certificate, number: u32) -> bool
    ensures { result ≡ is_among (dead_of certificate.now) number }
{
    certificate.dead().binary_search(&number).is_ok()
}

/// Whether the certificate has a pair.
fn has_pair(certificate: &Certificate, w: u32, r: u32) -> bool
    ensures { result ≡ is_among_pairs (pairs_in certificate.now) (record { w = w; r = r }) }
{
    let pairs = certificate.pairs();
    let position = position_of(pairs, (w, r));
    match pairs.get(position) {
        None => false,
        Some(pair) => pair.0 == w && pair.1 == r,
    }
}

/// The position of the first of some increasing pairs that is not less than `other`, by binary search.
fn position_of(pairs: &[(u32, u32)], other: (u32, u32)) -> usize
    ensures { is_rising is_before (pairs_of pairs.now) ≡ true
        → IsPartitionPoint (λ y. is_before (pair_of y) (pair_of other) ≡ true) (λ y. is_before (pair_of y) (pair_of other) ≡ false) pairs.now result }
{
    let mut low = 0;
    let mut high = pairs.len();
    while low < high {
        let middle = low + (high - low) / 2;
        if comes_before(pairs[middle], other) {
            low = middle + 1;
        } else {
            high = middle;
        }
    }
    low
}

fn comes_before(pair: (u32, u32), other: (u32, u32)) -> bool
    ensures { result ≡ is_before (pair_of pair) (pair_of other) }
{
    pair.0 < other.0 || (pair.0 == other.0 && pair.1 < other.1)
}
