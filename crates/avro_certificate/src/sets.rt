//! Reading the two sets from a certificate's text.

ghost use Rattle.std.specs.Prelude.{◌≡◌, ℕ, List, ◌++◌, map, flat_map, IfOk};
ghost use Rattle.std.specs.Result.{IfErr};
ghost use Rattle.avro_certificate.specs.CertificateText.{dead_line, pair_line, certificate_text};
ghost use Rattle.avro_certificate.specs.inside.CertificateLines.{bounded, bounded_pair, NoneAhead};
ghost use Rattle.avro_compare.specs.Children.{Pair};
ghost use Rattle.avro_certificate.specs.SeenPair.{pairs_of};
ghost use Rattle.avro_certificate.specs.inside.CertificateSets.{RefusesSets};

use crate::error::CertError;
use crate::lines::{after, read_dead_line, read_pair_line};
use std::alloc::Global;

/// The nodes and the pairs in the lines of a text, in any order; 4,096 stands for all greater numbers.
pub(crate) fn read_sets(
    alloc: Global,
    text: &[u8],
) -> Result<(Vec<u32>, Vec<(u32, u32)>), CertError>
    ensures found { IfOk result (λ r. (dead : List ℕ) × (pairs : List Pair) × (text.now ≡ certificate_text dead pairs)
        × (r.0.items ≡ map bounded dead) × (pairs_of r.1.items ≡ map bounded_pair pairs)) }
    ensures refused { IfErr result (λ e. RefusesSets e text.now) }
{
    let Some(lines) = after(text, b"approval 1\n") else {
        return Err(CertError::Malformed);
    };
    let (dead, lines) = read_dead(alloc, lines)?;
    let (pairs, lines) = read_pairs(alloc, lines)?;
    if lines != b"end\n".as_slice() {
        return Err(CertError::Malformed);
    }
    Ok((dead, pairs))
}

/// The nodes in the dead-node lines at the start of a text, and the text after those lines.
fn read_dead(alloc: Global, text: &[u8]) -> Result<(Vec<u32>, &[u8]), CertError>
    ensures found { IfOk result (λ r. (dead : List ℕ) × (text.now ≡ flat_map dead_line dead ++ r.1.now) × (r.0.items ≡ map bounded dead)
        × NoneAhead dead_line r.1.now) }
    ensures refused { IfErr result (λ e. e ≡ CertError.OutOfMemory) }
{
    let mut dead = Vec::new(alloc);
    let mut rest = text;
    while let Some((number, more)) = read_dead_line(rest) {
        dead.push(number)?;
        rest = more;
    }
    Ok((dead, rest))
}

/// The pairs in the pair lines at the start of a text, and the text after those lines.
fn read_pairs(alloc: Global, text: &[u8]) -> Result<(Vec<(u32, u32)>, &[u8]), CertError>
    ensures found { IfOk result (λ r. (pairs : List Pair) × (text.now ≡ flat_map pair_line pairs ++ r.1.now) × (pairs_of r.0.items ≡ map bounded_pair pairs)
        × NoneAhead pair_line r.1.now) }
    ensures refused { IfErr result (λ e. e ≡ CertError.OutOfMemory) }
{
    let mut pairs = Vec::new(alloc);
    let mut rest = text;
    while let Some((pair, more)) = read_pair_line(rest) {
        pairs.push(pair)?;
        rest = more;
    }
    Ok((pairs, rest))
}
