ghost use Rattle.std.specs.Prelude.{◌≡◌, true, nat_lt};
ghost use Rattle.avro_certificate.specs.CertificateText.{is_rising, is_before, are_small};
ghost use Rattle.avro_certificate.specs.SeenPair.{pairs_of};

use crate::checks::{are_small, numbers_rise, pairs_rise};
use crate::error::CertError;
use crate::sets::read_sets;
use crate::writing::write_text;
use avro_schema::Memory;
use std::alloc::Global;

/// Nodes of a writer's schema that have no datum, and pairs of nodes. Each list is strictly increasing,
/// pairs by the writer's node and then by the reader's, and no number is over 4,095.
#[derive(Debug, Drop)]
pub struct Certificate {
    dead: Vec<u32>,
    pairs: Vec<(u32, u32)>,
    ghost rising: { is_rising nat_lt dead.items ≡ true },
    ghost rising_pairs: { is_rising is_before (pairs_of pairs.items) ≡ true },
    ghost small: { are_small dead.items (pairs_of pairs.items) ≡ true },
}

impl Certificate {
    ghost use Rattle.std.specs.Prelude.{◌≡◌, ℕ, true, nat_lt, List, IfOk};
    ghost use Rattle.std.specs.Result.{IfErr};
    ghost use Rattle.avro_certificate.specs.CertificateText.{CertText, is_rising, is_before, are_small};
    ghost use Rattle.avro_certificate.specs.CertificateRead.{Refuses, UnlessOutOfMemory};
    ghost use Rattle.avro_compare.specs.Children.{Pair};
    ghost use Rattle.avro_certificate.specs.SeenCertificate.{dead_of, pairs_in};
    ghost use Rattle.avro_certificate.specs.SeenPair.{pairs_of};

    /// The greatest length of a text. No certificate with numbers up to 4,095 has a longer one.
    pub const MAX_LEN: usize = 268_435_456;

    /// Reads the text of a certificate.
    ///
    /// # Errors
    ///
    /// `NumberTooLarge` if the lines are those of a certificate except for numbers over 4,095, however
    /// long; `Malformed` for any other text; `OutOfMemory`.
    pub fn read(alloc: Global, text: &[u8]) -> Result<Certificate, CertError>
        // The result is the certificate with this text.
        ensures found { IfOk result (λ c. CertText (dead_of c) (pairs_in c) text.now) }
        ensures small { IfOk result (λ c. are_small (dead_of c) (pairs_in c) ≡ true) }
        // Each certificate's text with numbers up to 4,095 is read.
        ensures complete { (dead : List ℕ) (pairs : List Pair) → CertText dead pairs text.now → are_small dead pairs ≡ true
            → UnlessOutOfMemory result (λ c. (dead_of c ≡ dead) × (pairs_in c ≡ pairs)) }
        // A refusal says what is wrong with the text.
        ensures refused { IfErr result (λ e. Refuses e text.now) }
    {
        if text.len() > Certificate::MAX_LEN {
            return Err(CertError::Malformed);
        }
        let (dead, pairs) = read_sets(alloc, text)?;
        if !are_small(&dead, &pairs) {
            return Err(CertError::NumberTooLarge);
        }
        if !numbers_rise(&dead) {
            return Err(CertError::Malformed);
        }
        if !pairs_rise(&pairs) {
            return Err(CertError::Malformed);
        }
        Ok(Certificate { dead, pairs })
    }

    /// Makes a certificate from its two lists.
    pub fn of(dead: Vec<u32>, pairs: Vec<(u32, u32)>) -> Certificate
        requires rising { is_rising nat_lt dead.items ≡ true }
        requires rising_pairs { is_rising is_before (pairs_of pairs.items) ≡ true }
        requires small { are_small dead.items (pairs_of pairs.items) ≡ true }
        ensures dead { dead_of result ≡ dead.items }
        ensures pairs { pairs_in result ≡ pairs_of pairs.items }
    {
        Certificate { dead, pairs }
    }

    /// A copy of the certificate.
    ///
    /// # Errors
    ///
    /// Memory ran out.
    pub fn try_clone(&self, alloc: Global) -> Result<Certificate, Memory>
        ensures { IfOk result (λ c. (dead_of c ≡ dead_of self.now) × (pairs_in c ≡ pairs_in self.now)) }
    {
        match (self.dead.to_vec(alloc), self.pairs.to_vec(alloc)) {
            (Ok(dead), Ok(pairs)) => Ok(Certificate { dead, pairs }),
            _ => Err(Memory),
        }
    }

    /// The text, which [`Certificate::read`] reads back.
    ///
    /// # Errors
    ///
    /// Memory ran out.
    pub fn write(&self, alloc: Global) -> Result<Vec<u8>, Memory>
        ensures { IfOk result (λ text. CertText (dead_of self.now) (pairs_in self.now) text.items) }
    {
        let mut text = Vec::new(alloc);
        write_text(&mut text, &self.dead, &self.pairs)?;
        Ok(text)
    }

    /// The writer's nodes that have no datum.
    pub(crate) fn dead(&self) -> &[u32]
        ensures numbers { result.now ≡ dead_of self.now }
        ensures rising { is_rising nat_lt (dead_of self.now) ≡ true }
        ensures small { are_small (dead_of self.now) (pairs_in self.now) ≡ true }
    {
        &self.dead
    }

    /// The pairs of a writer's and a reader's node.
    pub fn pairs(&self) -> &[(u32, u32)]
        ensures pairs { pairs_of result.now ≡ pairs_in self.now }
        ensures rising { is_rising is_before (pairs_in self.now) ≡ true }
        ensures small { are_small (dead_of self.now) (pairs_in self.now) ≡ true }
    {
        &self.pairs
    }
}
