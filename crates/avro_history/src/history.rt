use crate::reading::{after, read_certificates};
use crate::writing::write_history;
use avro_judge::{CertError, Certificate};
use avro_schema::Memory;
use std::alloc::Global;

/// Certificates, in the order of their writers' schemas.
#[derive(Debug, Drop)]
pub struct HistoryCert {
    certificates: Vec<Certificate>,
}

impl HistoryCert {
    ghost use Rattle.std.specs.Prelude.{◌≡◌, true, List, map, IfOk};
    ghost use Rattle.std.specs.Result.{IfErr};
    ghost use Rattle.avro_history.specs.HistoryText.{Sets, HistoryText, all_small};
    ghost use Rattle.avro_history.specs.HistoryRead.{Refuses, UnlessOutOfMemory};
    ghost use Rattle.avro_history.specs.SeenHistory.{set_of, sets_of};

    /// The history of any number of certificates.
    pub fn new(certificates: Vec<Certificate>) -> HistoryCert
        ensures { sets_of result ≡ map set_of certificates.items }
    {
        HistoryCert { certificates }
    }

    /// Reads the text of a history.
    ///
    /// # Errors
    ///
    /// `NumberTooLarge` if the lines are those of a history except for numbers over 4,095, however long;
    /// `Malformed` for any other text; `OutOfMemory`.
    pub fn read(alloc: Global, text: &[u8]) -> Result<HistoryCert, CertError>
        // The result is the history with this text.
        ensures found { IfOk result (λ h. HistoryText (sets_of h) text.now) }
        ensures small { IfOk result (λ h. all_small (sets_of h) ≡ true) }
        // Each history's text with numbers up to 4,095 is read.
        ensures complete { (sets : List Sets) → HistoryText sets text.now → all_small sets ≡ true
            → UnlessOutOfMemory result (λ h. sets_of h ≡ sets) }
        // A refusal says what is wrong with the text.
        ensures refused { IfErr result (λ e. Refuses e text.now) }
    {
        let Some(lines) = after(text, b"history 1\n") else {
            return Err(CertError::Malformed);
        };
        let certificates = read_certificates(alloc, lines)?;
        Ok(HistoryCert { certificates })
    }

    /// The text, which [`HistoryCert::read`] reads back.
    ///
    /// # Errors
    ///
    /// Memory ran out.
    pub fn write(&self, alloc: Global) -> Result<Vec<u8>, Memory>
        ensures { IfOk result (λ text. HistoryText (sets_of self.now) text.items) }
    {
        let mut text = Vec::new(alloc);
        write_history(alloc, &mut text, &self.certificates)?;
        Ok(text)
    }

    /// The certificates, in order.
    pub(crate) fn certificates(&self) -> &[Certificate]
        ensures { map set_of result.now ≡ sets_of self.now }
    {
        &self.certificates
    }
}
