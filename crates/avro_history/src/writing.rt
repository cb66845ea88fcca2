//! Writing the text of a history.

ghost use Rattle.std.specs.Prelude.{◌≡◌, true, ◌++◌, flat_map, map, OnOk};
ghost use Rattle.std.specs.List.{list_all};
ghost use Rattle.avro_history.specs.HistoryText.{history_text, sets_text, do_rise};
ghost use Rattle.avro_history.specs.SeenHistory.{set_of};

use avro_judge::Certificate;
use avro_schema::Memory;
use std::alloc::Global;

/// Appends the text of the history of these certificates.
pub(crate) fn write_history(
    alloc: Global,
    text: &mut Vec<u8>,
    certificates: &[Certificate],
) -> Result<(), Memory>
    ensures written { OnOk result (text.new.items ≡ text.old.items ++ history_text (map set_of certificates.now)) }
    ensures rising { OnOk result (list_all do_rise (map set_of certificates.now) ≡ true) }
{
    append(text, b"history 1\n")?;
    write_certificates(alloc, text, certificates)?;
    append(text, b"end\n")?;
    Ok(())
}

/// Appends the texts of certificates, in order.
fn write_certificates(
    alloc: Global,
    text: &mut Vec<u8>,
    certificates: &[Certificate],
) -> Result<(), Memory>
    ensures written { OnOk result (text.new.items ≡ text.old.items ++ flat_map sets_text (map set_of certificates.now)) }
    ensures rising { OnOk result (list_all do_rise (map set_of certificates.now) ≡ true) }
{
    for certificate in certificates {
        write_certificate(alloc, text, certificate)?;
    }
    Ok(())
}

/// Appends the text of a certificate.
fn write_certificate(
    alloc: Global,
    text: &mut Vec<u8>,
    certificate: &Certificate,
) -> Result<(), Memory>
    ensures written { OnOk result (text.new.items ≡ text.old.items ++ sets_text (set_of certificate.now)) }
    ensures rising { OnOk result (do_rise (set_of certificate.now) ≡ true) }
{
    let written = certificate.write(alloc)?;
    append(text, &written)?;
    Ok(())
}

/// Appends bytes.
fn append(text: &mut Vec<u8>, bytes: &[u8]) -> Result<(), Memory>
    ensures { OnOk result (text.new.items ≡ text.old.items ++ bytes.now) }
{
    text.extend_from_slice(bytes)?;
    Ok(())
}
