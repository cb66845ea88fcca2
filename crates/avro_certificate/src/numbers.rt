ghost use Rattle.std.specs.Prelude.{◌≡◌, ◌++◌, OnOk};
ghost use Rattle.avro_certificate.specs.CertificateText.{decimal};

use std::alloc::AllocError;

/// Appends a number in ASCII decimal digits, without leading zeros.
///
/// # Errors
///
/// Memory ran out.
pub fn append_decimal(text: &mut Vec<u8>, number: u64) -> Result<(), AllocError>
    ensures { OnOk result (text.new.items ≡ text.old.items ++ decimal number) }
{
    if number >= 10 {
        append_decimal(text, number / 10)?;
    }
    text.push(b'0' + (number % 10) as u8)?;
    Ok(())
}
