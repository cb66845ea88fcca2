//! Writing the text of a certificate.

ghost use Rattle.std.specs.Prelude.{◌≡◌, ◌++◌, flat_map, OnOk};
ghost use Rattle.avro_certificate.specs.CertificateText.{dead_line, pair_line, certificate_text};
ghost use Rattle.avro_certificate.specs.SeenPair.{pair_of, pairs_of};

use crate::numbers::append_decimal;
use std::alloc::AllocError;

/// Appends the text of a certificate with these lists.
pub(crate) fn write_text(
    text: &mut Vec<u8>,
    dead: &[u32],
    pairs: &[(u32, u32)],
) -> Result<(), AllocError>
    ensures { OnOk result (text.new.items ≡ text.old.items ++ certificate_text dead.now (pairs_of pairs.now)) }
{
    text.extend_from_slice(b"approval 1\n")?;
    write_dead(text, dead)?;
    write_pairs(text, pairs)?;
    text.extend_from_slice(b"end\n")?;
    Ok(())
}

/// Appends a line for each dead node.
fn write_dead(text: &mut Vec<u8>, dead: &[u32]) -> Result<(), AllocError>
    ensures { OnOk result (text.new.items ≡ text.old.items ++ flat_map dead_line dead.now) }
{
    for number in dead {
        write_dead_node(text, *number)?;
    }
    Ok(())
}

/// Appends the line for a dead node.
fn write_dead_node(text: &mut Vec<u8>, number: u32) -> Result<(), AllocError>
    ensures { OnOk result (text.new.items ≡ text.old.items ++ dead_line number) }
{
    text.extend_from_slice(b"dead ")?;
    append_decimal(text, u64::from(number))?;
    text.push(b'\n')?;
    Ok(())
}

/// Appends a line for each pair.
fn write_pairs(text: &mut Vec<u8>, pairs: &[(u32, u32)]) -> Result<(), AllocError>
    ensures { OnOk result (text.new.items ≡ text.old.items ++ flat_map pair_line (pairs_of pairs.now)) }
{
    for pair in pairs {
        write_pair(text, *pair)?;
    }
    Ok(())
}

/// Appends the line for a pair.
fn write_pair(text: &mut Vec<u8>, pair: (u32, u32)) -> Result<(), AllocError>
    ensures { OnOk result (text.new.items ≡ text.old.items ++ pair_line (pair_of pair)) }
{
    text.extend_from_slice(b"pair ")?;
    append_decimal(text, u64::from(pair.0))?;
    text.push(b' ')?;
    append_decimal(text, u64::from(pair.1))?;
    text.push(b'\n')?;
    Ok(())
}
