//! Appending bytes and numbers.

ghost use Rattle.std.specs.Prelude.{◌≡◌, ◌++◌, [], ◌∷◌, List, ℕ, OnErr, OnOk};
ghost use Rattle.avro_zigzag.specs.Number.{AreLeastGroups, number_bytes};
ghost use Rattle.avro_binary.specs.Outputs.{Grows};

use avro_zigzag::to_zigzag;
use std::alloc::AllocError;

/// Appends a byte. Where there is room for it, that takes no call.
#[inline(always)]
pub(crate) fn append_byte(byte: u8, out: &mut Vec<u8>) -> Result<(), AllocError>
    ensures appended { OnOk result (out.new.items ≡ out.old.items ++ byte ∷ []) }
    ensures unchanged { OnErr result (out.new.items ≡ out.old.items) }
    ensures stays { (front : List ℕ) → Grows front out.old.items → Grows front out.new.items }
{
    if out.len() < out.capacity() {
        out.push_reserved(byte);
        return Ok(());
    }
    out.push(byte)?;
    Ok(())
}

/// Appends bytes at hand.
#[inline(always)]
pub(crate) fn append_bytes(content: &[u8], out: &mut Vec<u8>) -> Result<(), AllocError>
    ensures appended { OnOk result (out.new.items ≡ out.old.items ++ content.now) }
    ensures unchanged { OnErr result (out.new.items ≡ out.old.items) }
    ensures stays { (front : List ℕ) → Grows front out.old.items → Grows front out.new.items }
{
    if content.len() == 1 {
        return append_byte(content[0], out);
    }
    out.extend_from_slice(content)
}

/// Appends a number in its shortest spelling.
#[inline(always)]
pub(crate) fn append_number(number: i64, out: &mut Vec<u8>) -> Result<(), AllocError>
    ensures appended { OnOk result (out.new.items ≡ out.old.items ++ number_bytes number) }
    ensures stays { (front : List ℕ) → Grows front out.old.items → Grows front out.new.items }
{
    let folded = to_zigzag(number);
    if folded < 128 {
        return append_byte(folded as u8, out);
    }
    append_groups(folded, out)
}

/// Appends the groups of a number, no more than it takes.
fn append_groups(number: u64, out: &mut Vec<u8>) -> Result<(), AllocError>
    ensures appended { OnOk result ((groups : List ℕ) × AreLeastGroups number groups × (out.new.items ≡ out.old.items ++ groups)) }
    ensures stays { (front : List ℕ) → Grows front out.old.items → Grows front out.new.items }
{
    let mut rest = number;
    while rest >= 128 {
        append_byte(128 + (rest % 128) as u8, out)?;
        rest >>= 7;
    }
    append_byte(rest as u8, out)
}
