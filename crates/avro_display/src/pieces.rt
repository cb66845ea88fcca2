//! Text that goes out in pieces.

ghost use Rattle.std.specs.Prelude.{◌≡◌, ◌≢◌, ◌⊎◌, ◌++◌, ◌∷◌, [], OnOk, OnErr, IsErrOf, encode_utf8_all};
ghost use Rattle.json.specs.Print.{quoted, token_text};
ghost use Rattle.json.specs.Token.{boolean, null};
ghost use Rattle.serde_json.specs.Find.{of_integer};
ghost use Rattle.serde_json.specs.Written.{number_text};
ghost use Rattle.avro_device.specs.PutFront.{PutsFrontOf};
ghost use Rattle.avro_display.specs.Pieces.{PutsText};
ghost use Rattle.avro_display.specs.declared.put_error.PutError.{PutError};

use crate::put_error::PutError;
use crate::text::Text;
use avro_device::{Output, put_all};

/// A longer text is put in several pieces.
const PIECE: usize = 1_048_576;

/// Puts and clears a text if it is long.
///
/// # Errors
///
/// The output failed, or took none of the bytes: a prefix of the text was put.
pub(crate) fn put_piece<O: Output>(out: &mut O, text: &mut Text) -> Result<(), PutError>
    ensures put { OnOk result (PutsText O.keeps out.old text.old [] out.new text.new) }
    ensures front { OnErr result (PutsFrontOf O.keeps out.old out.new text.old) }
    ensures works { OnOk result (O.failures out.new ≡ O.failures out.old) }
    ensures fails { IsErrOf result PutError.CannotWrite → (O.failures out.new ≢ O.failures out.old) ⊎ O.stuck out.new }
    ensures memory { IsErrOf result PutError.OutOfMemory → O.failures out.new ≡ O.failures out.old }
{
    if text.len() <= PIECE {
        return Ok(());
    }
    put_all(out, text.as_slice())?;
    text.clear();
    Ok(())
}

/// Appends bytes, and puts all if it is long.
pub(crate) fn put_plain<O: Output>(
    out: &mut O,
    text: &mut Text,
    bytes: &[u8],
) -> Result<(), PutError>
    ensures put { OnOk result (PutsText O.keeps out.old text.old bytes.now out.new text.new) }
    ensures front { OnErr result (PutsFrontOf O.keeps out.old out.new (text.old ++ bytes.now)) }
    ensures works { OnOk result (O.failures out.new ≡ O.failures out.old) }
    ensures fails { IsErrOf result PutError.CannotWrite → (O.failures out.new ≢ O.failures out.old) ⊎ O.stuck out.new }
    ensures memory { IsErrOf result PutError.OutOfMemory → O.failures out.new ≡ O.failures out.old }
{
    text.append(bytes)?;
    put_piece(out, text)
}

/// Appends a byte, and puts all if it is long.
///
/// # Errors
///
/// The output failed, or took none of the bytes; memory ran out. A prefix of what the text held and then the byte was put.
pub fn put_byte<O: Output>(out: &mut O, text: &mut Text, byte: u8) -> Result<(), PutError>
    ensures put { OnOk result (PutsText O.keeps out.old text.old (byte ∷ []) out.new text.new) }
    ensures front { OnErr result (PutsFrontOf O.keeps out.old out.new (text.old ++ byte ∷ [])) }
    ensures works { OnOk result (O.failures out.new ≡ O.failures out.old) }
    ensures fails { IsErrOf result PutError.CannotWrite → (O.failures out.new ≢ O.failures out.old) ⊎ O.stuck out.new }
    ensures memory { IsErrOf result PutError.OutOfMemory → O.failures out.new ≡ O.failures out.old }
{
    text.append_byte(byte)?;
    put_piece(out, text)
}

/// Appends null, and puts all if it is long.
pub(crate) fn put_null<O: Output>(out: &mut O, text: &mut Text) -> Result<(), PutError>
    ensures put { OnOk result (PutsText O.keeps out.old text.old (token_text null) out.new text.new) }
    ensures front { OnErr result (PutsFrontOf O.keeps out.old out.new (text.old ++ token_text null)) }
    ensures works { OnOk result (O.failures out.new ≡ O.failures out.old) }
    ensures fails { IsErrOf result PutError.CannotWrite → (O.failures out.new ≢ O.failures out.old) ⊎ O.stuck out.new }
    ensures memory { IsErrOf result PutError.OutOfMemory → O.failures out.new ≡ O.failures out.old }
{
    text.append_null()?;
    put_piece(out, text)
}

/// Appends a boolean, and puts all if it is long.
pub(crate) fn put_bool<O: Output>(out: &mut O, text: &mut Text, value: bool) -> Result<(), PutError>
    ensures put { OnOk result (PutsText O.keeps out.old text.old (token_text (boolean value)) out.new text.new) }
    ensures front { OnErr result (PutsFrontOf O.keeps out.old out.new (text.old ++ token_text (boolean value))) }
    ensures works { OnOk result (O.failures out.new ≡ O.failures out.old) }
    ensures fails { IsErrOf result PutError.CannotWrite → (O.failures out.new ≢ O.failures out.old) ⊎ O.stuck out.new }
    ensures memory { IsErrOf result PutError.OutOfMemory → O.failures out.new ≡ O.failures out.old }
{
    text.append_bool(value)?;
    put_piece(out, text)
}

/// Appends the digits of a number, and puts all if it is long.
pub(crate) fn put_number<O: Output>(
    out: &mut O,
    text: &mut Text,
    number: i64,
) -> Result<(), PutError>
    ensures put { OnOk result (PutsText O.keeps out.old text.old (number_text (of_integer number)) out.new text.new) }
    ensures front { OnErr result (PutsFrontOf O.keeps out.old out.new (text.old ++ number_text (of_integer number))) }
    ensures works { OnOk result (O.failures out.new ≡ O.failures out.old) }
    ensures fails { IsErrOf result PutError.CannotWrite → (O.failures out.new ≢ O.failures out.old) ⊎ O.stuck out.new }
    ensures memory { IsErrOf result PutError.OutOfMemory → O.failures out.new ≡ O.failures out.old }
{
    text.append_number(number)?;
    put_piece(out, text)
}

/// Appends a quoted text, and puts all if it is long.
pub(crate) fn put_quoted<O: Output>(
    out: &mut O,
    text: &mut Text,
    string: &str,
) -> Result<(), PutError>
    ensures put { OnOk result (PutsText O.keeps out.old text.old (quoted string.now) out.new text.new) }
    ensures front { OnErr result (PutsFrontOf O.keeps out.old out.new (text.old ++ quoted string.now)) }
    ensures works { OnOk result (O.failures out.new ≡ O.failures out.old) }
    ensures fails { IsErrOf result PutError.CannotWrite → (O.failures out.new ≢ O.failures out.old) ⊎ O.stuck out.new }
    ensures memory { IsErrOf result PutError.OutOfMemory → O.failures out.new ≡ O.failures out.old }
{
    text.append_quoted(string)?;
    put_piece(out, text)
}

/// Appends bytes as a quoted text of one character per byte, and puts all if it is long.
pub(crate) fn put_characters<O: Output>(
    out: &mut O,
    text: &mut Text,
    bytes: &[u8],
) -> Result<(), PutError>
    ensures put { OnOk result (PutsText O.keeps out.old text.old (quoted (encode_utf8_all bytes.now)) out.new text.new) }
    ensures front { OnErr result (PutsFrontOf O.keeps out.old out.new (text.old ++ quoted (encode_utf8_all bytes.now))) }
    ensures works { OnOk result (O.failures out.new ≡ O.failures out.old) }
    ensures fails { IsErrOf result PutError.CannotWrite → (O.failures out.new ≢ O.failures out.old) ⊎ O.stuck out.new }
    ensures memory { IsErrOf result PutError.OutOfMemory → O.failures out.new ≡ O.failures out.old }
{
    text.append_characters(bytes)?;
    put_piece(out, text)
}
