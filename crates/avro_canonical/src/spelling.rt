ghost use Rattle.std.specs.Prelude.{◌≡◌, ◌++◌, OnOk, string_bytes, map, codes, decimal};
ghost use Rattle.avro_schema.specs.Seen.{texts_of};
ghost use Rattle.avro_canonical.specs.Form.{quoted as in_quotes, full_text, with_commas};

use avro_name::FullName;
use avro_schema::Memory;
use std::alloc::Global;

/// Appends a text.
pub(crate) fn put(out: &mut String, text: &str) -> Result<(), Memory>
    ensures { OnOk result (string_bytes out.new ≡ string_bytes out.old ++ text.now) }
{
    out.push_str(text)?;
    Ok(())
}

/// Appends a text in quotes.
pub(crate) fn put_quoted(out: &mut String, text: &str) -> Result<(), Memory>
    ensures { OnOk result (string_bytes out.new ≡ string_bytes out.old ++ in_quotes text.now) }
{
    put(out, "\"")?;
    put(out, text)?;
    put(out, "\"")
}

/// Appends a fullname in quotes.
pub(crate) fn put_name(out: &mut String, name: &FullName) -> Result<(), Memory>
    ensures { OnOk result (string_bytes out.new ≡ string_bytes out.old ++ full_text name.now) }
{
    let namespace = name.namespace();
    if namespace.is_empty() {
        return put_quoted(out, name.simple());
    }
    put(out, "\"")?;
    put(out, namespace)?;
    put(out, ".")?;
    put(out, name.simple())?;
    put(out, "\"")
}

/// Appends the start of a named type's definition: its name and its type's keyword.
pub(crate) fn put_head(out: &mut String, name: &FullName, word: &str) -> Result<(), Memory>
    ensures { OnOk result (string_bytes out.new
        ≡ string_bytes out.old ++ codes "{\"name\":" ++ full_text name.now ++ codes ",\"type\":" ++ in_quotes word.now) }
{
    put(out, "{\"name\":")?;
    put_name(out, name)?;
    put(out, ",\"type\":")?;
    put_quoted(out, word)
}

/// Appends the symbols of an enum, quoted and separated by commas.
pub(crate) fn put_symbols(out: &mut String, symbols: &[String]) -> Result<(), Memory>
    ensures { OnOk result (string_bytes out.new ≡ string_bytes out.old ++ with_commas (map in_quotes (texts_of symbols.now))) }
{
    match symbols.split_first() {
        None => Ok(()),
        Some((first, others)) => {
            put_quoted(out, first.as_str())?;
            for symbol in others {
                put(out, ",")?;
                put_quoted(out, symbol.as_str())?;
            }
            Ok(())
        }
    }
}

/// Appends a number in decimal.
pub(crate) fn put_number(alloc: Global, out: &mut String, number: u32) -> Result<(), Memory>
    ensures { OnOk result (string_bytes out.new ≡ string_bytes out.old ++ decimal number) }
{
    let digits = number.to_string(alloc)?;
    put(out, digits.as_str())
}
