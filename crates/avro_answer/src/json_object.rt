//! JSON objects whose members keep the order in which they are added.

ghost use Rattle.std.specs.Prelude.{◌≡◌, ◌++◌, ◌∷◌, [], false, IfOk, OnOk, string_bytes, decimal};
ghost use Rattle.serde_json.specs.Data.{array, boolean, number, string, unsigned};
ghost use Rattle.serde_json.specs.Written.{comma_if, compact_text, items_text};
ghost use Rattle.avro_answer.specs.JsonAnswer.{number_items};

use serde_json::Value;
use std::alloc::{AllocError, Global};

/// A JSON object under construction. The keys of a `serde_json::Map` would be in byte order; here they are in the order
/// added.
#[derive(Drop)]
pub(crate) struct JsonObject {
    // The text so far, without its end.
    text: String,
    // It has a member.
    later: bool,
}

impl JsonObject {
    ghost use Rattle.avro_answer.specs.inside.JsonText.{PutsMember};

    /// An object without members.
    pub(crate) fn new(alloc: Global) -> Result<JsonObject, AllocError>
        ensures { IfOk result (λ object. (string_bytes object.text ≡ 123 ∷ []) × (object.later ≡ false)) }
    {
        let text = String::from_str(alloc, "{")?;
        Ok(JsonObject { text, later: false })
    }

    /// Its allocator.
    pub(crate) fn allocator(&self) -> &Global {
        self.text.allocator()
    }

    /// Puts the key of a member whose value comes next.
    pub(crate) fn put_key(&mut self, key: &str) -> Result<(), AllocError>
        ensures { OnOk result (PutsMember self.old key.now [] self.new) }
    {
        append_comma(&mut self.text, self.later)?;
        append_quoted(&mut self.text, key)?;
        self.text.push_str(":")?;
        self.later = true;
        Ok(())
    }

    /// Puts a member whose value is a text of JSON.
    pub(crate) fn put_json(&mut self, key: &str, json: &str) -> Result<(), AllocError>
        ensures { OnOk result (PutsMember self.old key.now json.now self.new) }
    {
        self.put_key(key)?;
        self.text.push_str(json)
    }

    /// Puts a member whose value is a text.
    pub(crate) fn put_text(&mut self, key: &str, text: &str) -> Result<(), AllocError>
        ensures { OnOk result (PutsMember self.old key.now (compact_text (string text.now)) self.new) }
    {
        self.put_key(key)?;
        append_quoted(&mut self.text, text)
    }

    /// Puts a member whose value is true or false.
    pub(crate) fn put_bool(&mut self, key: &str, value: bool) -> Result<(), AllocError>
        ensures { OnOk result (PutsMember self.old key.now (compact_text (boolean value)) self.new) }
    {
        if value {
            self.put_json(key, "true")
        } else {
            self.put_json(key, "false")
        }
    }

    /// Puts a member whose value is a number.
    pub(crate) fn put_number(&mut self, key: &str, value: u64) -> Result<(), AllocError>
        ensures { OnOk result (PutsMember self.old key.now (compact_text (number (unsigned value))) self.new) }
    {
        self.put_key(key)?;
        append_number(&mut self.text, value)
    }

    /// Puts a member whose value is an array of numbers.
    pub(crate) fn put_numbers(&mut self, key: &str, values: &[usize]) -> Result<(), AllocError>
        ensures { OnOk result (PutsMember self.old key.now (compact_text (array (number_items values.now))) self.new) }
    {
        self.put_json(key, "[")?;
        append_numbers(&mut self.text, values)?;
        self.text.push_str("]")
    }

    /// The text of the object without its end.
    pub(crate) fn front(self) -> String
        ensures { string_bytes result ≡ string_bytes self.text }
    {
        self.text
    }

    /// The text of the object.
    pub(crate) fn json(mut self) -> Result<String, AllocError>
        ensures { IfOk result (λ json. string_bytes json ≡ string_bytes self.text ++ 125 ∷ []) }
    {
        self.text.push_str("}")?;
        Ok(self.text)
    }

    /// The line of the object.
    pub(crate) fn line(mut self) -> Result<String, AllocError>
        ensures { IfOk result (λ line. string_bytes line ≡ string_bytes self.text ++ 125 ∷ 10 ∷ []) }
    {
        self.text.push_str("}\n")?;
        Ok(self.text)
    }
}

/// Appends a comma, if something is before.
pub(crate) fn append_comma(text: &mut String, later: bool) -> Result<(), AllocError>
    ensures { OnOk result (string_bytes text.new ≡ string_bytes text.old ++ comma_if later) }
{
    if later { text.push_str(",") } else { Ok(()) }
}

/// Appends a text as JSON.
fn append_quoted(text: &mut String, part: &str) -> Result<(), AllocError>
    ensures { OnOk result (string_bytes text.new ≡ string_bytes text.old ++ compact_text (string part.now)) }
{
    let alloc = *text.allocator();
    let quoted = Value::try_from_str(alloc, part)?.to_string(alloc)?;
    text.push_str(&quoted)
}

/// Appends the digits of a number.
fn append_number(text: &mut String, number: u64) -> Result<(), AllocError>
    ensures { OnOk result (string_bytes text.new ≡ string_bytes text.old ++ decimal number) }
{
    let digits = number.to_string(*text.allocator())?;
    text.push_str(digits.as_str())
}

/// Appends numbers with commas between them.
fn append_numbers(text: &mut String, numbers: &[usize]) -> Result<(), AllocError>
    ensures { OnOk result (string_bytes text.new ++ 93 ∷ [] ≡ string_bytes text.old ++ items_text false (number_items numbers.now)) }
{
    let mut later = false;
    for number in numbers {
        append_comma(&mut *text, later)?;
        append_number(&mut *text, *number as u64)?;
        later = true;
    }
    Ok(())
}
