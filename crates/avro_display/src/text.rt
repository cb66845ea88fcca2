ghost use Rattle.std.specs.Prelude.{◌≡◌, ◌++◌, ◌∷◌, [], OnErr, OnOk, encode_utf8_all, length, string_bytes, take};
ghost use Rattle.json.specs.Print.{IsPrintable, print, quoted, token_text};
ghost use Rattle.json.specs.Reads.{token_of};
ghost use Rattle.json.specs.Token.{boolean, null};
ghost use Rattle.serde_json.specs.Find.{of_integer};
ghost use Rattle.serde_json.specs.Written.{comma_if, number_text};
ghost use Rattle.avro_display.specs.Table.{head_text};

use json::{Token, Writer};
use std::alloc::{AllocError, Global};
use std::marker::Model;
use std::mem::replace;

/// A text to which the parts of a display are appended. Its buffers are kept from part to part.
#[derive(Drop)]
pub struct Text {
    held: Vec<u8>,
    // what the last token was written to
    token: Vec<u8>,
    // the last text of one character per byte
    characters: String,
}

impl Model for Text {
    ghost use Rattle.std.specs.Prelude.{ℕ, List};

    ghost Value = { List ℕ };

    ghost view = { λ t. t.held.items };
}

impl Text {
    /// An empty text.
    pub fn new(alloc: Global) -> Text
        ensures { result ≡ [] }
    {
        Text::holding(Vec::new(alloc))
    }

    /// A text that holds some bytes.
    pub fn holding(held: Vec<u8>) -> Text
        ensures { result ≡ held.items }
    {
        let token = Vec::new(*held.allocator());
        let characters = String::new(*held.allocator());
        Text {
            held,
            token,
            characters,
        }
    }

    /// Its bytes.
    pub fn into_inner(self) -> Vec<u8>
        ensures { result.items ≡ self }
    {
        self.held
    }

    /// Its bytes.
    pub fn as_slice(&self) -> &[u8]
        ensures { result.now ≡ self.now }
    {
        &self.held
    }

    /// The number of its bytes.
    pub fn len(&self) -> usize
        ensures { result ≡ length self.now }
    {
        self.held.len()
    }

    /// Empties it.
    pub fn clear(&mut self)
        ensures { self.new ≡ [] }
    {
        self.held.clear();
    }

    /// Keeps its first bytes.
    pub fn truncate(&mut self, len: usize)
        ensures { self.new ≡ take len self.old }
    {
        self.held.truncate(len);
    }

    /// The allocator of its bytes.
    pub(crate) fn allocator(&self) -> Global {
        *self.held.allocator()
    }

    /// Appends a byte.
    pub fn append_byte(&mut self, byte: u8) -> Result<(), AllocError>
        ensures appended { OnOk result (self.new ≡ self.old ++ byte ∷ []) }
        ensures unchanged { OnErr result (self.new ≡ self.old) }
    {
        self.held.push(byte)?;
        Ok(())
    }

    /// Appends bytes.
    pub fn append(&mut self, bytes: &[u8]) -> Result<(), AllocError>
        ensures appended { OnOk result (self.new ≡ self.old ++ bytes.now) }
        ensures unchanged { OnErr result (self.new ≡ self.old) }
    {
        self.held.extend_from_slice(bytes)
    }

    /// Appends null. No clause says what the text holds after an error.
    pub fn append_null(&mut self) -> Result<(), AllocError>
        ensures { OnOk result (self.new ≡ self.old ++ token_text null) }
    {
        append_token(&mut self.held, &mut self.token, Token::Null)
    }

    /// Appends a boolean. No clause says what the text holds after an error.
    pub fn append_bool(&mut self, value: bool) -> Result<(), AllocError>
        ensures { OnOk result (self.new ≡ self.old ++ token_text (boolean value)) }
    {
        append_token(&mut self.held, &mut self.token, Token::Bool(value))
    }

    /// Appends the digits of a number. No clause says what the text holds after an error.
    pub fn append_number(&mut self, number: i64) -> Result<(), AllocError>
        ensures { OnOk result (self.new ≡ self.old ++ number_text (of_integer number)) }
    {
        append_digits(&mut self.held, &mut self.token, number)
    }

    /// Appends a quoted text. No clause says what the text holds after an error.
    pub fn append_quoted(&mut self, string: &str) -> Result<(), AllocError>
        ensures { OnOk result (self.new ≡ self.old ++ quoted string.now) }
    {
        append_token(&mut self.held, &mut self.token, Token::String(string))
    }

    /// Appends bytes as a quoted text of one character per byte. No clause says what the text holds after an error.
    pub fn append_characters(&mut self, bytes: &[u8]) -> Result<(), AllocError>
        ensures { OnOk result (self.new ≡ self.old ++ quoted (encode_utf8_all bytes.now)) }
    {
        write_characters(&mut self.characters, bytes)?;
        let characters = Token::String(self.characters.as_str());
        append_token(&mut self.held, &mut self.token, characters)
    }

    /// Appends a key and its colon. No clause says what the text holds after an error.
    pub fn append_key(&mut self, key: &str) -> Result<(), AllocError>
        ensures { OnOk result (self.new ≡ self.old ++ head_text key.now) }
    {
        append_token(&mut self.held, &mut self.token, Token::Key(key))
    }

    /// Appends a comma, if something is before. No clause says what the text holds after an error.
    pub fn append_comma(&mut self, later: bool) -> Result<(), AllocError>
        ensures { OnOk result (self.new ≡ self.old ++ comma_if later) }
    {
        if later {
            self.append_byte(b',')
        } else {
            Ok(())
        }
    }

    /// Appends a comma, if something is before, and then a key with its colon. No clause says what the text holds after an error.
    pub fn append_entry_key(&mut self, later: bool, key: &str) -> Result<(), AllocError>
        ensures { OnOk result (self.new ≡ self.old ++ (comma_if later ++ head_text key.now)) }
    {
        self.append_comma(later)?;
        self.append_key(key)
    }
}

/// Writes a text of one character per byte, whose code point is the byte's value, in the place of a text.
fn write_characters(text: &mut String, bytes: &[u8]) -> Result<(), AllocError>
    ensures { OnOk result (string_bytes text.new ≡ encode_utf8_all bytes.now) }
{
    text.clear();
    for byte in bytes {
        text.push(char::from(*byte))?;
    }
    Ok(())
}

/// Appends a token to bytes.
fn append_token(
    held: &mut Vec<u8>,
    buffer: &mut Vec<u8>,
    token: Token<'_>,
) -> Result<(), AllocError>
    requires { IsPrintable (token_of token) }
    ensures { OnOk result (held.new.items ≡ held.old.items ++ token_text (token_of token.entry)) }
{
    let mut writer = writer_in(buffer);
    writer.token(token)?;
    append_written(held, buffer, writer)
}

/// Appends the digits of a number to bytes.
fn append_digits(held: &mut Vec<u8>, buffer: &mut Vec<u8>, number: i64) -> Result<(), AllocError>
    ensures { OnOk result (held.new.items ≡ held.old.items ++ number_text (of_integer number)) }
{
    let mut writer = writer_in(buffer);
    writer.i64(number)?;
    append_written(held, buffer, writer)
}

/// A writer of a token by a buffer, which is empty then.
fn writer_in(buffer: &mut Vec<u8>) -> Writer
    ensures before { result.before ≡ [] }
    ensures tokens { result.tokens ≡ [] }
{
    let alloc = *buffer.allocator();
    let mut taken = replace(buffer, Vec::new(alloc));
    taken.clear();
    Writer::new(taken)
}

/// Appends what was written to bytes, and keeps the buffer.
fn append_written(
    held: &mut Vec<u8>,
    buffer: &mut Vec<u8>,
    writer: Writer,
) -> Result<(), AllocError>
    ensures { OnOk result (held.new.items ≡ held.old.items ++ (writer.before ++ print writer.tokens)) }
{
    *buffer = writer.into_inner();
    held.extend_from_slice(buffer)
}
