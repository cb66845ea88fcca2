ghost use Rattle.std.specs.Prelude.{◌≡◌, ◌≤◌, ◌<◌, List, ℕ, Bool, length, take, drop, pos, IfSome, IfNone, IfOk, false, true};
ghost use Rattle.std.specs.Result.{IfErr};
ghost use Rattle.std.specs.Str.{is_utf8};
ghost use Rattle.avro_cursor.specs.Breaks.{StartsWithLong, ContentBreaks, BytesBreaks, StringBreaks, BooleanBreaks, IntBreaks, LongBreaks, FixedBreaks, IndexBreaks, is_index};
ghost use Rattle.avro_cursor.specs.Elements.{ReadsElement, ReadsKey, Refuses, ContentStands, IsBoolean, IsInt, IsLong, IsBytes, IsString, IsFixed, IsIndex};
ghost use Rattle.avro_cursor.specs.KeySet.{key_set};

use super::{Cursor, number_error};
use crate::error::ReadError;
use crate::keys::Keys;
use crate::text::text_of;
use avro_zigzag::{read_int, read_long};

impl<'a> Cursor<'a> {
    /// Reads a boolean: a byte 0 or 1.
    ///
    /// # Errors
    ///
    /// `EndOfInput`, `InvalidBoolean`.
    pub fn boolean(&mut self) -> Result<bool, ReadError>
        ensures { ReadsElement (λ b. b) IsBoolean BooleanBreaks self.old self.new result }
    {
        match self.rest().first() {
            None => Err(ReadError::EndOfInput {
                place: self.offset(),
            }),
            Some(0) => {
                self.pass(1);
                Ok(false)
            }
            Some(1) => {
                self.pass(1);
                Ok(true)
            }
            Some(_) => Err(ReadError::InvalidBoolean {
                place: self.offset(),
            }),
        }
    }

    /// Reads an int.
    ///
    /// # Errors
    ///
    /// `EndOfInput`, `InvalidNumber`.
    #[inline(always)]
    pub fn int(&mut self) -> Result<i32, ReadError>
        ensures { ReadsElement (λ v. v) IsInt IntBreaks self.old self.new result }
    {
        match read_int(self.rest()) {
            Ok((value, len)) => {
                self.pass(len);
                Ok(value)
            }
            Err(error) => Err(number_error(error, self.offset())),
        }
    }

    /// Reads a long.
    ///
    /// # Errors
    ///
    /// `EndOfInput`, `InvalidNumber`.
    #[inline(always)]
    pub fn long(&mut self) -> Result<i64, ReadError>
        ensures { ReadsElement (λ v. v) IsLong LongBreaks self.old self.new result }
    {
        match read_long(self.rest()) {
            Ok((number, len)) => {
                self.pass(len);
                Ok(number)
            }
            Err(error) => Err(number_error(error, self.offset())),
        }
    }

    /// Reads a fixed of this size.
    ///
    /// # Errors
    ///
    /// `LimitExceeded` if the size is over the limit, otherwise `EndOfInput`.
    pub fn fixed(&mut self, size: u32) -> Result<&'a [u8], ReadError>
        ensures { ReadsElement (λ content. content.now) (IsFixed size self.old.blob) (FixedBreaks size self.old.blob) self.old self.new result }
    {
        if size > self.blob {
            return Err(ReadError::LimitExceeded);
        }
        let size = size as usize;
        if size > self.rest().len() {
            return Err(ReadError::EndOfInput {
                place: self.offset(),
            });
        }
        Ok(self.pass(size))
    }

    /// Reads the index of a branch or a symbol, which must be below `choices`.
    ///
    /// # Errors
    ///
    /// `EndOfInput`, `InvalidNumber`, `UnknownIndex`.
    pub fn index(&mut self, choices: usize) -> Result<usize, ReadError>
        ensures { ReadsElement (λ n. n) (IsIndex choices) (IndexBreaks choices) self.old self.new result }
    {
        match read_int(self.rest()) {
            Ok((value, len)) => match index_of(value, choices) {
                Some(index) => {
                    self.pass(len);
                    Ok(index)
                }
                None => Err(ReadError::UnknownIndex {
                    place: self.offset(),
                }),
            },
            Err(error) => Err(number_error(error, self.offset())),
        }
    }

    /// Reads and checks the length before some content; returns it and the number of bytes it takes.
    #[inline(always)]
    fn content_length(&self) -> Result<(usize, usize), ReadError>
        ensures inside { IfOk result (λ r. r.1 ≤ length self.now.bytes) }
        ensures within { IfOk result (λ r. r.0 ≤ self.now.blob) }
        ensures stands { IfOk result (λ r. StartsWithLong (pos r.0) self.now.bytes (take r.1 self.now.bytes) (drop r.1 self.now.bytes)) }
        ensures refused { (is_content : List ℕ → Bool) → IfErr result (Refuses (ContentBreaks is_content self.now.blob) self.now) }
    {
        match read_long(self.rest()) {
            Ok((count, len)) => {
                if count < 0 {
                    return Err(ReadError::InvalidLength {
                        place: self.offset(),
                    });
                }
                if count > i64::from(self.blob) {
                    return Err(ReadError::LimitExceeded);
                }
                Ok((count as usize, len))
            }
            Err(error) => Err(number_error(error, self.offset())),
        }
    }

    /// Reads a length and the content after it; returns the content and the number of bytes the two take.
    #[inline(always)]
    fn content(&self) -> Result<(&'a [u8], usize), ReadError>
        ensures stands { IfOk result (λ r. ContentStands self.now.blob self.now.bytes r.0.now r.1) }
        ensures refused { (is_content : List ℕ → Bool) → IfErr result (Refuses (ContentBreaks is_content self.now.blob) self.now) }
    {
        let (count, len) = self.content_length()?;
        let (_, behind) = self.rest().split_at(len);
        if count > behind.len() {
            return Err(ReadError::EndOfInput {
                place: self.offset_behind(len),
            });
        }
        let (content, _) = behind.split_at(count);
        Ok((content, len + count))
    }

    /// Reads a length and the text after it; returns the text and the number of bytes the two take.
    #[inline(always)]
    fn text(&self) -> Result<(&'a str, usize), ReadError>
        ensures stands { IfOk result (λ r. ContentStands self.now.blob self.now.bytes r.0.now r.1) }
        ensures valid { IfOk result (λ r. is_utf8 r.0.now ≡ true) }
        ensures refused { IfErr result (Refuses (StringBreaks self.now.blob) self.now) }
    {
        let (content, len) = self.content()?;
        match text_of(content) {
            Ok(text) => Ok((text, len)),
            Err(_) => Err(ReadError::InvalidText {
                place: self.offset_behind(len - content.len()),
            }),
        }
    }

    /// Reads bytes, preceded by their length.
    ///
    /// # Errors
    ///
    /// For the length: `EndOfInput` or `InvalidNumber`, then `InvalidLength` if it is negative, then `LimitExceeded`; then
    /// `EndOfInput` for the content.
    pub fn bytes(&mut self) -> Result<&'a [u8], ReadError>
        ensures { ReadsElement (λ content. content.now) (IsBytes self.old.blob) (BytesBreaks self.old.blob) self.old self.new result }
    {
        let (content, len) = self.content()?;
        self.pass(len);
        Ok(content)
    }

    /// Reads a string, preceded by its length.
    ///
    /// # Errors
    ///
    /// As for `bytes`, then `InvalidText`.
    #[inline(always)]
    pub fn string(&mut self) -> Result<&'a str, ReadError>
        ensures { ReadsElement (λ text. text.now) (IsString self.old.blob) (StringBreaks self.old.blob) self.old self.new result }
    {
        let (text, len) = self.text()?;
        self.pass(len);
        Ok(text)
    }

    /// Reads a map's next key, which must be new, and adds it to those seen.
    ///
    /// # Errors
    ///
    /// As for `string`, then `DuplicateKey`; `OutOfMemory`.
    pub fn key(&mut self, seen: &mut Keys<'a>) -> Result<&'a str, ReadError>
        ensures depth { self.new.depth ≡ self.old.depth }
        ensures read { (keys : List (List ℕ)) → seen.old ≡ key_set keys → ReadsKey (λ text. text.now) keys self.old self.new seen.old seen.new result }
    {
        let (text, len) = self.text()?;
        let is_new = seen.add(text.as_bytes())?;
        if !is_new {
            return Err(ReadError::DuplicateKey {
                place: self.offset(),
            });
        }
        self.pass(len);
        Ok(text)
    }
}

/// `value` as an index, if it is one of `choices`.
fn index_of(value: i32, choices: usize) -> Option<usize>
    ensures some { IfSome result (λ index. (value ≡ pos index) × (index < choices)) }
    ensures none { IfNone result (is_index choices value ≡ false) }
{
    if value < 0 {
        return None;
    }
    let index = value as usize;
    if index < choices { Some(index) } else { None }
}
