//! What is answered of the bytes of schemas, of certificates and of encoded data.

use crate::escapes::{bytes_of, halves};
use crate::words::{number_of, thirds};
use anyhow::Result;
use avro_answer::{
    Answer, Form, Refusal, Shown, certify_text, confirm_text, explain_text, history_text,
    judge_text, read_text, read_texts, schema_text,
};
use avro_judge::JudgeLimits;
use avro_schema::Limits;
use std::alloc::{AllocError, Global};
use std::io::Write;

/// Tells the answer of a call, and whether there is such a call.
pub(crate) fn put(
    alloc: Global,
    limits: &Limits,
    word: &str,
    text: &str,
    out: &mut Vec<u8>,
) -> Result<bool> {
    let answer = match word {
        "judge_text" => judge(alloc, limits, text),
        "explain_text" => explain(alloc, text)?,
        "confirm_text" => confirm(alloc, text)?,
        "certify_text" => certify(alloc, text),
        "history_text" => history(alloc, text)?,
        "read_text" => read(alloc, limits, text)?,
        "read_texts" => read_each(alloc, limits, text)?,
        "schema_text" => return put_shown(alloc, text, out),
        _ => return Ok(false),
    };
    put_answer(answer, out)?;
    Ok(true)
}

/// The status of an answer in a line, and its text, or the refusal.
fn put_answer(answer: Result<Answer, Refusal>, out: &mut Vec<u8>) -> Result<()> {
    match answer {
        Ok(answer) => {
            writeln!(out, "{}", answer.status)?;
            Ok(out.extend_from_slice(&answer.text)?)
        }
        Err(refusal) => Ok(writeln!(out, "{refusal}")?),
    }
}

/// A form by its name.
fn form_of(word: &str) -> Form {
    match word {
        "json" => Form::Json,
        _ => Form::Text,
    }
}

/// The limits of judging by default, with these of data.
fn judging(limits: &Limits) -> JudgeLimits {
    let default = JudgeLimits::default();
    JudgeLimits::new(default.pairs(), default.size(), *limits).unwrap_or(default)
}

/// The whole verdict, `FORM WRITER READER`.
fn judge(alloc: Global, limits: &Limits, text: &str) -> Result<Answer, Refusal> {
    let (form, writer, reader) = thirds(text);
    let cut = judge_text(
        alloc,
        writer.as_bytes(),
        reader.as_bytes(),
        &judging(limits),
        form_of(form),
        usize::MAX,
    )?;
    Ok(cut.answer)
}

/// All faults up to a number of pairs, `FORM PAIRS WRITER READER`.
fn explain(alloc: Global, text: &str) -> Result<Result<Answer, Refusal>> {
    let (form, pairs, others) = thirds(text);
    let (writer, reader) = halves(others);
    Ok(explain_text(
        alloc,
        writer.as_bytes(),
        reader.as_bytes(),
        number_of(pairs)? as usize,
        form_of(form),
    ))
}

/// Whether a certificate approves two schemas, `FORM WRITER READER TEXT`.
fn confirm(alloc: Global, text: &str) -> Result<Result<Answer, Refusal>> {
    let (form, writer, others) = thirds(text);
    let (reader, escaped) = halves(others);
    let certificate = bytes_of(alloc, escaped)?;
    Ok(confirm_text(
        alloc,
        writer.as_bytes(),
        reader.as_bytes(),
        &certificate,
        form_of(form),
    ))
}

/// A certificate, `WRITER READER`.
fn certify(alloc: Global, text: &str) -> Result<Answer, Refusal> {
    let (writer, reader) = halves(text);
    certify_text(
        alloc,
        writer.as_bytes(),
        reader.as_bytes(),
        &JudgeLimits::default(),
    )
}

/// The numbers of a word that commas part.
fn numbers_of(alloc: Global, word: &str) -> Result<Vec<usize>, AllocError> {
    let mut numbers = Vec::new(alloc);
    for part in word.split(',') {
        if let Ok(number) = part.parse::<u32>() {
            numbers.push(number as usize)?;
        }
    }
    Ok(numbers)
}

/// The verdicts of a history whose texts have these lengths, `FORM LENGTHS TEXT`.
fn history(alloc: Global, text: &str) -> Result<Result<Answer, Refusal>> {
    let (form, word, texts) = thirds(text);
    let lengths = numbers_of(alloc, word)?;
    Ok(history_text(
        alloc,
        texts.as_bytes(),
        &lengths,
        &JudgeLimits::default(),
        form_of(form),
    ))
}

/// Encoded data, the schema, and the reader's where it is no `-`.
#[derive(Clone, Copy)]
struct Data<'a> {
    skip: usize,
    writer: &'a [u8],
    reader: Option<&'a [u8]>,
    escaped: &'a str,
}

/// Such data, `SKIP WRITER READER BYTES`.
fn data_of(text: &str) -> Result<Data<'_>> {
    let (skip, writer, others) = thirds(text);
    let (reader, escaped) = halves(others);
    Ok(Data {
        skip: number_of(skip)? as usize,
        writer: writer.as_bytes(),
        reader: (reader != "-").then_some(reader.as_bytes()),
        escaped,
    })
}

/// The datum that stands in data, `FORM SKIP WRITER READER BYTES`.
fn read(alloc: Global, limits: &Limits, text: &str) -> Result<Result<Answer, Refusal>> {
    let (form, others) = halves(text);
    let asked = data_of(others)?;
    let bytes = bytes_of(alloc, asked.escaped)?;
    Ok(read_text(
        alloc,
        asked.writer,
        asked.reader,
        &bytes,
        asked.skip,
        limits,
        form_of(form),
    ))
}

/// The data of these lengths that follow one another, `LENGTHS SKIP WRITER READER BYTES`.
fn read_each(alloc: Global, limits: &Limits, text: &str) -> Result<Result<Answer, Refusal>> {
    let (word, others) = halves(text);
    let asked = data_of(others)?;
    let bytes = bytes_of(alloc, asked.escaped)?;
    let lengths = numbers_of(alloc, word)?;
    Ok(read_texts(
        alloc,
        asked.writer,
        asked.reader,
        &bytes,
        &lengths,
        asked.skip,
        limits,
    ))
}

/// What is shown of a schema, `SHOWN TEXT`.
fn put_shown(alloc: Global, text: &str, out: &mut Vec<u8>) -> Result<bool> {
    let (word, json) = halves(text);
    let shown = match word {
        "count" => Shown::Count,
        "canonical" => Shown::Canonical,
        _ => Shown::Fingerprint,
    };
    match schema_text(alloc, json.as_bytes(), shown) {
        Ok(answer) => out.extend_from_slice(&answer)?,
        Err(refusal) => writeln!(out, "{refusal}")?,
    }
    Ok(true)
}
