//! The answers of the program `avro` as a static library for C. `bindings/c/avrojudge.h` declares these functions.
//! Each takes the bytes of texts, and answers a status; what the program prints is put into `out`, as much of it as there
//! is room for, and `wanted` is the length of all of it. With the status of an answer this is a text that is an answer to these
//! texts, by the clauses of `avro_answer`; with 3 it is the line of a refusal that is true of them, and not due to a lack of memory;
//! with 5 for memory and 64 for numbers out of their ranges, nothing is put.
#![tactic(auto)]

ghost use Rattle.std.specs.Prelude.{◌≡◌, ◌≤◌, ◌<◌, ◌↔◌, ◌⊎◌, codes, length, sum};
ghost use Rattle.avro_answer.specs.JudgeAnswer.{JudgeAnswer, JudgeJson, JudgeStatus};
ghost use Rattle.avro_answer.specs.ExplainAnswer.{ExplainAnswer, ExplainJson};
ghost use Rattle.avro_answer.specs.ConfirmAnswer.{ConfirmAnswer, HasCertificate, RefusesOneOf};
ghost use Rattle.avro_answer.specs.HistoryAnswer.{HistoryAnswer, cut_texts, RefusesHistory, AllHaveSchemas};
ghost use Rattle.avro_answer.specs.ExplainAnswer.{ExplainStatus};
ghost use Rattle.avro_answer.specs.CertifyAnswer.{CertifyAnswer};
ghost use Rattle.avro_answer.specs.ReadAnswer.{ReadAnswer, AreSchemas, RefusesTexts};
ghost use Rattle.avro_answer.specs.ReadsAnswer.{ReadsAnswer};
ghost use Rattle.avro_answer.specs.declared.form.Form.{Form};
ghost use Rattle.avro_answer.specs.SchemaAnswer.{SchemaAnswer};
ghost use Rattle.avro_answer.specs.RefusalText.{RefusesOne, RefusesPair, HaveSchemas};
ghost use Rattle.avro_c.specs.Asked.{asked_or, asked_limits, AreAskedLimits, asked_shown, asked_reader, asked_data_limits, AreLengthsOf, IsReading};
ghost use Rattle.avro_c.specs.Buffer.{IsPut, IsUntouched};
ghost use Rattle.avro_c.specs.Told.{IsTold, IsRefused};

mod asking;
mod buffer;
mod status;
mod telling;

use crate::asking::{are_lengths_of, limits_of, pairs_of, reader_of, reading_of, shown_of};
use crate::buffer::{put, put_all, put_nothing};
use crate::telling::{tell, tell_cut, tell_refusal};
pub use asking::{AvroLimits, AvroReading};
use avro_answer::{
    Form, certify_text, confirm_text, explain_text, history_text, judge_text, read_text,
    read_texts, schema_text,
};
use std::alloc::Global;

/// Says whether the schema of the second text reads all data of the schema of the first: 0 yes, 1 no, 2 undecided.
#[unsafe(no_mangle)]
pub extern "C" fn avrojudge_judge_text(
    alloc: Global,
    writer: &[u8],
    reader: &[u8],
    limits: &AvroLimits,
    out: &mut [u8],
    wanted: &mut usize,
) -> u32
    ensures answered { result ≤ 2 → IsTold (JudgeAnswer writer.now reader.now (asked_limits limits.now.pairs limits.now.size limits.now.depth)) out.old out.new wanted.new result }
    ensures refused { result ≡ 3 → IsRefused (RefusesPair writer.now reader.now) out.old out.new wanted.new }
    ensures nothing { 3 < result → IsUntouched out.old out.new wanted.new }
    ensures known { (result ≤ 3) ⊎ (result ≡ 5) ⊎ (result ≡ 64) }
    ensures usage { (result ≡ 64) ↔ (AreAskedLimits limits.now.struct_size limits.now.pairs limits.now.size limits.now.depth → ⊥) }
    ensures complete { AreAskedLimits limits.now.struct_size limits.now.pairs limits.now.size limits.now.depth → HaveSchemas writer.now reader.now → (result ≤ 2) ⊎ (result ≡ 5) }
{
    let Some(limits) = limits_of(limits) else {
        return put_nothing(status::USAGE, wanted);
    };
    match judge_text(alloc, writer, reader, &limits, Form::Text, out.len()) {
        Ok(cut) => tell_cut(cut, out, wanted),
        Err(refusal) => tell_refusal(alloc, refusal, out, wanted),
    }
}

/// The same as `avrojudge_judge_text`, with a line of JSON for the text.
#[unsafe(no_mangle)]
pub extern "C" fn avrojudge_judge_json_text(
    alloc: Global,
    writer: &[u8],
    reader: &[u8],
    limits: &AvroLimits,
    out: &mut [u8],
    wanted: &mut usize,
) -> u32
    ensures answered { result ≤ 2 → IsTold (λ _. JudgeStatus writer.now reader.now (asked_limits limits.now.pairs limits.now.size limits.now.depth)) out.old out.new wanted.new result }
    ensures json { result ≤ 2 → IsTold (JudgeJson writer.now reader.now (asked_limits limits.now.pairs limits.now.size limits.now.depth)) out.old out.new wanted.new result }
    ensures refused { result ≡ 3 → IsRefused (RefusesPair writer.now reader.now) out.old out.new wanted.new }
    ensures nothing { 3 < result → IsUntouched out.old out.new wanted.new }
    ensures known { (result ≤ 3) ⊎ (result ≡ 5) ⊎ (result ≡ 64) }
    ensures usage { (result ≡ 64) ↔ (AreAskedLimits limits.now.struct_size limits.now.pairs limits.now.size limits.now.depth → ⊥) }
    ensures complete { AreAskedLimits limits.now.struct_size limits.now.pairs limits.now.size limits.now.depth → HaveSchemas writer.now reader.now → (result ≤ 2) ⊎ (result ≡ 5) }
{
    let Some(limits) = limits_of(limits) else {
        return put_nothing(status::USAGE, wanted);
    };
    match judge_text(alloc, writer, reader, &limits, Form::Json, out.len()) {
        Ok(cut) => tell_cut(cut, out, wanted),
        Err(refusal) => tell_refusal(alloc, refusal, out, wanted),
    }
}

/// Finds all faults of the schemas of two texts, of which the roots lead to `max_pairs` pairs of nodes at most: 0 none, 1
/// some, 2 undecided.
#[unsafe(no_mangle)]
pub extern "C" fn avrojudge_explain_text(
    alloc: Global,
    writer: &[u8],
    reader: &[u8],
    max_pairs: u32,
    out: &mut [u8],
    wanted: &mut usize,
) -> u32
    ensures answered { result ≤ 2 → IsTold (ExplainAnswer writer.now reader.now (asked_or max_pairs 4194304)) out.old out.new wanted.new result }
    ensures refused { result ≡ 3 → IsRefused (RefusesPair writer.now reader.now) out.old out.new wanted.new }
    ensures nothing { 3 < result → IsUntouched out.old out.new wanted.new }
    ensures known { (result ≤ 3) ⊎ (result ≡ 5) ⊎ (result ≡ 64) }
    ensures usage { (result ≡ 64) ↔ (16777216 < asked_or max_pairs 4194304) }
    ensures complete { asked_or max_pairs 4194304 ≤ 16777216 → HaveSchemas writer.now reader.now → (result ≤ 2) ⊎ (result ≡ 5) }
{
    let Some(pairs) = pairs_of(max_pairs) else {
        return put_nothing(status::USAGE, wanted);
    };
    match explain_text(alloc, writer, reader, pairs, Form::Text) {
        Ok(answer) => tell(answer, out, wanted),
        Err(refusal) => tell_refusal(alloc, refusal, out, wanted),
    }
}

/// The same as `avrojudge_explain_text`, with a line of JSON for the text.
#[unsafe(no_mangle)]
pub extern "C" fn avrojudge_explain_json_text(
    alloc: Global,
    writer: &[u8],
    reader: &[u8],
    max_pairs: u32,
    out: &mut [u8],
    wanted: &mut usize,
) -> u32
    ensures answered { result ≤ 2 → IsTold (λ _. ExplainStatus writer.now reader.now (asked_or max_pairs 4194304)) out.old out.new wanted.new result }
    ensures json { result ≤ 2 → IsTold (ExplainJson writer.now reader.now (asked_or max_pairs 4194304)) out.old out.new wanted.new result }
    ensures refused { result ≡ 3 → IsRefused (RefusesPair writer.now reader.now) out.old out.new wanted.new }
    ensures nothing { 3 < result → IsUntouched out.old out.new wanted.new }
    ensures known { (result ≤ 3) ⊎ (result ≡ 5) ⊎ (result ≡ 64) }
    ensures usage { (result ≡ 64) ↔ (16777216 < asked_or max_pairs 4194304) }
    ensures complete { asked_or max_pairs 4194304 ≤ 16777216 → HaveSchemas writer.now reader.now → (result ≤ 2) ⊎ (result ≡ 5) }
{
    let Some(pairs) = pairs_of(max_pairs) else {
        return put_nothing(status::USAGE, wanted);
    };
    match explain_text(alloc, writer, reader, pairs, Form::Json) {
        Ok(answer) => tell(answer, out, wanted),
        Err(refusal) => tell_refusal(alloc, refusal, out, wanted),
    }
}

/// Judges the schemas of two texts, as `avrojudge_judge_text` does, and puts the text of a certificate after a yes: 0 yes, 1 no, 2
/// undecided.
#[unsafe(no_mangle)]
pub extern "C" fn avrojudge_certify_text(
    alloc: Global,
    writer: &[u8],
    reader: &[u8],
    limits: &AvroLimits,
    out: &mut [u8],
    wanted: &mut usize,
) -> u32
    ensures answered { result ≤ 2 → IsTold (CertifyAnswer writer.now reader.now (asked_limits limits.now.pairs limits.now.size limits.now.depth)) out.old out.new wanted.new result }
    ensures refused { result ≡ 3 → IsRefused (RefusesPair writer.now reader.now) out.old out.new wanted.new }
    ensures nothing { 3 < result → IsUntouched out.old out.new wanted.new }
    ensures known { (result ≤ 3) ⊎ (result ≡ 5) ⊎ (result ≡ 64) }
    ensures usage { (result ≡ 64) ↔ (AreAskedLimits limits.now.struct_size limits.now.pairs limits.now.size limits.now.depth → ⊥) }
    ensures complete { AreAskedLimits limits.now.struct_size limits.now.pairs limits.now.size limits.now.depth → HaveSchemas writer.now reader.now → (result ≤ 2) ⊎ (result ≡ 5) }
{
    let Some(limits) = limits_of(limits) else {
        return put_nothing(status::USAGE, wanted);
    };
    match certify_text(alloc, writer, reader, &limits) {
        Ok(answer) => tell(answer, out, wanted),
        Err(refusal) => tell_refusal(alloc, refusal, out, wanted),
    }
}

/// Says whether the certificate of the third text confirms the schemas of the first two: 0 confirmed, 1 not confirmed.
#[unsafe(no_mangle)]
pub extern "C" fn avrojudge_confirm_text(
    alloc: Global,
    writer: &[u8],
    reader: &[u8],
    certificate: &[u8],
    out: &mut [u8],
    wanted: &mut usize,
) -> u32
    ensures answered { result ≤ 1 → IsTold (ConfirmAnswer writer.now reader.now certificate.now) out.old out.new wanted.new result }
    ensures refused { result ≡ 3 → IsRefused (RefusesOneOf writer.now reader.now certificate.now) out.old out.new wanted.new }
    ensures nothing { 3 < result → IsUntouched out.old out.new wanted.new }
    ensures known { (result ≤ 1) ⊎ (result ≡ 3) ⊎ (result ≡ 5) }
    ensures complete { HaveSchemas writer.now reader.now → HasCertificate certificate.now → (result ≤ 1) ⊎ (result ≡ 5) }
{
    match confirm_text(alloc, writer, reader, certificate, Form::Text) {
        Ok(answer) => tell(answer, out, wanted),
        Err(refusal) => tell_refusal(alloc, refusal, out, wanted),
    }
}

/// Judges the schema of each text but the last with that of the last: 0 all are a yes, 1 some is a no, 2 none is, and some
/// is undecided. The texts follow one another, and `lengths` has the length of each, of at least two.
#[unsafe(no_mangle)]
pub extern "C" fn avrojudge_history_text(
    alloc: Global,
    texts: &[u8],
    lengths: &[usize],
    limits: &AvroLimits,
    out: &mut [u8],
    wanted: &mut usize,
) -> u32
    ensures answered { result ≤ 2 → IsTold (HistoryAnswer (cut_texts texts.now lengths.now) (asked_limits limits.now.pairs limits.now.size limits.now.depth)) out.old out.new wanted.new result }
    ensures refused { result ≡ 3 → IsRefused (RefusesHistory (cut_texts texts.now lengths.now)) out.old out.new wanted.new }
    ensures nothing { 3 < result → IsUntouched out.old out.new wanted.new }
    ensures known { (result ≤ 3) ⊎ (result ≡ 5) ⊎ (result ≡ 64) }
    ensures usage { (result ≡ 64) ↔ (AreLengthsOf lengths.now texts.now × AreAskedLimits limits.now.struct_size limits.now.pairs limits.now.size limits.now.depth → ⊥) }
    ensures complete { AreLengthsOf lengths.now texts.now → AreAskedLimits limits.now.struct_size limits.now.pairs limits.now.size limits.now.depth → AllHaveSchemas (cut_texts texts.now lengths.now) → (result ≤ 2) ⊎ (result ≡ 5) }
{
    if lengths.len() < 2 || !are_lengths_of(lengths, texts) {
        return put_nothing(status::USAGE, wanted);
    }
    let Some(limits) = limits_of(limits) else {
        return put_nothing(status::USAGE, wanted);
    };
    match history_text(alloc, texts, lengths, &limits, Form::Text) {
        Ok(answer) => tell(answer, out, wanted),
        Err(refusal) => tell_refusal(alloc, refusal, out, wanted),
    }
}

/// Shows the schema of a text: its number of nodes for 0, its canonical form for 1, the digits of its fingerprint for 2.
#[unsafe(no_mangle)]
pub extern "C" fn avrojudge_schema_text(
    alloc: Global,
    text: &[u8],
    shown: u32,
    out: &mut [u8],
    wanted: &mut usize,
) -> u32
    ensures answered { result ≡ 0 → IsTold (λ answer _. SchemaAnswer (asked_shown shown) text.now answer) out.old out.new wanted.new result }
    ensures refused { result ≡ 3 → IsRefused (RefusesOne text.now) out.old out.new wanted.new }
    ensures nothing { 3 < result → IsUntouched out.old out.new wanted.new }
    ensures known { (result ≡ 0) ⊎ (result ≡ 3) ⊎ (result ≡ 5) ⊎ (result ≡ 64) }
    ensures usage { (result ≡ 64) ↔ (2 < shown) }
{
    let Some(shown) = shown_of(shown) else {
        return put_nothing(status::USAGE, wanted);
    };
    match schema_text(alloc, text, shown) {
        Ok(answer) => {
            *wanted = put_all(answer, out);
            status::GOOD
        }
        Err(refusal) => tell_refusal(alloc, refusal, out, wanted),
    }
}

/// Reads the datum at the start of data, after the bytes that are skipped: 0 it is read, 3 a text or the data are refused.
#[unsafe(no_mangle)]
pub extern "C" fn avrojudge_read_text(
    alloc: Global,
    writer: &[u8],
    reader: &[u8],
    bytes: &[u8],
    asked: &AvroReading,
    out: &mut [u8],
    wanted: &mut usize,
) -> u32
    ensures answered { result ≡ 0 → IsTold (ReadAnswer writer.now (asked_reader asked.now.has_reader reader.now) (asked_data_limits asked.now.depth asked.now.nodes asked.now.blob) Form.Text asked.now.skip bytes.now) out.old out.new wanted.new result }
    ensures refused { result ≡ 3 → IsTold (ReadAnswer writer.now (asked_reader asked.now.has_reader reader.now) (asked_data_limits asked.now.depth asked.now.nodes asked.now.blob) Form.Text asked.now.skip bytes.now) out.old out.new wanted.new result
        ⊎ IsRefused (RefusesTexts writer.now (asked_reader asked.now.has_reader reader.now)) out.old out.new wanted.new }
    ensures nothing { 3 < result → IsUntouched out.old out.new wanted.new }
    ensures known { (result ≡ 0) ⊎ (result ≡ 3) ⊎ (result ≡ 5) ⊎ (result ≡ 64) }
    ensures usage { (result ≡ 64) ↔ (IsReading asked.now.has_reader asked.now.depth asked.now.nodes asked.now.blob → ⊥) }
    ensures complete { IsReading asked.now.has_reader asked.now.depth asked.now.nodes asked.now.blob → AreSchemas writer.now (asked_reader asked.now.has_reader reader.now)
        → IsTold (ReadAnswer writer.now (asked_reader asked.now.has_reader reader.now) (asked_data_limits asked.now.depth asked.now.nodes asked.now.blob) Form.Text asked.now.skip bytes.now) out.old out.new wanted.new result ⊎ (result ≡ 5) }
{
    let Some(limits) = reading_of(asked) else {
        return put_nothing(status::USAGE, wanted);
    };
    let reader = reader_of(asked.has_reader, reader);
    match read_text(
        alloc,
        writer,
        reader,
        bytes,
        asked.skip,
        &limits,
        Form::Text,
    ) {
        Ok(answer) => tell(answer, out, wanted),
        Err(refusal) => tell_refusal(alloc, refusal, out, wanted),
    }
}

/// Reads a datum in each of several data, which follow one another, and puts a line of JSON for each; `lengths` has the
/// length of each: 0 all are read, 1 some are not.
#[unsafe(no_mangle)]
pub extern "C" fn avrojudge_read_texts(
    alloc: Global,
    writer: &[u8],
    reader: &[u8],
    bytes: &[u8],
    lengths: &[usize],
    asked: &AvroReading,
    out: &mut [u8],
    wanted: &mut usize,
) -> u32
    ensures answered { result ≤ 1 → IsTold (ReadsAnswer writer.now (asked_reader asked.now.has_reader reader.now) (asked_data_limits asked.now.depth asked.now.nodes asked.now.blob) asked.now.skip (cut_texts bytes.now lengths.now)) out.old out.new wanted.new result }
    ensures refused { result ≡ 3 → IsRefused (RefusesTexts writer.now (asked_reader asked.now.has_reader reader.now)) out.old out.new wanted.new }
    ensures nothing { 3 < result → IsUntouched out.old out.new wanted.new }
    ensures known { (result ≤ 1) ⊎ (result ≡ 3) ⊎ (result ≡ 5) ⊎ (result ≡ 64) }
    ensures usage { (result ≡ 64) ↔ ((sum lengths.now ≡ length bytes.now) × IsReading asked.now.has_reader asked.now.depth asked.now.nodes asked.now.blob → ⊥) }
    ensures complete { sum lengths.now ≡ length bytes.now → IsReading asked.now.has_reader asked.now.depth asked.now.nodes asked.now.blob → AreSchemas writer.now (asked_reader asked.now.has_reader reader.now) → (result ≤ 1) ⊎ (result ≡ 5) }
{
    if !are_lengths_of(lengths, bytes) {
        return put_nothing(status::USAGE, wanted);
    }
    let Some(limits) = reading_of(asked) else {
        return put_nothing(status::USAGE, wanted);
    };
    let reader = reader_of(asked.has_reader, reader);
    match read_texts(alloc, writer, reader, bytes, lengths, asked.skip, &limits) {
        Ok(answer) => tell(answer, out, wanted),
        Err(refusal) => tell_refusal(alloc, refusal, out, wanted),
    }
}

/// Puts the line of the version, as `avro --version` prints it.
#[unsafe(no_mangle)]
pub extern "C" fn avrojudge_version(out: &mut [u8], wanted: &mut usize) -> u32
    ensures good { result ≡ 0 }
    ensures line { IsPut (codes "avro 1.0.0\n") out.old out.new wanted.new }
{
    *wanted = put(b"avro 1.0.0\n", out);
    status::GOOD
}
