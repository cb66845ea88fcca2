//! What the words of a line stand for, and calls of the libraries in words: a line names a call and what it is made of, and what
//! is answered stands in lines and bytes.
//!
//! A schema is its JSON without blanks, and bytes are escaped. A datum is made word by word (`int:1 long:2 array:2`), and so are
//! the nodes of a draft (`record:R;x=1 int`). Limits of data are those that the caller gives.
//!
//! | Call | What is told |
//! |---|---|
//! | `full_name NAMESPACE TEXT`, `namespace TEXT` | the name, or its refusal |
//! | `write_long NUMBER`; `read_long BYTES`, `read_int BYTES` | the bytes; the number and its length, or the refusal |
//! | `limits D N B`, `file_limits H B P`, `judge_limits P S`, `defaults` | whether these are limits; the limits by default |
//! | `decode SCHEMA BYTES` | display and length, or the refusal; the length that is walked, or the refusal |
//! | `walk SCHEMA BYTES` | the length, or the refusal |
//! | `pack SCHEMA BYTES`, `recode SCHEMA BYTES` | the length, and the plain encoding, by a builder or of the datum |
//! | `encode SCHEMA DATUM` | two bytes that stood in the output, and what comes behind them |
//! | `default DATUM` | what a builder packs of a default |
//! | `fit SCHEMA DATUM`, `measure DATUM` | the display, or `no`; the numbers of nodes and of levels |
//! | `draft NODES`, `draft NODES \| DATUM` | the number of nodes and the canonical form, or the refusal |
//! | `text SCHEMA`, `record SCHEMA` | the number of nodes, or the refusal; its name, its aliases, and its fields with their nodes |
//! | `empties COUNT SCHEMA`, `empty_fields NODE SCHEMA` | what is known of data without bytes |
//! | `canonical SCHEMA` | the form, and the fingerprint in digits and in bytes |
//! | `matches W R` | whether the roots match, and the first branch that does |
//! | `resolve W R BYTES`, `append W R BYTES` | what bytes are for a reader, by every reading, and their plain encoding |
//! | `approved W R BYTES` | what an approval reads |
//! | `judge PAIRS SIZE DEPTH W R` | the verdict |
//! | `certificate TEXT`, `history TEXT` | the text again |
//! | `confirm W R TEXT`, `refute W R DATUM` | the certificate of what is confirmed, the fault of the datum, or `none` |
//! | `judge_text FORM W R`, `explain_text FORM PAIRS W R`, `confirm_text FORM W R TEXT`, `certify_text W R`, `history_text FORM LENGTHS TEXT`, `read_text FORM SKIP W R BYTES`, `read_texts LENGTHS SKIP W R BYTES` | status and answer, or the refusal |
//! | `schema_text SHOWN TEXT` | the answer, or the refusal |
//! | `file H B P R FILE` | what reading, or checking, and copying a file return |
//! | `show LIMIT R FILE` | the lines of a file's data, and whether all is good |
#![tactic(auto)]

mod answers;
mod certified;
mod datum;
mod declared;
mod drafts;
mod encoded;
mod escapes;
mod files;
mod names;
mod numbers;
mod readings;
mod resolved;
mod shown;
mod verdicts;
mod words;

use anyhow::Result;
use avro_schema::Limits;
pub use escapes::{bytes_of, halves, text_of};
use std::alloc::Global;

/// Makes the call of a line, and puts what is answered. Whether the line names one.
///
/// # Errors
///
/// The call is made of something else, two calls that have to answer the same do not, or memory ran out.
pub fn call(alloc: Global, limits: &Limits, line: &str, out: &mut Vec<u8>) -> Result<bool> {
    let (word, text) = halves(line);
    let answered = match word {
        "full_name" | "namespace" => names::put(alloc, word, text, out),
        "write_long" | "read_long" | "read_int" => numbers::put(alloc, word, text, out),
        "limits" | "file_limits" | "judge_limits" | "defaults" => {
            numbers::put_limits(limits, word, text, out)
        }
        "decode" | "walk" | "pack" | "recode" => encoded::put(alloc, limits, word, text, out),
        "encode" | "fit" | "default" | "measure" => datum::put(alloc, word, text, out),
        "draft" => drafts::put(alloc, text, out),
        "text" | "record" | "empties" | "empty_fields" | "canonical" => {
            declared::put(alloc, word, text, out)
        }
        "matches" | "resolve" | "append" | "approved" => {
            resolved::put(alloc, limits, word, text, out)
        }
        "judge" => verdicts::put(alloc, text, out),
        "certificate" | "history" | "confirm" | "refute" => certified::put(alloc, word, text, out),
        "file" => files::put(alloc, text, out),
        "show" => shown::put(alloc, text, out),
        _ => return answers::put(alloc, limits, word, text, out),
    };
    answered?;
    Ok(true)
}
