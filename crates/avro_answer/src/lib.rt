//! The program's answers about the bytes of schemas and certificates: the bytes of a text, and an exit status.
//!
//! [`judge_text`], [`explain_text`], [`confirm_text`], [`history_text`], [`schema_text`], [`read_text`] and [`read_texts`] are
//! for bytes; the other calls take what was already read. Nothing here opens a file or prints.
#![tactic(auto)]

mod answer;
mod certifying;
mod confirming;
mod data_answers;
mod data_error;
mod data_found;
mod data_plan;
mod data_put;
mod datum_texts;
mod explaining;
mod fault_lines;
mod fault_place;
mod faults;
mod form;
mod front;
mod history;
mod history_lines;
mod history_texts;
mod json_answers;
mod json_object;
mod judging;
pub mod laws;
mod many_data;
mod named_fault;
mod named_place;
mod putting;
mod reading;
mod refusal;
mod schemas;
mod type_names;
mod verdicts;

pub use answer::{Answer, CutAnswer};
pub use avro_display::PutError;
pub use certifying::certify_text;
pub use confirming::{answer_confirmed, confirm_schemas, confirm_text};
pub use data_answers::{read_schemas, read_text};
pub use data_error::DataError;
pub use data_plan::DataPlan;
pub use datum_texts::{behind, data_refusal};
pub use explaining::{explain_text, no_fault, over_pairs};
pub use fault_lines::put_faults;
pub use faults::{append_fault, append_reading};
pub use form::Form;
pub use history::{Judged, history_text, judge_json_line, judge_line};
pub use json_answers::counts_line;
pub use judging::{judge_schemas, judge_text};
pub use many_data::read_texts;
pub use refusal::{Refusal, certificate_refusal, schema_refusal};
pub use schemas::{Shown, schema_text, show_schema};
