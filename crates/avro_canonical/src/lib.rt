//! The canonical form of a schema and its fingerprint (Avro 1.11, "Parsing Canonical Form for
//! Schemas", "Schema Fingerprints").
//!
//! [`canonical`] returns the form, [`fingerprint`] the SHA-256 of its bytes, and [`fingerprint_text`] that in
//! hexadecimal digits.
//!
//! # How a form is written
//!
//! A stack holds what is left to write: a node, the remaining branches or fields, or an end. Each step takes one part,
//! writes its start, and puts back what is left of it, so no schema is too deep for the machine's stack: one made from a `Draft` can
//! nest its form over millions of levels. The steps are counted in 64 bits; each writes a character, so memory runs out before the
//! count. A mark for each node says whether its name was written, since no fullname is defined twice in a schema. The invariant is that what is written, followed by any text of what is left, is
//! a canonical form; each step is a lemma about the definition.
//!
//! The laws rest on the form as a tree. A text determines how its form starts (names and symbols contain no quote, and
//! digits no brace), so equal texts have equal forms. Nodes of two schemas with the same form require the same of a datum,
//! and their parts have the same forms again, where a name stands for its one definition; so, by induction on the datum,
//! the same data fit and their encodings are the same.
#![tactic(auto)]

mod digest;
pub mod laws;
mod marks;
mod opening;
mod part;
mod parts;
mod spelling;
mod text;
mod writing;

pub use digest::{fingerprint, fingerprint_text};
pub use text::canonical;
