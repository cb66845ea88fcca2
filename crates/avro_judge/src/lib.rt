//! Verdicts on pairs of schemas: whether a reader's schema reads everything that was written with a
//! writer's schema.
//!
//! [`judge`] approves, refutes with a smallest datum that fails, or says why it is undecided.
//!
//! # How a verdict is proved
//!
//! `judge` finds the size of a smallest datum that fails at the pair of the roots (`avro_least`). If there is none, no
//! datum fails, and the schemas are approved. Otherwise such a datum is built, and its fault is found by resolving it with
//! nothing built of it.
//! The contracts mention no table and no search: they speak of all data, of any size.
//!
//! An [`Approved`] can be made only from two compatible schemas: that is the invariant of its type. So
//! [`Approved::read`] puts no condition on its caller, and a fault of resolution is not among its errors. It reads in one
//! pass, by a plan of the pairs that judging reached or that the certificate has, and returns what `resolve` gives for
//! what `decode` reads.
#![tactic(auto)]

mod approval;
mod certified;
mod certifying;
mod confirming;
mod deciding;
mod faults;
mod judging;
pub mod laws;
mod limits;
mod refuting;
mod verdict;

pub use approval::Approved;
pub use avro_certificate::{CertError, Certificate};
pub use confirming::confirm;
pub use judging::judge;
pub use limits::JudgeLimits;
pub use refuting::check_refutation;
pub use verdict::{Cause, Refutation, Verdict};
