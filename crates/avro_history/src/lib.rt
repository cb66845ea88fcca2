//! Histories: one text with a certificate for each of several writers' schemas, all for the same
//! reader's schema.
//!
//! [`confirm_history`] approves the reader's schema for all the writers' schemas by such a history,
//! whoever made it.
//!
//! A text is split after each line that contains an `n`, since only the last line of a certificate does; the certificate's own reader then
//! says whether each part is one. A number over 4,095 is reported only if the whole text has the right form.
#![tactic(auto)]

mod confirming;
mod cutting;
mod history;
mod reading;
mod writing;

pub use confirming::confirm_history;
pub use history::HistoryCert;
