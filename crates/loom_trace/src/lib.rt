//! Journals: their entries, and the text of an entry.
#![tactic(auto)]

mod bytes;
pub mod entry;
pub mod journal;
pub mod laws;
pub mod limits;
pub mod line;
mod number;
pub mod places;
pub mod request;
pub mod row;
mod short_entry;
pub mod text;
