//! Filters, and the reader of their texts.
#![tactic(auto)]

mod clause;
mod fault;
pub mod filter;
mod key;
pub mod parse;
mod reader;
mod region;
mod scan;
mod step;
mod word;
