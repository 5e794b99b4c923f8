//! What standard error says where a call of loom failed, or where something was refused: messages for a person, made from what the call left.
//!
//! No contract speaks of their text. The shelf and the sink here stand around those of the system: they keep what messages are made of, and
//! have the promises of the ones inside them.
#![tactic(auto)]

pub mod copy;
mod count_fault;
mod explanation;
mod lines;
mod misfit;
mod name_fault;
mod plain;
mod reading;
mod reason;
pub mod refusal_notes;
pub mod report;
mod statement;
mod token_fault;
