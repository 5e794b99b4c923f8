//! Where files come from and where text goes: shelves and sinks, in memory and of the system.
//!
//! A shelf and a sink each count their faults, so that an answer that tells of a fault has its cause.
#![tactic(auto)]

pub mod adapters;
pub mod buffer;
pub mod memory;
pub mod page;
pub mod page_text;
pub mod shelf;
pub mod sink;
pub mod whole;
