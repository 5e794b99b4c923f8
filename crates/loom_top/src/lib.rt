//! The top call.
#![tactic(auto)]

pub mod alone;
mod code;
mod file_name;
mod filter_lines;
mod invocation;
mod put;
mod read;
mod refusal;
mod run;
mod show;
mod show_filter;
pub mod status;
mod write;
