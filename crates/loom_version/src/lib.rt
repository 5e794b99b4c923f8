//! Versions: which filters are installed, and what each is in the program.
#![tactic(auto)]

mod active;
pub mod laws;
pub mod limits;
mod line_table;
pub mod plans;
mod slow;
pub mod version;
