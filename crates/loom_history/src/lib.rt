//! Lists that only clauses read.
#![tactic(auto)]

pub mod history;
