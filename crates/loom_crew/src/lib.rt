//! Drivers: whose turn it is in a run of a program, one after another.
//!
//! The sequential driver (`alone`) runs a world alone, in rounds. A round is a turn of control, and then one of each thread that there may be,
//! in the order of their numbers.
#![tactic(auto)]

pub mod alone;
pub mod laws;
