//! A gate: threads pass, and one key stops them at places.
#![tactic(auto)]

pub mod gate;
pub mod key;
pub mod laws;
pub mod log;
pub mod make;
pub mod pass;
pub mod settle;
mod steps;
pub mod view;
