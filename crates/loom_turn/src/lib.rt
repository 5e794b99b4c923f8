//! A lock whose turns are taken in the order of tickets, over a table of atomic words.
//!
//! The machine behind it, with its rule, stands in `specs/Lock.antt`.
#![tactic(auto)]

mod calls;
pub mod laws;
pub mod turn;
pub mod view;
