//! Flat code of programs.
//!
//! `lower` makes it, and `Flow` holds it with its program. What it means stands in `specs/Progress.antt`.
#![tactic(auto)]

mod block;
mod calls;
pub mod code;
mod depth;
mod expression;
pub mod flow;
pub mod laws;
pub mod lower;
mod numbers;
mod statement;
