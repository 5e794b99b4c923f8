//! The language: programs, and their parser.
#![tactic(auto)]

mod arity;
mod declarations;
mod diagnostics;
mod duplicates;
mod excess;
pub mod expression;
mod fault;
mod gather;
pub mod laws;
pub mod limits;
mod local;
pub mod locals;
mod names;
pub mod numbers;
pub mod parse;
pub mod program;
pub mod refusal;
mod resolve;
mod walk;
