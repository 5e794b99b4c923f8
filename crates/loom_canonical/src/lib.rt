//! The canonical text of a program, and that it is a text of it.
#![tactic(auto)]

mod expression;
mod item;
pub mod laws;
pub mod print;
mod statement;
#[cfg(test)]
mod tests;
pub mod text;
