//! Scripts of an operator, and the reader of their texts.
#![tactic(auto)]

mod command;
mod field;
pub mod laws;
mod line;
pub mod parse;
pub mod script;
#[cfg(test)]
mod tests;
mod word;
