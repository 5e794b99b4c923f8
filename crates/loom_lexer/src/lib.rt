//! From the bytes of a text to its tokens.
#![tactic(auto)]

mod lexeme;
pub mod text;
mod token;
