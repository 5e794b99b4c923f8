//! The grammar of expressions, and the reader that takes one token after another.
#![tactic(auto)]

pub mod expression;
pub mod part;
pub mod reader;
