//! The trees of the language: tokens, expressions, statements and items.
//!
//! The definitions of the grammar stand in `specs/`, on trees without pointers.
#![tactic(auto)]

mod copy;
pub mod expression;
pub mod item;
pub mod name;
pub mod statement;
pub mod token;
