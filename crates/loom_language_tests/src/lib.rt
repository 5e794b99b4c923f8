//! Tests of `loom_tree`, `loom_trace`, `loom_lexer`, `loom_expression`, `loom_syntax` and `loom_lang`, by their public calls.
#![tactic(auto)]

#[cfg(test)]
mod expression;
#[cfg(test)]
mod lang;
#[cfg(test)]
mod lexer;
#[cfg(test)]
mod syntax;
#[cfg(test)]
mod trace;
#[cfg(test)]
mod tree;
