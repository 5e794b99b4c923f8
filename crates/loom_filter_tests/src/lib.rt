//! Tests of `loom_filter`, by its public calls.
#![tactic(auto)]

#[cfg(test)]
mod filter;
