//! What scripts and the filters in them say: their trees, their grammars, and why a text is refused.
//!
//! The definitions stand in `specs/`; nothing here runs.
#![tactic(auto)]

pub mod laws;
