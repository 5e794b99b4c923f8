//! What filters, versions and commands mean, and when a journal is lawful.
//!
//! The definitions stand in `specs/`, their laws in [`laws`].
#![tactic(auto)]

pub mod laws;
pub mod requests;
