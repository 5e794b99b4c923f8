//! Runs of a program: their events, the store that these leave, and what a thread asks for.
//!
//! The definitions stand in `specs/`.
#![tactic(auto)]
