//! Filters in a program.
#![tactic(auto)]

mod clauses;
mod compile;
pub mod compiled;
mod events;
mod fault;
pub mod laws;
mod names;
pub mod numbers;
pub mod operations;
mod order_sets;
pub mod plan;
mod regions;
pub mod resolve;
mod rules;
pub mod sets;
mod statements;
mod table;
mod test;
mod value;
