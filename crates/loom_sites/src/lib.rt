//! The places of a program that are unsafe for a filter.
#![tactic(auto)]

mod area;
mod calls;
mod events;
mod fault;
pub mod judge;
mod links;
mod node;
mod reach;
mod size;
pub mod unsafe_places;
