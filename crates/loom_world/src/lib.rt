//! A run of a program with commands: its journal, its store, its filters and its threads.
#![tactic(auto)]

mod book;
pub mod choice;
mod command;
mod commands;
mod control;
mod entry;
mod flags;
mod found;
pub mod laws;
mod operate;
pub mod world;
