//! The words, mutexes, semaphores and threads of a run.
#![tactic(auto)]

mod acts;
pub mod answer;
pub mod laws;
mod start;
pub mod store;
pub mod threads;
