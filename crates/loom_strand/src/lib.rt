//! One thread: what it asks for next, and what it was answered.
#![tactic(auto)]

mod args;
mod ask;
mod execution;
mod frame;
mod machine;
mod newer;
mod operator;
mod pass;
mod place;
mod reply;
mod stack;
pub mod stage;
mod step;
mod step_result;
pub mod strand;
mod want;
