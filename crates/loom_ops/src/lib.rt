//! The installed filters' locks and posts: who holds which clause, and how often each event of an order was posted.
#![tactic(auto)]

pub mod answer;
pub mod laws;
pub mod ops;
mod rows;
