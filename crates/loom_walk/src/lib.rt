//! What filters make one thread do, beside its instructions: what it owes, which clauses it holds, and what began and is entered in its open
//! frames. It is a small copy of the walk of the thread's part, which knows the marks that the thread passes and the entries that it makes, and no
//! instructions.
#![tactic(auto)]

mod at_place;
mod behind_frame;
mod behind_statement;
pub mod clause_rows;
pub mod event_notes;
mod events;
pub mod filter_walk;
mod lines;
mod new_filters;
pub mod owed;
pub mod region_notes;
pub mod spot;
mod tick;
