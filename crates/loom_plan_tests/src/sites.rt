//! The unsafe places of filters in small programs.

mod faults;
mod filters;
mod programs;
