//! Tests of `loom_top` without filters, by its public calls.
#![tactic(auto)]

#[cfg(test)]
mod alone;
#[cfg(test)]
mod limits;
#[cfg(test)]
mod rows;
#[cfg(test)]
mod show;
#[cfg(test)]
mod threads;
#[cfg(test)]
mod watch;
