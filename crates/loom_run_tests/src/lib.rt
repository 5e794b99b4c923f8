//! Tests of `loom_flow`, `loom_world` and `loom_crew`, by their public calls.
#![tactic(auto)]

#[cfg(test)]
mod crew;
#[cfg(test)]
mod flow;
#[cfg(test)]
mod world;
