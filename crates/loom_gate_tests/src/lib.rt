//! Tests of `loom_gate` and `loom_turn`, by their public calls.
#![tactic(auto)]

#[cfg(test)]
mod gate;
#[cfg(test)]
mod turn;
