//! Tests of `loom_plan`, `loom_version`, `loom_sites` and `loom_ops`, by their public calls.
#![tactic(auto)]

#[cfg(test)]
mod ops;
#[cfg(test)]
mod plan;
#[cfg(test)]
mod sites;
#[cfg(test)]
mod version;
