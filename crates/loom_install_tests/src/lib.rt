//! Tests of `loom_top` where filters are shown, and where scripts put them in and take them out, by its public calls.
#![tactic(auto)]

#[cfg(test)]
mod bank;
#[cfg(test)]
mod filters;
#[cfg(test)]
mod installs;
#[cfg(test)]
mod scripts;
