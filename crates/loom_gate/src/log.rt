//! The record of a gate.

/// The place read for one thread at the switch to a version.
#[derive(Clone, Copy, Debug, Drop)]
pub struct SwitchRow {
    /// The version, from 1.
    pub version: u32,
    /// The thread, from 1.
    pub thread: u8,
    /// The place at which the thread stood, from 0.
    pub place: u16,
}

/// A pass's first entering with a version, and the place that it entered from.
#[derive(Clone, Copy, Debug, Drop)]
pub struct PassRow {
    /// The thread, from 1.
    pub thread: u8,
    /// The version, from 0.
    pub version: u32,
    /// The place, from 0.
    pub place: u16,
}

/// Rows of switches, in order of version and thread.
#[derive(Debug, Drop)]
pub struct SwitchRows(pub Vec<SwitchRow>);

/// Rows of passes, in order of thread, and of one thread in order of version.
#[derive(Debug, Drop)]
pub struct PassRows(pub Vec<PassRow>);

/// Where the passes stood when the gate was settled: of thread `t` the place at index `t - 1`.
#[derive(Debug, Drop)]
pub struct Ends(pub Vec<u16>);

/// What a gate did.
#[derive(Debug, Drop)]
pub struct GateLog {
    /// What was read at its switches.
    pub switches: SwitchRows,
    /// With which versions its passes entered.
    pub rows: PassRows,
    /// Where its passes stood at the end.
    pub ends: Ends,
}
