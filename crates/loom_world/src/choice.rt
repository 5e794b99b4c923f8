//! Turns: whose they are, and what comes of them.

/// Whose turn it is.
#[derive(Clone, Copy, Debug, Drop, PartialEq, Eq)]
pub enum Choice {
    /// That of the thread of this number, from 1 to 8.
    Thread(u8),
    /// That of the controller.
    Control,
}

/// Why a turn made no entry. Of those that apply it is the first.
#[derive(Clone, Copy, Debug, Drop, PartialEq, Eq)]
pub enum Why {
    /// The run is at its limit, or finished.
    Over,
    /// The thread has ended.
    Ended,
    /// The thread was never spawned.
    Unborn,
    /// A command is due, or was asked and will be refused: its answer comes first.
    Due,
    /// The thread is at a flagged place, of this number.
    Flagged(u16),
    /// What the thread waits for is still disabled, and its last entry says so.
    Blocked,
    /// No control entry stands next.
    Nothing,
}

/// What came of a turn.
#[derive(Clone, Copy, Debug, Drop, PartialEq, Eq)]
pub enum Turned {
    /// One entry was made.
    Moved,
    /// None was made.
    Idle(Why),
}
