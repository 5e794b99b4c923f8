//! How far a thread is.

use loom_trace::request::Request;
use loom_trace::row::Args;

/// The function of a thread, by its number, and its arguments.
#[derive(Clone, Copy, Debug, Drop)]
pub struct Birth {
    /// The number of the function, from 0.
    pub func: u8,
    /// The arguments: 4 at most.
    pub args: Args,
}

/// How far a thread is.
#[derive(Clone, Copy, Debug, Drop)]
pub(crate) enum Stage {
    /// It hasn't begun.
    Waits,
    /// It has begun, and is before its first frame.
    Enters,
    /// Its frames run, or the last one has ended.
    Runs,
    /// It has ended.
    Over,
}

/// What a private run comes to.
#[derive(Clone, Copy, Debug, Drop)]
pub enum Want {
    /// The thread asks for this.
    Ask(Request),
    /// It stands at a flagged place, of this number.
    Place(u16),
    /// The thread has ended.
    Ended,
}
