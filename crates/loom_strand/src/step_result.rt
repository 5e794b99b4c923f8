//! What comes of a step.

use loom_trace::request::Request;

// The reasons of the traps that a thread finds by itself.

/// A division by 0.
pub(crate) const DIVISION: u8 = 1;

/// An index that isn't one of its array.
pub(crate) const INDEX: u8 = 2;

/// A frame too many.
pub(crate) const FRAMES: u8 = 6;

/// A mark that a thread passes: an edge of a statement or of a frame, or a loop's back edge.
#[derive(Clone, Copy, Debug, Drop)]
pub(crate) enum Mark {
    /// The statement at this in place begins.
    Begins(u16),
    /// The statement of this line, at this in place, is complete.
    Done(u32, u16),
    /// The back edge of this place.
    Edge(u16),
    /// A frame of the function of this number begins, at this entry place.
    Enter(u8, u16),
    /// A frame of the function of this number has ended.
    Out(u8),
}

/// What comes of a step of the machine.
#[derive(Clone, Copy, Debug, Drop)]
pub(crate) enum StepResult {
    /// It goes on, past a mark or past none.
    Goes(Option<Mark>),
    /// It asks for this, and stays where it is.
    Asks(Request),
    /// The thread is to end.
    Ends,
}

/// Why a private run stops.
#[derive(Clone, Copy, Debug, Drop)]
pub(crate) enum Stop {
    /// The next instruction asks for this.
    Asks(Request),
    /// The thread is to end.
    Ends,
    /// Something is to be made where the thread is, before it goes on.
    Owes,
    /// A newer version is to be taken directly before this entry or back-edge place.
    Crosses(u16),
    /// The next entry or back-edge place is this one, and is flagged.
    Flagged(u16),
}
