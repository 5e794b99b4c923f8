//! The entries of a journal.
ghost use Rattle.std.specs.Prelude.{◌≡◌};

use crate::row::{Args, EventNumbers, PlaceRow};

/// How a run ends.
#[derive(Clone, Copy, Debug, Drop, PartialEq, Eq)]
pub enum Ending {
    /// Each thread has ended.
    Done,
    /// Each thread that is left is blocked or held off.
    Stuck,
    /// There are as many thread entries as were allowed.
    Limit,
    /// A value was printed at which the run was to stop.
    Stopped,
}

/// What a thread is blocked at.
#[derive(Clone, Copy, Debug, Drop, PartialEq, Eq)]
pub enum What {
    /// The mutex that it wants to lock.
    Lock(u8),
    /// The semaphore that it wants to take down.
    Down(u8),
    /// The thread whose end it waits for.
    Join(u8),
    /// The install command and the clause that it wants to enter.
    Enter(u8, u8),
    /// The install command and the event whose post it waits for.
    Wait(u8, u8),
}

/// An entry of a journal. Threads count from 1; `line` is a line of the program, from 1. `k` is the number of a command, from 1: in what a filter makes a thread do
/// it is that of the command that installed the filter. Clauses and events count from 1.
#[derive(Clone, Copy, Debug, Drop)]
pub enum Entry {
    /// The thread begins its function.
    Begin {
        thread: u8,
        line: u32,
    },
    /// The thread ends.
    End {
        thread: u8,
        line: u32,
    },
    /// The thread meets what it can't do: one of 7 reasons.
    Trap {
        thread: u8,
        line: u32,
        reason: u8,
    },
    /// Reads a value from a word or a cell.
    Read {
        thread: u8,
        line: u32,
        word: u32,
        value: i64,
    },
    /// Writes a value to a word or a cell.
    Write {
        thread: u8,
        line: u32,
        word: u32,
        value: i64,
    },
    /// Locks mutex `m`.
    Lock {
        thread: u8,
        line: u32,
        m: u8,
    },
    /// Unlocks mutex `m`.
    Unlock {
        thread: u8,
        line: u32,
        m: u8,
    },
    /// Takes semaphore `s` down by one.
    Down {
        thread: u8,
        line: u32,
        s: u8,
    },
    /// Puts semaphore `s` up by one.
    Up {
        thread: u8,
        line: u32,
        s: u8,
    },
    /// Makes a thread, which is to run a function with arguments.
    Spawn {
        thread: u8,
        line: u32,
        child: u8,
        func: u8,
        args: Args,
    },
    /// Has waited for the end of a thread.
    Join {
        thread: u8,
        line: u32,
        child: u8,
    },
    /// Prints a value.
    Print {
        thread: u8,
        line: u32,
        value: i64,
    },
    /// Passes a place, as the thousandth since its entry before.
    Tick {
        thread: u8,
        line: u32,
        place: u16,
    },
    /// Finds that it can't go on.
    Blocked {
        thread: u8,
        line: u32,
        what: What,
    },
    /// Begins what these events name.
    At {
        thread: u8,
        line: u32,
        k: u8,
        events: EventNumbers,
    },
    /// Has done what these events name.
    Past {
        thread: u8,
        line: u32,
        k: u8,
        events: EventNumbers,
    },
    /// Returns from a function that has a region.
    Back {
        thread: u8,
        line: u32,
    },
    /// Enters a region of a clause.
    Enter {
        thread: u8,
        line: u32,
        k: u8,
        clause: u8,
    },
    /// Leaves a region of a clause.
    Leave {
        thread: u8,
        line: u32,
        k: u8,
        clause: u8,
    },
    /// Posts an event, for the one that follows it in its order.
    Post {
        thread: u8,
        line: u32,
        k: u8,
        event: u8,
    },
    /// Has waited until an event may begin.
    Wait {
        thread: u8,
        line: u32,
        k: u8,
        event: u8,
    },
    /// Takes the newest version at a place, and has passed so many places since its entry before.
    Cross {
        thread: u8,
        line: u32,
        place: u16,
        version: u32,
        passed: u32,
    },
    /// A command is asked.
    Asked {
        k: u8,
    },
    /// A command is refused, by the number of a reason, at a clause or at none, which is 0.
    Refused {
        k: u8,
        number: u8,
        clause: u8,
    },
    /// A filter is installed, which makes a version, while the threads stand at these places.
    Installed {
        k: u8,
        version: u32,
        places: PlaceRow,
    },
    /// A filter is removed, which makes a version, while the threads stand at these places.
    Removed {
        k: u8,
        version: u32,
        places: PlaceRow,
    },
    /// A command can't be done, because of a thread that no longer moves, at a line.
    Stalled {
        k: u8,
        thread: u8,
        line: u32,
    },
    /// A command that was asked is given up at the end.
    Cut {
        k: u8,
    },
    /// A command was never asked.
    Unreached {
        k: u8,
    },
    /// The run ends.
    Finish {
        kind: Ending,
    },
}

impl Entry {
    /// An equal entry.
    pub fn copy(&self) -> Entry
        ensures { result ≡ self.now }
    {
        *self
    }
}
