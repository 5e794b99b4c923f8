//! What a thread asks for.

use crate::row::{Args, EventNumbers};

/// An entry that a thread asks for, without the thread and what the answer gives. Words, cells, mutexes,
/// semaphores, functions and places count from 0, threads from 1. `k` is the number of the command that installed a filter, from 1; clauses and
/// events count from 1.
///
/// `line` is the statement's; of `Begin` and `End` it is that of the thread's `fn`, of `Tick` and `Cross` the place's, of what a filter makes a
/// thread do at the ends of a frame that of the frame's `fn`.
#[derive(Clone, Copy, Debug, Drop)]
pub enum Request {
    /// To begin its function.
    Begin {
        line: u32,
    },
    /// To end.
    End {
        line: u32,
    },
    /// A trap that the thread finds by itself: reason 1, 2 or 6.
    Trap {
        line: u32,
        reason: u8,
    },
    /// To read a word or a cell. The answer gives the value.
    Read {
        line: u32,
        word: u32,
    },
    /// To write a value to a word or a cell.
    Write {
        line: u32,
        word: u32,
        value: i64,
    },
    /// To lock mutex `m`.
    Lock {
        line: u32,
        m: u8,
    },
    /// To unlock mutex `m`.
    Unlock {
        line: u32,
        m: u8,
    },
    /// To take semaphore `s` down by one.
    Down {
        line: u32,
        s: u8,
    },
    /// To put semaphore `s` up by one.
    Up {
        line: u32,
        s: u8,
    },
    /// To make a thread that runs a function. The answer gives the number of the new thread.
    Spawn {
        line: u32,
        func: u8,
        args: Args,
    },
    /// To wait for the end of a thread. The value need not be a thread's number.
    Join {
        line: u32,
        value: i64,
    },
    /// To print a value.
    Print {
        line: u32,
        value: i64,
    },
    /// The thread passed its thousandth entry or back-edge place since its last entry.
    Tick {
        line: u32,
        place: u16,
    },
    /// To begin what these events of a filter name.
    At {
        line: u32,
        k: u8,
        events: EventNumbers,
    },
    /// To tell that it has done what they name.
    Past {
        line: u32,
        k: u8,
        events: EventNumbers,
    },
    /// To return from a function that has a region.
    Back {
        line: u32,
    },
    /// To enter a region of a clause.
    Enter {
        line: u32,
        k: u8,
        clause: u8,
    },
    /// To leave it.
    Leave {
        line: u32,
        k: u8,
        clause: u8,
    },
    /// To post an event, for the one that follows it in its order.
    Post {
        line: u32,
        k: u8,
        event: u8,
    },
    /// To wait until an event may begin.
    Wait {
        line: u32,
        k: u8,
        event: u8,
    },
    /// To take a newer version at a place, having passed so many places since its last entry.
    Cross {
        line: u32,
        place: u16,
        version: u32,
        passed: u32,
    },
}
