//! How much there is at most of what entries tell.

/// The most threads of a run; they have the numbers from 1 on.
pub const THREAD_LIMIT: usize = 8;

/// The most arguments of a thread's first function.
pub const ARGUMENT_LIMIT: usize = 4;

/// The most events that a filter watches.
pub const EVENT_LIMIT: usize = 32;

/// The most places of a program; they have the numbers from 0 on.
pub const PLACE_LIMIT: u16 = 8321;

/// The most entries of threads that a run may be allowed.
pub const ENTRY_LIMIT: u32 = 1_000_000;

/// The most control entries of a run, two for each command, and the one that finishes it.
pub const CONTROL_LIMIT: u32 = 129;

/// The most bytes of an entry's line, without what ends it. That is enough for each entry: the
/// longest, a `past` with 32 events, has at most 151.
pub const LINE_LIMIT: usize = 160;
