//! How much there is at most of what versions tell.

/// The most filters that are installed at once.
pub const FILTER_LIMIT: usize = 16;

/// The most commands; they have the numbers from 1 on.
pub const COMMAND_LIMIT: usize = 64;

/// The greatest number of a version.
pub const VERSION_LIMIT: u32 = 128;
