//! A line of text that takes no memory.
ghost use Rattle.std.specs.Prelude.{◌≡◌, ◌≤◌, [], length};
ghost use Rattle.loom_trace.specs.Limits.{line_limit};

use crate::limits::LINE_LIMIT;
use std::marker::Model;

/// The bytes of a line, 160 at most (`LINE_LIMIT`).
#[derive(Debug, Drop)]
pub struct Line {
    pub(crate) cells: [u8; LINE_LIMIT],
    // how many cells are in use
    pub(crate) len: usize,
}

impl Model for Line {
    ghost use Rattle.std.specs.Prelude.{◌≡◌, ◌≤◌, List, ℕ, length, take};
    ghost use Rattle.loom_trace.specs.Limits.{line_limit};

    ghost Value = { List ℕ };

    ghost view = { λ l. take l.len l.cells };

    ghost invariant = { λ l. (length l.cells ≡ line_limit) × (l.len ≤ line_limit) };
}

impl Line {
    /// An empty line.
    pub fn new() -> Line
        ensures { result ≡ [] }
    {
        Line {
            cells: [0; LINE_LIMIT],
            len: 0,
        }
    }

    /// What the line holds.
    pub fn bytes(&self) -> &[u8]
        ensures bytes { result.now ≡ self.now }
        ensures most { length result.now ≤ line_limit }
    {
        &self.cells[..self.len]
    }
}
