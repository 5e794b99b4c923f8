//! Short lists of numbers that take no memory.
ghost use Rattle.std.specs.Prelude.{◌≡◌, ◌<◌, ◌≤◌, [], ◌∷◌, ◌++◌, length, pos, replicate, slice_set};
ghost use Rattle.loom_trace.specs.Limits.{thread_limit, argument_limit, event_limit};

use crate::limits::{ARGUMENT_LIMIT, EVENT_LIMIT, THREAD_LIMIT};
use std::marker::Model;

/// The arguments of a thread's first function: 4 at most, each any 64-bit value.
#[derive(Clone, Copy, Debug, Drop)]
pub struct Args {
    cells: [i64; ARGUMENT_LIMIT],
    len: usize,
}

impl Model for Args {
    ghost use Rattle.std.specs.Prelude.{List, ℤ, pos, length, take};
    ghost use Rattle.loom_trace.specs.Limits.{argument_limit};
    ghost use Rattle.loom_trace.specs.Rows.{IsRow, cells_of, used_length, cells_back};

    ghost Value = { List ℤ };

    ghost view = { λ r. take r.len r.cells };

    ghost invariant = { λ r. IsRow (pos 0) argument_limit r.cells r.len };

    ghost inverse = { λ xs. record { cells = cells_of (pos 0) argument_limit xs; len = length xs } };

    ghost inverse_ok = { λ r h i. record {
      cells = cells_back (pos 0) argument_limit r.cells r.len h i;
      len = used_length (pos 0) argument_limit r.cells r.len h i;
    } };
}

impl Args {
    /// No argument.
    pub fn none() -> Args
        ensures { result ≡ [] }
    {
        Args {
            cells: [0; ARGUMENT_LIMIT],
            len: 0,
        }
    }

    /// How many there are.
    pub fn len(&self) -> usize
        ensures len { result ≡ length self.now }
        ensures most { result ≤ argument_limit }
    {
        self.len
    }

    /// All of them.
    pub fn as_slice(&self) -> &[i64]
        ensures items { result.now ≡ self.now }
        ensures most { length result.now ≤ argument_limit }
    {
        &self.cells[..self.len]
    }

    /// Appends an argument.
    pub fn push(&mut self, value: i64)
        requires { length self.old < argument_limit }
        ensures { self.new ≡ self.old ++ value ∷ [] }
    {
        self.cells[self.len] = value;
        self.len += 1;
    }
}

/// The numbers of events: 32 at most.
#[derive(Clone, Copy, Debug, Drop)]
pub struct EventNumbers {
    cells: [u8; EVENT_LIMIT],
    len: usize,
}

impl Model for EventNumbers {
    ghost use Rattle.std.specs.Prelude.{List, ℕ, length, take};
    ghost use Rattle.loom_trace.specs.Limits.{event_limit};
    ghost use Rattle.loom_trace.specs.Rows.{IsRow, cells_of, used_length, cells_back};

    ghost Value = { List ℕ };

    ghost view = { λ r. take r.len r.cells };

    ghost invariant = { λ r. IsRow 0 event_limit r.cells r.len };

    ghost inverse = { λ xs. record { cells = cells_of 0 event_limit xs; len = length xs } };

    ghost inverse_ok = { λ r h i. record {
      cells = cells_back 0 event_limit r.cells r.len h i;
      len = used_length 0 event_limit r.cells r.len h i;
    } };
}

impl EventNumbers {
    /// No event.
    pub fn none() -> EventNumbers
        ensures { result ≡ [] }
    {
        EventNumbers {
            cells: [0; EVENT_LIMIT],
            len: 0,
        }
    }

    // These events.
    pub(crate) fn of(events: &[u8]) -> EventNumbers
        requires { length events.now ≤ event_limit }
        ensures { result ≡ events.now }
    {
        let mut row = EventNumbers::none();
        for event in events {
            row.push(*event);
        }
        row
    }

    /// How many there are.
    pub fn len(&self) -> usize
        ensures len { result ≡ length self.now }
        ensures most { result ≤ event_limit }
    {
        self.len
    }

    /// All of them.
    pub fn as_slice(&self) -> &[u8]
        ensures items { result.now ≡ self.now }
        ensures most { length result.now ≤ event_limit }
    {
        &self.cells[..self.len]
    }

    /// Appends an event.
    pub fn push(&mut self, event: u8)
        requires { length self.old < event_limit }
        ensures { self.new ≡ self.old ++ event ∷ [] }
    {
        self.cells[self.len] = event;
        self.len += 1;
    }
}

/// The places where the threads stand, in the order of their numbers.
#[derive(Clone, Copy, Debug, Drop)]
pub struct PlaceRow {
    cells: [u16; THREAD_LIMIT],
}

impl Model for PlaceRow {
    ghost use Rattle.std.specs.Prelude.{◌≡◌, List, ℕ, length};
    ghost use Rattle.loom_trace.specs.Limits.{thread_limit};

    ghost Value = { List ℕ };

    ghost view = { λ r. r.cells };

    ghost invariant = { λ r. length r.cells ≡ thread_limit };

    ghost inverse = { λ xs. record { cells = xs } };
}

impl PlaceRow {
    /// Place 0 for each thread.
    pub fn zeros() -> PlaceRow
        ensures { result ≡ replicate thread_limit 0 }
    {
        PlaceRow {
            cells: [0; THREAD_LIMIT],
        }
    }

    /// All of them.
    pub fn as_slice(&self) -> &[u16]
        ensures items { result.now ≡ self.now }
        ensures len { length result.now ≡ thread_limit }
    {
        &self.cells
    }

    /// Writes the place of the thread that has this many before it.
    pub fn put(&mut self, at: usize, place: u16)
        requires { at < thread_limit }
        ensures { self.new ≡ slice_set self.old at place }
    {
        self.cells[at] = place;
    }
}
