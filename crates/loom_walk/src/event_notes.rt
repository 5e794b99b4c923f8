//! The events that began with open statements.
ghost use Rattle.std.specs.Prelude.{◌≡◌, ◌==◌, ◌<◌, ◌≤◌, ◌&&◌, [], ◌∷◌, ◌++◌, List, IfOk, false, length, take};
ghost use Rattle.loom_law.specs.Walk.{OpenFrame, in_frame, close_statement, without_first, begun_with, events_of_filter};
ghost use Rattle.loom_plan.specs.Sets.{event_numbers};
ghost use Rattle.loom_walk.specs.Notes.{begun_by, AreEventNotes, IsInnermost, is_of_statement, is_of_frame, is_first_of, events_of_statement, behind_those};

use loom_plan::sets::EventSet;
use loom_tree::name::NoMemory;
use std::alloc::Global;
use std::marker::Model;

/// Events of a filter that began with an open statement.
#[derive(Clone, Copy, Debug, Drop)]
pub struct EventNote {
    /// The depth of the statement's frame: the first one of a thread has depth 1.
    pub depth: u16,
    /// The line of the statement.
    pub line: u32,
    /// The number of the filter.
    pub filter: u8,
    /// The events.
    pub events: EventSet,
}

/// The notes of a thread, the newest one last. Their room was taken when they were made.
#[derive(Debug, Drop)]
pub(crate) struct EventNotes {
    notes: Vec<EventNote>,
}

impl Model for EventNotes {
    ghost use Rattle.std.specs.Prelude.{vec_capacity};
    ghost use Rattle.std.specs.Coded.{codes};
    ghost use Rattle.loom_walk.specs.contracts.event_notes.EventNote as n;
    ghost use Rattle.loom_walk.specs.Notes.{EventNotes};

    ghost Value = { EventNotes };

    ghost coded = { Prim.hlevel (codes, n.the_row.coded) };

    ghost view = { λ s. record { notes = s.notes.items; room = vec_capacity s.notes } };
}

impl EventNote {
    // Whether its events began with the statement of this line, in the frame of this depth.
    fn is_of(self, depth: u16, line: u32) -> bool
        ensures { result ≡ ((self.depth == depth) && (self.line == line)) }
    {
        self.depth == depth && self.line == line
    }
}

// Whether the newest note is of the statement of this line, in the frame of this depth.
fn is_newest(notes: &[EventNote], depth: u16, line: u32) -> bool
    ensures { result ≡ is_first_of depth line (begun_by notes.now) }
{
    match notes.last() {
        None => false,
        Some(note) => note.is_of(depth, line),
    }
}

// The events of filter `k` that began with the statement of this line, in the frame of this depth, where the newest notes are of that statement.
fn newest_events(notes: &[EventNote], depth: u16, line: u32, k: u8) -> EventSet
    ensures { event_numbers result ≡ events_of_statement depth line k (begun_by notes.now) }
{
    let mut i = notes.len();
    'notes: while i > 0 {
        let note = notes[i - 1];
        if !note.is_of(depth, line) {
            return EventSet::none();
        }
        if note.filter == k {
            return note.events;
        }
        i -= 1;
    }
    EventSet::none()
}

// How many notes there are before the newest ones, as many as are of that statement.
fn count_behind_statement(notes: &[EventNote], depth: u16, line: u32) -> usize
    ensures rest { begun_by (take result notes.now) ≡ behind_those (is_of_statement depth line) (begun_by notes.now) }
    ensures most { result ≤ length notes.now }
{
    let mut i = notes.len();
    'notes: while i > 0 {
        if !notes[i - 1].is_of(depth, line) {
            return i;
        }
        i -= 1;
    }
    0
}

// How many there are before the newest ones, as many as are of the frame of this depth.
fn count_behind_frame(notes: &[EventNote], depth: u16) -> usize
    ensures rest { begun_by (take result notes.now) ≡ behind_those (is_of_frame depth) (begun_by notes.now) }
    ensures most { result ≤ length notes.now }
{
    let mut i = notes.len();
    'notes: while i > 0 {
        if notes[i - 1].depth != depth {
            return i;
        }
        i -= 1;
    }
    0
}

impl EventNotes {
    /// No notes, with room for so many. An `Err` is want of memory.
    pub(crate) fn make(alloc: Global, room: u32) -> Result<EventNotes, NoMemory>
        ensures { IfOk result (λ s. s ≡ record { notes = []; room = room }) }
    {
        let notes = Vec::with_capacity(alloc, room as usize)?;
        Ok(EventNotes { notes })
    }

    /// Notes events with an open statement.
    pub(crate) fn push(&mut self, note: EventNote)
        requires { length self.old.notes < self.old.room }
        ensures { self.new ≡ record self.old { notes = self.old.notes ++ note ∷ [] } }
    {
        self.notes.push_reserved(note);
    }

    /// Whether events began with the innermost statement, which has this line, of the top frame, which has this depth. Only the newest note is asked.
    pub(crate) fn has_statement(&self, depth: u16, line: u32) -> bool
        ensures { (fs : List OpenFrame) → AreEventNotes self.now.notes fs → length fs ≡ depth → IsInnermost line fs → result ≡ false → begun_with fs ≡ [] }
    {
        is_newest(self.notes.as_slice(), depth, line)
    }

    /// The events of filter `k` that began with the innermost statement, which has this line, of the top frame, which has this depth.
    pub(crate) fn of_statement(&self, depth: u16, line: u32, k: u8) -> EventSet
        ensures { (fs : List OpenFrame) → AreEventNotes self.now.notes fs → length fs ≡ depth → IsInnermost line fs → event_numbers result ≡ events_of_filter k (begun_with fs) }
    {
        newest_events(self.notes.as_slice(), depth, line, k)
    }

    /// The innermost statement, of this line, of the top frame, of this depth, is complete.
    pub(crate) fn done(&mut self, depth: u16, line: u32)
        ensures notes { (fs : List OpenFrame) → AreEventNotes self.old.notes fs → length fs ≡ depth → IsInnermost line fs → AreEventNotes self.new.notes (in_frame close_statement fs) }
        ensures few { length self.new.notes ≤ length self.old.notes }
        ensures room { self.new.room ≡ self.old.room }
    {
        let rest = count_behind_statement(self.notes.as_slice(), depth, line);
        self.notes.truncate(rest);
    }

    /// The top frame, of this depth, has ended.
    pub(crate) fn end_frame(&mut self, depth: u16)
        ensures notes { (fs : List OpenFrame) → AreEventNotes self.old.notes fs → length fs ≡ depth → AreEventNotes self.new.notes (without_first fs) }
        ensures few { length self.new.notes ≤ length self.old.notes }
        ensures room { self.new.room ≡ self.old.room }
    {
        let rest = count_behind_frame(self.notes.as_slice(), depth);
        self.notes.truncate(rest);
    }

    /// No frame is open.
    pub(crate) fn clear(&mut self)
        ensures { self.new ≡ record self.old { notes = [] } }
    {
        self.notes.clear();
    }
}
