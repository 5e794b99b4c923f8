//! Where threads were found to stand, when a command is answered.
ghost use Rattle.std.specs.Prelude.{ℕ, ◌≡◌, ◌≤◌, List, IfSome, IfNone, Some, None, true, false};
ghost use Rattle.loom_event.specs.Replay.{thread_at};
ghost use Rattle.loom_law.specs.Filter.{is_some};
ghost use Rattle.loom_law.specs.Control.{Control};
ghost use Rattle.loom_law.specs.Lawful.{Lives, running_thread, refusal};
ghost use Rattle.loom_trace.specs.Limits.{thread_limit};
ghost use Rattle.loom_world.specs.Answers.{IsFoundFlagged, AreFound, IsFoundStalled};
ghost use Rattle.loom_world.specs.Book.{found_place, setting, front};
ghost use Rattle.loom_world.specs.Halts.{HaltsSo, first_stall};

use crate::book::{Book, THREADS};
use loom_flow::flow::Flow;
use loom_trace::row::PlaceRow;

/// What a command finds of a thread.
#[derive(Clone, Copy, Debug, Drop)]
pub(crate) enum Halt {
    /// It lives, and may still go on, or wasn't found anywhere.
    None,
    /// It doesn't live, or stands at a flagged place.
    Flagged,
    /// It is blocked at a place that isn't flagged, of this number.
    Blocked(u16),
}

/// The thread for which a command is stalled, and the line of its place.
#[derive(Clone, Copy, Debug, Drop)]
pub(crate) struct Stall {
    pub(crate) thread: u8,
    pub(crate) line: u32,
}

impl Book {
    // Whether thread `t` has begun and not ended.
    fn runs(&self, t: u8) -> bool
        requires first { 1 ≤ t }
        ensures { result ≡ is_some (running_thread (thread_at self.now.store t)) }
    {
        match self.store.thread(t) {
            Some(thread) => thread.begun && !thread.ended,
            None => false,
        }
    }

    // The place at which thread `t` was found to stand, if it was.
    fn found(&self, t: u8) -> Option<u16>
        requires first { 1 ≤ t }
        requires last { t ≤ thread_limit }
        ensures { result ≡ found_place self.now t }
    {
        if !self.runs(t) {
            return Some(0);
        }
        self.stands[t as usize - 1]
    }

    // The same, where the place is flagged for the command that is asked.
    fn found_flagged(&self, k: u8, t: u8) -> Option<u16>
        requires first { 1 ≤ t }
        requires last { t ≤ thread_limit }
        requires asked { Control.asked (front self.now).control ≡ Some k }
        requires not_refused { refusal (setting self.now) (front self.now).control k ≡ None }
        ensures some { IfSome result (λ p. (found_place self.now t ≡ Some p) × IsFoundFlagged self.now k t) }
        ensures none { IfNone result (IsFoundFlagged self.now k t → ⊥) }
    {
        // it stands at a place of the program
        let _ = &self.stands;
        let Some(place) = self.found(t) else {
            return None;
        };
        if self.flags().has(place) {
            return Some(place);
        }
        None
    }

    /// The flagged places at which the threads stand, if each stands at one.
    pub(crate) fn found_row(&self, k: u8) -> Option<PlaceRow>
        requires asked { Control.asked (front self.now).control ≡ Some k }
        requires not_refused { refusal (setting self.now) (front self.now).control k ≡ None }
        ensures some { IfSome result (λ row. AreFound self.now k row) }
        ensures none { IfNone result ((row : List ℕ) → AreFound self.now k row → ⊥) }
    {
        let mut row = PlaceRow::zeros();
        'threads: for t in 1..=THREADS {
            let Some(place) = self.found_flagged(k, t) else {
                return None;
            };
            row.put(t as usize - 1, place);
        }
        Some(row)
    }

    // Whether thread `t` lives.
    fn lives(&self, t: u8) -> bool
        requires first { 1 ≤ t }
        ensures lives { result ≡ true → Lives self.now.store t }
        ensures not { result ≡ false → Lives self.now.store t → ⊥ }
    {
        match self.store.thread(t) {
            Some(thread) => !thread.ended,
            None => false,
        }
    }

    // What the command that is asked finds of thread `t`.
    fn halt(&self, k: u8, t: u8) -> Halt
        requires first { 1 ≤ t }
        requires last { t ≤ thread_limit }
        requires asked { Control.asked (front self.now).control ≡ Some k }
        requires not_refused { refusal (setting self.now) (front self.now).control k ≡ None }
        ensures { HaltsSo self.now k t result }
    {
        // where it was found is a place of the program
        let _ = &self.stands;
        if !self.lives(t) || self.found_flagged(k, t).is_some() {
            return Halt::Flagged;
        }
        if !self.is_blocked(t) {
            return Halt::None;
        }
        match self.found(t) {
            Some(place) => Halt::Blocked(place),
            None => Halt::None,
        }
    }

    /// The lowest thread that is blocked at a place that isn't flagged, where each live thread is so, or stands at a flagged place.
    pub(crate) fn stall(&self, flow: &Flow, k: u8) -> Option<Stall>
        requires program { flow.now.program ≡ self.now.program }
        requires asked { Control.asked (front self.now).control ≡ Some k }
        requires not_refused { refusal (setting self.now) (front self.now).control k ≡ None }
        ensures some { IfSome result (λ x. IsFoundStalled self.now k x.thread x.line) }
        ensures none { IfNone result ((t l : ℕ) → IsFoundStalled self.now k t l → ⊥) }
    {
        // there are no more threads, and each place has a line
        let _ = &self.store;
        let _ = flow.places();
        let mut lowest = None;
        'threads: for t in 1..=THREADS {
            match self.halt(k, t) {
                Halt::None => return None,
                Halt::Flagged => {}
                Halt::Blocked(place) => lowest = first_stall(lowest, t, flow.place_line(place)),
            }
        }
        lowest
    }
}

// The one that was found first.
fn first_stall(lowest: Option<Stall>, thread: u8, line: u32) -> Option<Stall>
    ensures { result ≡ first_stall lowest thread line }
{
    match lowest {
        Some(stall) => Some(stall),
        None => Some(Stall { thread, line }),
    }
}
