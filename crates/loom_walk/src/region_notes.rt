//! The regions that a thread is inside.
ghost use Rattle.std.specs.Prelude.{◌≡◌, ◌<◌, ◌≤◌, ◌-◌, ◌++◌, [], ℕ, suc, true, List, IfOk, IfSome, length, take, drop, slice_get, vec_capacity};
ghost use Rattle.std.specs.List.{list_any};
ghost use Rattle.loom_law.specs.Filter.{has};
ghost use Rattle.loom_law.specs.Walk.{Plans, OpenFrame, in_frame, completed, all_inside, without_first, frames_without, entered_regions};
ghost use Rattle.loom_plan.specs.Sets.{event_numbers, clause_numbers};
ghost use Rattle.loom_plan.specs.Operations.{IsInsideThese};
ghost use Rattle.loom_walk.specs.Notes.{AreRegionNotes, HaveDepths, AreOfFilters};
ghost use Rattle.loom_walk.specs.RegionSteps.{AreOfFrame, AreOfOthers, IsNoteOf, HasMore, is_inside_behind, IsNoteBehind, AreNotesBehind};

use loom_plan::compiled::Compiled;
use loom_plan::sets::{ClauseSet, EventSet, RegionSet};
use loom_tree::name::NoMemory;
use loom_version::version::Version;
use std::alloc::Global;
use std::marker::Model;

/// Regions of a filter that the thread entered in a frame, and is inside.
#[derive(Clone, Copy, Debug, Drop)]
pub struct RegionNote {
    /// The depth of the frame: the first one of a thread has depth 1.
    pub depth: u16,
    /// The number of the filter.
    pub filter: u8,
    /// The regions.
    pub regions: RegionSet,
}

/// The notes of a thread, those of inner frames last. Their room was taken when they were made.
#[derive(Debug, Drop)]
pub(crate) struct RegionNotes {
    notes: Vec<RegionNote>,
}

impl Model for RegionNotes {
    ghost use Rattle.std.specs.Prelude.{vec_capacity};
    ghost use Rattle.std.specs.Coded.{codes};
    ghost use Rattle.loom_walk.specs.contracts.region_notes.RegionNote as n;
    ghost use Rattle.loom_walk.specs.Notes.{RegionNotes};

    ghost Value = { RegionNotes };

    ghost coded = { Prim.hlevel (codes, n.the_row.coded) };

    ghost view = { λ s. record { notes = s.notes.items; room = vec_capacity s.notes } };
}

// How many notes there are before those of the frame of this depth, which stand last where it is the top frame.
fn count_below(notes: &[RegionNote], depth: u16) -> usize
    ensures most { result ≤ length notes.now }
    ensures top { AreOfFrame depth (drop result notes.now) }
    ensures below { HaveDepths 1 depth notes.now → AreOfOthers depth (take result notes.now) }
{
    let mut i = notes.len();
    'notes: while i > 0 {
        let note = notes[i - 1];
        if note.depth != depth {
            return i;
        }
        i -= 1;
    }
    0
}

// Where the note of filter `k` is for that frame, if there is one.
fn place_of(notes: &[RegionNote], depth: u16, k: u8) -> Option<usize>
    ensures { IfSome result (λ i. IsNoteOf depth k (slice_get notes.now i)) }
{
    let mut i = notes.len();
    'notes: while i > 0 {
        i -= 1;
        let note = notes[i];
        if note.depth != depth {
            return None;
        }
        if note.filter == k {
            return Some(i);
        }
    }
    None
}

// The clauses of filter `k` whose regions the note has, behind these events in the frame of this depth.
fn clauses_by(note: RegionNote, c: &Compiled, k: u8, depth: u16, events: EventSet) -> ClauseSet
    ensures { (m : ℕ) → has (clause_numbers result) m ≡ is_inside_behind c.now.plan k depth (event_numbers events) m note }
{
    if note.filter != k {
        return ClauseSet::none();
    }
    if note.depth != depth {
        return c.clauses_of(note.regions);
    }
    c.clauses_of(c.staying(note.regions, events))
}

// The same of all of them.
fn clauses_in(notes: &[RegionNote], c: &Compiled, k: u8, depth: u16, events: EventSet) -> ClauseSet
    ensures { (m : ℕ) → has (clause_numbers result) m ≡ list_any (is_inside_behind c.now.plan k depth (event_numbers events) m) notes.now }
{
    let mut clauses = ClauseSet::none();
    'notes: for note in notes {
        let more = clauses_by(*note, c, k, depth, events);
        clauses = clauses.with(more);
    }
    clauses
}

// What is left of a note behind these events of filter `k` in the frame of this depth.
fn note_behind(note: RegionNote, c: &Compiled, k: u8, depth: u16, events: EventSet) -> RegionNote
    ensures { IsNoteBehind c.now.plan k depth (event_numbers events) note result }
{
    if note.depth != depth {
        return note;
    }
    if note.filter != k {
        return note;
    }
    RegionNote {
        depth,
        filter: k,
        regions: c.staying(note.regions, events),
    }
}

// The same of all of them.
fn complete_in(notes: &mut Vec<RegionNote>, c: &Compiled, k: u8, depth: u16, events: EventSet)
    ensures behind { HaveDepths 1 depth notes.old.items → AreNotesBehind c.now.plan k depth (event_numbers events) notes.old.items notes.new.items }
    ensures filters { (ks : List ℕ) → AreOfFilters ks notes.old.items → AreOfFilters ks notes.new.items }
    ensures count { length notes.new.items ≡ length notes.old.items }
    ensures room { vec_capacity notes.new ≡ vec_capacity notes.old }
{
    let from = count_below(notes.as_slice(), depth);
    let count = notes.len();
    'notes: for i in from..count {
        let note = notes[i];
        notes[i] = note_behind(note, c, k, depth, events);
    }
}

// Notes regions of filter `k`, with its note for the frame of this depth, or a new one.
fn enter_in(notes: &mut Vec<RegionNote>, depth: u16, k: u8, more: RegionSet)
    requires { length notes.old.items < vec_capacity notes.old }
    ensures more { HasMore depth k more notes.old.items notes.new.items }
    ensures depths { 1 ≤ depth → HaveDepths 1 depth notes.old.items → HaveDepths 1 depth notes.new.items }
    ensures filters { (ks : List ℕ) → has ks k ≡ true → AreOfFilters ks notes.old.items → AreOfFilters ks notes.new.items }
    ensures few { length notes.new.items ≤ suc (length notes.old.items) }
    ensures room { vec_capacity notes.new ≡ vec_capacity notes.old }
{
    match place_of(notes.as_slice(), depth, k) {
        None => {
            notes.push_reserved(RegionNote {
                depth,
                filter: k,
                regions: more,
            });
        }
        Some(i) => {
            let note = notes[i];
            notes[i] = RegionNote {
                depth,
                filter: k,
                regions: note.regions.with(more),
            };
        }
    }
}

impl RegionNotes {
    /// No notes, with room for so many. An `Err` is want of memory.
    pub(crate) fn make(alloc: Global, room: u32) -> Result<RegionNotes, NoMemory>
        ensures { IfOk result (λ s. s ≡ record { notes = []; room = room }) }
    {
        let notes = Vec::with_capacity(alloc, room as usize)?;
        Ok(RegionNotes { notes })
    }

    /// The clauses of filter `k` whose regions the thread is inside.
    pub(crate) fn inside(&self, c: &Compiled, k: u8) -> ClauseSet
        ensures { (plans : Plans) (fs : List OpenFrame) → plans k ≡ c.now.plan → AreRegionNotes plans self.now.notes fs → HaveDepths 1 (length fs) self.now.notes → IsInsideThese (all_inside fs) k result }
    {
        clauses_in(self.notes.as_slice(), c, k, 0, EventSet::none())
    }

    /// The same behind these events of filter `k`, with which regions of the top frame, of this depth, are left.
    pub(crate) fn inside_behind(
        &self,
        c: &Compiled,
        k: u8,
        depth: u16,
        events: EventSet,
    ) -> ClauseSet
        ensures { (plans : Plans) (fs : List OpenFrame) → plans k ≡ c.now.plan → AreRegionNotes plans self.now.notes fs → length fs ≡ depth → HaveDepths 1 depth self.now.notes → IsInsideThese (all_inside (in_frame (completed k (event_numbers events)) fs)) k result }
    {
        clauses_in(self.notes.as_slice(), c, k, depth, events)
    }

    /// The regions of filter `k` that are entered with these events are entered in the top frame, of this depth. Where no frame is open, none is.
    pub(crate) fn enter(&mut self, c: &Compiled, k: u8, depth: u16, events: EventSet)
        requires { length self.old.notes < self.old.room }
        ensures notes { (plans : Plans) (fs : List OpenFrame) → plans k ≡ c.now.plan → AreRegionNotes plans self.old.notes fs → length fs ≡ depth → AreRegionNotes plans self.new.notes (in_frame (λ (x : OpenFrame). record x { inside = entered_regions c.now.plan k (event_numbers events) ++ x.inside }) fs) }
        ensures depths { HaveDepths 1 depth self.old.notes → HaveDepths 1 depth self.new.notes }
        ensures filters { (ks : List ℕ) → has ks k ≡ true → AreOfFilters ks self.old.notes → AreOfFilters ks self.new.notes }
        ensures few { length self.new.notes ≤ suc (length self.old.notes) }
        ensures room { self.new.room ≡ self.old.room }
    {
        if depth == 0 {
            return;
        }
        let more = c.entered(events);
        let mut rest = more;
        match rest.pop_first() {
            None => {}
            Some(_) => enter_in(&mut self.notes, depth, k, more),
        }
    }

    /// Those of filter `k` that are left with these events are left, in the top frame, of this depth.
    pub(crate) fn complete(&mut self, c: &Compiled, k: u8, depth: u16, events: EventSet)
        ensures notes { (plans : Plans) (fs : List OpenFrame) → plans k ≡ c.now.plan → AreRegionNotes plans self.old.notes fs → length fs ≡ depth → HaveDepths 1 depth self.old.notes → AreRegionNotes plans self.new.notes (in_frame (completed k (event_numbers events)) fs) }
        ensures depths { HaveDepths 1 depth self.old.notes → HaveDepths 1 depth self.new.notes }
        ensures filters { (ks : List ℕ) → AreOfFilters ks self.old.notes → AreOfFilters ks self.new.notes }
        ensures few { length self.new.notes ≡ length self.old.notes }
        ensures room { self.new.room ≡ self.old.room }
    {
        complete_in(&mut self.notes, c, k, depth, events);
    }

    /// The top frame, of this depth, has ended.
    pub(crate) fn end_frame(&mut self, depth: u16)
        ensures notes { (plans : Plans) (fs : List OpenFrame) → AreRegionNotes plans self.old.notes fs → length fs ≡ depth → AreRegionNotes plans self.new.notes (without_first fs) }
        ensures depths { HaveDepths 1 depth self.old.notes → HaveDepths 1 (depth - 1) self.new.notes }
        ensures filters { (ks : List ℕ) → AreOfFilters ks self.old.notes → AreOfFilters ks self.new.notes }
        ensures few { length self.new.notes ≤ length self.old.notes }
        ensures room { self.new.room ≡ self.old.room }
    {
        let rest = count_below(self.notes.as_slice(), depth);
        self.notes.truncate(rest);
    }

    /// No frame is open.
    pub(crate) fn clear(&mut self)
        ensures { self.new ≡ record self.old { notes = [] } }
    {
        self.notes.clear();
    }

    /// The thread goes over to a version: regions of filters that it hasn't are forgotten.
    pub(crate) fn go_over(&mut self, version: &Version)
        ensures notes { (plans : Plans) (fs : List OpenFrame) → AreRegionNotes plans self.old.notes fs → AreRegionNotes plans self.new.notes (frames_without version.now.active fs) }
        ensures depths { (most : ℕ) → HaveDepths 1 most self.old.notes → HaveDepths 1 most self.new.notes }
        ensures filters { AreOfFilters version.now.active self.new.notes }
        ensures few { length self.new.notes ≤ length self.old.notes }
        ensures room { self.new.room ≡ self.old.room }
    {
        self.notes.retain(|note| version.has(note.filter));
    }
}
