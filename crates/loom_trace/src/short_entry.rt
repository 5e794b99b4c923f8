//! Entries in 24 bytes.
ghost use Rattle.std.specs.Prelude.{◌≡◌, ◌≤◌, length, take, IfSome};
ghost use Rattle.loom_trace.specs.ShortEntries.{full_entry, HasFullEntry, StandsFor, StandsAlone};

use crate::entry::{Ending, Entry, What};
use crate::row::{EventNumbers, PlaceRow};
use std::mem::size_of;

// The most events of an entry in 24 bytes.
const FEW_EVENTS: usize = 16;

/// An entry in 24 bytes. Its fields are those of the entry, in their order; of the events there are a number and cells, of which so many are in use. An entry
/// that doesn't fit stands in a list beside, and here is how many stand before it there.
#[derive(Clone, Copy, Debug, Drop)]
pub(crate) enum ShortEntry {
    Begin(u8, u32),
    End(u8, u32),
    Trap(u8, u32, u8),
    Read(u8, u32, u32, i64),
    Write(u8, u32, u32, i64),
    Lock(u8, u32, u8),
    Unlock(u8, u32, u8),
    Down(u8, u32, u8),
    Up(u8, u32, u8),
    Join(u8, u32, u8),
    Print(u8, u32, i64),
    Tick(u8, u32, u16),
    Blocked(u8, u32, What),
    At(u8, u8, u8, u32, [u8; FEW_EVENTS]),
    Past(u8, u8, u8, u32, [u8; FEW_EVENTS]),
    Back(u8, u32),
    Enter(u8, u32, u8, u8),
    Leave(u8, u32, u8, u8),
    Post(u8, u32, u8, u8),
    Wait(u8, u32, u8, u8),
    Cross(u8, u32, u16, u32, u32),
    Asked(u8),
    Refused(u8, u8, u8),
    Installed(u8, u32, PlaceRow),
    Removed(u8, u32, PlaceRow),
    Stalled(u8, u8, u32),
    Cut(u8),
    Unreached(u8),
    Finish(Ending),
    Long(u32),
}

// Cells that begin with these events.
fn few_cells(events: &[u8]) -> [u8; FEW_EVENTS]
    requires { length events.now ≤ FEW_EVENTS }
    ensures { take (length events.now) result ≡ events.now }
{
    let mut cells = [0; FEW_EVENTS];
    cells[..events.len()].copy_from_slice(events);
    cells
}

/// The entry in 24 bytes, where it fits.
#[inline(always)]
pub(crate) fn short_of(e: &Entry) -> Option<ShortEntry>
    ensures entry { IfSome result (λ s. StandsFor s e.now) }
    ensures alone { IfSome result (λ s. StandsAlone s) }
{
    prove!(size_of::<ShortEntry>() == 24);
    match e {
        Entry::Begin { thread, line } => Some(ShortEntry::Begin(*thread, *line)),
        Entry::End { thread, line } => Some(ShortEntry::End(*thread, *line)),
        Entry::Trap {
            thread,
            line,
            reason,
        } => Some(ShortEntry::Trap(*thread, *line, *reason)),
        Entry::Read {
            thread,
            line,
            word,
            value,
        } => Some(ShortEntry::Read(*thread, *line, *word, *value)),
        Entry::Write {
            thread,
            line,
            word,
            value,
        } => Some(ShortEntry::Write(*thread, *line, *word, *value)),
        Entry::Lock { thread, line, m } => Some(ShortEntry::Lock(*thread, *line, *m)),
        Entry::Unlock { thread, line, m } => Some(ShortEntry::Unlock(*thread, *line, *m)),
        Entry::Down { thread, line, s } => Some(ShortEntry::Down(*thread, *line, *s)),
        Entry::Up { thread, line, s } => Some(ShortEntry::Up(*thread, *line, *s)),
        Entry::Spawn { .. } => None,
        Entry::Join {
            thread,
            line,
            child,
        } => Some(ShortEntry::Join(*thread, *line, *child)),
        Entry::Print {
            thread,
            line,
            value,
        } => Some(ShortEntry::Print(*thread, *line, *value)),
        Entry::Tick {
            thread,
            line,
            place,
        } => Some(ShortEntry::Tick(*thread, *line, *place)),
        Entry::Blocked { thread, line, what } => Some(ShortEntry::Blocked(*thread, *line, *what)),
        Entry::At {
            thread,
            line,
            k,
            events,
        } => {
            let numbers = events.as_slice();
            if numbers.len() > FEW_EVENTS {
                return None;
            }
            Some(ShortEntry::At(*thread, *k, numbers.len() as u8, *line, few_cells(numbers)))
        }
        Entry::Past {
            thread,
            line,
            k,
            events,
        } => {
            let numbers = events.as_slice();
            if numbers.len() > FEW_EVENTS {
                return None;
            }
            Some(ShortEntry::Past(*thread, *k, numbers.len() as u8, *line, few_cells(numbers)))
        }
        Entry::Back { thread, line } => Some(ShortEntry::Back(*thread, *line)),
        Entry::Enter {
            thread,
            line,
            k,
            clause,
        } => Some(ShortEntry::Enter(*thread, *line, *k, *clause)),
        Entry::Leave {
            thread,
            line,
            k,
            clause,
        } => Some(ShortEntry::Leave(*thread, *line, *k, *clause)),
        Entry::Post {
            thread,
            line,
            k,
            event,
        } => Some(ShortEntry::Post(*thread, *line, *k, *event)),
        Entry::Wait {
            thread,
            line,
            k,
            event,
        } => Some(ShortEntry::Wait(*thread, *line, *k, *event)),
        Entry::Cross {
            thread,
            line,
            place,
            version,
            passed,
        } => Some(ShortEntry::Cross(*thread, *line, *place, *version, *passed)),
        Entry::Asked { k } => Some(ShortEntry::Asked(*k)),
        Entry::Refused { k, number, clause } => Some(ShortEntry::Refused(*k, *number, *clause)),
        Entry::Installed { k, version, places } => Some(ShortEntry::Installed(
            *k, *version, *places,
        )),
        Entry::Removed { k, version, places } => Some(ShortEntry::Removed(*k, *version, *places)),
        Entry::Stalled { k, thread, line } => Some(ShortEntry::Stalled(*k, *thread, *line)),
        Entry::Cut { k } => Some(ShortEntry::Cut(*k)),
        Entry::Unreached { k } => Some(ShortEntry::Unreached(*k)),
        Entry::Finish { kind } => Some(ShortEntry::Finish(*kind)),
    }
}

/// The entry that this one stands for, where those that don't fit are in this list.
#[inline(always)]
pub(crate) fn full_entry(e: &ShortEntry, longs: &[Entry]) -> Entry
    requires { HasFullEntry (length longs.now) e.now }
    ensures { result ≡ full_entry longs.now e.now }
{
    match e {
        ShortEntry::Begin(thread, line) => Entry::Begin {
            thread: *thread,
            line: *line,
        },
        ShortEntry::End(thread, line) => Entry::End {
            thread: *thread,
            line: *line,
        },
        ShortEntry::Trap(thread, line, reason) => Entry::Trap {
            thread: *thread,
            line: *line,
            reason: *reason,
        },
        ShortEntry::Read(thread, line, word, value) => Entry::Read {
            thread: *thread,
            line: *line,
            word: *word,
            value: *value,
        },
        ShortEntry::Write(thread, line, word, value) => Entry::Write {
            thread: *thread,
            line: *line,
            word: *word,
            value: *value,
        },
        ShortEntry::Lock(thread, line, m) => Entry::Lock {
            thread: *thread,
            line: *line,
            m: *m,
        },
        ShortEntry::Unlock(thread, line, m) => Entry::Unlock {
            thread: *thread,
            line: *line,
            m: *m,
        },
        ShortEntry::Down(thread, line, s) => Entry::Down {
            thread: *thread,
            line: *line,
            s: *s,
        },
        ShortEntry::Up(thread, line, s) => Entry::Up {
            thread: *thread,
            line: *line,
            s: *s,
        },
        ShortEntry::Join(thread, line, child) => Entry::Join {
            thread: *thread,
            line: *line,
            child: *child,
        },
        ShortEntry::Print(thread, line, value) => Entry::Print {
            thread: *thread,
            line: *line,
            value: *value,
        },
        ShortEntry::Tick(thread, line, place) => Entry::Tick {
            thread: *thread,
            line: *line,
            place: *place,
        },
        ShortEntry::Blocked(thread, line, what) => Entry::Blocked {
            thread: *thread,
            line: *line,
            what: *what,
        },
        ShortEntry::At(thread, k, count, line, cells) => Entry::At {
            thread: *thread,
            line: *line,
            k: *k,
            events: EventNumbers::of(&cells[..*count as usize]),
        },
        ShortEntry::Past(thread, k, count, line, cells) => Entry::Past {
            thread: *thread,
            line: *line,
            k: *k,
            events: EventNumbers::of(&cells[..*count as usize]),
        },
        ShortEntry::Back(thread, line) => Entry::Back {
            thread: *thread,
            line: *line,
        },
        ShortEntry::Enter(thread, line, k, clause) => Entry::Enter {
            thread: *thread,
            line: *line,
            k: *k,
            clause: *clause,
        },
        ShortEntry::Leave(thread, line, k, clause) => Entry::Leave {
            thread: *thread,
            line: *line,
            k: *k,
            clause: *clause,
        },
        ShortEntry::Post(thread, line, k, event) => Entry::Post {
            thread: *thread,
            line: *line,
            k: *k,
            event: *event,
        },
        ShortEntry::Wait(thread, line, k, event) => Entry::Wait {
            thread: *thread,
            line: *line,
            k: *k,
            event: *event,
        },
        ShortEntry::Cross(thread, line, place, version, passed) => Entry::Cross {
            thread: *thread,
            line: *line,
            place: *place,
            version: *version,
            passed: *passed,
        },
        ShortEntry::Asked(k) => Entry::Asked { k: *k },
        ShortEntry::Refused(k, number, clause) => Entry::Refused {
            k: *k,
            number: *number,
            clause: *clause,
        },
        ShortEntry::Installed(k, version, places) => Entry::Installed {
            k: *k,
            version: *version,
            places: *places,
        },
        ShortEntry::Removed(k, version, places) => Entry::Removed {
            k: *k,
            version: *version,
            places: *places,
        },
        ShortEntry::Stalled(k, thread, line) => Entry::Stalled {
            k: *k,
            thread: *thread,
            line: *line,
        },
        ShortEntry::Cut(k) => Entry::Cut { k: *k },
        ShortEntry::Unreached(k) => Entry::Unreached { k: *k },
        ShortEntry::Finish(kind) => Entry::Finish { kind: *kind },
        ShortEntry::Long(index) => longs[*index as usize].copy(),
    }
}
