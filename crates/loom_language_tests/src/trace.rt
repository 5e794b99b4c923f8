//! Texts written by hand, one journal, and one set of places.

mod rows;

use loom_trace::entry::{Ending, Entry};
use loom_trace::journal::Journal;
use loom_trace::limits::ENTRY_LIMIT;
use loom_trace::line::Line;
use loom_trace::places::Places;
use loom_trace::row::{Args, EventNumbers, PlaceRow};
use loom_trace::text::put_entry;
use rows::{ACTS, OPERATIONS};

fn most_args() -> Args {
    let mut args = Args::none();
    args.push(i64::MIN);
    args.push(-1);
    args.push(0);
    args.push(i64::MAX);
    args
}

fn three_events() -> EventNumbers {
    let mut events = EventNumbers::none();
    events.push(1);
    events.push(9);
    events.push(32);
    events
}

fn two_places() -> PlaceRow {
    let mut places = PlaceRow::zeros();
    places.put(0, 8320);
    places.put(7, 10);
    places
}

fn line_of(entry: &Entry) -> Line {
    let mut line = Line::new();
    put_entry(entry, &mut line);
    line
}

#[test]
fn what_threads_do(rt: HostRuntime) {
    for (i, row) in ACTS.iter().enumerate() {
        assert_eq!(rt; line_of(&row.entry).bytes(), row.text, "in row {i}");
    }
}

#[test]
fn what_a_spawn_tells(rt: HostRuntime) {
    let (thread, line) = (3, 65_537);
    let args = most_args();
    let table: [(Entry, &[u8]); 2] = [
        (
            Entry::Spawn {
                thread,
                line,
                child: 8,
                func: 12,
                args,
            },
            b"3:65537 spawn 8 12 -9223372036854775808 -1 0 9223372036854775807",
        ),
        (
            Entry::Spawn {
                thread,
                line,
                child: 2,
                func: 0,
                args: Args::none(),
            },
            b"3:65537 spawn 2 0",
        ),
    ];
    for (i, (entry, text)) in table.iter().enumerate() {
        assert_eq!(rt; line_of(entry).bytes(), *text, "in row {i}");
    }
}

#[test]
fn what_filters_make_threads_do(rt: HostRuntime) {
    for (i, row) in OPERATIONS.iter().enumerate() {
        assert_eq!(rt; line_of(&row.entry).bytes(), row.text, "in row {i}");
    }
}

#[test]
fn what_events_tell(rt: HostRuntime) {
    let (thread, line) = (8, 0);
    let events = three_events();
    let table: [(Entry, &[u8]); 2] = [
        (
            Entry::At {
                thread,
                line,
                k: 64,
                events,
            },
            b"8:0 at 64 1 9 32",
        ),
        (
            Entry::Past {
                thread,
                line,
                k: 1,
                events,
            },
            b"8:0 past 1 1 9 32",
        ),
    ];
    for (i, (entry, text)) in table.iter().enumerate() {
        assert_eq!(rt; line_of(entry).bytes(), *text, "in row {i}");
    }
}

#[test]
fn what_is_done_to_all(rt: HostRuntime) {
    let places = two_places();
    let table: [(Entry, &[u8]); 11] = [
        (Entry::Asked { k: 64 }, b"asked 64"),
        (
            Entry::Refused {
                k: 1,
                number: 14,
                clause: 0,
            },
            b"refused 1 14 0",
        ),
        (
            Entry::Installed {
                k: 1,
                version: 2,
                places,
            },
            b"installed 1 2 8320 0 0 0 0 0 0 10",
        ),
        (
            Entry::Removed {
                k: 2,
                version: 128,
                places,
            },
            b"removed 2 128 8320 0 0 0 0 0 0 10",
        ),
        (
            Entry::Stalled {
                k: 1,
                thread: 2,
                line: 4,
            },
            b"stalled 1 2 4",
        ),
        (Entry::Cut { k: 3 }, b"cut 3"),
        (Entry::Unreached { k: 4 }, b"unreached 4"),
        (Entry::Finish { kind: Ending::Done }, b"finish done"),
        (
            Entry::Finish {
                kind: Ending::Stuck,
            },
            b"finish stuck",
        ),
        (
            Entry::Finish {
                kind: Ending::Limit,
            },
            b"finish limit",
        ),
        (
            Entry::Finish {
                kind: Ending::Stopped,
            },
            b"finish stopped",
        ),
    ];
    for (i, (entry, text)) in table.iter().enumerate() {
        assert_eq!(rt; line_of(entry).bytes(), *text, "in row {i}");
    }
}

#[test]
fn a_journal_keeps_its_entries(rt: HostRuntime) {
    let mut journal = Journal::make(rt.alloc(), 1).expect(&rt, "memory");
    let entry = Entry::Asked { k: 9 };
    journal.push(Entry::Back { thread: 1, line: 2 });
    journal.push(entry.copy());
    assert_eq!(rt; journal.len(), 2);
    assert_eq!(rt; line_of(&journal.get(0)).bytes(), "1:2 back".as_bytes());
    assert_eq!(rt; line_of(&journal.get(1)).bytes(), "asked 9".as_bytes());
}

#[test]
fn has_memory_at_each_limit(rt: HostRuntime) {
    for limit in [0, 1, 100_000, ENTRY_LIMIT] {
        let journal = Journal::make(rt.alloc(), limit);
        assert!(rt; journal.is_ok(), "with {limit}");
    }
}

#[test]
fn a_set_has_the_places_put(rt: HostRuntime) {
    let mut places = Places::none();
    assert!(rt; !places.has(63));
    places.put(63);
    places.put(8320);
    assert!(rt; places.has(63) && places.has(8320));
    assert!(rt; !places.has(0) && !places.has(64));
}
