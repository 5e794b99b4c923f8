//! The text of an entry.
ghost use Rattle.std.specs.Prelude.{◌≡◌, ◌+◌, ◌*◌, ◌<◌, ◌≤◌, [], ◌∷◌, ◌++◌, length, map, take};
ghost use Rattle.loom_tree.specs.Decimal.{decimal, signed_decimal};
ghost use Rattle.loom_trace.specs.Limits.{line_limit, fields_limit};
ghost use Rattle.loom_trace.specs.Text.{spaced, what_fields, ending_word, entry_line};
ghost use Rattle.loom_trace.specs.Parts.{thread_before, thread_and_line, place_prefix, word_of, fields_of};

use crate::bytes::{put_byte, put_bytes};
use crate::entry::{Ending, Entry, What};
use crate::line::Line;
use crate::number::{Number, put_field, put_numbers};
use crate::row::{Args, EventNumbers, PlaceRow};

// The thread and the line of what a thread does, and a space.
#[inline(always)]
fn put_thread(thread: u8, line: u32, cells: &mut [u8], at: usize) -> usize
    requires { at + 15 ≤ length cells.old }
    ensures text { take result cells.new ≡ take at cells.old ++ thread_before thread line }
    ensures short { result ≤ at + 15 }
    ensures len { length cells.new ≡ length cells.old }
{
    let colon = thread.put(cells, at);
    let number = put_byte(b':', cells, colon);
    let end = line.put(cells, number);
    put_byte(b' ', cells, end)
}

// A word behind a space.
#[inline(always)]
fn put_word(word: &[u8], cells: &mut [u8], at: usize) -> usize
    requires { at + length word.now < length cells.old }
    ensures text { take result cells.new ≡ take at cells.old ++ 32 ∷ word.now }
    ensures place { result ≡ at + length word.now + 1 }
    ensures len { length cells.new ≡ length cells.old }
{
    let begin = put_byte(b' ', cells, at);
    put_bytes(word, cells, begin)
}

// Two small numbers.
#[inline(always)]
fn put_pair(first: u8, second: u8, cells: &mut [u8], at: usize) -> usize
    requires { at + 8 ≤ length cells.old }
    ensures text { take result cells.new ≡ take at cells.old ++ spaced (decimal first ∷ decimal second ∷ []) }
    ensures short { result ≤ at + 8 }
    ensures len { length cells.new ≡ length cells.old }
{
    let end = put_field(first, cells, at);
    put_field(second, cells, end)
}

// What a thread is blocked at.
#[tactic(auto, using(std::proofs::Common::append_assoc))]
fn put_what(what: &What, cells: &mut [u8], at: usize) -> usize
    requires { at + fields_limit ≤ length cells.old }
    ensures text { take result cells.new ≡ take at cells.old ++ spaced (what_fields what.now) }
    ensures short { result ≤ at + fields_limit }
    ensures len { length cells.new ≡ length cells.old }
{
    match what {
        What::Lock(m) => {
            let end = put_word(b"lock", cells, at);
            put_field(*m, cells, end)
        }
        What::Down(s) => {
            let end = put_word(b"down", cells, at);
            put_field(*s, cells, end)
        }
        What::Join(child) => {
            let end = put_word(b"join", cells, at);
            put_field(*child, cells, end)
        }
        What::Enter(k, clause) => {
            let end = put_word(b"enter", cells, at);
            put_pair(*k, *clause, cells, end)
        }
        What::Wait(k, event) => {
            let end = put_word(b"wait", cells, at);
            put_pair(*k, *event, cells, end)
        }
    }
}

// How a run ends.
fn put_ending(kind: &Ending, cells: &mut [u8], at: usize) -> usize
    requires { at + fields_limit ≤ length cells.old }
    ensures text { take result cells.new ≡ take at cells.old ++ spaced (ending_word kind.now ∷ []) }
    ensures short { result ≤ at + fields_limit }
    ensures len { length cells.new ≡ length cells.old }
{
    match kind {
        Ending::Done => put_word(b"done", cells, at),
        Ending::Stuck => put_word(b"stuck", cells, at),
        Ending::Limit => put_word(b"limit", cells, at),
        Ending::Stopped => put_word(b"stopped", cells, at),
    }
}

// A word's number and a value.
#[inline(always)]
fn put_access(word: u32, value: i64, cells: &mut [u8], at: usize) -> usize
    requires { at + fields_limit ≤ length cells.old }
    ensures text { take result cells.new ≡ take at cells.old ++ spaced (decimal word ∷ signed_decimal value ∷ []) }
    ensures short { result ≤ at + fields_limit }
    ensures len { length cells.new ≡ length cells.old }
{
    let end = put_field(word, cells, at);
    put_field(value, cells, end)
}

fn put_spawn(child: u8, func: u8, args: &Args, cells: &mut [u8], at: usize) -> usize
    requires { at + fields_limit ≤ length cells.old }
    ensures text { take result cells.new
        ≡ take at cells.old ++ spaced (decimal child ∷ decimal func ∷ map signed_decimal args.now) }
    ensures short { result ≤ at + fields_limit }
    ensures len { length cells.new ≡ length cells.old }
{
    let end = put_pair(child, func, cells, at);
    put_numbers(args.as_slice(), cells, end)
}

fn put_events(k: u8, events: &EventNumbers, cells: &mut [u8], at: usize) -> usize
    requires { at + fields_limit ≤ length cells.old }
    ensures text { take result cells.new
        ≡ take at cells.old ++ spaced (decimal k ∷ map decimal events.now) }
    ensures short { result ≤ at + fields_limit }
    ensures len { length cells.new ≡ length cells.old }
{
    let end = put_field(k, cells, at);
    put_numbers(events.as_slice(), cells, end)
}

// A place, and two numbers of 32 bits.
fn put_crossing(place: u16, version: u32, passed: u32, cells: &mut [u8], at: usize) -> usize
    requires { at + fields_limit ≤ length cells.old }
    ensures text { take result cells.new
        ≡ take at cells.old ++ spaced (decimal place ∷ decimal version ∷ decimal passed ∷ []) }
    ensures short { result ≤ at + fields_limit }
    ensures len { length cells.new ≡ length cells.old }
{
    let end = put_field(place, cells, at);
    put_numbers(&[version, passed], cells, end)
}

// A command, the version that it makes, and where the threads stand.
fn put_change(k: u8, version: u32, places: &PlaceRow, cells: &mut [u8], at: usize) -> usize
    requires { at + fields_limit ≤ length cells.old }
    ensures text { take result cells.new
        ≡ take at cells.old ++ spaced (decimal k ∷ decimal version ∷ map decimal places.now) }
    ensures short { result ≤ at + fields_limit }
    ensures len { length cells.new ≡ length cells.old }
{
    let middle = put_field(k, cells, at);
    let end = put_field(version, cells, middle);
    put_numbers(places.as_slice(), cells, end)
}

fn put_stalled(k: u8, thread: u8, line: u32, cells: &mut [u8], at: usize) -> usize
    requires { at + fields_limit ≤ length cells.old }
    ensures text { take result cells.new
        ≡ take at cells.old ++ spaced (decimal k ∷ decimal thread ∷ decimal line ∷ []) }
    ensures short { result ≤ at + fields_limit }
    ensures len { length cells.new ≡ length cells.old }
{
    let end = put_pair(k, thread, cells, at);
    put_field(line, cells, end)
}

// The word of an entry.
#[inline(always)]
fn put_entry_word(e: &Entry, cells: &mut [u8], at: usize) -> usize
    requires { at + 9 ≤ length cells.old }
    ensures text { take result cells.new ≡ take at cells.old ++ word_of e.now }
    ensures short { result ≤ at + 9 }
    ensures len { length cells.new ≡ length cells.old }
{
    match e {
        Entry::Begin { .. } => put_bytes(b"begin", cells, at),
        Entry::End { .. } => put_bytes(b"end", cells, at),
        Entry::Trap { .. } => put_bytes(b"trap", cells, at),
        Entry::Read { .. } => put_bytes(b"read", cells, at),
        Entry::Write { .. } => put_bytes(b"write", cells, at),
        Entry::Lock { .. } => put_bytes(b"lock", cells, at),
        Entry::Unlock { .. } => put_bytes(b"unlock", cells, at),
        Entry::Down { .. } => put_bytes(b"down", cells, at),
        Entry::Up { .. } => put_bytes(b"up", cells, at),
        Entry::Spawn { .. } => put_bytes(b"spawn", cells, at),
        Entry::Join { .. } => put_bytes(b"join", cells, at),
        Entry::Print { .. } => put_bytes(b"print", cells, at),
        Entry::Tick { .. } => put_bytes(b"tick", cells, at),
        Entry::Blocked { .. } => put_bytes(b"blocked", cells, at),
        Entry::At { .. } => put_bytes(b"at", cells, at),
        Entry::Past { .. } => put_bytes(b"past", cells, at),
        Entry::Back { .. } => put_bytes(b"back", cells, at),
        Entry::Enter { .. } => put_bytes(b"enter", cells, at),
        Entry::Leave { .. } => put_bytes(b"leave", cells, at),
        Entry::Post { .. } => put_bytes(b"post", cells, at),
        Entry::Wait { .. } => put_bytes(b"wait", cells, at),
        Entry::Cross { .. } => put_bytes(b"cross", cells, at),
        Entry::Asked { .. } => put_bytes(b"asked", cells, at),
        Entry::Refused { .. } => put_bytes(b"refused", cells, at),
        Entry::Installed { .. } => put_bytes(b"installed", cells, at),
        Entry::Removed { .. } => put_bytes(b"removed", cells, at),
        Entry::Stalled { .. } => put_bytes(b"stalled", cells, at),
        Entry::Cut { .. } => put_bytes(b"cut", cells, at),
        Entry::Unreached { .. } => put_bytes(b"unreached", cells, at),
        Entry::Finish { .. } => put_bytes(b"finish", cells, at),
    }
}

// The thread and the line of what a thread does.
fn thread_and_line(e: &Entry) -> Option<(u8, u32)>
    ensures { result ≡ thread_and_line e.now }
{
    match e {
        Entry::Begin { thread, line } => Some((*thread, *line)),
        Entry::End { thread, line } => Some((*thread, *line)),
        Entry::Trap { thread, line, .. } => Some((*thread, *line)),
        Entry::Read { thread, line, .. } => Some((*thread, *line)),
        Entry::Write { thread, line, .. } => Some((*thread, *line)),
        Entry::Lock { thread, line, .. } => Some((*thread, *line)),
        Entry::Unlock { thread, line, .. } => Some((*thread, *line)),
        Entry::Down { thread, line, .. } => Some((*thread, *line)),
        Entry::Up { thread, line, .. } => Some((*thread, *line)),
        Entry::Spawn { thread, line, .. } => Some((*thread, *line)),
        Entry::Join { thread, line, .. } => Some((*thread, *line)),
        Entry::Print { thread, line, .. } => Some((*thread, *line)),
        Entry::Tick { thread, line, .. } => Some((*thread, *line)),
        Entry::Blocked { thread, line, .. } => Some((*thread, *line)),
        Entry::At { thread, line, .. } => Some((*thread, *line)),
        Entry::Past { thread, line, .. } => Some((*thread, *line)),
        Entry::Back { thread, line } => Some((*thread, *line)),
        Entry::Enter { thread, line, .. } => Some((*thread, *line)),
        Entry::Leave { thread, line, .. } => Some((*thread, *line)),
        Entry::Post { thread, line, .. } => Some((*thread, *line)),
        Entry::Wait { thread, line, .. } => Some((*thread, *line)),
        Entry::Cross { thread, line, .. } => Some((*thread, *line)),
        Entry::Asked { .. } => None,
        Entry::Refused { .. } => None,
        Entry::Installed { .. } => None,
        Entry::Removed { .. } => None,
        Entry::Stalled { .. } => None,
        Entry::Cut { .. } => None,
        Entry::Unreached { .. } => None,
        Entry::Finish { .. } => None,
    }
}

// What stands before the word.
#[inline(always)]
fn put_before(place: Option<(u8, u32)>, cells: &mut [u8], at: usize) -> usize
    requires { at + 15 ≤ length cells.old }
    ensures text { take result cells.new ≡ take at cells.old ++ place_prefix place }
    ensures short { result ≤ at + 15 }
    ensures len { length cells.new ≡ length cells.old }
{
    match place {
        Some((thread, line)) => put_thread(thread, line, cells, at),
        None => at,
    }
}

// The fields behind the word.
fn put_fields(e: &Entry, cells: &mut [u8], at: usize) -> usize
    requires { at + fields_limit ≤ length cells.old }
    ensures text { take result cells.new ≡ take at cells.old ++ spaced (fields_of e.now) }
    ensures short { result ≤ at + fields_limit }
    ensures len { length cells.new ≡ length cells.old }
{
    match e {
        Entry::Begin { .. } | Entry::End { .. } | Entry::Back { .. } => at,
        Entry::Trap { reason, .. } => put_field(*reason, cells, at),
        Entry::Read { word, value, .. } => put_access(*word, *value, cells, at),
        Entry::Write { word, value, .. } => put_access(*word, *value, cells, at),
        Entry::Lock { m, .. } | Entry::Unlock { m, .. } => put_field(*m, cells, at),
        Entry::Down { s, .. } | Entry::Up { s, .. } => put_field(*s, cells, at),
        Entry::Spawn {
            child,
            func,
            args,
            ..
        } => put_spawn(*child, *func, args, cells, at),
        Entry::Join { child, .. } => put_field(*child, cells, at),
        Entry::Print { value, .. } => put_field(*value, cells, at),
        Entry::Tick { place, .. } => put_field(*place, cells, at),
        Entry::Blocked { what, .. } => put_what(what, cells, at),
        Entry::At { k, events, .. } => put_events(*k, events, cells, at),
        Entry::Past { k, events, .. } => put_events(*k, events, cells, at),
        Entry::Enter { k, clause, .. } => put_pair(*k, *clause, cells, at),
        Entry::Leave { k, clause, .. } => put_pair(*k, *clause, cells, at),
        Entry::Post { k, event, .. } => put_pair(*k, *event, cells, at),
        Entry::Wait { k, event, .. } => put_pair(*k, *event, cells, at),
        Entry::Cross {
            place,
            version,
            passed,
            ..
        } => put_crossing(*place, *version, *passed, cells, at),
        Entry::Asked { k } | Entry::Cut { k } | Entry::Unreached { k } => put_field(*k, cells, at),
        Entry::Refused { k, number, clause } => put_numbers(&[*k, *number, *clause], cells, at),
        Entry::Installed { k, version, places } => put_change(*k, *version, places, cells, at),
        Entry::Removed { k, version, places } => put_change(*k, *version, places, cells, at),
        Entry::Stalled { k, thread, line } => put_stalled(*k, *thread, *line, cells, at),
        Entry::Finish { kind } => put_ending(kind, cells, at),
    }
}

/// Writes the text of an entry, without what ends it, into cells that have room for 160 bytes (`LINE_LIMIT`) from a place on, and gives
/// the place behind it. What stands before the place stays; what stands behind the text may be anything.
#[tactic(auto, using(crate::proofs::Fields::line_parts))]
pub fn write_entry(e: &Entry, cells: &mut [u8], at: usize) -> usize
    requires { at + line_limit ≤ length cells.old }
    ensures text { take result cells.new ≡ take at cells.old ++ entry_line e.now }
    ensures short { result ≤ at + line_limit }
    ensures len { length cells.new ≡ length cells.old }
{
    let word = put_before(thread_and_line(e), cells, at);
    let fields = put_entry_word(e, cells, word);
    put_fields(e, cells, fields)
}

/// Writes the text of a printed value, without what ends it, as `write_entry` does that of an entry.
pub fn write_printed(value: i64, cells: &mut [u8], at: usize) -> usize
    requires { at + line_limit ≤ length cells.old }
    ensures text { take result cells.new ≡ take at cells.old ++ signed_decimal value }
    ensures short { result ≤ at + line_limit }
    ensures len { length cells.new ≡ length cells.old }
{
    value.put(cells, at)
}

/// Makes the line hold the text of the entry, without what ends it.
pub fn put_entry(e: &Entry, line: &mut Line)
    ensures { line.new ≡ entry_line e.now }
{
    line.len = write_entry(e, &mut line.cells, 0);
}

/// Makes the line hold the text of a printed value, without what ends it.
pub fn put_printed(value: i64, line: &mut Line)
    ensures { line.new ≡ signed_decimal value }
{
    line.len = write_printed(value, &mut line.cells, 0);
}
