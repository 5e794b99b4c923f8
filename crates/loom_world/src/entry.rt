//! The entry that an answer makes.
ghost use Rattle.std.specs.Prelude.{◌≡◌};
ghost use Rattle.loom_world.specs.Entry.{IsAnswerable, CanBeGranted, IsEntryFor, IsGrantWith, line_in};

use loom_store::answer::Answer;
use loom_trace::entry::Entry;
use loom_trace::request::Request;

/// The line of a request.
pub(crate) fn line_of(request: &Request) -> u32
    ensures { result ≡ line_in request.now }
{
    match *request {
        Request::Begin { line } => line,
        Request::End { line } => line,
        Request::Trap { line, .. } => line,
        Request::Read { line, .. } => line,
        Request::Write { line, .. } => line,
        Request::Lock { line, .. } => line,
        Request::Unlock { line, .. } => line,
        Request::Down { line, .. } => line,
        Request::Up { line, .. } => line,
        Request::Spawn { line, .. } => line,
        Request::Join { line, .. } => line,
        Request::Print { line, .. } => line,
        Request::Tick { line, .. } => line,
        Request::At { line, .. } => line,
        Request::Past { line, .. } => line,
        Request::Back { line } => line,
        Request::Enter { line, .. } => line,
        Request::Leave { line, .. } => line,
        Request::Post { line, .. } => line,
        Request::Wait { line, .. } => line,
        Request::Cross { line, .. } => line,
    }
}

// The entry of a request that is granted, with the value that the answer gives.
fn granted(thread: u8, request: &Request, value: i64) -> Entry
    requires { CanBeGranted request.now value }
    ensures { IsGrantWith thread request.now value result }
{
    match *request {
        Request::Begin { line } => Entry::Begin { thread, line },
        Request::End { line } => Entry::End { thread, line },
        Request::Trap { line, reason } => Entry::Trap {
            thread,
            line,
            reason,
        },
        Request::Read { line, word } => Entry::Read {
            thread,
            line,
            word,
            value,
        },
        Request::Write { line, word, value } => Entry::Write {
            thread,
            line,
            word,
            value,
        },
        Request::Lock { line, m } => Entry::Lock { thread, line, m },
        Request::Unlock { line, m } => Entry::Unlock { thread, line, m },
        Request::Down { line, s } => Entry::Down { thread, line, s },
        Request::Up { line, s } => Entry::Up { thread, line, s },
        Request::Spawn { line, func, args } => Entry::Spawn {
            thread,
            line,
            child: value as u8,
            func,
            args,
        },
        Request::Join { line, value } => Entry::Join {
            thread,
            line,
            child: value as u8,
        },
        Request::Print { line, value } => Entry::Print {
            thread,
            line,
            value,
        },
        Request::Tick { line, place } => Entry::Tick {
            thread,
            line,
            place,
        },
        Request::At { .. } => unreachable!(),
        Request::Past { .. } => unreachable!(),
        Request::Back { .. } => unreachable!(),
        Request::Enter { .. } => unreachable!(),
        Request::Leave { .. } => unreachable!(),
        Request::Post { .. } => unreachable!(),
        Request::Wait { .. } => unreachable!(),
        Request::Cross { .. } => unreachable!(),
    }
}

/// The entry of thread `thread` where the store answers its request so.
pub(crate) fn entry_for(thread: u8, request: &Request, answer: Answer) -> Entry
    requires { IsAnswerable thread request.now answer }
    ensures { IsEntryFor thread request.now answer result }
{
    match answer {
        Answer::Granted(value) => granted(thread, request, value),
        Answer::Disabled(what) => Entry::Blocked {
            thread,
            line: line_of(request),
            what,
        },
        Answer::Trapped(reason) => Entry::Trap {
            thread,
            line: line_of(request),
            reason,
        },
    }
}
