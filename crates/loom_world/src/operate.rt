//! What a thread does in the locks of filters.
ghost use Rattle.std.specs.Prelude.{ℕ, ◌≡◌, true, false};
ghost use Rattle.loom_event.specs.Answer.{asks_operation, IsAnswerTo};
ghost use Rattle.loom_ops.specs.Ops.{has_lock, has_holder, is_holder, owns, with_holder};
ghost use Rattle.loom_world.specs.Operating.{IsLockedFor, CanOperate, Locks, Operates};

use crate::entry::line_of;
use loom_ops::answer::OpAnswer;
use loom_ops::ops::Ops;
use loom_trace::entry::{Entry, What};
use loom_trace::request::Request;

/// The entry that a thread makes, and what it is blocked at with it.
#[derive(Debug, Drop)]
pub(crate) struct Made {
    pub(crate) entry: Entry,
    pub(crate) wait: Option<What>,
}

/// Whether a filter or a version makes a thread ask for it.
pub(crate) fn is_operation(request: &Request) -> bool
    ensures { result ≡ asks_operation request.now }
{
    match *request {
        Request::Begin { .. } => false,
        Request::End { .. } => false,
        Request::Trap { .. } => false,
        Request::Read { .. } => false,
        Request::Write { .. } => false,
        Request::Lock { .. } => false,
        Request::Unlock { .. } => false,
        Request::Down { .. } => false,
        Request::Up { .. } => false,
        Request::Spawn { .. } => false,
        Request::Join { .. } => false,
        Request::Print { .. } => false,
        Request::Tick { .. } => false,
        Request::At { .. } => true,
        Request::Past { .. } => true,
        Request::Back { .. } => true,
        Request::Enter { .. } => true,
        Request::Leave { .. } => true,
        Request::Post { .. } => true,
        Request::Wait { .. } => true,
        Request::Cross { .. } => true,
    }
}

// The entry that tells an operation as it is asked for.
fn entry_of(thread: u8, request: &Request) -> Entry
    requires { asks_operation request.now ≡ true }
    ensures { IsAnswerTo thread request.now result }
{
    match *request {
        Request::Begin { .. } => unreachable!(),
        Request::End { .. } => unreachable!(),
        Request::Trap { .. } => unreachable!(),
        Request::Read { .. } => unreachable!(),
        Request::Write { .. } => unreachable!(),
        Request::Lock { .. } => unreachable!(),
        Request::Unlock { .. } => unreachable!(),
        Request::Down { .. } => unreachable!(),
        Request::Up { .. } => unreachable!(),
        Request::Spawn { .. } => unreachable!(),
        Request::Join { .. } => unreachable!(),
        Request::Print { .. } => unreachable!(),
        Request::Tick { .. } => unreachable!(),
        Request::At { line, k, events } => Entry::At {
            thread,
            line,
            k,
            events,
        },
        Request::Past { line, k, events } => Entry::Past {
            thread,
            line,
            k,
            events,
        },
        Request::Back { line } => Entry::Back { thread, line },
        Request::Enter { line, k, clause } => Entry::Enter {
            thread,
            line,
            k,
            clause,
        },
        Request::Leave { line, k, clause } => Entry::Leave {
            thread,
            line,
            k,
            clause,
        },
        Request::Post { line, k, event } => Entry::Post {
            thread,
            line,
            k,
            event,
        },
        Request::Wait { line, k, event } => Entry::Wait {
            thread,
            line,
            k,
            event,
        },
        Request::Cross {
            line,
            place,
            version,
            passed,
        } => Entry::Cross {
            thread,
            line,
            place,
            version,
            passed,
        },
    }
}

// Whether the thread is told that it can't enter: another one is inside. Where it can, it is inside.
fn enter(ops: &mut Ops, t: u8, k: u8, clause: u8) -> bool
    requires there { has_lock ops.old.filters k clause ≡ true }
    requires outside { is_holder ops.old.holders k clause t ≡ false }
    requires alone { (u : ℕ) → owns ops.old u ≡ true → u ≡ t }
    ensures free { result ≡ false → (has_holder ops.old.holders k clause ≡ false) × (ops.new ≡ with_holder ops.old k clause t) }
    ensures blocked { result ≡ true → IsLockedFor ops.old t k clause × (ops.new ≡ ops.old) }
{
    match ops.enter(t, k, clause) {
        OpAnswer::Granted => false,
        OpAnswer::Held { .. } => true,
        OpAnswer::Short { .. } => unreachable!(),
    }
}

// What a thread asks of the locks: whether it is told that the request is disabled.
fn lock(ops: &mut Ops, t: u8, request: &Request) -> Option<What>
    requires { CanOperate ops.old t request.now }
    ensures { Locks ops.old t request.now result ops.new }
{
    match *request {
        Request::Begin { .. } => unreachable!(),
        Request::End { .. } => unreachable!(),
        Request::Trap { .. } => unreachable!(),
        Request::Read { .. } => unreachable!(),
        Request::Write { .. } => unreachable!(),
        Request::Lock { .. } => unreachable!(),
        Request::Unlock { .. } => unreachable!(),
        Request::Down { .. } => unreachable!(),
        Request::Up { .. } => unreachable!(),
        Request::Spawn { .. } => unreachable!(),
        Request::Join { .. } => unreachable!(),
        Request::Print { .. } => unreachable!(),
        Request::Tick { .. } => unreachable!(),
        Request::At { .. } => None,
        Request::Past { .. } => None,
        Request::Back { .. } => None,
        Request::Enter { k, clause, .. } => {
            if enter(ops, t, k, clause) {
                return Some(What::Enter(k, clause));
            }
            None
        }
        Request::Leave { k, clause, .. } => {
            ops.leave(t, k, clause);
            None
        }
        Request::Post { .. } => unreachable!(),
        Request::Wait { .. } => unreachable!(),
        Request::Cross { .. } => None,
    }
}

/// What comes of an operation that thread `t` asks for: its entry, or `Blocked` where another thread is inside the clause.
pub(crate) fn operate(ops: &mut Ops, t: u8, request: &Request) -> Made
    requires { CanOperate ops.old t request.now }
    ensures { Operates ops.old t request.now result ops.new }
{
    let wait = lock(ops, t, request);
    match wait {
        None => Made {
            entry: entry_of(t, request),
            wait,
        },
        Some(what) => Made {
            entry: Entry::Blocked {
                thread: t,
                line: line_of(request),
                what,
            },
            wait,
        },
    }
}
