//! What threads of a small program are answered.
ghost use Rattle.std.specs.Prelude.{◌≡◌, ◌≤◌, true};
ghost use Rattle.loom_trace.specs.Limits.{thread_limit};
ghost use Rattle.loom_event.specs.Answer.{asks_begin};
ghost use Rattle.loom_store.specs.Answer.{MayAsk, CanAnswer};

mod rows;

use super::Store;
use crate::answer::Answer;
use crate::threads::tests::is_at;
use loom_lang::parse::{LangError, parse_program};
use loom_trace::request::Request;
use loom_trace::row::Args;
use rows::{ALONE, END, PROGRAM, Row, TWO};
use std::alloc::Global;
use std::test::Fail;

fn first_store(alloc: Global, threads: u8) -> Result<Store, LangError>
    requires { threads ≤ thread_limit }
{
    let bytes = PROGRAM.as_bytes();
    if bytes.len() > 65536 {
        return Err(LangError::NoMemory);
    }
    let program = parse_program(alloc, bytes)?;
    Ok(Store::make(alloc, &program, threads)?)
}

fn begins(r: &Request) -> bool
    ensures { result ≡ asks_begin r.now }
{
    match *r {
        Request::Begin { .. } => true,
        Request::End { .. } => false,
        Request::Trap { .. } => false,
        Request::Read { .. } => false,
        Request::Write { .. } => false,
        Request::Lock { .. } => false,
        Request::Unlock { .. } => false,
        Request::Down { .. } => false,
        Request::Up { .. } => false,
        Request::Spawn { .. } => false,
        Request::Join { .. } => false,
        Request::Print { .. } => false,
        Request::Tick { .. } => false,
        Request::At { .. } => false,
        Request::Past { .. } => false,
        Request::Back { .. } => false,
        Request::Enter { .. } => false,
        Request::Leave { .. } => false,
        Request::Post { .. } => false,
        Request::Wait { .. } => false,
        Request::Cross { .. } => false,
    }
}

fn may_ask(store: &Store, t: u8, r: &Request) -> bool
    ensures { result ≡ true → MayAsk store.now t r.now }
{
    is_at(&store.threads, t, !begins(r))
}

fn can_answer(store: &Store, r: &Request) -> bool
    ensures { result ≡ true → CanAnswer store.now r.now }
{
    match *r {
        Request::Begin { .. } => true,
        Request::End { .. } => true,
        Request::Trap { reason, .. } => reason == 1 || reason == 2 || reason == 6,
        Request::Read { word, .. } => (word as usize) < store.words.len(),
        Request::Write { word, .. } => (word as usize) < store.words.len(),
        Request::Lock { m, .. } => (m as usize) < store.holders.len(),
        Request::Unlock { m, .. } => (m as usize) < store.holders.len(),
        Request::Down { s, .. } => (s as usize) < store.semas.len(),
        Request::Up { s, .. } => (s as usize) < store.semas.len(),
        Request::Spawn { .. } => true,
        Request::Join { .. } => true,
        Request::Print { .. } => true,
        Request::Tick { .. } => true,
        Request::At { .. } => false,
        Request::Past { .. } => false,
        Request::Back { .. } => false,
        Request::Enter { .. } => false,
        Request::Leave { .. } => false,
        Request::Post { .. } => false,
        Request::Wait { .. } => false,
        Request::Cross { .. } => false,
    }
}

// The answer, where that may be asked, and whether what the thread waits for is disabled.
fn asked(store: &mut Store, t: u8, r: &Request) -> Option<(Answer, bool)> {
    if !may_ask(store, t, r) || !can_answer(store, r) {
        return None;
    }
    let answer = store.ask(t, r);
    let waits = match answer {
        Answer::Granted(_) => false,
        Answer::Disabled(what) => store.is_disabled(t, what),
        Answer::Trapped(_) => false,
    };
    Some((answer, waits))
}

fn is_answered(store: &mut Store, row: &Row) -> bool {
    match asked(store, row.0, &row.1) {
        Some((answer, waits)) => answer == row.2 && waits == matches!(row.2, Answer::Disabled(_)),
        None => false,
    }
}

// The first row that is answered otherwise.
fn first_wrong(store: &mut Store, rows: &[Row]) -> Option<usize> {
    'rows: for (i, row) in rows.iter().enumerate() {
        if !is_answered(store, row) {
            return Some(i);
        }
    }
    None
}

// Thread 1 spawns another, which isn't begun.
fn spawns(store: &mut Store, answer: Answer) -> bool {
    let request = Request::Spawn {
        line: 1,
        func: 1,
        args: Args::none(),
    };
    is_answered(store, &(1, request, answer))
}

// Threads 3 to 8 are spawned.
fn spawns_all(store: &mut Store) -> bool {
    'threads: for t in 3..9 {
        if !spawns(store, Answer::Granted(t)) {
            return false;
        }
    }
    true
}

#[test]
fn answers_the_rows(rt: HostRuntime) -> Result<(), Fail> {
    let mut store = first_store(rt.alloc(), 8)?;
    assert_eq!(rt; first_wrong(&mut store, &ALONE), None);
    assert!(rt; spawns(&mut store, Answer::Granted(2)));
    assert_eq!(rt; first_wrong(&mut store, &TWO), None);
    assert!(rt; spawns_all(&mut store));
    assert!(rt; spawns(&mut store, Answer::Trapped(5)));
    assert_eq!(rt; first_wrong(&mut store, &END), None);
    Ok(())
}

#[test]
fn has_as_many_threads_as_it_is_given(rt: HostRuntime) -> Result<(), Fail> {
    let mut store = first_store(rt.alloc(), 2)?;
    assert_eq!(rt; first_wrong(&mut store, &ALONE), None);
    assert!(rt; spawns(&mut store, Answer::Granted(2)));
    assert!(rt; spawns(&mut store, Answer::Trapped(5)));
    let none = first_store(rt.alloc(), 0)?;
    assert!(rt; none.thread(1).is_none());
    Ok(())
}
