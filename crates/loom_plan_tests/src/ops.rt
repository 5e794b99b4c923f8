//! Clauses of filters that threads enter and leave, and orders whose events they post and wait for.
ghost use Rattle.std.specs.Prelude.{ℕ, ◌≡◌, true};
ghost use Rattle.loom_law.specs.Filter.{is_number};

mod rows;

use crate::plan::{compiled_in, flow_of};
use loom_ops::answer::OpAnswer;
use loom_ops::ops::Ops;
use loom_plan::compiled::Compiled;
use loom_trace::entry::What;
use rows::{Call, FILTER, ORDER_ROWS, ORDERS, PROGRAM, ROWS, Row, Told};
use std::test::Fail;

// What `post` asks for.
const MOST_EVENTS: u8 = 32;

const MOST_POSTS: u32 = 1_000_000;

// Whether it is this thread.
fn is_thread(o: Option<u8>, t: u8) -> bool
    ensures { result ≡ is_number t o }
{
    match o {
        None => false,
        Some(u) => u == t,
    }
}

// Whether it is no other thread.
fn is_no_other(o: Option<u8>, t: u8) -> bool
    ensures { result ≡ true → (u : ℕ) → is_number u o ≡ true → u ≡ t }
{
    match o {
        None => true,
        Some(u) => u == t,
    }
}

fn install(ops: &mut Ops, k: u8, c: &Compiled) -> Told {
    if ops.is_installed(k) || ops.is_full() {
        return Told::Not;
    }
    ops.install(k, c);
    Told::Done
}

fn enter(ops: &mut Ops, t: u8, k: u8, clause: u8) -> Told {
    if !ops.has_lock(k, clause) {
        return Told::Not;
    }
    if is_thread(ops.holder(k, clause), t) || !is_no_other(ops.owner(), t) {
        return Told::Not;
    }
    match ops.enter(t, k, clause) {
        OpAnswer::Granted => Told::Done,
        OpAnswer::Held { clause, by } => Told::Held(clause, by),
        OpAnswer::Short { .. } => unreachable!(),
    }
}

fn leave(ops: &mut Ops, t: u8, k: u8, clause: u8) -> Told {
    if !is_thread(ops.holder(k, clause), t) {
        return Told::Not;
    }
    ops.leave(t, k, clause);
    Told::Done
}

fn post(ops: &mut Ops, k: u8, event: u8) -> Told {
    if event == 0 || event > MOST_EVENTS {
        return Told::Not;
    }
    if ops.posts(k, event) >= MOST_POSTS {
        return Told::Not;
    }
    ops.post(k, event);
    Told::Done
}

fn wait(ops: &Ops, k: u8, event: u8) -> Told {
    match ops.wait(k, event) {
        OpAnswer::Granted => Told::Done,
        OpAnswer::Held { .. } => unreachable!(),
        OpAnswer::Short { event, posts } => Told::Short(event, posts),
    }
}

fn told(ops: &mut Ops, c: &Compiled, call: Call) -> Told {
    match call {
        Call::Install(k) => install(ops, k, c),
        Call::Remove(k) => {
            ops.remove(k);
            Told::Done
        }
        Call::Enter(t, k, clause) => enter(ops, t, k, clause),
        Call::Leave(t, k, clause) => leave(ops, t, k, clause),
        Call::Waits(t, k, clause) => Told::Is(ops.is_disabled(t, What::Enter(k, clause))),
        Call::Post(k, event) => post(ops, k, event),
        Call::Wait(k, event) => wait(ops, k, event),
        Call::Lacks(t, k, event) => Told::Is(ops.is_disabled(t, What::Wait(k, event))),
    }
}

// The first row that is answered otherwise.
fn first_wrong(ops: &mut Ops, c: &Compiled, rows: &[Row]) -> Option<usize> {
    'rows: for (i, row) in rows.iter().enumerate() {
        if told(ops, c, row.0) != row.1 || ops.owner() != row.2 {
            return Some(i);
        }
    }
    None
}

#[test]
fn answers_the_rows(rt: HostRuntime) -> Result<(), Fail> {
    let flow = flow_of(rt.alloc(), PROGRAM)?;
    let filter = compiled_in(rt.alloc(), &flow, FILTER)?;
    let mut ops = Ops::make();
    assert_eq!(rt; first_wrong(&mut ops, &filter, &ROWS), None);
    Ok(())
}

#[test]
fn answers_the_rows_of_orders(rt: HostRuntime) -> Result<(), Fail> {
    let flow = flow_of(rt.alloc(), PROGRAM)?;
    let filter = compiled_in(rt.alloc(), &flow, ORDERS)?;
    let mut ops = Ops::make();
    assert_eq!(rt; first_wrong(&mut ops, &filter, &ORDER_ROWS), None);
    Ok(())
}

#[test]
fn has_as_many_filters_as_may_be(rt: HostRuntime) -> Result<(), Fail> {
    let flow = flow_of(rt.alloc(), PROGRAM)?;
    let filter = compiled_in(rt.alloc(), &flow, FILTER)?;
    let mut ops = Ops::make();
    'filters: for k in 1..17 {
        assert!(rt; install(&mut ops, k, &filter) == Told::Done);
    }
    assert!(rt; install(&mut ops, 17, &filter) == Told::Not);
    ops.remove(3);
    assert!(rt; install(&mut ops, 17, &filter) == Told::Done);
    Ok(())
}
