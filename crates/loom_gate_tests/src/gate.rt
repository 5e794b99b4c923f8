//! A gate of one thread, call by call, and one whose thread runs beside its key.
ghost use Rattle.std.specs.Prelude.{◌≡◌, ℕ, ◌+◌, ◌<◌, ◌≤◌, [], IfSome, All, true, false};
ghost use Rattle.std.specs.Thread.{IsSync};
ghost use Rattle.loom_trace.specs.Places.{has_place};
ghost use Rattle.loom_gate.specs.Seats.{threads_of, places_of, IsPassOf, ArePassesOf, IsKeyOf, IsStanding};

use loom_gate::gate::Gate;
use loom_gate::key::{Key, Looked};
use loom_gate::log::{GateLog, PassRow};
use loom_gate::make::Passes;
use loom_gate::pass::{Entered, Pass};
use loom_gate::settle::settle;
use loom_trace::places::Places;
use std::sync::Wait;
use std::test::Fail;
use std::thread::{Threads, join_mut};

// The pass of a gate of one thread.
fn only(gate: &Gate, passes: &mut Vec<Pass>) -> Option<Pass>
    requires passes { ArePassesOf gate.now passes.old.items × (threads_of gate.now ≡ 1) × All IsStanding passes.old.items }
    ensures pass { IfSome result (λ p. IsPassOf gate.now p × IsStanding p × (p.thread ≡ 1)) }
    ensures rest { IfSome result (λ p. passes.new.items ≡ []) }
{
    passes.pop()
}

// The set of two places, below a limit.
fn two(a: u16, b: u16, limit: u16) -> Places
    requires { (a < limit) × (b < limit) × (limit ≤ 8321) }
    ensures has { (has_place result a ≡ true) × (has_place result b ≡ true) }
    ensures below { (p : ℕ) → has_place result p ≡ true → p < limit }
{
    let mut places = Places::none();
    places.put(a);
    places.put(b);
    places
}

#[test]
fn one_thread_of_four_places(rt: HostRuntime) -> Result<(), Fail> {
    let Ok((gate, mut key, Passes(mut passes))) = Gate::make(rt.alloc(), 1, 4, 2) else {
        panic!(rt; "memory")
    };
    let Some(mut pass) = only(&gate, &mut passes) else {
        panic!(rt; "no pass")
    };
    let Entered::Inside(first) = pass.enter(&gate) else {
        panic!(rt; "flagged")
    };
    key.raise(&gate, &two(0, 2, 4));
    assert!(rt; matches!(key.look(&gate, 1), Looked::Inside));
    pass.leave(&gate, 2);
    let Looked::Stands(seen) = key.look(&gate, 1) else {
        panic!(rt; "inside")
    };
    assert!(rt; seen == 2);
    let Entered::Flagged(flagged) = pass.enter(&gate) else {
        panic!(rt; "inside")
    };
    key.switch(&gate);
    key.lower(&gate);
    let Entered::Inside(second) = pass.enter(&gate) else {
        panic!(rt; "flagged")
    };
    assert!(rt; first == 0 && flagged == 2 && second == 1);
    assert!(rt; !pass.poll(&gate, 2));
    pass.leave(&gate, 3);
    let Ok(()) = passes.push(pass) else {
        panic!(rt; "memory")
    };
    let log = settle(gate, key, Passes(passes));
    assert!(rt; log.switches.0.len() == 1 && log.rows.0.len() == 2 && log.ends.0.len() == 1);
    let switched = log.switches.0[0];
    assert!(rt; switched.version == 1 && switched.thread == 1 && switched.place == 2);
    let early = log.rows.0[0];
    let late = log.rows.0[1];
    assert!(rt; early.thread == 1 && early.version == 0 && early.place == 0);
    assert!(rt; late.thread == 1 && late.version == 1 && late.place == 2);
    assert!(rt; log.ends.0[0] == 3);
    Ok(())
}

// Enters so many times, as soon as its flag is down each time, and leaves at places 1, 2, 0, 1 and so on.
// Tells how many times it entered.
fn come_and_go<R: Wait>(rt: &R, gate: &Gate, pass: &mut Pass, times: u32) -> u32
    requires pass { IsPassOf gate.now pass.old × IsStanding pass.old }
    requires places { 2 < places_of gate.now }
    ensures pass { IsPassOf gate.now pass.new × IsStanding pass.new }
    ensures same { pass.new.thread ≡ pass.old.thread }
{
    let mut entered = 0u32;
    'times: for i in 0..times {
        'tries: for _ in rt.forever() {
            if let Entered::Inside(_) = pass.enter(gate) {
                pass.leave(gate, ((i + 1) % 3) as u16);
                entered = entered.wrapping_add(1);
                break;
            }
        }
    }
    entered
}

// Raises places 0 and 1, switches as soon as the thread is found at one of them, and lowers.
fn evacuate<R: Wait>(rt: &R, gate: &Gate, key: &mut Key)
    requires key { IsKeyOf gate.now key.old × (key.old.up ≡ false) × (0 < key.old.left) }
    requires threads { (threads_of gate.now ≡ 1) × (1 < places_of gate.now) }
    ensures key { IsKeyOf gate.now key.new × (key.new.up ≡ false) × (key.old.left ≤ key.new.left + 1) }
{
    let flags = two(0, 1, 2);
    key.raise(gate, &flags);
    'looks: for _ in rt.forever() {
        if let Looked::Stands(place) = key.look(gate, 1)
            && flags.has(place)
        {
            key.switch(gate);
            break;
        }
    }
    key.lower(gate);
}

// The thread comes and goes a thousand times while the key evacuates twice. Tells how often it entered.
fn both<R: Threads + Wait + Sync>(rt: &R, gate: &Gate, key: &mut Key, pass: &mut Pass) -> u32
    requires key { IsKeyOf gate.now key.old × (key.old.up ≡ false) × (1 < key.old.left) }
    requires pass { IsPassOf gate.now pass.old × IsStanding pass.old }
    requires threads { (threads_of gate.now ≡ 1) × (2 < places_of gate.now) }
    ensures key { IsKeyOf gate.now key.new × (key.new.up ≡ false) }
    ensures pass { IsPassOf gate.now pass.new × IsStanding pass.new × (pass.new.thread ≡ pass.old.thread) }
{
    let (entered, _) = join_mut(
        rt,
        &mut ||
            requires { IsSync R.row × IsPassOf gate.now pass.now × IsStanding pass.now × (2 < places_of gate.now) }
            ensures { IsPassOf gate.entry.now pass.exit.now × IsStanding pass.exit.now × (pass.exit.now.thread ≡ pass.entry.now.thread) }
        { come_and_go(rt, gate, pass, 1000) },
        &mut ||
            requires { IsSync R.row × IsKeyOf gate.now key.now × (key.now.up ≡ false) × (1 < key.now.left) × (threads_of gate.now ≡ 1) × (2 < places_of gate.now) }
            ensures { IsKeyOf gate.entry.now key.exit.now × (key.exit.now.up ≡ false) }
        {
            evacuate(rt, gate, key);
            evacuate(rt, gate, key)
        },
    );
    entered
}

// Whether each place at a switch is the one that its thread next entered from, or stands at.
fn is_sound(log: &GateLog) -> bool {
    'switches: for w in log.switches.0.as_slice() {
        let Some(index) = usize::from(w.thread).checked_sub(1) else {
            return false;
        };
        let mut place = match log.ends.0.get(index) {
            Some(place) => *place,
            None => return false,
        };
        'rows: for r in log.rows.0.as_slice() {
            if r.thread == w.thread && r.version >= w.version {
                place = r.place;
                break;
            }
        }
        if place != w.place {
            return false;
        }
    }
    true
}

// Whether each row is of thread 1, and its version above that of the row before.
fn are_rising(rows: &[PassRow]) -> bool {
    let mut least = 0u32;
    'rows: for r in rows {
        if r.thread != 1 || r.version < least {
            return false;
        }
        least = r.version.wrapping_add(1);
    }
    true
}

#[test]
fn two_threads(rt: HostRuntime) -> Result<(), Fail> {
    let Ok((gate, mut key, Passes(mut passes))) = Gate::make(rt.alloc(), 1, 4, 2) else {
        panic!(rt; "memory")
    };
    let Some(mut pass) = only(&gate, &mut passes) else {
        panic!(rt; "no pass")
    };
    let entered = both(&rt, &gate, &mut key, &mut pass);
    assert!(rt; entered == 1000);
    // So the record has a row of the last version, and the end is another place.
    let more = come_and_go(&rt, &gate, &mut pass, 2);
    assert!(rt; more == 2);
    let Ok(()) = passes.push(pass) else {
        panic!(rt; "memory")
    };
    let mut log = settle(gate, key, Passes(passes));
    assert!(rt; log.switches.0.len() == 2 && log.ends.0.len() == 1 && log.ends.0[0] == 2);
    assert!(rt; log.switches.0[0].version == 1 && log.switches.0[1].version == 2);
    assert!(rt; log.switches.0[0].place < 2 && log.switches.0[1].place < 2);
    assert!(rt; are_rising(log.rows.0.as_slice()));
    let Some(last) = log.rows.0.last() else {
        panic!(rt; "no row")
    };
    assert!(rt; last.version == 2 && last.place == log.switches.0[1].place);
    assert!(rt; is_sound(&log));
    log.switches.0[0].place = 3;
    assert!(rt; !is_sound(&log));
    Ok(())
}
