//! A lock of two seats in one thread, and one that two threads take in turns.
ghost use Rattle.std.specs.Prelude.{◌≡◌};
ghost use Rattle.std.specs.Thread.{IsSync};
ghost use Rattle.loom_turn.specs.Seat.{IsSeatOf, IsIdle, IsSameSeat};

use loom_turn::turn::{Fits, Seat, Seats, Turn};
use std::sync::Wait;
use std::test::Fail;
use std::thread::{Threads, join_mut};

#[derive(Drop)]
struct Count {
    label: u8,
    n: u32,
}

impl Fits for Count {
    type Label = u8;

    ghost label = { λ c. c.label };
}

// Takes the turn, adds 1 and gives the turn back, and tells what was found.
fn add_one<R: Wait>(rt: &R, turn: &Turn<Count>, seat: &mut Seat<Count>) -> u32
    requires seat { IsSeatOf (λ c. c.label) turn.now seat.old }
    requires idle { IsIdle seat.old }
    ensures idle { IsIdle seat.new }
    ensures same { IsSameSeat seat.old seat.new }
{
    let mut count = turn.take(rt, seat);
    let found = count.n;
    count.n = found.wrapping_add(1);
    turn.give(seat, count);
    found
}

fn add_times<R: Wait>(rt: &R, turn: &Turn<Count>, seat: &mut Seat<Count>, times: u32)
    requires seat { IsSeatOf (λ c. c.label) turn.now seat.old }
    requires idle { IsIdle seat.old }
    ensures idle { IsIdle seat.new }
    ensures same { IsSameSeat seat.old seat.new }
{
    'times: for _ in 0..times {
        let _ = add_one(rt, turn, seat);
    }
}

fn both_add<R: Threads + Wait + Sync>(
    rt: &R,
    turn: &Turn<Count>,
    one: &mut Seat<Count>,
    two: &mut Seat<Count>,
    times: u32,
)
    requires one { IsSeatOf (λ c. c.label) turn.now one.old × IsIdle one.old }
    requires two { IsSeatOf (λ c. c.label) turn.now two.old × IsIdle two.old }
    ensures one { IsIdle one.new × IsSameSeat one.old one.new }
    ensures two { IsIdle two.new × IsSameSeat two.old two.new }
{
    join_mut(
        rt,
        &mut ||
            requires { IsSync R.row × IsSeatOf (λ c. c.label) turn.now one.now × IsIdle one.now }
            ensures { IsIdle one.exit.now × IsSameSeat one.entry.now one.exit.now }
        { add_times(rt, turn, one, times) },
        &mut ||
            requires { IsSync R.row × IsSeatOf (λ c. c.label) turn.now two.now × IsIdle two.now }
            ensures { IsIdle two.exit.now × IsSameSeat two.entry.now two.exit.now }
        { add_times(rt, turn, two, times) },
    );
}

#[test]
fn two_seats_take_turns(rt: HostRuntime) -> Result<(), Fail> {
    let Ok((turn, Seats(mut list))) = Turn::make(rt.alloc(), Count { label: 3, n: 0 }, 2) else {
        panic!(rt; "memory")
    };
    let Some(mut two) = list.pop() else {
        unreachable!()
    };
    let Some(mut one) = list.pop() else {
        unreachable!()
    };
    let first = add_one(&rt, &turn, &mut one);
    let second = add_one(&rt, &turn, &mut two);
    list.push_reserved(one);
    list.push_reserved(two);
    let count = turn.close(Seats(list));
    assert!(rt; first == 0 && second == 1);
    assert!(rt; count.label == 3 && count.n == 2);
    Ok(())
}

#[test]
fn two_threads_count(rt: HostRuntime) -> Result<(), Fail> {
    let Ok((turn, Seats(mut list))) = Turn::make(rt.alloc(), Count { label: 3, n: 0 }, 2) else {
        panic!(rt; "memory")
    };
    let Some(mut two) = list.pop() else {
        unreachable!()
    };
    let Some(mut one) = list.pop() else {
        unreachable!()
    };
    both_add(&rt, &turn, &mut one, &mut two, 1000);
    list.push_reserved(one);
    list.push_reserved(two);
    let count = turn.close(Seats(list));
    assert!(rt; count.label == 3 && count.n == 2000);
    Ok(())
}
