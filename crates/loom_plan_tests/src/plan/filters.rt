//! What a filter watches and makes a thread do, in two small programs.
ghost use Rattle.std.specs.Prelude.{◌≡◌};

use super::{compiled_in, flow_of};
use loom_flow::flow::Flow;
use loom_plan::compiled::Compiled;
use loom_plan::sets::{ClauseSet, EventSet, RegionSet};
use std::test::Fail;

const INC: &str =
    "shared x;\nfn add() {\nx = x + 1;\n}\nfn main() {\nlet a = spawn add();\nx = x + 1;\njoin a;\nprint x;\n}\n";

const CALL: &str =
    "shared x;\nfn f(p) {\nlet q = p * 2;\nx = q;\n}\nfn main() {\nf(3);\nprint x;\n}\n";

// Calls whose numbers are of the filter

fn event_set(numbers: &[u8]) -> EventSet {
    let mut set = EventSet::none();
    for n in numbers {
        if *n > 0 && *n <= 32 {
            set.put(*n);
        }
    }
    set
}

fn clause_set(numbers: &[u8]) -> ClauseSet {
    let mut set = ClauseSet::none();
    for n in numbers {
        if *n > 0 && *n <= 32 {
            set.put(*n);
        }
    }
    set
}

fn region_set(numbers: &[u8]) -> RegionSet {
    let mut set = RegionSet::none();
    for n in numbers {
        if *n > 0 && *n <= 32 {
            set.put(*n);
        }
    }
    set
}

fn line(c: &Compiled, n: u8) -> Option<u32> {
    if n == 0 || n > c.events() {
        return None;
    }
    Some(c.event_line(n))
}

fn is_alone(c: &Compiled, clause: u8) -> bool {
    clause > 0 && clause <= c.clauses() && c.is_alone(clause)
}

fn watched(flow: &Flow, c: &Compiled, place: u16) -> EventSet
    requires { c.now.program ≡ flow.now.program }
{
    if place >= flow.places() {
        return EventSet::none();
    }
    c.watched(place)
}

fn matching(flow: &Flow, c: &Compiled, place: u16, locals: &[i64]) -> EventSet
    requires { c.now.program ≡ flow.now.program }
{
    if place >= flow.places() {
        return EventSet::none();
    }
    c.matching(place, locals)
}

#[test]
fn keeps_regions_apart(rt: HostRuntime) -> Result<(), Fail> {
    let alloc = rt.alloc();
    let flow = flow_of(alloc, INC)?;
    let c = compiled_in(alloc, &flow, "{p.lm:3; p.lm:3} <> {p.lm:7; p.lm:7}")?;
    assert_eq!(rt; c.events(), 4);
    assert_eq!(rt; c.clauses(), 1);
    assert!(rt; !is_alone(&c, 1));
    assert_eq!(rt; line(&c, 2), Some(3));
    assert_eq!(rt; line(&c, 3), Some(7));
    assert_eq!(rt; watched(&flow, &c, 2), event_set(&[1, 2]));
    assert_eq!(rt; watched(&flow, &c, 6), event_set(&[3, 4]));
    assert_eq!(rt; watched(&flow, &c, 5), EventSet::none());
    assert_eq!(rt; matching(&flow, &c, 2, &[]), event_set(&[1, 2]));
    let events = event_set(&[1, 2]);
    let before = c.before(events, ClauseSet::none());
    assert_eq!(rt; before.waits, EventSet::none());
    assert_eq!(rt; before.enters, clause_set(&[1]));
    assert_eq!(rt; before.at, events);
    assert_eq!(rt;
        c.before(events, clause_set(&[1])).enters,
        ClauseSet::none()
    );
    Ok(())
}

#[test]
fn leaves_regions(rt: HostRuntime) -> Result<(), Fail> {
    let alloc = rt.alloc();
    let flow = flow_of(alloc, INC)?;
    let c = compiled_in(alloc, &flow, "{p.lm:3; p.lm:3} <> {p.lm:7; p.lm:7}")?;
    let events = event_set(&[3, 4]);
    let entered = c.entered(events);
    assert_eq!(rt; entered, region_set(&[2]));
    assert_eq!(rt; c.clauses_of(entered), clause_set(&[1]));
    assert_eq!(rt; c.staying(entered, event_set(&[1, 2])), entered);
    assert_eq!(rt; c.staying(entered, events), RegionSet::none());
    let held = clause_set(&[1]);
    let behind = c.behind(events, held, ClauseSet::none());
    assert_eq!(rt; behind.past, events);
    assert_eq!(rt; behind.posts, EventSet::none());
    assert_eq!(rt; behind.leaves, held);
    assert_eq!(rt; c.behind(events, held, held).leaves, ClauseSet::none());
    assert_eq!(rt;
        c.behind(EventSet::none(), held, ClauseSet::none()).leaves,
        ClauseSet::none()
    );
    assert_eq!(rt; c.leaves(held, ClauseSet::none()), held);
    Ok(())
}

#[test]
fn waits_in_order(rt: HostRuntime) -> Result<(), Fail> {
    let alloc = rt.alloc();
    let flow = flow_of(alloc, INC)?;
    let c = compiled_in(alloc, &flow, "p.lm:3{2} > p.lm:7{2} > p.lm:9")?;
    let all = event_set(&[1, 2, 3]);
    assert_eq!(rt; c.waits(all), event_set(&[2, 3]));
    assert_eq!(rt; c.posts(all), event_set(&[1, 2]));
    assert_eq!(rt;
        c.before(event_set(&[2]), ClauseSet::none()).waits,
        event_set(&[2])
    );
    assert_eq!(rt;
        c.behind(event_set(&[3]), ClauseSet::none(), ClauseSet::none())
            .posts,
        EventSet::none()
    );
    assert!(rt; c.order_before(1).is_none());
    match c.order_before(3) {
        None => assert!(rt; false),
        Some(before) => {
            assert_eq!(rt; before.event, 2);
            assert_eq!(rt; before.count, 2);
        }
    }
    Ok(())
}

#[test]
fn tests_locals(rt: HostRuntime) -> Result<(), Fail> {
    let alloc = rt.alloc();
    let flow = flow_of(alloc, CALL)?;
    let text = "f()(p > 0) <> *; {p.lm:4(q % p); p.lm:4} <> *";
    let c = compiled_in(alloc, &flow, text)?;
    assert_eq!(rt; line(&c, 1), Some(2));
    assert_eq!(rt; line(&c, 4), None);
    assert_eq!(rt; watched(&flow, &c, 1), event_set(&[1]));
    assert_eq!(rt; matching(&flow, &c, 1, &[3, 0]), event_set(&[1]));
    assert_eq!(rt; matching(&flow, &c, 1, &[0, 0]), EventSet::none());
    assert_eq!(rt; watched(&flow, &c, 3), event_set(&[2, 3]));
    assert_eq!(rt; matching(&flow, &c, 3, &[3, 7]), event_set(&[2, 3]));
    assert_eq!(rt; matching(&flow, &c, 3, &[3, 6]), event_set(&[3]));
    assert_eq!(rt; matching(&flow, &c, 3, &[0, 6]), event_set(&[3]));
    assert!(rt; is_alone(&c, 1) && is_alone(&c, 2));
    assert_eq!(rt;
        c.before(event_set(&[1]), ClauseSet::none()).enters,
        clause_set(&[1])
    );
    Ok(())
}

#[test]
fn takes_numbers(rt: HostRuntime) -> Result<(), Fail> {
    let mut set = event_set(&[32, 1, 7]);
    assert!(rt; set.has(32) && set.has(7) && !set.has(2) && !set.has(0) && !set.has(33));
    assert_eq!(rt; set.pop_first(), Some(1));
    assert_eq!(rt; set.pop_first(), Some(7));
    assert_eq!(rt; set.pop_first(), Some(32));
    assert_eq!(rt; set.pop_first(), None);
    Ok(())
}
