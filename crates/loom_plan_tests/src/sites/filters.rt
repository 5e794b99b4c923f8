//! The unsafe places of filters that are not refused.

use super::programs::{AGAIN, CALL, CHAIN, NEVER, RETURNS};
use crate::plan::{compiled_in, flow_of};
use loom_sites::unsafe_places::unsafe_places;
use std::test::Fail;

/// A program, the text of a filter, and the numbers of the places that are unsafe.
const ROWS: [(&str, &str, &[u16]); 27] = [
    (CALL, "{p.lm:8; p.lm:9} <> *", &[1, 2, 3, 8, 9]),
    // events: their statements, what is nested, what calls in them reach
    (CALL, "p.lm:6 > p.lm:12", &[5, 11]),
    (CALL, "p.lm:7 > p.lm:12", &[1, 2, 3, 6, 7, 8, 9, 10, 11]),
    (CALL, "p.lm:3 > p.lm:9", &[2, 9]),
    // A back edge. That the loop's own place comes with it no filter can tell: where the loop turns it can be complete too, unless an exit event at it
    // ends the path there, and by that event the same place is unsafe.
    (
        CALL,
        "{p.lm:10; p.lm:12} <> *",
        &[1, 2, 3, 6, 7, 8, 9, 10, 11],
    ),
    (CALL, "{p.lm:10; p.lm:7} <> *", &[1, 2, 3, 6, 7, 8, 9, 10]),
    (CALL, "{p.lm:10; p.lm:10} <> *", &[10]),
    (
        CALL,
        "{p.lm:9; p.lm:8} <> *",
        &[1, 2, 3, 6, 7, 8, 9, 10, 11, 12],
    ),
    // whole functions: not the entry place, but that of each function that is called
    (CALL, "step() <> *", &[2, 3]),
    (CALL, "main() <> *", &[1, 2, 3, 5, 6, 7, 8, 9, 10, 11, 12]),
    // calls of calls, and a spawn, which is none
    (CHAIN, "p.lm:10 > p.lm:11", &[1, 2, 3, 4, 5, 6, 9, 10]),
    (CHAIN, "p.lm:9 > p.lm:11", &[8, 10]),
    (CHAIN, "middle() <> *", &[1, 2, 3, 5, 6]),
    (CHAIN, "{p.lm:9; p.lm:9} <> *", &[8]),
    (
        CHAIN,
        "{p.lm:9; p.lm:9} <> {p.lm:6; p.lm:6}",
        &[1, 2, 3, 5, 8],
    ),
    // an exit with a test ends no path
    (
        CHAIN,
        "{p.lm:9; p.lm:10(t > 0)} <> *",
        &[1, 2, 3, 4, 5, 6, 8, 9, 10, 11],
    ),
    (
        CHAIN,
        "{p.lm:9; p.lm:10(t > 0), p.lm:10} <> *",
        &[1, 2, 3, 4, 5, 6, 8, 9],
    ),
    // a `return` inside
    (RETURNS, "p.lm:2 > p.lm:9", &[2, 3, 5, 8]),
    (RETURNS, "p.lm:3 > p.lm:9", &[3, 8]),
    (RETURNS, "{p.lm:3; p.lm:5} <> *", &[3, 4, 5]),
    (RETURNS, "f() <> *", &[2, 3, 4, 5]),
    (RETURNS, "main() <> *", &[1, 2, 3, 4, 5, 7, 8, 9]),
    // conditions are not believed
    (NEVER, "{p.lm:3; p.lm:12} <> *", &[2, 3, 4, 5, 6, 7, 8, 9]),
    (
        NEVER,
        "{p.lm:3; p.lm:5} <> *",
        &[2, 3, 4, 5, 6, 7, 8, 9, 10],
    ),
    (NEVER, "{p.lm:3; p.lm:5, p.lm:7} <> *", &[2, 3, 4, 5]),
    (
        NEVER,
        "{p.lm:5, p.lm:10; p.lm:4, p.lm:9} <> *",
        &[3, 4, 5, 6, 7, 8],
    ),
    // a function that only spawns itself isn't entered again
    (AGAIN, "s() <> *", &[13, 14, 15]),
];

#[test]
fn tells_unsafe_places(rt: HostRuntime) -> Result<(), Fail> {
    let alloc = rt.alloc();
    for (text, filter, wanted) in ROWS {
        let flow = flow_of(alloc, text)?;
        let c = compiled_in(alloc, &flow, filter)?;
        let places = unsafe_places(alloc, &flow, &c)?;
        let mut found = Vec::new(alloc);
        for place in 0..flow.places() {
            if place < 8321 && places.has(place) {
                found.push(place)?;
            }
        }
        assert_eq!(rt; found.as_slice(), wanted, "{filter}");
    }
    Ok(())
}
