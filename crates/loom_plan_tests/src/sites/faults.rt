//! Filters that are refused for their paths.

use super::programs::{AGAIN, CALL, CHAIN};
use crate::plan::{compiled_in, flow_of};
use loom_filter::parse::{FilterError, FilterRefusal};
use loom_flow::flow::Flow;
use loom_sites::unsafe_places::unsafe_places;
use std::alloc::Global;
use std::test::Fail;

/// A program, the text of a filter, and the clause and the number.
const REFUSED: [(&str, &str, u8, u8); 23] = [
    (CALL, "{p.lm:8; p.lm:9} <> {p.lm:9; p.lm:10}", 1, 8),
    // 7: by its own call, by one of a callee, by a call on a path
    (AGAIN, "f() <> *", 1, 7),
    (AGAIN, "g() <> *", 1, 7),
    (AGAIN, "{p.lm:3; p.lm:3} <> *", 1, 7),
    (AGAIN, "{p.lm:2; p.lm:2} <> *", 1, 7),
    (AGAIN, "{p.lm:8; p.lm:8} <> *", 1, 7),
    // 8: the same region twice, the same function twice
    (AGAIN, "{p.lm:5; p.lm:5} <> {p.lm:5; p.lm:5}", 1, 8),
    (AGAIN, "s() <> s()", 1, 8),
    // one region's entry in a function that calls inside the other reach, either way round
    (AGAIN, "{p.lm:18; p.lm:18} <> {p.lm:5; p.lm:5}", 1, 8),
    (AGAIN, "{p.lm:5; p.lm:5} <> {p.lm:18; p.lm:18}", 1, 8),
    (AGAIN, "main() <> {p.lm:5; p.lm:5}", 1, 8),
    (AGAIN, "{p.lm:5; p.lm:5} <> main()", 1, 8),
    (CALL, "step() <> main()", 1, 8),
    (CALL, "{p.lm:8; p.lm:8} <> step()", 1, 8),
    (
        CALL,
        "{p.lm:12; p.lm:12} <> {p.lm:7; p.lm:7} <> {p.lm:3; p.lm:3}",
        1,
        8,
    ),
    (CHAIN, "last() <> {p.lm:10; p.lm:10}", 1, 8),
    // a statement of the whole function itself
    (CALL, "main() <> {p.lm:12; p.lm:12}", 1, 8),
    // 7 goes before 8 in a clause, and the least clause before all
    (AGAIN, "f() <> main()", 1, 7),
    (AGAIN, "{p.lm:18; p.lm:18} <> {p.lm:2; p.lm:2}", 1, 7),
    (AGAIN, "main() <> {p.lm:5; p.lm:5}; f() <> *", 1, 8),
    (AGAIN, "f() <> *; main() <> {p.lm:5; p.lm:5}", 1, 7),
    (
        AGAIN,
        "p.lm:5 > p.lm:20; {p.lm:5; p.lm:5} <> *; s() <> s()",
        3,
        8,
    ),
    (AGAIN, "s() <> *; s() <> main(); g() <> *", 3, 7),
];

/// Filters that are not refused.
const FREE: [(&str, &str); 9] = [
    // in clauses apart
    (AGAIN, "{p.lm:18; p.lm:18} <> *; {p.lm:5; p.lm:5} <> *"),
    (AGAIN, "{p.lm:5; p.lm:5} <> {p.lm:20; p.lm:20}"),
    // a spawn is no call
    (AGAIN, "s() <> main()"),
    (CHAIN, "{p.lm:9; p.lm:9} <> middle()"),
    // only entry events count, and only paths from the entry
    (CALL, "{p.lm:12; p.lm:12} <> {p.lm:6; p.lm:6}"),
    (CALL, "{p.lm:6; p.lm:6} <> {p.lm:12; p.lm:6}"),
    (CALL, "{p.lm:3; p.lm:3} <> {p.lm:9; p.lm:10}"),
    // orders have no regions
    (AGAIN, "p.lm:3 > p.lm:18"),
    (CALL, "step() <> {p.lm:9; p.lm:9}"),
];

fn refusal_of(
    alloc: Global,
    flow: &Flow,
    filter: &str,
) -> Result<Option<FilterRefusal>, FilterError> {
    let c = compiled_in(alloc, flow, filter)?;
    match unsafe_places(alloc, flow, &c) {
        Ok(_) => Ok(None),
        Err(FilterError::Refused(refusal)) => Ok(Some(refusal)),
        Err(error) => Err(error),
    }
}

#[test]
fn refuses(rt: HostRuntime) -> Result<(), Fail> {
    for (text, filter, clause, number) in REFUSED {
        let flow = flow_of(rt.alloc(), text)?;
        let wanted = FilterRefusal { clause, number };
        assert_eq!(rt;
            refusal_of(rt.alloc(), &flow, filter)?,
            Some(wanted),
            "{filter}"
        );
    }
    Ok(())
}

#[test]
fn accepts(rt: HostRuntime) -> Result<(), Fail> {
    for (text, filter) in FREE {
        let flow = flow_of(rt.alloc(), text)?;
        assert_eq!(rt; refusal_of(rt.alloc(), &flow, filter)?, None, "{filter}");
    }
    Ok(())
}
