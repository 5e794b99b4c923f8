//! Filters of commands, and which functions they make slow.
ghost use Rattle.std.specs.Prelude.{◌≡◌, IfOk};

use super::first_with_one;
use loom_filter::parse::{FilterError, parse_filter};
use loom_flow::flow::Flow;
use loom_flow::lower::lower;
use loom_lang::limits::FILE_LIMIT;
use loom_lang::parse::{LangError, parse_program};
use loom_plan::compiled::Compiled;
use loom_plan::resolve::resolve;
use loom_tree::name::NoMemory;
use loom_version::plans::Plans;
use loom_version::version::Version;
use std::alloc::Global;
use std::test::Fail;

const INC: &str =
    "shared x;\nfn add() {\n  x = x + 1;\n}\nfn main() {\n  let a = spawn add();\n  x = x + 1;\n  join a;\n  print x;\n}\n";

const NESTED: &str =
    "fn f(p) {\nif (p) {\nskip;\n} else {\nwhile (p) {\np = p - 1;\n}\n}\n}\nfn g() {\nf(1); }\nfn main() {\ng();\n}\n";

/// A program, the text of a filter in it, and which functions the filter makes slow, by their numbers. `INC` has two of them.
const ROWS: [(&str, &str, [bool; 3]); 11] = [
    (INC, "{p.lm:3; p.lm:3}", [true, false, false]),
    (INC, "p.lm:3 > p.lm:9", [true, true, false]),
    (INC, "{p.lm:7; p.lm:9} <> *", [false, true, false]),
    (INC, "add() <> *", [true, false, false]),
    // statements that are nested, in both branches and in a loop
    (NESTED, "{p.lm:3; p.lm:3} <> *", [true, false, false]),
    (NESTED, "{p.lm:6; p.lm:6} <> *", [true, false, false]),
    (NESTED, "{p.lm:2; p.lm:5} <> *", [true, false, false]),
    // a function that is called is no event
    (NESTED, "{p.lm:11; p.lm:11} <> *", [false, true, false]),
    (NESTED, "g() <> *", [false, true, false]),
    (NESTED, "g() <> main()", [false, true, true]),
    (NESTED, "p.lm:6 > p.lm:11 > p.lm:13", [true, true, true]),
];

fn flow_of(alloc: Global, text: &str) -> Result<Flow, LangError> {
    let bytes = text.as_bytes();
    if bytes.len() > FILE_LIMIT {
        return Err(LangError::NoMemory);
    }
    Ok(lower(alloc, &parse_program(alloc, bytes)?)?)
}

/// The filter of this text in the program, in the file `p.lm`. No text here is too long.
fn compiled_in(alloc: Global, flow: &Flow, text: &str) -> Result<Compiled, FilterError>
    ensures { IfOk result (λ c. c.program ≡ flow.now.program) }
{
    let bytes = text.as_bytes();
    if bytes.len() > FILE_LIMIT {
        return Err(FilterError::from(NoMemory));
    }
    let filter = parse_filter(alloc, bytes)?;
    resolve(alloc, flow, b"p.lm", &filter)
}

#[test]
fn tells_slow_functions(rt: HostRuntime) -> Result<(), Fail> {
    let alloc = rt.alloc();
    let one = first_with_one();
    for (text, filter, slow) in ROWS {
        let flow = flow_of(alloc, text)?;
        let mut plans = Plans::make(alloc)?;
        plans.put(1, compiled_in(alloc, &flow, filter)?);
        for f in 0..3u8 {
            assert_eq!(rt; one.is_slow(&plans, f), slow[f as usize], "{filter}");
            assert!(rt; !Version::first().is_slow(&plans, f));
        }
    }
    Ok(())
}

fn events(plans: &Plans, k: u8) -> Option<u8> {
    match plans.get(k) {
        None => None,
        Some(c) => Some(c.events()),
    }
}

#[test]
fn keeps_filters(rt: HostRuntime) -> Result<(), Fail> {
    let alloc = rt.alloc();
    let flow = flow_of(alloc, INC)?;
    let mut plans = Plans::make(alloc)?;
    assert_eq!(rt; events(&plans, 1), None);
    plans.put(1, compiled_in(alloc, &flow, "{p.lm:3; p.lm:3}")?);
    plans.put(64, compiled_in(alloc, &flow, "add() <> *")?);
    assert_eq!(rt; events(&plans, 1), Some(2));
    assert_eq!(rt; events(&plans, 64), Some(1));
    for k in [0, 2, 63, 65, 255] {
        assert_eq!(rt; events(&plans, k), None);
    }
    plans.put(1, compiled_in(alloc, &flow, "p.lm:3 > p.lm:7 > p.lm:9")?);
    assert_eq!(rt; events(&plans, 1), Some(3));
    Ok(())
}
