//! Faults of filters against a program.

use super::rows::{FREE, REFUSED};
use super::{compiled_in, flow_of};
use loom_filter::parse::{FilterError, FilterRefusal};
use loom_flow::flow::Flow;
use std::alloc::Global;
use std::test::Fail;

/// A program in the file `p.lm`: the functions begin on the lines 3 and 12.
const PROGRAM: &str =
    "shared x = 0; shared a[4];\nmutex m;\nfn f(p, q) {\nlet v = p + x;\nif (v) {\nlet w = 1;\n} else {\nprint v;\n}\nreturn v;\n}\nfn main() {\nlet r = f(1, 2);\nwhile (r) {\nr = r - 1;\n}\n}\n";

fn error_of(alloc: Global, flow: &Flow, text: &str) -> Option<FilterError> {
    match compiled_in(alloc, flow, text) {
        Ok(_) => None,
        Err(error) => Some(error),
    }
}

#[test]
fn accepts(rt: HostRuntime) -> Result<(), Fail> {
    let flow = flow_of(rt.alloc(), PROGRAM)?;
    for text in FREE {
        assert_eq!(rt; error_of(rt.alloc(), &flow, text), None, "{text}");
    }
    Ok(())
}

#[test]
fn refuses(rt: HostRuntime) -> Result<(), Fail> {
    let flow = flow_of(rt.alloc(), PROGRAM)?;
    for (text, clause, number) in REFUSED {
        let refusal = FilterRefusal { clause, number };
        assert_eq!(rt;
            error_of(rt.alloc(), &flow, text),
            Some(FilterError::Refused(refusal)),
            "{text}"
        );
    }
    Ok(())
}
