//! Flat code of two programs, made by hand.

use loom_flow::code::{CodeStep, Compute, Control, Entrance, Instr, Operand, Site, Target};
use loom_flow::flow::Flow;
use loom_flow::lower::lower;
use loom_lang::limits::FILE_LIMIT;
use loom_lang::parse::{LangError, parse_program};
use loom_tree::expression::Op;
use std::alloc::Global;
use std::test::Fail;

const STEPS: &str =
    "shared x;\nfn step() {\nx = x + 1;\n}\nfn main() {\nlet i = 0;\nwhile (i < 3) {\nstep();\nx = x * 2;\ni = i + 1;\n}\nprint x;\n}\n";

/// A function that calls another one, which calls a third; the third is also spawned.
const CHAIN: &str =
    "fn third() {\nskip;\n}\nfn second() {\nthird();\n}\nfn main() {\nif (1) {\nsecond();\n}\nlet t = spawn third();\njoin t;\n}\n";

/// Two sums wait for the product.
const PRODUCT: &str = "shared x;\nfn main() {\nprint (x + 1) * (x + 2);\n}\n";

fn flow_of(alloc: Global, text: &str) -> Result<Flow, LangError> {
    let bytes = text.as_bytes();
    if bytes.len() > FILE_LIMIT {
        return Err(LangError::NoMemory);
    }
    Ok(lower(alloc, &parse_program(alloc, bytes)?)?)
}

fn calls_of(flow: &Flow, func: u8) -> Option<u64> {
    if func as usize >= flow.program().funcs().0.len() {
        return None;
    }
    Some(flow.calls_of(func))
}

#[test]
fn tells_places(rt: HostRuntime) -> Result<(), Fail> {
    let flow = flow_of(rt.alloc(), STEPS)?;
    let lines = [0, 2, 3, 2, 5, 6, 7, 7, 8, 9, 10, 12, 5];
    assert_eq!(rt; flow.places() as usize, lines.len());
    for place in 0..flow.places() {
        let line = flow.place_line(place);
        assert_eq!(rt; lines.get(place as usize).copied(), Some(line), "{place}");
    }
    Ok(())
}

#[test]
fn tells_calls(rt: HostRuntime) -> Result<(), Fail> {
    let steps = flow_of(rt.alloc(), STEPS)?;
    assert_eq!(rt; calls_of(&steps, 0), Some(0));
    assert_eq!(rt; calls_of(&steps, 1), Some(1));
    let chain = flow_of(rt.alloc(), CHAIN)?;
    assert_eq!(rt; calls_of(&chain, 0), Some(0));
    assert_eq!(rt; calls_of(&chain, 1), Some(1));
    assert_eq!(rt; calls_of(&chain, 2), Some(2));
    Ok(())
}

#[test]
fn counts_values(rt: HostRuntime) -> Result<(), Fail> {
    assert_eq!(rt; flow_of(rt.alloc(), CHAIN)?.most_values(), 1);
    assert_eq!(rt; flow_of(rt.alloc(), STEPS)?.most_values(), 1);
    assert_eq!(rt; flow_of(rt.alloc(), PRODUCT)?.most_values(), 2);
    Ok(())
}

#[test]
fn shares_its_program(rt: HostRuntime) -> Result<(), Fail> {
    let flow = flow_of(rt.alloc(), CHAIN)?;
    let program = flow.share()?;
    drop(flow);
    assert_eq!(rt; program.funcs().0.len(), 3);
    Ok(())
}

#[test]
fn makes_code(rt: HostRuntime) -> Result<(), Fail> {
    let flow = flow_of(rt.alloc(), STEPS)?;
    assert_eq!(rt; flow.code().len(), 31);
    let apply = CodeStep::Compute(Compute::Apply(
        Op::Add,
        Operand::Top,
        Operand::Number(1),
        Target::Push,
    ));
    let jump = CodeStep::Control(Control::JumpIfZero(Operand::Top, 25));
    let steps = [
        (2, 3, 2, apply),
        (11, 7, 6, jump),
        (13, 8, 8, CodeStep::Control(Control::Call(0, 0))),
        (24, 7, 7, CodeStep::Control(Control::Edge(10))),
        (30, 5, 12, CodeStep::Control(Control::Out)),
    ];
    for (at, line, place, step) in steps {
        let wanted = Instr { line, place, step };
        assert_eq!(rt; flow.code().get(at).copied(), Some(wanted), "{at}");
    }
    let call = Site {
        line: 8,
        resume: Some(14),
    };
    assert_eq!(rt; flow.sites().get(8).copied(), Some(call));
    let main = Entrance {
        start: 6,
        place: 4,
        params: 0,
    };
    assert_eq!(rt; flow.entrances().get(1).copied(), Some(main));
    Ok(())
}
