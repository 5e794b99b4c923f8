//! How many values there are before instructions.
ghost use Rattle.std.specs.Prelude.{◌≡◌, ◌≤◌};
ghost use Rattle.loom_flow.specs.declared.code.CodeStep.TheVariants as s;
ghost use Rattle.loom_flow.specs.Depth.{pops, pushes, takes_off, puts_on, most_before};

use crate::code::{Ask, CodeStep, Compute, Control, Instr, Operand, Target};

fn pops(a: Operand) -> usize
    ensures is { result ≡ pops a }
    ensures few { result ≤ 1 }
{
    match a {
        Operand::Top => 1,
        Operand::Local(_) => 0,
        Operand::Number(_) => 0,
    }
}

fn pushes(d: Target) -> usize
    ensures is { result ≡ pushes d }
    ensures few { result ≤ 1 }
{
    match d {
        Target::Push => 1,
        Target::Local(_) => 0,
    }
}

fn compute_takes_off(step: Compute) -> usize
    ensures { result ≡ takes_off (s.Compute step) }
{
    match step {
        Compute::Move(a, _) => pops(a),
        Compute::Negate(a, _) => pops(a),
        Compute::Invert(a, _) => pops(a),
        Compute::Apply(_, a, b, _) => pops(a) + pops(b),
        Compute::Discard => 1,
    }
}

fn ask_takes_off(step: Ask) -> usize
    ensures { result ≡ takes_off (s.Ask step) }
{
    match step {
        Ask::Read(_, _) => 0,
        Ask::ReadCell(_, n, _) => pops(n),
        Ask::Write(_, a) => pops(a),
        Ask::WriteCell(_, n, b) => pops(n) + pops(b),
        Ask::Lock(_) => 0,
        Ask::Unlock(_) => 0,
        Ask::Down(_) => 0,
        Ask::Up(_) => 0,
        Ask::Join(a) => pops(a),
        Ask::Print(a) => pops(a),
        Ask::Spawn(_, n, _) => n as usize,
    }
}

fn control_takes_off(step: Control) -> usize
    ensures { result ≡ takes_off (s.Control step) }
{
    match step {
        Control::Begin => 0,
        Control::Done => 0,
        Control::Edge(_) => 0,
        Control::Jump(_) => 0,
        Control::JumpIfZero(a, _) => pops(a),
        Control::Call(_, n) => n as usize,
        Control::Return(a) => pops(a),
        Control::Out => 0,
    }
}

/// How many values an instruction takes off.
fn takes_off(step: CodeStep) -> usize
    ensures { result ≡ takes_off step }
{
    match step {
        CodeStep::Compute(x) => compute_takes_off(x),
        CodeStep::Ask(x) => ask_takes_off(x),
        CodeStep::Control(x) => control_takes_off(x),
    }
}

fn compute_puts_on(step: Compute) -> usize
    ensures is { result ≡ puts_on (s.Compute step) }
    ensures few { result ≤ 1 }
{
    match step {
        Compute::Move(_, d) => pushes(d),
        Compute::Negate(_, d) => pushes(d),
        Compute::Invert(_, d) => pushes(d),
        Compute::Apply(_, _, _, d) => pushes(d),
        Compute::Discard => 0,
    }
}

fn ask_puts_on(step: Ask) -> usize
    ensures is { result ≡ puts_on (s.Ask step) }
    ensures few { result ≤ 1 }
{
    match step {
        Ask::Read(_, d) => pushes(d),
        Ask::ReadCell(_, _, d) => pushes(d),
        Ask::Write(_, _) => 0,
        Ask::WriteCell(_, _, _) => 0,
        Ask::Lock(_) => 0,
        Ask::Unlock(_) => 0,
        Ask::Down(_) => 0,
        Ask::Up(_) => 0,
        Ask::Join(_) => 0,
        Ask::Print(_) => 0,
        Ask::Spawn(_, _, d) => pushes(d),
    }
}

/// A call puts on its result.
fn control_puts_on(step: Control) -> usize
    ensures is { result ≡ puts_on (s.Control step) }
    ensures few { result ≤ 1 }
{
    match step {
        Control::Begin => 0,
        Control::Done => 0,
        Control::Edge(_) => 0,
        Control::Jump(_) => 0,
        Control::JumpIfZero(_, _) => 0,
        Control::Call(_, _) => 1,
        Control::Return(_) => 0,
        Control::Out => 0,
    }
}

/// How many values it puts on.
fn puts_on(step: CodeStep) -> usize
    ensures is { result ≡ puts_on step }
    ensures few { result ≤ 1 }
{
    match step {
        CodeStep::Compute(x) => compute_puts_on(x),
        CodeStep::Ask(x) => ask_puts_on(x),
        CodeStep::Control(x) => control_puts_on(x),
    }
}

/// The most values that there are before one of these instructions, where there are none before the first.
pub(crate) fn most_before(code: &[Instr]) -> usize
    ensures { result ≡ most_before 0 code.now }
{
    let mut depth: usize = 0;
    let mut most: usize = 0;
    'pass: for i in code {
        most = most.max(depth);
        depth = depth.saturating_sub(takes_off(i.step)) + puts_on(i.step);
    }
    most
}
