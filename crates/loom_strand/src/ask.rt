//! What instructions ask for, and how they take the answer.
ghost use Rattle.std.specs.Prelude.{ℕ, ◌+◌, ◌≡◌, ◌<◌, ◌≤◌, length};
ghost use Rattle.loom_flow.specs.declared.code.CodeStep.TheVariants as s;
ghost use Rattle.loom_lang.specs.Limits.{param_limit};
ghost use Rattle.loom_flow.specs.Depth.{pops, takes_off};
ghost use Rattle.loom_flow.specs.Laws.{HasLocal, HasLocals};
ghost use Rattle.loom_flow.specs.State.{operand_value, without, argument_values};
ghost use Rattle.loom_flow.specs.Progress.{of_ask};
ghost use Rattle.loom_trace.specs.declared.request.Request.TheVariants as r;
ghost use Rattle.loom_strand.specs.declared.machine.Phase.TheVariants as phase;
ghost use Rattle.loom_strand.specs.Machine.{HasNext, HasRoomFor, AskHasFewArguments, TakesAnswer};
ghost use Rattle.loom_strand.specs.Operator.{cell_at};
ghost use Rattle.loom_strand.specs.PositionRequest.{cell_request, IsAskedBy};

use crate::machine::Machine;
use crate::operator::cell_at;
use crate::step_result::INDEX;
use loom_flow::code::{Array, Ask, Operand};
use loom_trace::request::Request;

fn read(line: u32, word: u16) -> Request
    ensures { result ≡ r.Read line word }
{
    Request::Read {
        line,
        word: word as u32,
    }
}

// A cell's value, or the trap of an index that isn't one of the array.
fn read_cell(machine: &Machine, line: u32, array: Array, index: Operand) -> Request
    requires value { pops index ≤ length machine.now.state.values }
    requires local { HasLocal index }
    ensures { result ≡ cell_request line (λ w. r.Read line w) (cell_at array (operand_value machine.now.state index)) }
{
    match cell_at(array, machine.operand(index)) {
        Some(word) => Request::Read { line, word },
        None => Request::Trap {
            line,
            reason: INDEX,
        },
    }
}

fn write(machine: &Machine, line: u32, word: u16, a: Operand) -> Request
    requires value { pops a ≤ length machine.now.state.values }
    requires local { HasLocal a }
    ensures { result ≡ r.Write line word (operand_value machine.now.state a) }
{
    Request::Write {
        line,
        word: word as u32,
        value: machine.operand(a),
    }
}

// The same of a cell.
fn write_cell(machine: &Machine, line: u32, array: Array, index: Operand, b: Operand) -> Request
    requires values { pops index + pops b ≤ length machine.now.state.values }
    requires locals { HasLocal index × HasLocal b }
    ensures { result ≡ cell_request line (λ w. r.Write line w (operand_value machine.now.state b)) (cell_at array (operand_value (without machine.now.state b) index)) }
{
    let value = machine.operand(b);
    match cell_at(array, machine.operand_under(index, b)) {
        Some(word) => Request::Write { line, word, value },
        None => Request::Trap {
            line,
            reason: INDEX,
        },
    }
}

fn join(machine: &Machine, line: u32, a: Operand) -> Request
    requires value { pops a ≤ length machine.now.state.values }
    requires local { HasLocal a }
    ensures { result ≡ r.Join line (operand_value machine.now.state a) }
{
    Request::Join {
        line,
        value: machine.operand(a),
    }
}

fn print(machine: &Machine, line: u32, a: Operand) -> Request
    requires value { pops a ≤ length machine.now.state.values }
    requires local { HasLocal a }
    ensures { result ≡ r.Print line (operand_value machine.now.state a) }
{
    Request::Print {
        line,
        value: machine.operand(a),
    }
}

fn spawn(machine: &Machine, line: u32, func: u8, n: u8) -> Request
    requires few { n ≤ param_limit }
    requires there { n ≤ length machine.now.state.values }
    ensures { result ≡ r.Spawn line func (argument_values machine.now.state n) }
{
    Request::Spawn {
        line,
        func,
        args: machine.arguments(n),
    }
}

/// What an instruction of this line asks for; a trap where an index isn't one of its array.
pub(crate) fn request(machine: &Machine, line: u32, ask: Ask) -> Request
    requires few { AskHasFewArguments ask }
    requires values { takes_off (s.Ask ask) ≤ length machine.now.state.values }
    requires locals { HasLocals (s.Ask ask) }
    ensures { IsAskedBy result (of_ask machine.now.state line ask) }
{
    match ask {
        Ask::Read(word, _) => read(line, word),
        Ask::ReadCell(array, n, _) => read_cell(machine, line, array, n),
        Ask::Write(word, a) => write(machine, line, word, a),
        Ask::WriteCell(array, n, b) => write_cell(machine, line, array, n, b),
        Ask::Lock(m) => Request::Lock { line, m },
        Ask::Unlock(m) => Request::Unlock { line, m },
        Ask::Down(s) => Request::Down { line, s },
        Ask::Up(s) => Request::Up { line, s },
        Ask::Join(a) => join(machine, line, a),
        Ask::Print(a) => print(machine, line, a),
        Ask::Spawn(func, n, _) => spawn(machine, line, func, n),
    }
}

/// Behind the answer to what an instruction asked for, with the value that it gives.
#[tactic(auto, using(crate::proofs::Soundness::without_length))]
pub(crate) fn take(machine: &mut Machine, ask: Ask, v: i64)
    requires phase { machine.old.phase ≡ phase.Before }
    requires before { HasNext machine.old.state }
    requires room { HasRoomFor machine.old (s.Ask ask) }
    requires locals { HasLocals (s.Ask ask) }
    ensures { (line : ℕ) → TakesAnswer machine.old machine.new v (of_ask machine.old.state line ask) }
{
    match ask {
        Ask::Read(_, d) => machine.store(d, v),
        Ask::ReadCell(_, n, d) => machine.replace(n, d, v),
        Ask::Write(_, a) => machine.pass(a),
        Ask::WriteCell(_, n, b) => machine.pass_two(n, b),
        Ask::Lock(_) => machine.forward(),
        Ask::Unlock(_) => machine.forward(),
        Ask::Down(_) => machine.forward(),
        Ask::Up(_) => machine.forward(),
        Ask::Join(a) => machine.pass(a),
        Ask::Print(a) => machine.pass(a),
        Ask::Spawn(_, n, d) => {
            machine.drop_arguments(n);
            machine.store(d, v);
        }
    }
}
