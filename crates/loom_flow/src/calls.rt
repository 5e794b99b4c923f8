//! The functions that a function calls, as a set with one bit for each.
ghost use Rattle.std.specs.Prelude.{◌≡◌, ◌^◌, ◌<◌, true, bit_or};
ghost use Rattle.loom_tree.specs.Tree.{body_of, behind, end, right_of};
ghost use Rattle.loom_lang.specs.Limits.{function_limit};
ghost use Rattle.loom_lang.specs.Numbers.{function_number};
ghost use Rattle.loom_lang.specs.Rules.{is_function};
ghost use Rattle.loom_flow.specs.Arguments.{takes_right, takes_body};
ghost use Rattle.loom_flow.specs.FlatCode.{or_zero, calls_right, calls_body, set_of};

use crate::numbers::Scope;
use loom_tree::name::Name;
use loom_tree::statement::{Kind, Right, Stmts};

fn bit(number: u8) -> u64
    requires { number < function_limit }
    ensures { result ≡ 2 ^ number }
{
    1 << number
}

/// With the function of this name.
fn with(scope: &Scope, bits: u64, f: &Name) -> u64
    requires { is_function scope.now.program.funcs f.now ≡ true }
    ensures { result ≡ bit_or bits (2 ^ or_zero (function_number scope.now.program f.now)) }
{
    bits | bit(scope.function(f))
}

#[tactic(auto, using(crate::proofs::Counts::takes_function))]
fn with_right(scope: &Scope, bits: u64, right: &Right) -> u64
    requires { takes_right scope.now.program (right_of right.now) ≡ true }
    ensures { result ≡ set_of bits (calls_right scope.now.program (right_of right.now)) }
{
    match right {
        Right::Value(_) => bits,
        Right::Call(f, _) => with(scope, bits, f),
        Right::Spawn(_, _) => bits,
    }
}

/// With the functions that the statements call, those in blocks too.
#[cycle(calls)]
pub fn with_body(scope: &Scope, bits: u64, body: &Stmts) -> u64
    requires { takes_body scope.now.program (body_of body.now) ≡ true }
    ensures { result ≡ set_of bits (calls_body scope.now.program (body_of body.now)) }
{
    let mut all = bits;
    let mut at = body;
    'walk: while let Stmts::More(first, rest) = at {
        all = with_statement(scope, all, &first.kind);
        at = rest;
    }
    all
}

#[cycle(calls)]
#[tactic(auto, using(crate::proofs::CallSets::set_of_two, crate::proofs::CallSets::set_of_one, crate::proofs::Counts::takes_function))]
fn with_statement(scope: &Scope, bits: u64, kind: &Kind) -> u64
    requires { takes_body scope.now.program (behind 0 kind.now end) ≡ true }
    ensures { result ≡ set_of bits (calls_body scope.now.program (behind 0 kind.now end)) }
{
    match kind {
        Kind::Let(_, right) => with_right(scope, bits, right),
        Kind::Set(_, right) => with_right(scope, bits, right),
        Kind::SetCell(_, _, _) => bits,
        Kind::If(_, a, b) => with_body(scope, with_body(scope, bits, a), b),
        Kind::While(_, a) => with_body(scope, bits, a),
        Kind::Call(f, _) => with(scope, bits, f),
        Kind::Return(_) => bits,
        Kind::Lock(_) => bits,
        Kind::Unlock(_) => bits,
        Kind::Down(_) => bits,
        Kind::Up(_) => bits,
        Kind::Join(_) => bits,
        Kind::Print(_) => bits,
        Kind::Skip => bits,
    }
}
