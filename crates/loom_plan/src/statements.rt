//! The lines on which statements begin.
ghost use Rattle.std.specs.Prelude.{◌≡◌, ◌<◌, ◌≤◌, IfSome, length};
ghost use Rattle.loom_tree.specs.Tree.{body_of, behind, end, functions_of};
ghost use Rattle.loom_lang.specs.Limits.{function_limit};
ghost use Rattle.loom_plan.specs.Statements.{has_line, function_from, function_on};

use loom_lang::program::Program;
use loom_tree::statement::{Func, Kind, Stmts};

/// Whether a statement of the body begins on the line, those nested in others too.
#[cycle(begins)]
fn has_line(body: &Stmts, line: u32) -> bool
    ensures { result ≡ has_line (body_of body.now) line }
{
    let mut at = body;
    'walk: while let Stmts::More(first, rest) = at {
        if has_line_at(first.line, &first.kind, line) {
            return true;
        }
        at = rest;
    }
    false
}

/// Whether a statement that begins on its own line, or one nested in it, begins on the line.
#[cycle(begins)]
fn has_line_at(own: u32, kind: &Kind, line: u32) -> bool
    ensures { result ≡ has_line (behind own kind.now end) line }
{
    if own == line {
        return true;
    }
    match kind {
        Kind::If(_, a, b) => has_line(a, line) || has_line(b, line),
        Kind::While(_, a) => has_line(a, line),
        _ => false,
    }
}

/// The number of the first of these functions in whose body a statement begins on the line; `None` where none does.
fn first_with(funcs: &[Func], line: u32) -> Option<u8>
    requires { length funcs.now ≤ function_limit }
    ensures number { result ≡ function_from 0 (functions_of funcs.now) line }
    ensures within { IfSome result (λ n. n < length funcs.now) }
{
    'functions: for (number, f) in funcs.iter().enumerate() {
        if has_line(&f.body, line) {
            return Some(number as u8);
        }
    }
    None
}

/// The number of the function in whose body a statement begins on the line; `None` where none does.
#[tactic(auto, using(loom_lang::proofs::Lookups::few_functions))]
pub(crate) fn function_on(program: &Program, line: u32) -> Option<u8>
    ensures number { result ≡ function_on program.now line }
    ensures within { IfSome result (λ n. n < length program.now.funcs) }
{
    first_with(program.funcs().0.as_slice(), line)
}
