//! What filters watch of a function.
ghost use Rattle.std.specs.Prelude.{◌≡◌, Some, slice_get};
ghost use Rattle.loom_tree.specs.Tree.{body_of, behind, end, functions_of};
ghost use Rattle.loom_plan.specs.Statements.{has_line};
ghost use Rattle.loom_plan.specs.PlanView.{site_of};
ghost use Rattle.loom_version.specs.Plans.{compiled_at};
ghost use Rattle.loom_version.specs.SlowFunctions.{has_line_in, is_site_in, watches_in, is_slow};

use crate::plans::Plans;
use loom_lang::program::Program;
use loom_plan::compiled::Compiled;
use loom_plan::plan::EventSite;
use loom_tree::statement::{Func, Kind, Stmts};

// Whether a statement of the body begins on the line, those nested in others too.
#[cycle(lines)]
fn has_line(body: &Stmts, line: u32) -> bool
    ensures { result ≡ has_line (body_of body.now) line }
{
    let mut at = body;
    'walk: while let Stmts::More(first, rest) = at {
        if has_line_at(first.line, &first.kind, line) {
            return true;
        }
        at = rest;
    }
    false
}

// Whether a statement that begins on its own line, or one nested in it, begins on the line.
#[cycle(lines)]
fn has_line_at(own: u32, kind: &Kind, line: u32) -> bool
    ensures { result ≡ has_line (behind own kind.now end) line }
{
    if own == line {
        return true;
    }
    match kind {
        Kind::If(_, a, b) => has_line(a, line) || has_line(b, line),
        Kind::While(_, a) => has_line(a, line),
        _ => false,
    }
}

fn has_line_in(funcs: &[Func], f: u8, line: u32) -> bool
    ensures { result ≡ has_line_in (slice_get (functions_of funcs.now) f) line }
{
    match funcs.get(f as usize) {
        None => false,
        Some(f) => has_line(&f.body, line),
    }
}

fn is_site_in(program: &Program, f: u8, site: EventSite) -> bool
    ensures { result ≡ is_site_in program.now f (site_of site) }
{
    match site {
        EventSite::Statement(line) => has_line_in(&program.funcs().0, f, line),
        EventSite::Function(None) => false,
        EventSite::Function(Some(g)) => g == f,
    }
}

// Whether the filter has an event at a statement of the function, or at the function itself.
fn watches(c: &Compiled, f: u8) -> bool
    ensures { result ≡ watches_in f (Some c.now) }
{
    let events = c.watches();
    'events: for event in events {
        if is_site_in(c.program(), f, event.site) {
            return true;
        }
    }
    false
}

// So it is with the filter of a command, if there is one.
fn watches_at(plans: &Plans, k: u8, f: u8) -> bool
    ensures { result ≡ watches_in f (compiled_at plans.now k) }
{
    match plans.get(k) {
        None => false,
        Some(c) => watches(c, f),
    }
}

/// So it is with the filter of one of these commands.
pub(crate) fn watches_any(plans: &Plans, ks: &[u8], f: u8) -> bool
    ensures { result ≡ is_slow plans.now ks.now f }
{
    'filters: for k in ks {
        if watches_at(plans, *k, f) {
            return true;
        }
    }
    false
}
