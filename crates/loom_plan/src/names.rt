//! The names that tests may have.
ghost use Rattle.std.specs.Prelude.{◌≡◌, ◌++◌};
ghost use Rattle.loom_tree.specs.Tree.{body_of, behind, end, expression_of};
ghost use Rattle.loom_lang.specs.Rules.{is_in, lets};
ghost use Rattle.loom_law.specs.FilterRefusal.{names_only};
ghost use Rattle.loom_filter.specs.View.{test_of};
ghost use Rattle.loom_plan.specs.Fault.{is_foreign};

use loom_tree::expression::Expr;
use loom_tree::name::Name;
use loom_tree::statement::{Kind, Stmts};

fn is_in(x: &Name, names: &[Name]) -> bool
    ensures { result ≡ is_in x.now names.now }
{
    'scan: for y in names {
        if y.bytes() == x.bytes() {
            return true;
        }
    }
    false
}

/// Whether a statement of the body declares the name.
#[cycle(lets)]
#[tactic(auto, using(loom_lang::proofs::Distinct::in_append))]
fn is_let(x: &Name, body: &Stmts) -> bool
    ensures { result ≡ is_in x.now (lets (body_of body.now)) }
{
    let mut at = body;
    'walk: while let Stmts::More(first, rest) = at {
        if is_let_at(x, &first.kind) {
            return true;
        }
        at = rest;
    }
    false
}

/// Whether a statement, or one nested in it, declares the name.
#[cycle(lets)]
#[tactic(auto, using(loom_lang::proofs::Distinct::in_append))]
fn is_let_at(x: &Name, kind: &Kind) -> bool
    ensures { result ≡ is_in x.now (lets (behind 0 kind.now end)) }
{
    match kind {
        Kind::Let(y, _) => y.bytes() == x.bytes(),
        Kind::If(_, a, b) => is_let(x, a) || is_let(x, b),
        Kind::While(_, a) => is_let(x, a),
        _ => false,
    }
}

/// Whether it is one of these parameters, or the body declares it.
#[tactic(auto, using(loom_lang::proofs::Distinct::in_append))]
fn is_local(params: &[Name], body: &Stmts, x: &Name) -> bool
    ensures { result ≡ is_in x.now (params.now ++ lets (body_of body.now)) }
{
    is_in(x, params) || is_let(x, body)
}

/// Whether an expression names only these parameters and what the body declares.
fn names_only(params: &[Name], body: &Stmts, e: &Expr) -> bool
    ensures { result ≡ names_only (params.now ++ lets (body_of body.now)) (expression_of e.now) }
{
    match e {
        Expr::Num(_) => true,
        Expr::Var(x) => is_local(params, body, x),
        Expr::Cell(_, _) => false,
        Expr::Neg(a) => names_only(params, body, a),
        Expr::Not(a) => names_only(params, body, a),
        Expr::Bin(_, a, b) => names_only(params, body, a) && names_only(params, body, b),
    }
}

/// Whether there is a test that names something else than these parameters and what the body declares.
pub(crate) fn is_foreign(params: &[Name], body: &Stmts, test: &Option<Expr>) -> bool
    ensures { result ≡ is_foreign (params.now ++ lets (body_of body.now)) (test_of test.now) }
{
    match test {
        None => false,
        Some(e) => !names_only(params, body, e),
    }
}

/// Whether there is a test that names something else than these.
#[tactic(auto, using(crate::proofs::Walks::no_lets))]
pub(crate) fn is_foreign_among(names: &[Name], test: &Option<Expr>) -> bool
    ensures { result ≡ is_foreign names.now (test_of test.now) }
{
    is_foreign(names, &Stmts::End, test)
}
