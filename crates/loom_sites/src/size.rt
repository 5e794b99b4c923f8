//! How many places statements have.
ghost use Rattle.std.specs.Prelude.{◌≡◌, ◌≤◌, suc, length};
ghost use Rattle.loom_tree.specs.Tree.{body_of};
ghost use Rattle.loom_trace.specs.Limits.{place_limit};
ghost use Rattle.loom_flow.specs.FlatCode.{place_count};
ghost use Rattle.loom_plan.specs.Table.{inner_places};

use loom_tree::statement::{Kind, Stmts};

/// How many places these statements have, with those nested in them.
#[cycle(sizes)]
pub fn place_count(body: &Stmts) -> u16
    requires { place_count (body_of body.now) ≤ place_limit }
    ensures { result ≡ place_count (body_of body.now) }
{
    let mut count = 0;
    let mut at = body;
    'walk: while let Stmts::More(first, rest) = at {
        count += kind_count(&first.kind);
        at = rest;
    }
    count
}

/// How many a statement has, with those nested in it.
#[cycle(sizes)]
pub fn kind_count(kind: &Kind) -> u16
    requires { suc (length (inner_places kind.now)) ≤ place_limit }
    ensures { result ≡ suc (length (inner_places kind.now)) }
{
    match kind {
        Kind::Let(_, _) => 1,
        Kind::Set(_, _) => 1,
        Kind::SetCell(_, _, _) => 1,
        Kind::If(_, a, b) => 1 + place_count(a) + place_count(b),
        Kind::While(_, a) => 2 + place_count(a),
        Kind::Call(_, _) => 1,
        Kind::Return(_) => 1,
        Kind::Lock(_) => 1,
        Kind::Unlock(_) => 1,
        Kind::Down(_) => 1,
        Kind::Up(_) => 1,
        Kind::Join(_) => 1,
        Kind::Print(_) => 1,
        Kind::Skip => 1,
    }
}
