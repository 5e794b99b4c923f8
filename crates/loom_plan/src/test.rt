//! From tests over names to tests over numbers. An `Err` is want of memory throughout.
ghost use Rattle.std.specs.Prelude.{◌≡◌, ◌≤◌, IfOk, length};
ghost use Rattle.loom_tree.specs.Tree.{expression_of, var};
ghost use Rattle.loom_lang.specs.Limits.{local_limit};
ghost use Rattle.loom_filter.specs.View.{test_of};
ghost use Rattle.loom_plan.specs.Tests.{Means, MeansIf};

use crate::plan::LocalTest;
use loom_lang::numbers::local_number;
use loom_tree::expression::Expr;
use loom_tree::name::{Name, NoMemory};
use loom_tree::statement::Names;
use std::alloc::Global;

// The local of a name; nothing where there is none.
#[tactic(auto, using(crate::proofs::LocalNames::value_of_number, crate::proofs::LocalNames::value_of_none))]
fn named(names: &Names, x: &Name) -> LocalTest
    requires { length names.now ≤ local_limit }
    ensures { Means names.now result (var x.now) }
{
    match local_number(names, x) {
        None => LocalTest::Nothing,
        Some(number) => LocalTest::Local(number),
    }
}

/// A test over the locals of these names.
pub fn numbered(alloc: Global, names: &Names, e: &Expr) -> Result<LocalTest, NoMemory>
    requires { length names.now ≤ local_limit }
    ensures { IfOk result (λ x. Means names.now x (expression_of e.now)) }
{
    match e {
        Expr::Num(n) => Ok(LocalTest::Number(*n)),
        Expr::Var(x) => Ok(named(names, x)),
        Expr::Cell(_, _) => Ok(LocalTest::Nothing),
        Expr::Neg(a) => Ok(LocalTest::Negated(Box::new(alloc, numbered(alloc, names, a)?)?)),
        Expr::Not(a) => Ok(LocalTest::Inverted(Box::new(alloc, numbered(alloc, names, a)?)?)),
        Expr::Bin(op, a, b) => Ok(LocalTest::Applied(
            *op,
            Box::new(alloc, numbered(alloc, names, a)?)?,
            Box::new(alloc, numbered(alloc, names, b)?)?,
        )),
    }
}

/// The same, if there is one.
pub fn numbered_if(
    alloc: Global,
    names: &Names,
    e: &Option<Expr>,
) -> Result<Option<LocalTest>, NoMemory>
    requires { length names.now ≤ local_limit }
    ensures { IfOk result (λ x. MeansIf names.now x (test_of e.now)) }
{
    match e {
        None => Ok(None),
        Some(e) => Ok(Some(numbered(alloc, names, e)?)),
    }
}
