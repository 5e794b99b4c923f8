//! The instructions of expressions. An `Err` is want of memory throughout.
ghost use Rattle.std.specs.Prelude.{◌≡◌, ◌∷◌, ◌++◌, [], true, OnOk, IfOk};
ghost use Rattle.loom_tree.specs.Tree.{expression_of, expressions_of};
ghost use Rattle.loom_lang.specs.Rules.{knows, knows_all};
ghost use Rattle.loom_flow.specs.declared.code.Target.TheVariants as t;
ghost use Rattle.loom_flow.specs.FlatCode.{instr, instrs, operand_of, operand_steps, steps_to, argument_steps};

use crate::code::{Ask, CodeStep, Compute, Instr, Operand, Target};
use crate::numbers::Scope;
use loom_tree::expression::{Expr, Exprs};
use loom_tree::name::NoMemory;

/// Where the instructions of a statement stand.
#[derive(Clone, Copy, Drop)]
pub struct InstrSpot {
    /// The line of the statement, from 1.
    pub line: u32,
    /// The number of its place.
    pub place: u16,
}

/// One instruction more.
pub fn push(code: &mut Vec<Instr>, spot: InstrSpot, step: CodeStep) -> Result<(), NoMemory>
    ensures { OnOk result (code.new.items ≡ code.old.items ++ instr spot.line spot.place step ∷ []) }
{
    code.push(Instr {
        line: spot.line,
        place: spot.place,
        step,
    })?;
    Ok(())
}

/// Where an instruction that takes an expression finds its value.
fn operand_of(scope: &Scope, e: &Expr) -> Operand
    ensures { result ≡ operand_of scope.now.locals (expression_of e.now) }
{
    match e {
        Expr::Num(n) => Operand::Number(*n),
        Expr::Var(x) => match scope.local(x) {
            Some(local) => Operand::Local(local),
            None => Operand::Top,
        },
        Expr::Cell(_, _) => Operand::Top,
        Expr::Neg(_) => Operand::Top,
        Expr::Not(_) => Operand::Top,
        Expr::Bin(_, _, _) => Operand::Top,
    }
}

/// Instructions that leave the value of an expression on top, where the one that takes it can't find it elsewhere.
#[cycle(expressions)]
pub fn operand(
    code: &mut Vec<Instr>,
    scope: &Scope,
    spot: InstrSpot,
    e: &Expr,
) -> Result<Operand, NoMemory>
    requires { knows scope.now.program scope.now.locals (expression_of e.now) ≡ true }
    ensures code { OnOk result (code.new.items ≡ code.old.items ++ instrs spot.line spot.place (operand_steps scope.now.program scope.now.locals (expression_of e.now))) }
    ensures operand { IfOk result (λ o. o ≡ operand_of scope.now.locals (expression_of e.now)) }
{
    match operand_of(scope, e) {
        Operand::Top => {
            expression(code, scope, spot, Target::Push, e)?;
            Ok(Operand::Top)
        }
        Operand::Local(local) => Ok(Operand::Local(local)),
        Operand::Number(n) => Ok(Operand::Number(n)),
    }
}

/// Instructions that leave the value of an expression where it belongs.
#[cycle(expressions)]
#[tactic(auto, using(crate::proofs::Sizes::step_more, crate::proofs::Sizes::step_behind))]
pub fn expression(
    code: &mut Vec<Instr>,
    scope: &Scope,
    spot: InstrSpot,
    target: Target,
    e: &Expr,
) -> Result<(), NoMemory>
    requires { knows scope.now.program scope.now.locals (expression_of e.now) ≡ true }
    ensures { OnOk result (code.new.items ≡ code.old.items ++ instrs spot.line spot.place (steps_to scope.now.program scope.now.locals target (expression_of e.now))) }
{
    match e {
        Expr::Num(n) => push(
            code,
            spot,
            CodeStep::Compute(Compute::Move(Operand::Number(*n), target)),
        ),
        Expr::Var(x) => match scope.local(x) {
            Some(local) => push(
                code,
                spot,
                CodeStep::Compute(Compute::Move(Operand::Local(local), target)),
            ),
            None => push(code, spot, CodeStep::Ask(Ask::Read(scope.word(x), target))),
        },
        Expr::Cell(x, i) => {
            let index = operand(code, scope, spot, i)?;
            push(
                code,
                spot,
                CodeStep::Ask(Ask::ReadCell(scope.array(x), index, target)),
            )
        }
        Expr::Neg(a) => {
            let a = operand(code, scope, spot, a)?;
            push(code, spot, CodeStep::Compute(Compute::Negate(a, target)))
        }
        Expr::Not(a) => {
            let a = operand(code, scope, spot, a)?;
            push(code, spot, CodeStep::Compute(Compute::Invert(a, target)))
        }
        Expr::Bin(op, a, b) => {
            let left = operand(code, scope, spot, a)?;
            let right = operand(code, scope, spot, b)?;
            push(
                code,
                spot,
                CodeStep::Compute(Compute::Apply(*op, left, right, target)),
            )
        }
    }
}

/// Instructions that leave the arguments of a call on top, the last above the others.
#[tactic(auto, using(crate::proofs::Sizes::instrs_append))]
pub fn arguments(
    code: &mut Vec<Instr>,
    scope: &Scope,
    spot: InstrSpot,
    es: &Exprs,
) -> Result<(), NoMemory>
    requires { knows_all scope.now.program scope.now.locals (expressions_of es.now) ≡ true }
    ensures { OnOk result (code.new.items ≡ code.old.items ++ instrs spot.line spot.place (argument_steps scope.now.program scope.now.locals (expressions_of es.now))) }
{
    'put: for e in &es.0 {
        expression(code, scope, spot, Target::Push, e)?;
    }
    Ok(())
}
