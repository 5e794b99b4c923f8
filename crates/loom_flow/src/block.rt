//! The instructions and the places of statements and their blocks. An `Err` is want of memory throughout.
ghost use Rattle.std.specs.Prelude.{◌≡◌, ◌<◌, ◌≤◌, ◌+◌, ◌∷◌, ◌++◌, [], suc, true, OnOk, IfOk, length, slice_set};
ghost use Rattle.loom_tree.specs.Tree.{end, if_, while_, behind, body_of, expression_of};
ghost use Rattle.loom_lang.specs.Rules.{knows, knows_body};
ghost use Rattle.loom_flow.specs.Arguments.{takes_body};
ghost use Rattle.loom_flow.specs.declared.code.CodeStep.TheVariants as s;
ghost use Rattle.loom_flow.specs.declared.code.Control.TheVariants.{JumpIfZero};
ghost use Rattle.loom_flow.specs.FlatCode.{instr, instrs, operand_of, operand_steps, place_count, flat_body, body_sites, site_limit};

use crate::code::{Ask, CodeStep, Control, Instr, Operand, Site};
use crate::expression::{InstrSpot, operand, push};
use crate::numbers::Scope;
use crate::statement::{
    Taker, assign, call_alone, give_back, next, one_step, put_site, set_cell, skip, spot_of, take,
};
use loom_tree::expression::Expr;
use loom_tree::name::NoMemory;
use loom_tree::statement::{Kind, Stmts};

/// A jump behind a block whose end isn't known yet: the number of the instruction, and its operand.
#[derive(Clone, Copy, Drop)]
struct Test {
    at: usize,
    operand: Operand,
}

/// A test, with a jump to no instruction so far.
#[tactic(auto, using(crate::proofs::Sizes::step_is, crate::proofs::Sizes::length_behind))]
fn open_test(
    code: &mut Vec<Instr>,
    scope: &Scope,
    spot: InstrSpot,
    e: &Expr,
) -> Result<Test, NoMemory>
    requires { knows scope.now.program scope.now.locals (expression_of e.now) ≡ true }
    ensures code { OnOk result (code.new.items ≡ code.old.items ++ instrs spot.line spot.place (operand_steps scope.now.program scope.now.locals (expression_of e.now) ++ s.Control (JumpIfZero (operand_of scope.now.locals (expression_of e.now)) 0) ∷ [])) }
    ensures operand { IfOk result (λ t. t.operand ≡ operand_of scope.now.locals (expression_of e.now)) }
    ensures at { IfOk result (λ t. t.at ≡ length code.old.items + length (operand_steps scope.now.program scope.now.locals (expression_of e.now))) }
{
    let operand = operand(code, scope, spot, e)?;
    let at = code.len();
    push(
        code,
        spot,
        CodeStep::Control(Control::JumpIfZero(operand, 0)),
    )?;
    Ok(Test { at, operand })
}

/// Another step at this number.
fn patch(code: &mut Vec<Instr>, at: usize, spot: InstrSpot, step: CodeStep)
    requires { at < length code.old.items }
    ensures { code.new.items ≡ slice_set code.old.items at (instr spot.line spot.place step) }
{
    code[at] = Instr {
        line: spot.line,
        place: spot.place,
        step,
    };
}

#[cycle(blocks)]
fn choice(
    code: &mut Vec<Instr>,
    sites: &mut Vec<Site>,
    scope: &Scope,
    spot: InstrSpot,
    e: &Expr,
    a: &Stmts,
    b: &Stmts,
) -> Result<(), NoMemory>
    requires known { knows_body scope.now.program scope.now.locals (if_ spot.line (expression_of e.now) (body_of a.now) (body_of b.now) end) ≡ true }
    requires counted { takes_body scope.now.program (if_ spot.line (expression_of e.now) (body_of a.now) (body_of b.now) end) ≡ true }
    requires place { spot.place ≡ length sites.old.items }
    requires room { length sites.old.items + place_count (if_ spot.line (expression_of e.now) (body_of a.now) (body_of b.now) end) ≤ site_limit }
    ensures code { OnOk result (code.new.items ≡ code.old.items ++ flat_body scope.now.program scope.now.locals (length code.old.items) spot.place (if_ spot.line (expression_of e.now) (body_of a.now) (body_of b.now) end)) }
    ensures sites { OnOk result (sites.new.items ≡ sites.old.items ++ body_sites scope.now.program scope.now.locals (length code.old.items) (if_ spot.line (expression_of e.now) (body_of a.now) (body_of b.now) end)) }
{
    put_site(sites, spot.line, None)?;
    push(code, spot, CodeStep::Control(Control::Begin))?;
    let test = open_test(code, scope, spot, e)?;
    body(code, sites, scope, a)?;
    let skip = code.len();
    push(code, spot, CodeStep::Control(Control::Jump(0)))?;
    let second = next(code)?;
    patch(
        code,
        test.at,
        spot,
        CodeStep::Control(Control::JumpIfZero(test.operand, second)),
    );
    body(code, sites, scope, b)?;
    let done = next(code)?;
    patch(code, skip, spot, CodeStep::Control(Control::Jump(done)));
    push(code, spot, CodeStep::Control(Control::Done))?;
    Ok(())
}

#[cycle(blocks)]
fn repeat(
    code: &mut Vec<Instr>,
    sites: &mut Vec<Site>,
    scope: &Scope,
    spot: InstrSpot,
    e: &Expr,
    a: &Stmts,
) -> Result<(), NoMemory>
    requires known { knows_body scope.now.program scope.now.locals (while_ spot.line (expression_of e.now) (body_of a.now) end) ≡ true }
    requires counted { takes_body scope.now.program (while_ spot.line (expression_of e.now) (body_of a.now) end) ≡ true }
    requires place { spot.place ≡ length sites.old.items }
    requires room { length sites.old.items + place_count (while_ spot.line (expression_of e.now) (body_of a.now) end) ≤ site_limit }
    ensures code { OnOk result (code.new.items ≡ code.old.items ++ flat_body scope.now.program scope.now.locals (length code.old.items) spot.place (while_ spot.line (expression_of e.now) (body_of a.now) end)) }
    ensures sites { OnOk result (sites.new.items ≡ sites.old.items ++ body_sites scope.now.program scope.now.locals (length code.old.items) (while_ spot.line (expression_of e.now) (body_of a.now) end)) }
{
    put_site(sites, spot.line, None)?;
    let back = spot_of(sites, spot.line);
    put_site(sites, spot.line, None)?;
    push(code, spot, CodeStep::Control(Control::Begin))?;
    let head = next(code)?;
    let test = open_test(code, scope, spot, e)?;
    body(code, sites, scope, a)?;
    push(code, back, CodeStep::Control(Control::Edge(head)))?;
    let done = next(code)?;
    patch(
        code,
        test.at,
        spot,
        CodeStep::Control(Control::JumpIfZero(test.operand, done)),
    );
    push(code, spot, CodeStep::Control(Control::Done))?;
    Ok(())
}

/// The statements of a block, and of a function.
#[cycle(blocks)]
pub fn body(
    code: &mut Vec<Instr>,
    sites: &mut Vec<Site>,
    scope: &Scope,
    body: &Stmts,
) -> Result<(), NoMemory>
    requires known { knows_body scope.now.program scope.now.locals (body_of body.now) ≡ true }
    requires counted { takes_body scope.now.program (body_of body.now) ≡ true }
    requires room { length sites.old.items + place_count (body_of body.now) ≤ site_limit }
    ensures code { OnOk result (code.new.items ≡ code.old.items ++ flat_body scope.now.program scope.now.locals (length code.old.items) (length sites.old.items) (body_of body.now)) }
    ensures sites { OnOk result (sites.new.items ≡ sites.old.items ++ body_sites scope.now.program scope.now.locals (length code.old.items) (body_of body.now)) }
{
    let mut at = body;
    'walk: while let Stmts::More(first, rest) = at {
        let spot = spot_of(sites, first.line);
        statement(code, sites, scope, spot, &first.kind)?;
        at = rest;
    }
    Ok(())
}

#[cycle(blocks)]
fn statement(
    code: &mut Vec<Instr>,
    sites: &mut Vec<Site>,
    scope: &Scope,
    spot: InstrSpot,
    kind: &Kind,
) -> Result<(), NoMemory>
    requires known { knows_body scope.now.program scope.now.locals (behind spot.line kind.now end) ≡ true }
    requires counted { takes_body scope.now.program (behind spot.line kind.now end) ≡ true }
    requires place { spot.place ≡ length sites.old.items }
    requires room { length sites.old.items + place_count (behind spot.line kind.now end) ≤ site_limit }
    ensures code { OnOk result (code.new.items ≡ code.old.items ++ flat_body scope.now.program scope.now.locals (length code.old.items) spot.place (behind spot.line kind.now end)) }
    ensures sites { OnOk result (sites.new.items ≡ sites.old.items ++ body_sites scope.now.program scope.now.locals (length code.old.items) (behind spot.line kind.now end)) }
{
    match kind {
        Kind::Let(x, right) => assign(code, sites, scope, spot, x, right),
        Kind::Set(x, right) => assign(code, sites, scope, spot, x, right),
        Kind::SetCell(x, i, e) => set_cell(code, sites, scope, spot, x, i, e),
        Kind::If(e, a, b) => choice(code, sites, scope, spot, e, a, b),
        Kind::While(e, a) => repeat(code, sites, scope, spot, e, a),
        Kind::Call(f, es) => call_alone(code, sites, scope, spot, f, es),
        Kind::Return(e) => give_back(code, sites, scope, spot, e),
        Kind::Lock(x) => one_step(code, sites, spot, CodeStep::Ask(Ask::Lock(scope.mutex(x)))),
        Kind::Unlock(x) => one_step(
            code,
            sites,
            spot,
            CodeStep::Ask(Ask::Unlock(scope.mutex(x))),
        ),
        Kind::Down(x) => one_step(code, sites, spot, CodeStep::Ask(Ask::Down(scope.sema(x)))),
        Kind::Up(x) => one_step(code, sites, spot, CodeStep::Ask(Ask::Up(scope.sema(x)))),
        Kind::Join(e) => take(code, sites, scope, spot, Taker::Join, e),
        Kind::Print(e) => take(code, sites, scope, spot, Taker::Print, e),
        Kind::Skip => skip(code, sites, spot),
    }
}
