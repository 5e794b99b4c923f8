//! The instructions and the place of a statement without a block. An `Err` is want of memory throughout.
ghost use Rattle.std.specs.Prelude.{ℕ, ◌≡◌, ◌<◌, ◌+◌, ◌||◌, ◌∷◌, ◌++◌, [], None, true, OnOk, IfOk, length};
ghost use Rattle.loom_tree.specs.Tree.{Simple, expression_of, expressions_of, right_of, returned_of};
ghost use Rattle.loom_tree.specs.Tree as tree;
ghost use Rattle.loom_lang.specs.Numbers.{index_of};
ghost use Rattle.loom_lang.specs.Rules.{is_in, is_word, takes, knows, knows_call, knows_right, knows_simple, knows_returned};
ghost use Rattle.loom_flow.specs.Arguments.{takes_right};
ghost use Rattle.loom_flow.specs.declared.code.CodeStep.TheVariants as s;
ghost use Rattle.loom_flow.specs.declared.code.Control.TheVariants.{Begin, Done};
ghost use Rattle.loom_flow.specs.FlatCode.{instr, instrs, operand_of, operand_steps, ask_of, call_steps, spawn_steps, store_step, value_steps, set_steps, simple_steps, resume_of, site, site_limit};

use crate::code::{Ask, CodeStep, Compute, Control, Instr, Operand, Site, Target};
use crate::expression::{InstrSpot, arguments, expression, operand, push};
use crate::numbers::Scope;
use loom_tree::expression::{Expr, Exprs};
use loom_tree::name::{Name, NoMemory};
use loom_tree::statement::Right;

/// The number of the next instruction. A list of more of them than a `u32` counts is none that memory holds.
pub fn next(code: &[Instr]) -> Result<u32, NoMemory>
    ensures { IfOk result (λ n. n ≡ length code.now) }
{
    if code.len() > u32::MAX as usize {
        return Err(NoMemory);
    }
    Ok(code.len() as u32)
}

/// Where the instructions of a statement stand whose place is the next.
pub fn spot_of(sites: &[Site], line: u32) -> InstrSpot
    requires { length sites.now < site_limit }
    ensures { result ≡ record { line = line; place = length sites.now } }
{
    InstrSpot {
        line,
        place: sites.len() as u16,
    }
}

/// One place more.
pub fn put_site(sites: &mut Vec<Site>, line: u32, resume: Option<u32>) -> Result<(), NoMemory>
    ensures { OnOk result (sites.new.items ≡ sites.old.items ++ site line resume ∷ []) }
{
    sites.push(Site { line, resume })?;
    Ok(())
}

/// How many arguments a call has.
#[tactic(auto, using(crate::proofs::StatementRules::few_arguments))]
fn count(scope: &Scope, f: &Name, es: &Exprs) -> u8
    requires { takes scope.now.program.funcs f.now (length (expressions_of es.now)) ≡ true }
    ensures { result ≡ length (expressions_of es.now) }
{
    let _rules = scope.program.funcs();
    es.0.len() as u8
}

/// The beginning of a statement without a call, and its place.
fn begin(code: &mut Vec<Instr>, sites: &mut Vec<Site>, spot: InstrSpot) -> Result<(), NoMemory>
    ensures code { OnOk result (code.new.items ≡ code.old.items ++ instr spot.line spot.place (s.Control Begin) ∷ []) }
    ensures sites { OnOk result (sites.new.items ≡ sites.old.items ++ site spot.line None ∷ []) }
{
    put_site(sites, spot.line, None)?;
    push(code, spot, CodeStep::Control(Control::Begin))?;
    Ok(())
}

/// The last step of a statement, and its completion.
fn complete(code: &mut Vec<Instr>, spot: InstrSpot, step: CodeStep) -> Result<(), NoMemory>
    ensures { OnOk result (code.new.items ≡ code.old.items ++ instr spot.line spot.place step ∷ instr spot.line spot.place (s.Control Done) ∷ []) }
{
    push(code, spot, step)?;
    push(code, spot, CodeStep::Control(Control::Done))?;
    Ok(())
}

/// A call. The answer is the number of the instruction behind it.
#[tactic(auto, using(crate::proofs::Sizes::step_is))]
fn call(
    code: &mut Vec<Instr>,
    scope: &Scope,
    spot: InstrSpot,
    f: &Name,
    es: &Exprs,
) -> Result<u32, NoMemory>
    requires known { knows_call scope.now.program scope.now.locals f.now (expressions_of es.now) ≡ true }
    requires counted { takes scope.now.program.funcs f.now (length (expressions_of es.now)) ≡ true }
    ensures code { OnOk result (code.new.items ≡ code.old.items ++ instrs spot.line spot.place (call_steps scope.now.program scope.now.locals f.now (expressions_of es.now))) }
    ensures resume { IfOk result (λ n. n ≡ length code.new.items) }
{
    arguments(code, scope, spot, es)?;
    let count = count(scope, f, es);
    push(
        code,
        spot,
        CodeStep::Control(Control::Call(scope.function(f), count)),
    )?;
    let resume = next(code)?;
    Ok(resume)
}

#[tactic(auto, using(crate::proofs::Sizes::step_more))]
fn spawn(
    code: &mut Vec<Instr>,
    scope: &Scope,
    spot: InstrSpot,
    f: &Name,
    es: &Exprs,
) -> Result<(), NoMemory>
    requires known { knows_call scope.now.program scope.now.locals f.now (expressions_of es.now) ≡ true }
    requires counted { takes scope.now.program.funcs f.now (length (expressions_of es.now)) ≡ true }
    ensures { OnOk result (code.new.items ≡ code.old.items ++ instrs spot.line spot.place (spawn_steps scope.now.program scope.now.locals f.now (expressions_of es.now))) }
{
    arguments(code, scope, spot, es)?;
    let count = count(scope, f, es);
    push(
        code,
        spot,
        CodeStep::Ask(Ask::Spawn(scope.function(f), count, Target::Push)),
    )
}

/// What is on top goes into a local.
#[tactic(auto, using(crate::proofs::Roles::not_in))]
fn store(code: &mut Vec<Instr>, scope: &Scope, spot: InstrSpot, x: &Name) -> Result<(), NoMemory>
    requires { is_in x.now scope.now.locals ≡ true }
    ensures { OnOk result (code.new.items ≡ code.old.items ++ instr spot.line spot.place (store_step scope.now.program x.now (index_of x.now scope.now.locals)) ∷ []) }
{
    match scope.local(x) {
        Some(local) => push(
            code,
            spot,
            CodeStep::Compute(Compute::Move(Operand::Top, Target::Local(local))),
        ),
        None => unreachable!(),
    }
}

/// The value of an expression goes into a name.
#[tactic(auto, using(crate::proofs::Sizes::step_more, crate::proofs::EachStep::word_behind))]
fn value(
    code: &mut Vec<Instr>,
    scope: &Scope,
    spot: InstrSpot,
    x: &Name,
    e: &Expr,
) -> Result<(), NoMemory>
    requires name { (is_in x.now scope.now.locals || is_word scope.now.program.words x.now) ≡ true }
    requires known { knows scope.now.program scope.now.locals (expression_of e.now) ≡ true }
    ensures { OnOk result (code.new.items ≡ code.old.items ++ instrs spot.line spot.place (value_steps scope.now.program scope.now.locals x.now (expression_of e.now) (index_of x.now scope.now.locals))) }
{
    match scope.local(x) {
        Some(local) => expression(code, scope, spot, Target::Local(local), e),
        None => {
            let operand = operand(code, scope, spot, e)?;
            push(
                code,
                spot,
                CodeStep::Ask(Ask::Write(scope.word(x), operand)),
            )
        }
    }
}

/// What stands at the right of `=` goes into a name. The answer is the number of the instruction behind the call, if there is one.
#[tactic(auto, using(crate::proofs::Sizes::step_is))]
fn set(
    code: &mut Vec<Instr>,
    scope: &Scope,
    spot: InstrSpot,
    x: &Name,
    right: &Right,
) -> Result<Option<u32>, NoMemory>
    requires known { knows_right scope.now.program scope.now.locals x.now (right_of right.now) ≡ true }
    requires counted { takes_right scope.now.program (right_of right.now) ≡ true }
    ensures code { OnOk result (code.new.items ≡ code.old.items ++ instrs spot.line spot.place (set_steps scope.now.program scope.now.locals x.now (right_of right.now))) }
    ensures resume { IfOk result (λ n. (at : ℕ) → length code.old.items ≡ at + 1 → n ≡ resume_of scope.now.program scope.now.locals at (tree.set x.now (right_of right.now))) }
{
    match right {
        Right::Value(e) => {
            value(code, scope, spot, x, e)?;
            Ok(None)
        }
        Right::Call(f, es) => {
            let resume = call(code, scope, spot, f, es)?;
            store(code, scope, spot, x)?;
            Ok(Some(resume))
        }
        Right::Spawn(f, es) => {
            spawn(code, scope, spot, f, es)?;
            store(code, scope, spot, x)?;
            Ok(None)
        }
    }
}

/// A `let` or another write to a name.
#[tactic(auto, using(crate::proofs::Sizes::statement_is))]
pub fn assign(
    code: &mut Vec<Instr>,
    sites: &mut Vec<Site>,
    scope: &Scope,
    spot: InstrSpot,
    x: &Name,
    right: &Right,
) -> Result<(), NoMemory>
    requires known { knows_right scope.now.program scope.now.locals x.now (right_of right.now) ≡ true }
    requires counted { takes_right scope.now.program (right_of right.now) ≡ true }
    ensures code { OnOk result (code.new.items ≡ code.old.items ++ instrs spot.line spot.place (simple_steps scope.now.program scope.now.locals (tree.set x.now (right_of right.now)))) }
    ensures sites { OnOk result (sites.new.items ≡ sites.old.items ++ site spot.line (resume_of scope.now.program scope.now.locals (length code.old.items) (tree.set x.now (right_of right.now))) ∷ []) }
{
    push(code, spot, CodeStep::Control(Control::Begin))?;
    let resume = set(code, scope, spot, x, right)?;
    push(code, spot, CodeStep::Control(Control::Done))?;
    put_site(sites, spot.line, resume)?;
    Ok(())
}

/// A write to a cell: the index, then the value.
#[tactic(auto, using(crate::proofs::Sizes::cell_is))]
pub fn set_cell(
    code: &mut Vec<Instr>,
    sites: &mut Vec<Site>,
    scope: &Scope,
    spot: InstrSpot,
    x: &Name,
    i: &Expr,
    e: &Expr,
) -> Result<(), NoMemory>
    requires { knows_simple scope.now.program scope.now.locals (tree.set_cell x.now (expression_of i.now) (expression_of e.now)) ≡ true }
    ensures code { OnOk result (code.new.items ≡ code.old.items ++ instrs spot.line spot.place (simple_steps scope.now.program scope.now.locals (tree.set_cell x.now (expression_of i.now) (expression_of e.now)))) }
    ensures sites { OnOk result (sites.new.items ≡ sites.old.items ++ site spot.line None ∷ []) }
{
    begin(code, sites, spot)?;
    let index = operand(code, scope, spot, i)?;
    let value = operand(code, scope, spot, e)?;
    complete(
        code,
        spot,
        CodeStep::Ask(Ask::WriteCell(scope.array(x), index, value)),
    )?;
    Ok(())
}

/// A call whose result is dropped.
#[tactic(auto, using(crate::proofs::Sizes::statement_ends))]
pub fn call_alone(
    code: &mut Vec<Instr>,
    sites: &mut Vec<Site>,
    scope: &Scope,
    spot: InstrSpot,
    f: &Name,
    es: &Exprs,
) -> Result<(), NoMemory>
    requires known { knows_call scope.now.program scope.now.locals f.now (expressions_of es.now) ≡ true }
    requires counted { takes scope.now.program.funcs f.now (length (expressions_of es.now)) ≡ true }
    ensures code { OnOk result (code.new.items ≡ code.old.items ++ instrs spot.line spot.place (simple_steps scope.now.program scope.now.locals (Simple.call f.now (expressions_of es.now)))) }
    ensures sites { OnOk result (sites.new.items ≡ sites.old.items ++ site spot.line (resume_of scope.now.program scope.now.locals (length code.old.items) (Simple.call f.now (expressions_of es.now))) ∷ []) }
{
    push(code, spot, CodeStep::Control(Control::Begin))?;
    let resume = call(code, scope, spot, f, es)?;
    complete(code, spot, CodeStep::Compute(Compute::Discard))?;
    put_site(sites, spot.line, Some(resume))?;
    Ok(())
}

/// The end of the function, with a result; 0 where none is said.
#[tactic(auto, using(crate::proofs::Sizes::statement_is))]
pub fn give_back(
    code: &mut Vec<Instr>,
    sites: &mut Vec<Site>,
    scope: &Scope,
    spot: InstrSpot,
    e: &Option<Expr>,
) -> Result<(), NoMemory>
    requires { knows_returned scope.now.program scope.now.locals (returned_of e.now) ≡ true }
    ensures code { OnOk result (code.new.items ≡ code.old.items ++ instrs spot.line spot.place (simple_steps scope.now.program scope.now.locals (tree.return (returned_of e.now)))) }
    ensures sites { OnOk result (sites.new.items ≡ sites.old.items ++ site spot.line None ∷ []) }
{
    begin(code, sites, spot)?;
    match e {
        None => {
            push(
                code,
                spot,
                CodeStep::Control(Control::Return(Operand::Number(0))),
            )?;
            Ok(())
        }
        Some(e) => {
            let given = operand(code, scope, spot, e)?;
            push(code, spot, CodeStep::Control(Control::Return(given)))?;
            Ok(())
        }
    }
}

/// A statement of one step between its beginning and its completion.
pub fn one_step(
    code: &mut Vec<Instr>,
    sites: &mut Vec<Site>,
    spot: InstrSpot,
    step: CodeStep,
) -> Result<(), NoMemory>
    ensures code { OnOk result (code.new.items ≡ code.old.items ++ instrs spot.line spot.place (s.Control Begin ∷ step ∷ s.Control Done ∷ [])) }
    ensures sites { OnOk result (sites.new.items ≡ sites.old.items ++ site spot.line None ∷ []) }
{
    begin(code, sites, spot)?;
    complete(code, spot, step)?;
    Ok(())
}

/// A statement of no step.
pub fn skip(code: &mut Vec<Instr>, sites: &mut Vec<Site>, spot: InstrSpot) -> Result<(), NoMemory>
    ensures code { OnOk result (code.new.items ≡ code.old.items ++ instrs spot.line spot.place (s.Control Begin ∷ s.Control Done ∷ [])) }
    ensures sites { OnOk result (sites.new.items ≡ sites.old.items ++ site spot.line None ∷ []) }
{
    begin(code, sites, spot)?;
    push(code, spot, CodeStep::Control(Control::Done))?;
    Ok(())
}

/// What takes the value of an expression.
#[derive(Clone, Copy, Debug, Drop)]
pub enum Taker {
    /// A wait for the thread of that number.
    Join,
    /// A print.
    Print,
}

/// What it asks for, with the operand where the value is.
fn ask_of(taker: Taker, a: Operand) -> Ask
    ensures { result ≡ ask_of taker a }
{
    match taker {
        Taker::Join => Ask::Join(a),
        Taker::Print => Ask::Print(a),
    }
}

/// A statement that takes the value of one expression.
#[tactic(auto, using(crate::proofs::Sizes::statement_ends))]
pub fn take(
    code: &mut Vec<Instr>,
    sites: &mut Vec<Site>,
    scope: &Scope,
    spot: InstrSpot,
    taker: Taker,
    e: &Expr,
) -> Result<(), NoMemory>
    requires { knows scope.now.program scope.now.locals (expression_of e.now) ≡ true }
    ensures code { OnOk result (code.new.items ≡ code.old.items ++ instrs spot.line spot.place (s.Control Begin ∷ (operand_steps scope.now.program scope.now.locals (expression_of e.now) ++ s.Ask (ask_of taker (operand_of scope.now.locals (expression_of e.now))) ∷ s.Control Done ∷ []))) }
    ensures sites { OnOk result (sites.new.items ≡ sites.old.items ++ site spot.line None ∷ []) }
{
    begin(code, sites, spot)?;
    let a = operand(code, scope, spot, e)?;
    complete(code, spot, CodeStep::Ask(ask_of(taker, a)))?;
    Ok(())
}
