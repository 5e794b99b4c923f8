//! Reads the block of a function.
ghost use Rattle.std.specs.Prelude.{◌≡◌, [], ◌∷◌, ◌++◌, IfOk};
ghost use Rattle.loom_tree.specs.Tree.{body_of, expression_of};
ghost use Rattle.loom_syntax.specs.TokenView.{spot_of};
ghost use Rattle.loom_syntax.specs.View.{Statement, chain, plain};
ghost use Rattle.loom_syntax.specs.StatementView as part;
ghost use Rattle.loom_syntax.specs.BlockView.{around_of, block_of, next_if, next_of, opened_of, position_of, stack_of, statement_of, statements_of};
ghost use Rattle.loom_syntax.specs.FileReader as m;

use crate::statement::{Part, PartNext, Simple, Test, begin_part, part_step};
use crate::token::TokenSpot;
use loom_tree::expression::Expr;
use loom_tree::name::NoMemory;
use loom_tree::statement::{Kind, Stmt, Stmts};
use loom_tree::token::{Keyword, Sign};
use std::alloc::Global;

/// How deep blocks nest at most, the body of a function being the first.
const BLOCK_LIMIT: usize = 32;

/// An `if` up to the end of its first block.
#[derive(Drop)]
pub struct If {
    /// Its line, from 1.
    pub line: u32,
    /// Its condition.
    pub condition: Expr,
    /// The statements of its first block.
    pub body: Stmts,
}

/// What an open block is part of.
#[derive(Drop)]
pub enum Around {
    /// The first block of an `if` with this condition.
    Then(Expr),
    /// The block behind `else`, and what is before it.
    Else(Expr, Stmts),
    /// The block of a `while` with this condition.
    Loop(Expr),
}

/// An open block: the line of its statement, and the statements before that.
#[derive(Drop)]
pub struct OpenBlock {
    /// The line of its statement, from 1.
    pub line: u32,
    /// What it is part of.
    pub around: Around,
    /// The statements before that one.
    pub before: Vec<Stmt>,
}

/// Where the reader is in a block.
#[derive(Drop)]
pub enum BlockPosition {
    /// Before a statement or `}`.
    Start,
    /// Behind the first block of an `if`.
    AfterIf(If),
    /// Behind `else`.
    ElseBrace(If),
    /// In a statement of this line.
    Within(u32, Box<Part>),
}

/// Where the reader is in the block of a function.
#[derive(Drop)]
pub struct BlockReader {
    /// The open blocks, the innermost last, but for that of the function.
    pub opened: Vec<OpenBlock>,
    /// The statements of the innermost.
    pub before: Vec<Stmt>,
    /// Where the reader is in the innermost.
    pub point: BlockPosition,
}

/// How a function goes on behind a token.
#[derive(Drop)]
pub enum BlockNext {
    /// It goes on, in this state.
    Goes(BlockReader),
    /// Its block is whole.
    Ends(Stmts),
}

#[tactic(auto, using(crate::proofs::Blocks::chain_of))]
fn more(alloc: Global, first: Stmt, rest: Stmts) -> Result<Stmts, NoMemory>
    ensures { IfOk result (λ b. body_of b ≡ chain (statement_of first) (body_of rest)) }
{
    Ok(Stmts::More(Box::new(alloc, first)?, Box::new(alloc, rest)?))
}

/// The statements of a whole block, chained from the last to the first.
#[tactic(auto, using(crate::proofs::Blocks::before_last, crate::proofs::Blocks::close_before))]
fn close(alloc: Global, mut stmts: Vec<Stmt>) -> Result<Stmts, NoMemory>
    ensures { IfOk result (λ b. body_of b ≡ m.close plain (statements_of stmts.items)) }
{
    let mut rest = Stmts::End;
    'up: while let Some(last) = stmts.pop() {
        rest = more(alloc, last, rest)?;
    }
    Ok(rest)
}

/// Whether another block may open behind these.
#[tactic(auto, using(crate::proofs::Blocks::room_of))]
fn room(opened: &[OpenBlock]) -> bool
    ensures { result ≡ m.room (stack_of opened.now) }
{
    opened.len() + 1 < BLOCK_LIMIT
}

fn stmt(line: u32, kind: Kind) -> Stmt
    ensures { result ≡ record { line = line; kind = kind } }
{
    Stmt { line, kind }
}

fn simple(line: u32, s: Simple) -> Stmt
    ensures { statement_of result ≡ Statement.simple line (part.simple_of s) }
{
    match s {
        Simple::Let(x, r) => stmt(line, Kind::Let(x, r)),
        Simple::Set(x, r) => stmt(line, Kind::Set(x, r)),
        Simple::SetCell(x, i, e) => stmt(line, Kind::SetCell(x, i, e)),
        Simple::Call(f, es) => stmt(line, Kind::Call(f, es)),
        Simple::Return(e) => stmt(line, Kind::Return(e)),
        Simple::Lock(x) => stmt(line, Kind::Lock(x)),
        Simple::Unlock(x) => stmt(line, Kind::Unlock(x)),
        Simple::Down(x) => stmt(line, Kind::Down(x)),
        Simple::Up(x) => stmt(line, Kind::Up(x)),
        Simple::Join(e) => stmt(line, Kind::Join(e)),
        Simple::Print(e) => stmt(line, Kind::Print(e)),
        Simple::Skip => stmt(line, Kind::Skip),
    }
}

fn starts(opened: Vec<OpenBlock>, before: Vec<Stmt>) -> BlockReader
    ensures { block_of result ≡ m.At (stack_of opened.items) (statements_of before.items) m.Start }
{
    BlockReader {
        opened,
        before,
        point: BlockPosition::Start,
    }
}

fn within(
    alloc: Global,
    opened: Vec<OpenBlock>,
    before: Vec<Stmt>,
    line: u32,
    q: Part,
) -> Result<BlockReader, NoMemory>
    ensures { IfOk result (λ i. block_of i ≡ m.At (stack_of opened.items) (statements_of before.items) (m.Within line (part.part_of q))) }
{
    let point = BlockPosition::Within(line, Box::new(alloc, q)?);
    Ok(BlockReader {
        opened,
        before,
        point,
    })
}

/// Behind one statement more.
fn behind(
    opened: Vec<OpenBlock>,
    mut before: Vec<Stmt>,
    stmt: Stmt,
) -> Result<BlockReader, NoMemory>
    ensures { IfOk result (λ i. block_of i ≡ m.At (stack_of opened.items) (statements_of before.items ++ statement_of stmt ∷ []) m.Start) }
{
    before.push(stmt)?;
    Ok(starts(opened, before))
}

/// At the beginning of a block.
#[tactic(auto, using(crate::proofs::Blocks::stack_push))]
fn opens(
    alloc: Global,
    mut opened: Vec<OpenBlock>,
    before: Vec<Stmt>,
    line: u32,
    around: Around,
) -> Result<BlockReader, NoMemory>
    ensures { IfOk result (λ i. block_of i ≡ m.At (record { line = line; around = around_of around; before = statements_of before.items } ∷ stack_of opened.items) [] m.Start) }
{
    opened.push(OpenBlock {
        line,
        around,
        before,
    })?;
    Ok(starts(opened, Vec::new(alloc)))
}

/// Behind the `}` of a block with these statements.
fn shut_in(body: Stmts, outer: OpenBlock, opened: Vec<OpenBlock>) -> Result<BlockReader, NoMemory>
    ensures { IfOk result (λ i. block_of i ≡ m.shut_in plain (body_of body) outer.line (around_of outer.around) (statements_of outer.before.items) (stack_of opened.items)) }
{
    let OpenBlock {
        line,
        around,
        before,
    } = outer;
    match around {
        Around::Then(condition) => Ok(BlockReader {
            opened,
            before,
            point: BlockPosition::AfterIf(If {
                line,
                condition,
                body,
            }),
        }),
        Around::Else(e, first) => behind(opened, before, stmt(line, Kind::If(e, first, body))),
        Around::Loop(e) => behind(opened, before, stmt(line, Kind::While(e, body))),
    }
}

#[tactic(auto, using(crate::proofs::Blocks::stack_push))]
fn shut(body: Stmts, mut opened: Vec<OpenBlock>) -> Result<BlockNext, NoMemory>
    ensures { IfOk result (λ n. next_of n ≡ m.shut plain (body_of body) (stack_of opened.items)) }
{
    match opened.pop() {
        None => Ok(BlockNext::Ends(body)),
        Some(outer) => Ok(BlockNext::Goes(shut_in(body, outer, opened)?)),
    }
}

fn around_test(test: Test, e: Expr) -> Around
    ensures { around_of result ≡ m.around (part.test_of test) (expression_of e) }
{
    match test {
        Test::If => Around::Then(e),
        Test::While => Around::Loop(e),
    }
}

/// Behind a token of a statement.
fn parted(
    alloc: Global,
    opened: Vec<OpenBlock>,
    before: Vec<Stmt>,
    line: u32,
    next: PartNext,
) -> Result<BlockReader, NoMemory>
    ensures { IfOk result (λ i. block_of i ≡ m.parted plain (stack_of opened.items) (statements_of before.items) line (part.next_of next)) }
{
    match next {
        PartNext::Goes(part) => within(alloc, opened, before, line, part),
        PartNext::Ends(s) => behind(opened, before, simple(line, Box::into_inner(s))),
        PartNext::Opens(test, e) => opens(alloc, opened, before, line, around_test(test, e)),
    }
}

/// A token where a statement or `}` must follow.
fn statement_step(
    alloc: Global,
    opened: Vec<OpenBlock>,
    before: Vec<Stmt>,
    spot: TokenSpot,
) -> Result<Option<BlockNext>, NoMemory>
    ensures { IfOk result (λ r. next_if r ≡ m.statement_step plain (stack_of opened.items) (statements_of before.items) (spot_of spot.entry)) }
{
    if spot.is_sign(Sign::BraceClose) {
        return Ok(Some(shut(close(alloc, before)?, opened)?));
    }
    match begin_part(alloc, room(&opened), spot)? {
        Some(part) => {
            let inside = within(alloc, opened, before, spot.token.line, part)?;
            Ok(Some(BlockNext::Goes(inside)))
        }
        None => Ok(None),
    }
}

/// A token behind the first block of an `if`.
fn after_if(
    alloc: Global,
    opened: Vec<OpenBlock>,
    mut before: Vec<Stmt>,
    first: If,
    spot: TokenSpot,
) -> Result<Option<BlockNext>, NoMemory>
    ensures { IfOk result (λ r. next_if r ≡ m.block_step plain (m.At (stack_of opened.items) (statements_of before.items) (m.AfterIf first.line (expression_of first.condition) (body_of first.body))) (spot_of spot.entry)) }
{
    if spot.is_keyword(Keyword::Else) {
        Ok(Some(BlockNext::Goes(BlockReader {
            opened,
            before,
            point: BlockPosition::ElseBrace(first),
        })))
    } else {
        let kind = Kind::If(first.condition, first.body, Stmts::End);
        before.push(stmt(first.line, kind))?;
        statement_step(alloc, opened, before, spot)
    }
}

/// A token behind `else`.
fn else_brace(
    alloc: Global,
    opened: Vec<OpenBlock>,
    before: Vec<Stmt>,
    first: If,
    spot: TokenSpot,
) -> Result<Option<BlockNext>, NoMemory>
    ensures { IfOk result (λ r. next_if r ≡ m.block_step plain (m.At (stack_of opened.items) (statements_of before.items) (m.ElseBrace first.line (expression_of first.condition) (body_of first.body))) (spot_of spot.entry)) }
{
    if spot.is_sign(Sign::BraceOpen) {
        let around = Around::Else(first.condition, first.body);
        let inside = opens(alloc, opened, before, first.line, around)?;
        Ok(Some(BlockNext::Goes(inside)))
    } else {
        Ok(None)
    }
}

/// A token in a statement.
fn within_step(
    alloc: Global,
    opened: Vec<OpenBlock>,
    before: Vec<Stmt>,
    line: u32,
    q: Box<Part>,
    spot: TokenSpot,
) -> Result<Option<BlockNext>, NoMemory>
    ensures { IfOk result (λ r. next_if r ≡ m.block_step plain (m.At (stack_of opened.items) (statements_of before.items) (m.Within line (part.part_of q.value))) (spot_of spot.entry)) }
{
    match part_step(alloc, Box::into_inner(q), spot)? {
        Some(next) => {
            let inside = parted(alloc, opened, before, line, next)?;
            Ok(Some(BlockNext::Goes(inside)))
        }
        None => Ok(None),
    }
}

/// At the beginning of a function's block.
pub fn begin_block(alloc: Global) -> BlockReader
    ensures { block_of result ≡ m.At [] [] m.Start }
{
    starts(Vec::new(alloc), Vec::new(alloc))
}

/// What is behind a token; `None` where it can't follow. An `Err` is want of memory.
pub fn block_step(
    alloc: Global,
    inside: BlockReader,
    spot: TokenSpot,
) -> Result<Option<BlockNext>, NoMemory>
    ensures { IfOk result (λ r. next_if r ≡ m.block_step plain (block_of inside) (spot_of spot.entry)) }
{
    let BlockReader {
        opened,
        before,
        point,
    } = inside;
    match point {
        BlockPosition::Start => statement_step(alloc, opened, before, spot),
        BlockPosition::AfterIf(first) => after_if(alloc, opened, before, first, spot),
        BlockPosition::ElseBrace(first) => else_brace(alloc, opened, before, first, spot),
        BlockPosition::Within(line, q) => within_step(alloc, opened, before, line, q, spot),
    }
}
