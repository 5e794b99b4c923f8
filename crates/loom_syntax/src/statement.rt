//! Reads statements up to their blocks.
ghost use Rattle.std.specs.Prelude.{◌≡◌, IfOk, Some};
ghost use Rattle.loom_tree.specs.Tree as tree;
ghost use Rattle.loom_tree.specs.Tree.{expression_of, expressions_of};
ghost use Rattle.loom_expression.specs.Reader as expression;
ghost use Rattle.loom_expression.specs.ReaderView.{reader_of};
ghost use Rattle.loom_syntax.specs.TokenView.{token_of};
ghost use Rattle.loom_syntax.specs.StatementView.{goal_of, next_if, next_of, part_if, part_of, purpose_of, simple_of, sync_of, assignee_of, test_of};
ghost use Rattle.loom_syntax.specs.Part as m;

use crate::token::TokenSpot;
use loom_expression::part::Size;
use loom_expression::reader::Reader;
use loom_tree::expression::{Expr, Exprs};
use loom_tree::name::{Name, NoMemory};
use loom_tree::statement::Right;
use loom_tree::token::{Keyword, Sign, TokenKind};
use std::alloc::Global;

/// How a value is written to a name.
#[derive(Clone, Copy, Drop)]
pub enum Binding {
    /// By `let`, which declares it.
    Let,
    /// Without.
    Set,
}

/// What a value is written to.
#[derive(Drop)]
pub struct Assignee {
    /// How it is written to.
    pub binding: Binding,
    /// Its name.
    pub name: Name,
}

/// What stands at the right of `=`, with arguments.
#[derive(Clone, Copy, Drop)]
pub enum Arguing {
    /// A call.
    Call,
    /// A `spawn`.
    Spawn,
}

/// What arguments are for.
#[derive(Drop)]
pub enum Goal {
    /// A call of this function, whose result is dropped.
    Call(Name),
    /// A call or spawn of the function named last, whose result is written.
    Right(Arguing, Assignee, Name),
}

/// What is done with a mutex or a semaphore.
#[derive(Clone, Copy, Drop)]
pub enum SyncKind {
    /// `lock`
    Lock,
    /// `unlock`
    Unlock,
    /// `down`
    Down,
    /// `up`
    Up,
}

/// The statements with a condition.
#[derive(Clone, Copy, Drop)]
pub enum Test {
    /// `if`
    If,
    /// `while`
    While,
}

/// What an expression is for.
#[derive(Drop)]
pub enum Purpose {
    /// It is written there.
    Value(Assignee),
    /// An argument behind those before it.
    Argument(Goal, Vec<Expr>),
    /// The index of a cell of this array, which is written to.
    Index(Name),
    /// It is written to the cell of this array and index.
    CellValue(Name, Expr),
    /// The condition of this statement.
    Condition(Test),
    /// The result of a `return`.
    Return,
    /// The number of the thread that a `join` waits for.
    Join,
    /// It is printed.
    Print,
}

/// A statement without a block.
#[derive(Drop)]
pub enum Simple {
    /// `let` of a local, and what is written to it.
    Let(Name, Right),
    /// A write to a local or a word.
    Set(Name, Right),
    /// A write to a cell: the array, the index and the value.
    SetCell(Name, Expr, Expr),
    /// A call whose result is dropped: the function and its arguments.
    Call(Name, Exprs),
    /// `return`, with its value where one is given.
    Return(Option<Expr>),
    /// `lock` of a mutex.
    Lock(Name),
    /// `unlock` of a mutex.
    Unlock(Name),
    /// `down` of a semaphore.
    Down(Name),
    /// `up` of a semaphore.
    Up(Name),
    /// `join` of the thread of this number.
    Join(Expr),
    /// `print` of a value.
    Print(Expr),
    /// `skip`
    Skip,
}

/// What was read of a statement, named by what must follow.
#[derive(Drop)]
pub enum Part {
    /// The name behind `let`.
    LetName,
    /// `=` behind the name of a local.
    LetAssign(Name),
    /// `=`, `[` or `(` behind a name.
    Started(Name),
    /// `spawn`, a name or another expression behind `=`.
    RightOf(Assignee),
    /// A name was read, of a function if `(` follows, else of an expression.
    RightNamed(Assignee, Name),
    /// The name behind `spawn`.
    SpawnName(Assignee),
    /// `(` behind the function of a new thread.
    SpawnOpen(Assignee, Name),
    /// The name of a mutex or a semaphore.
    SyncName(SyncKind),
    /// `(` behind `if` or `while`.
    TestOpen(Test),
    /// The first argument, or `)`.
    Arguments(Goal),
    /// An expression or `;`.
    Returned,
    /// `=` behind the index of a cell of this array.
    SetAssign(Name, Expr),
    /// The rest of an expression.
    Reading(Box<Purpose>, Reader),
    /// The `;` of a statement.
    Ending(Box<Simple>),
    /// `{` behind a condition.
    TestBrace(Test, Expr),
}

/// How a statement goes on behind a token.
#[derive(Drop)]
pub enum PartNext {
    /// It goes on, in this state.
    Goes(Part),
    /// It is whole.
    Ends(Box<Simple>),
    /// Its block begins.
    Opens(Test, Expr),
}

fn assigned(target: Assignee, right: Right) -> Simple
    ensures { simple_of result ≡ m.assigned (assignee_of target) (tree.right_of right) }
{
    match target.binding {
        Binding::Let => Simple::Let(target.name, right),
        Binding::Set => Simple::Set(target.name, right),
    }
}

fn applied(goal: Goal, es: Vec<Expr>) -> Simple
    ensures { simple_of result ≡ m.call_of (goal_of goal) (expressions_of es.items) }
{
    match goal {
        Goal::Call(f) => Simple::Call(f, Exprs(es)),
        Goal::Right(Arguing::Call, target, f) => assigned(target, Right::Call(f, Exprs(es))),
        Goal::Right(Arguing::Spawn, target, f) => assigned(target, Right::Spawn(f, Exprs(es))),
    }
}

fn synced(sync: SyncKind, x: Name) -> Simple
    ensures { simple_of result ≡ m.synced (sync_of sync) x }
{
    match sync {
        SyncKind::Lock => Simple::Lock(x),
        SyncKind::Unlock => Simple::Unlock(x),
        SyncKind::Down => Simple::Down(x),
        SyncKind::Up => Simple::Up(x),
    }
}

/// Behind this token an expression of this purpose must follow. An `Err` is want of memory.
fn read(alloc: Global, purpose: Purpose) -> Result<Part, NoMemory>
    ensures { IfOk result (λ q. part_of q ≡ m.Reading (purpose_of purpose) expression.fresh) }
{
    Ok(Part::Reading(Box::new(alloc, purpose)?, Reader::new(alloc)))
}

fn ending(alloc: Global, s: Simple) -> Result<Part, NoMemory>
    ensures { IfOk result (λ q. part_of q ≡ m.Ending (simple_of s)) }
{
    Ok(Part::Ending(Box::new(alloc, s)?))
}

fn ends(alloc: Global, s: Simple) -> Result<PartNext, NoMemory>
    ensures { IfOk result (λ n. next_of n ≡ m.PartNext.Ends (simple_of s)) }
{
    Ok(PartNext::Ends(Box::new(alloc, s)?))
}

/// Whether the token ends an expression of this purpose, where it is whole.
fn closes(purpose: &Purpose, spot: TokenSpot) -> bool
    ensures { result ≡ m.closes (purpose_of purpose.now) (token_of spot.entry) }
{
    match purpose {
        Purpose::Value(_) => spot.is_sign(Sign::Semicolon),
        Purpose::Argument(_, _) => spot.is_sign(Sign::Comma) || spot.is_sign(Sign::ParenClose),
        Purpose::Index(_) => spot.is_sign(Sign::BracketClose),
        Purpose::CellValue(_, _) => spot.is_sign(Sign::Semicolon),
        Purpose::Condition(_) => spot.is_sign(Sign::ParenClose),
        Purpose::Return => spot.is_sign(Sign::Semicolon),
        Purpose::Join => spot.is_sign(Sign::Semicolon),
        Purpose::Print => spot.is_sign(Sign::Semicolon),
    }
}

/// What is behind an argument and the `,` or `)` that ends it. An `Err` is want of memory.
fn argued(alloc: Global, goal: Goal, es: Vec<Expr>, spot: TokenSpot) -> Result<PartNext, NoMemory>
    ensures { IfOk result (λ n. next_of n ≡ m.behind_argument (goal_of goal) (expressions_of es.items) (token_of spot.entry)) }
{
    if spot.is_sign(Sign::Comma) {
        Ok(PartNext::Goes(read(alloc, Purpose::Argument(goal, es))?))
    } else {
        Ok(PartNext::Goes(ending(alloc, applied(goal, es))?))
    }
}

/// What is behind an expression and the token that ends it. An `Err` is want of memory.
fn closed(alloc: Global, purpose: Purpose, e: Expr, spot: TokenSpot) -> Result<PartNext, NoMemory>
    ensures { IfOk result (λ n. next_of n ≡ m.behind_expression (purpose_of purpose) (expression_of e) (token_of spot.entry)) }
{
    match purpose {
        Purpose::Value(target) => ends(alloc, assigned(target, Right::Value(e))),
        Purpose::Argument(goal, mut before) => {
            before.push(e)?;
            argued(alloc, goal, before, spot)
        }
        Purpose::Index(x) => Ok(PartNext::Goes(Part::SetAssign(x, e))),
        Purpose::CellValue(x, i) => ends(alloc, Simple::SetCell(x, i, e)),
        Purpose::Condition(test) => Ok(PartNext::Goes(Part::TestBrace(test, e))),
        Purpose::Return => ends(alloc, Simple::Return(Some(e))),
        Purpose::Join => ends(alloc, Simple::Join(e)),
        Purpose::Print => ends(alloc, Simple::Print(e)),
    }
}

/// Whether the token ends the expression.
fn ends_here(purpose: &Purpose, reader: &Reader, spot: TokenSpot) -> bool
    ensures { result ≡ m.ends_here (purpose_of purpose.now) (reader_of reader.now) (token_of spot.entry) }
{
    reader.is_whole() && closes(purpose, spot)
}

/// Behind an expression, at the token that ends it. An `Err` is want of memory.
fn close(
    alloc: Global,
    purpose: Purpose,
    reader: Reader,
    spot: TokenSpot,
) -> Result<Option<PartNext>, NoMemory>
    ensures { IfOk result (λ r. next_if r ≡ expression.after (expression.finish expression.plain (reader_of reader)) (λ e. Some (m.behind_expression (purpose_of purpose) e (token_of spot.entry)))) }
{
    match reader.finish(alloc)? {
        Some(e) => Ok(Some(closed(alloc, purpose, e, spot)?)),
        None => Ok(None),
    }
}

/// A token in an expression. An `Err` is want of memory.
fn feed(
    alloc: Global,
    purpose: Box<Purpose>,
    reader: Reader,
    spot: TokenSpot,
) -> Result<Option<PartNext>, NoMemory>
    ensures { IfOk result (λ r. next_if r ≡ expression.after (expression.feed expression.plain (reader_of reader) (token_of spot.entry)) (λ s. Some (m.PartNext.Goes (m.Reading (purpose_of purpose.value) s)))) }
{
    match reader.feed(alloc, spot.bytes, spot.token)? {
        Some(next) => Ok(Some(PartNext::Goes(Part::Reading(purpose, next)))),
        None => Ok(None),
    }
}

/// A token in an expression, or behind it. An `Err` is want of memory.
fn read_step(
    alloc: Global,
    purpose: Box<Purpose>,
    reader: Reader,
    spot: TokenSpot,
) -> Result<Option<PartNext>, NoMemory>
    ensures { IfOk result (λ r. next_if r ≡ m.read_step expression.plain (purpose_of purpose.value) (reader_of reader) (token_of spot.entry)) }
{
    if ends_here(&purpose, &reader, spot) {
        close(alloc, Box::into_inner(purpose), reader, spot)
    } else {
        feed(alloc, purpose, reader, spot)
    }
}

/// The first token of an expression. An `Err` is want of memory.
fn read_first(
    alloc: Global,
    purpose: Purpose,
    spot: TokenSpot,
) -> Result<Option<PartNext>, NoMemory>
    ensures { IfOk result (λ r. next_if r ≡ m.read_step expression.plain (purpose_of purpose) expression.fresh (token_of spot.entry)) }
{
    read_step(alloc, Box::new(alloc, purpose)?, Reader::new(alloc), spot)
}

fn begin_test(room: bool, test: Test) -> Option<Part>
    ensures { part_if result ≡ m.begin_test room (test_of test) }
{
    if room {
        Some(Part::TestOpen(test))
    } else {
        None
    }
}

/// The first keyword of a statement. An `Err` is want of memory.
fn begin_keyword(alloc: Global, room: bool, keyword: Keyword) -> Result<Option<Part>, NoMemory>
    ensures { IfOk result (λ r. part_if r ≡ m.begin_keyword room keyword) }
{
    match keyword {
        Keyword::Let => Ok(Some(Part::LetName)),
        Keyword::If => Ok(begin_test(room, Test::If)),
        Keyword::While => Ok(begin_test(room, Test::While)),
        Keyword::Return => Ok(Some(Part::Returned)),
        Keyword::Lock => Ok(Some(Part::SyncName(SyncKind::Lock))),
        Keyword::Unlock => Ok(Some(Part::SyncName(SyncKind::Unlock))),
        Keyword::Down => Ok(Some(Part::SyncName(SyncKind::Down))),
        Keyword::Up => Ok(Some(Part::SyncName(SyncKind::Up))),
        Keyword::Join => Ok(Some(read(alloc, Purpose::Join)?)),
        Keyword::Print => Ok(Some(read(alloc, Purpose::Print)?)),
        Keyword::Skip => Ok(Some(ending(alloc, Simple::Skip)?)),
        Keyword::Shared => Ok(None),
        Keyword::Mutex => Ok(None),
        Keyword::Sema => Ok(None),
        Keyword::Fn => Ok(None),
        Keyword::Else => Ok(None),
        Keyword::Spawn => Ok(None),
    }
}

/// The first token of a statement, where a block may open or where none may. `None` where no statement begins with it. An
/// `Err` is want of memory.
pub fn begin_part(alloc: Global, room: bool, spot: TokenSpot) -> Result<Option<Part>, NoMemory>
    ensures { IfOk result (λ r. part_if r ≡ m.begin_part room (token_of spot.entry)) }
{
    if let TokenKind::Keyword(keyword) = spot.token.kind {
        return begin_keyword(alloc, room, keyword);
    }
    match spot.name(alloc)? {
        Some(x) => Ok(Some(Part::Started(x))),
        None => Ok(None),
    }
}

fn let_name(alloc: Global, spot: TokenSpot) -> Result<Option<PartNext>, NoMemory>
    ensures { IfOk result (λ r. next_if r ≡ m.part_step expression.plain m.LetName (token_of spot.entry)) }
{
    match spot.name(alloc)? {
        Some(x) => Ok(Some(PartNext::Goes(Part::LetAssign(x)))),
        None => Ok(None),
    }
}

fn let_assign(name: Name, spot: TokenSpot) -> Option<PartNext>
    ensures { next_if result ≡ m.part_step expression.plain (m.LetAssign name) (token_of spot.entry) }
{
    if spot.is_sign(Sign::Assign) {
        let binding = Binding::Let;
        Some(PartNext::Goes(Part::RightOf(Assignee { binding, name })))
    } else {
        None
    }
}

fn started(alloc: Global, name: Name, spot: TokenSpot) -> Result<Option<PartNext>, NoMemory>
    ensures { IfOk result (λ r. next_if r ≡ m.behind_name name (token_of spot.entry)) }
{
    if spot.is_sign(Sign::Assign) {
        let binding = Binding::Set;
        Ok(Some(PartNext::Goes(Part::RightOf(Assignee { binding, name }))))
    } else if spot.is_sign(Sign::BracketOpen) {
        Ok(Some(PartNext::Goes(read(alloc, Purpose::Index(name))?)))
    } else if spot.is_sign(Sign::ParenOpen) {
        Ok(Some(PartNext::Goes(Part::Arguments(Goal::Call(name)))))
    } else {
        Ok(None)
    }
}

fn right_of(alloc: Global, target: Assignee, spot: TokenSpot) -> Result<Option<PartNext>, NoMemory>
    ensures { IfOk result (λ r. next_if r ≡ m.right_of expression.plain (assignee_of target) (token_of spot.entry)) }
{
    if spot.is_keyword(Keyword::Spawn) {
        return Ok(Some(PartNext::Goes(Part::SpawnName(target))));
    }
    match spot.name(alloc)? {
        Some(f) => Ok(Some(PartNext::Goes(Part::RightNamed(target, f)))),
        None => read_first(alloc, Purpose::Value(target), spot),
    }
}

fn right_named(
    alloc: Global,
    target: Assignee,
    f: Name,
    spot: TokenSpot,
) -> Result<Option<PartNext>, NoMemory>
    ensures { IfOk result (λ r. next_if r ≡ m.right_named expression.plain (assignee_of target) f (token_of spot.entry)) }
{
    if spot.is_sign(Sign::ParenOpen) {
        let goal = Goal::Right(Arguing::Call, target, f);
        Ok(Some(PartNext::Goes(Part::Arguments(goal))))
    } else {
        let reader = Reader::Named(f, Size::new(), Vec::new(alloc));
        read_step(
            alloc,
            Box::new(alloc, Purpose::Value(target))?,
            reader,
            spot,
        )
    }
}

fn spawn_name(
    alloc: Global,
    target: Assignee,
    spot: TokenSpot,
) -> Result<Option<PartNext>, NoMemory>
    ensures { IfOk result (λ r. next_if r ≡ m.part_step expression.plain (m.SpawnName (assignee_of target)) (token_of spot.entry)) }
{
    match spot.name(alloc)? {
        Some(f) => Ok(Some(PartNext::Goes(Part::SpawnOpen(target, f)))),
        None => Ok(None),
    }
}

fn spawn_open(target: Assignee, f: Name, spot: TokenSpot) -> Option<PartNext>
    ensures { next_if result ≡ m.part_step expression.plain (m.SpawnOpen (assignee_of target) f) (token_of spot.entry) }
{
    if spot.is_sign(Sign::ParenOpen) {
        let goal = Goal::Right(Arguing::Spawn, target, f);
        Some(PartNext::Goes(Part::Arguments(goal)))
    } else {
        None
    }
}

fn sync_name(alloc: Global, sync: SyncKind, spot: TokenSpot) -> Result<Option<PartNext>, NoMemory>
    ensures { IfOk result (λ r. next_if r ≡ m.part_step expression.plain (m.SyncName (sync_of sync)) (token_of spot.entry)) }
{
    match spot.name(alloc)? {
        Some(x) => Ok(Some(PartNext::Goes(ending(alloc, synced(sync, x))?))),
        None => Ok(None),
    }
}

fn test_open(alloc: Global, test: Test, spot: TokenSpot) -> Result<Option<PartNext>, NoMemory>
    ensures { IfOk result (λ r. next_if r ≡ m.part_step expression.plain (m.TestOpen (test_of test)) (token_of spot.entry)) }
{
    if spot.is_sign(Sign::ParenOpen) {
        Ok(Some(PartNext::Goes(read(alloc, Purpose::Condition(test))?)))
    } else {
        Ok(None)
    }
}

fn arguments_step(alloc: Global, goal: Goal, spot: TokenSpot) -> Result<Option<PartNext>, NoMemory>
    ensures { IfOk result (λ r. next_if r ≡ m.arguments_step expression.plain (goal_of goal) (token_of spot.entry)) }
{
    if spot.is_sign(Sign::ParenClose) {
        let call = applied(goal, Vec::new(alloc));
        Ok(Some(PartNext::Goes(ending(alloc, call)?)))
    } else {
        read_first(alloc, Purpose::Argument(goal, Vec::new(alloc)), spot)
    }
}

fn return_step(alloc: Global, spot: TokenSpot) -> Result<Option<PartNext>, NoMemory>
    ensures { IfOk result (λ r. next_if r ≡ m.return_step expression.plain (token_of spot.entry)) }
{
    if spot.is_sign(Sign::Semicolon) {
        Ok(Some(ends(alloc, Simple::Return(None))?))
    } else {
        read_first(alloc, Purpose::Return, spot)
    }
}

fn set_assign(
    alloc: Global,
    x: Name,
    i: Expr,
    spot: TokenSpot,
) -> Result<Option<PartNext>, NoMemory>
    ensures { IfOk result (λ r. next_if r ≡ m.part_step expression.plain (m.SetAssign x (expression_of i)) (token_of spot.entry)) }
{
    if spot.is_sign(Sign::Assign) {
        Ok(Some(PartNext::Goes(read(alloc, Purpose::CellValue(x, i))?)))
    } else {
        Ok(None)
    }
}

fn end_step(s: Box<Simple>, spot: TokenSpot) -> Option<PartNext>
    ensures { next_if result ≡ m.part_step expression.plain (m.Ending (simple_of s.value)) (token_of spot.entry) }
{
    if spot.is_sign(Sign::Semicolon) {
        Some(PartNext::Ends(s))
    } else {
        None
    }
}

fn test_brace(test: Test, e: Expr, spot: TokenSpot) -> Option<PartNext>
    ensures { next_if result ≡ m.part_step expression.plain (m.TestBrace (test_of test) (expression_of e)) (token_of spot.entry) }
{
    if spot.is_sign(Sign::BraceOpen) {
        Some(PartNext::Opens(test, e))
    } else {
        None
    }
}

/// What is behind a token; `None` where it can't follow. An `Err` is want of memory.
pub fn part_step(alloc: Global, part: Part, spot: TokenSpot) -> Result<Option<PartNext>, NoMemory>
    ensures { IfOk result (λ r. next_if r ≡ m.part_step expression.plain (part_of part) (token_of spot.entry)) }
{
    match part {
        Part::LetName => let_name(alloc, spot),
        Part::LetAssign(x) => Ok(let_assign(x, spot)),
        Part::Started(x) => started(alloc, x, spot),
        Part::RightOf(target) => right_of(alloc, target, spot),
        Part::RightNamed(target, f) => right_named(alloc, target, f, spot),
        Part::SpawnName(target) => spawn_name(alloc, target, spot),
        Part::SpawnOpen(target, f) => Ok(spawn_open(target, f, spot)),
        Part::SyncName(sync) => sync_name(alloc, sync, spot),
        Part::TestOpen(test) => test_open(alloc, test, spot),
        Part::Arguments(goal) => arguments_step(alloc, goal, spot),
        Part::Returned => return_step(alloc, spot),
        Part::SetAssign(x, i) => set_assign(alloc, x, i, spot),
        Part::Reading(purpose, reader) => read_step(alloc, purpose, reader, spot),
        Part::Ending(s) => Ok(end_step(s, spot)),
        Part::TestBrace(test, e) => Ok(test_brace(test, e, spot)),
    }
}
