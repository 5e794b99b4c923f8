//! Reads declarations, and functions up to their block.
ghost use Rattle.std.specs.Prelude.{◌≡◌, IfOk, if◌then◌else◌, Some, None};
ghost use Rattle.loom_syntax.specs.TokenView.{token_of};
ghost use Rattle.loom_syntax.specs.HeadView.{head_if, head_of, next_if, next_of};
ghost use Rattle.loom_syntax.specs.Head as m;

use crate::token::{Number, TokenSpot};
use loom_tree::name::{Name, NoMemory};
use loom_tree::token::{Keyword, Sign};
use std::alloc::Global;

/// The greatest value of a semaphore, as its first one and in a run.
pub const SEMA_LIMIT: u64 = 2147483647;

/// The first value of a word.
#[derive(Drop)]
pub enum InitialValue {
    /// None is given.
    None,
    /// A number.
    Plus(Number),
    /// A number behind `-`.
    Minus(Number),
}

/// An item without a block.
#[derive(Drop)]
pub enum Declaration {
    /// A word.
    Word(Name, InitialValue),
    /// An array, and how many cells it has.
    Array(Name, u64),
    /// A mutex.
    Mutex(Name),
    /// A semaphore, and its first value where one is given.
    Sema(Name, Option<u32>),
}

/// What was read of an item, named by what must follow.
#[derive(Drop)]
pub enum Head {
    /// The name behind `shared`.
    SharedName,
    /// `;`, `=` or `[` behind the name of a word or an array.
    SharedNamed(Name),
    /// `-` or a number behind `=`.
    SharedValue(Name),
    /// A number behind `-`.
    SharedMinus(Name),
    /// A number behind `[`.
    SharedCells(Name),
    /// `]` behind the number of cells.
    SharedClose(Name, u64),
    /// The name behind `mutex`.
    MutexName,
    /// The name behind `sema`.
    SemaName,
    /// `;` or `=` behind the name of a semaphore.
    SemaNamed(Name),
    /// A number behind `=`.
    SemaValue(Name),
    /// The `;` of a declaration.
    Ending(Declaration),
    /// The name behind `fn`.
    FnName,
    /// `(` behind the name of a function.
    FnOpen(Name),
    /// The first parameter, or `)`.
    FnFirst(Name),
    /// A parameter behind a comma.
    FnParam(Name, Vec<Name>),
    /// A comma or `)` behind a parameter.
    FnNext(Name, Vec<Name>),
    /// `{` behind the parameters.
    FnBrace(Name, Vec<Name>),
}

/// How an item goes on behind a token.
#[derive(Drop)]
pub enum HeadNext {
    /// It goes on, in this state.
    Goes(Head),
    /// It was a declaration.
    Declares(Declaration),
    /// The block of a function with this name and these parameters begins.
    Begins(Name, Vec<Name>),
}

/// The first token of an item; `None` where no item begins with it.
pub fn begin_item(spot: TokenSpot) -> Option<Head>
    ensures { head_if result ≡ m.begin_item (token_of spot.entry) }
{
    if spot.is_keyword(Keyword::Shared) {
        Some(Head::SharedName)
    } else if spot.is_keyword(Keyword::Mutex) {
        Some(Head::MutexName)
    } else if spot.is_keyword(Keyword::Sema) {
        Some(Head::SemaName)
    } else if spot.is_keyword(Keyword::Fn) {
        Some(Head::FnName)
    } else {
        None
    }
}

/// What is next, where the token is the one that must follow.
fn next_where(follows: bool, next: HeadNext) -> Option<HeadNext>
    ensures { next_if result ≡ (if follows then Some (next_of next) else None) }
{
    if follows { Some(next) } else { None }
}

fn shared_name(alloc: Global, spot: TokenSpot) -> Result<Option<HeadNext>, NoMemory>
    ensures { IfOk result (λ r. next_if r ≡ m.head_step m.SharedName (token_of spot.entry)) }
{
    match spot.name(alloc)? {
        Some(x) => Ok(Some(HeadNext::Goes(Head::SharedNamed(x)))),
        None => Ok(None),
    }
}

fn shared_named(x: Name, spot: TokenSpot) -> Option<HeadNext>
    ensures { next_if result ≡ m.shared_named x (token_of spot.entry) }
{
    if spot.is_sign(Sign::Semicolon) {
        Some(HeadNext::Declares(Declaration::Word(x, InitialValue::None)))
    } else if spot.is_sign(Sign::Assign) {
        Some(HeadNext::Goes(Head::SharedValue(x)))
    } else if spot.is_sign(Sign::BracketOpen) {
        Some(HeadNext::Goes(Head::SharedCells(x)))
    } else {
        None
    }
}

fn shared_value(x: Name, spot: TokenSpot) -> Option<HeadNext>
    ensures { next_if result ≡ m.shared_value x (token_of spot.entry) }
{
    if spot.is_minus() {
        return Some(HeadNext::Goes(Head::SharedMinus(x)));
    }
    match spot.number() {
        Some(n) => Some(HeadNext::Goes(Head::Ending(Declaration::Word(x, InitialValue::Plus(n))))),
        None => None,
    }
}

fn shared_minus(x: Name, spot: TokenSpot) -> Option<HeadNext>
    ensures { next_if result ≡ m.head_step (m.SharedMinus x) (token_of spot.entry) }
{
    match spot.number() {
        Some(n) => Some(HeadNext::Goes(Head::Ending(Declaration::Word(x, InitialValue::Minus(n))))),
        None => None,
    }
}

fn shared_cells(x: Name, spot: TokenSpot) -> Option<HeadNext>
    ensures { next_if result ≡ m.head_step (m.SharedCells x) (token_of spot.entry) }
{
    match spot.number() {
        Some(n) => Some(HeadNext::Goes(Head::SharedClose(x, n.value))),
        None => None,
    }
}

fn mutex_name(alloc: Global, spot: TokenSpot) -> Result<Option<HeadNext>, NoMemory>
    ensures { IfOk result (λ r. next_if r ≡ m.head_step m.MutexName (token_of spot.entry)) }
{
    match spot.name(alloc)? {
        Some(x) => Ok(Some(HeadNext::Goes(Head::Ending(Declaration::Mutex(x))))),
        None => Ok(None),
    }
}

fn sema_name(alloc: Global, spot: TokenSpot) -> Result<Option<HeadNext>, NoMemory>
    ensures { IfOk result (λ r. next_if r ≡ m.head_step m.SemaName (token_of spot.entry)) }
{
    match spot.name(alloc)? {
        Some(x) => Ok(Some(HeadNext::Goes(Head::SemaNamed(x)))),
        None => Ok(None),
    }
}

fn sema_named(x: Name, spot: TokenSpot) -> Option<HeadNext>
    ensures { next_if result ≡ m.sema_named x (token_of spot.entry) }
{
    if spot.is_sign(Sign::Semicolon) {
        Some(HeadNext::Declares(Declaration::Sema(x, None)))
    } else if spot.is_sign(Sign::Assign) {
        Some(HeadNext::Goes(Head::SemaValue(x)))
    } else {
        None
    }
}

fn sema_value(x: Name, spot: TokenSpot) -> Option<HeadNext>
    ensures { next_if result ≡ m.head_step (m.SemaValue x) (token_of spot.entry) }
{
    let n = spot.number()?.value;
    if n <= SEMA_LIMIT {
        Some(HeadNext::Goes(Head::Ending(Declaration::Sema(x, Some(n as u32)))))
    } else {
        None
    }
}

fn function_name(alloc: Global, spot: TokenSpot) -> Result<Option<HeadNext>, NoMemory>
    ensures { IfOk result (λ r. next_if r ≡ m.head_step m.FnName (token_of spot.entry)) }
{
    match spot.name(alloc)? {
        Some(f) => Ok(Some(HeadNext::Goes(Head::FnOpen(f)))),
        None => Ok(None),
    }
}

fn function_first(alloc: Global, f: Name, spot: TokenSpot) -> Result<Option<HeadNext>, NoMemory>
    ensures { IfOk result (λ r. next_if r ≡ m.function_first f (token_of spot.entry)) }
{
    if spot.is_sign(Sign::ParenClose) {
        Ok(Some(HeadNext::Goes(Head::FnBrace(f, Vec::new(alloc)))))
    } else {
        function_param(alloc, f, Vec::new(alloc), spot)
    }
}

fn function_param(
    alloc: Global,
    f: Name,
    mut params: Vec<Name>,
    spot: TokenSpot,
) -> Result<Option<HeadNext>, NoMemory>
    ensures { IfOk result (λ r. next_if r ≡ m.head_step (m.FnParam f params.items) (token_of spot.entry)) }
{
    match spot.name(alloc)? {
        Some(x) => {
            params.push(x)?;
            Ok(Some(HeadNext::Goes(Head::FnNext(f, params))))
        }
        None => Ok(None),
    }
}

fn function_next(f: Name, params: Vec<Name>, spot: TokenSpot) -> Option<HeadNext>
    ensures { next_if result ≡ m.function_next f params.items (token_of spot.entry) }
{
    if spot.is_sign(Sign::Comma) {
        Some(HeadNext::Goes(Head::FnParam(f, params)))
    } else if spot.is_sign(Sign::ParenClose) {
        Some(HeadNext::Goes(Head::FnBrace(f, params)))
    } else {
        None
    }
}

/// What is behind a token; `None` where it can't follow. An `Err` is want of memory.
pub fn head_step(alloc: Global, head: Head, spot: TokenSpot) -> Result<Option<HeadNext>, NoMemory>
    ensures { IfOk result (λ r. next_if r ≡ m.head_step (head_of head) (token_of spot.entry)) }
{
    Ok(match head {
        Head::SharedName => shared_name(alloc, spot)?,
        Head::SharedNamed(x) => shared_named(x, spot),
        Head::SharedValue(x) => shared_value(x, spot),
        Head::SharedMinus(x) => shared_minus(x, spot),
        Head::SharedCells(x) => shared_cells(x, spot),
        Head::SharedClose(x, n) => {
            let array = Declaration::Array(x, n);
            next_where(
                spot.is_sign(Sign::BracketClose),
                HeadNext::Goes(Head::Ending(array)),
            )
        }
        Head::MutexName => mutex_name(alloc, spot)?,
        Head::SemaName => sema_name(alloc, spot)?,
        Head::SemaNamed(x) => sema_named(x, spot),
        Head::SemaValue(x) => sema_value(x, spot),
        Head::Ending(d) => next_where(spot.is_sign(Sign::Semicolon), HeadNext::Declares(d)),
        Head::FnName => function_name(alloc, spot)?,
        Head::FnOpen(f) => {
            next_where(
                spot.is_sign(Sign::ParenOpen),
                HeadNext::Goes(Head::FnFirst(f)),
            )
        }
        Head::FnFirst(f) => function_first(alloc, f, spot)?,
        Head::FnParam(f, params) => function_param(alloc, f, params, spot)?,
        Head::FnNext(f, params) => function_next(f, params, spot),
        Head::FnBrace(f, params) => {
            next_where(spot.is_sign(Sign::BraceOpen), HeadNext::Begins(f, params))
        }
    })
}
