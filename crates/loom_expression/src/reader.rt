//! Reads an expression, token by token.
ghost use Rattle.std.specs.Prelude.{◌≡◌, ◌≤◌, [], ◌∷◌, length, IfOk, OnOk, Some};
ghost use Rattle.loom_tree.specs.Tree.{Expression, expression_of};
ghost use Rattle.loom_tree.specs.Token.{IsSmall, text_of, token_by};
ghost use Rattle.loom_expression.specs.ReaderView.{expression_if, prefix_of, phrase_of, reduced, size_of, stack_of, reader_if, reader_of};
ghost use Rattle.loom_expression.specs.Reader as m;

use crate::part::{Phrase, Prefix, Size, prec};
use loom_tree::expression::{Expr, Op};
use loom_tree::name::{Name, NoMemory};
use loom_tree::token::{Sign, Token, TokenKind};
use std::alloc::Global;

/// Where a reader stands in an expression.
#[derive(Debug, Drop)]
pub enum Reader {
    /// An operand must follow.
    Want(Size, Vec<Prefix>),
    /// A name was read, which may be that of a cell.
    Named(Name, Size, Vec<Prefix>),
    /// An operand was read.
    Have(Phrase),
}

fn bin(alloc: Global, op: Op, a: Expr, b: Expr) -> Result<Expr, NoMemory>
    ensures { IfOk result (λ e. expression_of e ≡ Expression.bin op (expression_of a) (expression_of b)) }
{
    Ok(Expr::Bin(op, Box::new(alloc, a)?, Box::new(alloc, b)?))
}

fn neg(alloc: Global, a: Expr) -> Result<Expr, NoMemory>
    ensures { IfOk result (λ e. expression_of e ≡ Expression.neg (expression_of a)) }
{
    Ok(Expr::Neg(Box::new(alloc, a)?))
}

fn inverse(alloc: Global, a: Expr) -> Result<Expr, NoMemory>
    ensures { IfOk result (λ e. expression_of e ≡ Expression.inverse (expression_of a)) }
{
    Ok(Expr::Not(Box::new(alloc, a)?))
}

fn cell(alloc: Global, name: Name, index: Expr) -> Result<Expr, NoMemory>
    ensures { IfOk result (λ e. expression_of e ≡ Expression.cell name (expression_of index)) }
{
    Ok(Expr::Cell(name, Box::new(alloc, index)?))
}

#[tactic(auto, using(crate::proofs::Stacks::stack_push))]
fn push(prefixes: &mut Vec<Prefix>, frame: Prefix) -> Result<(), NoMemory>
    ensures { OnOk result (stack_of prefixes.new.items ≡ prefix_of frame ∷ stack_of prefixes.old.items) }
{
    prefixes.push(frame)?;
    Ok(())
}

/// The operand takes the left ones of the operators before it that bind at least by the level.
#[tactic(auto, using(crate::proofs::Stacks::stack_push))]
fn reduce(alloc: Global, level: u8, operand: Phrase) -> Result<Phrase, NoMemory>
    ensures value { IfOk result (λ r. reduced level (phrase_of operand) ≡ phrase_of r) }
    ensures size { IfOk result (λ r. r.size ≡ operand.size) }
{
    let Phrase {
        mut value,
        size,
        mut prefixes,
    } = operand;
    'down: loop {
        match prefixes.pop() {
            Some(Prefix::Left(op, a)) => {
                if level <= prec(op) {
                    value = bin(alloc, op, a, value)?;
                } else {
                    push(&mut prefixes, Prefix::Left(op, a))?;
                    return Ok(Phrase::new(value, size, prefixes));
                }
            }
            Some(other) => {
                push(&mut prefixes, other)?;
                return Ok(Phrase::new(value, size, prefixes));
            }
            None => {
                return Ok(Phrase::new(value, size, prefixes));
            }
        }
    }
}

/// The operand takes the operators that stand before it.
#[tactic(auto, using(crate::proofs::Stacks::stack_push))]
fn have(alloc: Global, operand: Phrase) -> Result<Phrase, NoMemory>
    ensures { IfOk result (λ r. m.have m.plain (expression_of operand.value) (size_of operand.size) (stack_of operand.prefixes.items) ≡ phrase_of r) }
{
    let Phrase {
        mut value,
        mut size,
        mut prefixes,
    } = operand;
    'down: loop {
        match prefixes.pop() {
            Some(Prefix::Minus) => {
                value = neg(alloc, value)?;
                size = size.unsigned();
            }
            Some(Prefix::Bang) => {
                value = inverse(alloc, value)?;
                size = size.unsigned();
            }
            Some(other) => {
                push(&mut prefixes, other)?;
                return Ok(Phrase::new(value, size, prefixes));
            }
            None => {
                return Ok(Phrase::new(value, size, prefixes));
            }
        }
    }
}

/// An operator before an operand begins.
fn begin_unary(
    frame: Prefix,
    size: Size,
    mut prefixes: Vec<Prefix>,
) -> Result<Option<Reader>, NoMemory>
    ensures { IfOk result (λ r. reader_if r ≡ m.begin_unary (prefix_of frame) (size_of size) (stack_of prefixes.items)) }
{
    if size.may_sign() {
        push(&mut prefixes, frame)?;
        Ok(Some(Reader::Want(size.signed(), prefixes)))
    } else {
        Ok(None)
    }
}

/// A parenthesis begins.
fn begin_paren(size: Size, mut prefixes: Vec<Prefix>) -> Result<Option<Reader>, NoMemory>
    ensures { IfOk result (λ r. reader_if r ≡ m.begin_paren (size_of size) (stack_of prefixes.items)) }
{
    if size.may_nest() {
        push(&mut prefixes, Prefix::Open)?;
        Ok(Some(Reader::Want(size.opened(), prefixes)))
    } else {
        Ok(None)
    }
}

/// The index of a cell begins.
fn begin_index(
    name: Name,
    size: Size,
    mut prefixes: Vec<Prefix>,
) -> Result<Option<Reader>, NoMemory>
    ensures { IfOk result (λ r. reader_if r ≡ m.begin_index name (size_of size) (stack_of prefixes.items)) }
{
    if size.may_sign() {
        push(&mut prefixes, Prefix::Index(name))?;
        Ok(Some(Reader::Want(size.indexed(), prefixes)))
    } else {
        Ok(None)
    }
}

/// An operator where an operand must follow.
fn want_op(op: Op, size: Size, prefixes: Vec<Prefix>) -> Result<Option<Reader>, NoMemory>
    ensures { IfOk result (λ r. reader_if r ≡ m.want_op op (size_of size) (stack_of prefixes.items)) }
{
    match op {
        Op::Sub => begin_unary(Prefix::Minus, size, prefixes),
        _ => Ok(None),
    }
}

/// A sign where an operand must follow.
fn want_sign(sign: Sign, size: Size, prefixes: Vec<Prefix>) -> Result<Option<Reader>, NoMemory>
    ensures { IfOk result (λ r. reader_if r ≡ m.want_sign sign (size_of size) (stack_of prefixes.items)) }
{
    match sign {
        Sign::Bang => begin_unary(Prefix::Bang, size, prefixes),
        Sign::ParenOpen => begin_paren(size, prefixes),
        _ => Ok(None),
    }
}

/// An operator behind an operand.
fn have_op(alloc: Global, op: Op, operand: Phrase) -> Result<Option<Reader>, NoMemory>
    ensures { IfOk result (λ r. reader_if r ≡ m.have_op m.plain op (phrase_of operand)) }
{
    if operand.size.may_join() {
        let Phrase {
            value,
            size,
            mut prefixes,
        } = reduce(alloc, prec(op), operand)?;
        push(&mut prefixes, Prefix::Left(op, value))?;
        Ok(Some(Reader::Want(size.joined(), prefixes)))
    } else {
        Ok(None)
    }
}

#[tactic(auto, using(crate::proofs::Stacks::stack_push))]
fn close_paren(alloc: Global, operand: Phrase) -> Result<Option<Reader>, NoMemory>
    ensures { IfOk result (λ r. reader_if r ≡ m.close_paren m.plain (phrase_of operand)) }
{
    let Phrase {
        value,
        size,
        mut prefixes,
    } = operand;
    match prefixes.pop() {
        Some(Prefix::Open) => {
            let whole = Phrase::new(value, size.closed(), prefixes);
            Ok(Some(Reader::Have(have(alloc, whole)?)))
        }
        _ => Ok(None),
    }
}

#[tactic(auto, using(crate::proofs::Stacks::stack_push))]
fn close_bracket(alloc: Global, operand: Phrase) -> Result<Option<Reader>, NoMemory>
    ensures { IfOk result (λ r. reader_if r ≡ m.close_bracket m.plain (phrase_of operand)) }
{
    let Phrase {
        value,
        size,
        mut prefixes,
    } = operand;
    match prefixes.pop() {
        Some(Prefix::Index(name)) => {
            let whole = Phrase::new(cell(alloc, name, value)?, size.closed(), prefixes);
            Ok(Some(Reader::Have(have(alloc, whole)?)))
        }
        _ => Ok(None),
    }
}

/// A sign behind an operand.
fn have_sign(alloc: Global, sign: Sign, operand: Phrase) -> Result<Option<Reader>, NoMemory>
    ensures { IfOk result (λ r. reader_if r ≡ m.have_sign m.plain sign (phrase_of operand)) }
{
    match sign {
        Sign::ParenClose => close_paren(alloc, reduce(alloc, 0, operand)?),
        Sign::BracketClose => close_bracket(alloc, reduce(alloc, 0, operand)?),
        _ => Ok(None),
    }
}

/// The name of a local or a word is an operand.
fn named(alloc: Global, name: Name, size: Size, prefixes: Vec<Prefix>) -> Result<Phrase, NoMemory>
    ensures { IfOk result (λ r. m.have m.plain (Expression.var name) (size_of size) (stack_of prefixes.items) ≡ phrase_of r) }
{
    have(alloc, Phrase::new(Expr::Var(name), size, prefixes))
}

/// A sign behind a name.
fn named_sign(
    alloc: Global,
    sign: Sign,
    name: Name,
    size: Size,
    prefixes: Vec<Prefix>,
) -> Result<Option<Reader>, NoMemory>
    ensures { IfOk result (λ r. reader_if r ≡ m.named_sign m.plain sign name (size_of size) (stack_of prefixes.items)) }
{
    match sign {
        Sign::BracketOpen => begin_index(name, size, prefixes),
        _ => have_sign(alloc, sign, named(alloc, name, size, prefixes)?),
    }
}

/// A token where an operand must follow.
fn want(
    alloc: Global,
    size: Size,
    prefixes: Vec<Prefix>,
    bytes: &[u8],
    token: Token,
) -> Result<Option<Reader>, NoMemory>
    requires small { IsSmall token.kind }
    requires ordered { token.start ≤ token.end }
    requires within { token.end ≤ length bytes.now }
    ensures { IfOk result (λ r. reader_if r ≡ m.feed m.plain (m.Want (size_of size) (stack_of prefixes.items)) (token_by token.kind (text_of bytes.now token))) }
{
    match token.kind {
        TokenKind::Name => {
            let name = Name::copied(alloc, &bytes[token.start..token.end])?;
            Ok(Some(Reader::Named(name, size, prefixes)))
        }
        TokenKind::Number(n) => {
            let whole = Phrase::new(Expr::Num(n as i64), size, prefixes);
            Ok(Some(Reader::Have(have(alloc, whole)?)))
        }
        TokenKind::Keyword(_) => Ok(None),
        TokenKind::Op(op) => want_op(op, size, prefixes),
        TokenKind::Sign(sign) => want_sign(sign, size, prefixes),
        TokenKind::Bad => Ok(None),
    }
}

impl Reader {
    /// A reader that has read nothing.
    pub fn new(alloc: Global) -> Reader
        ensures { reader_of result ≡ m.fresh }
    {
        Reader::Want(Size::new(), Vec::new(alloc))
    }

    /// Takes a token of a text with these bytes. `None` says that no expression begins with what was read and this
    /// token. An `Err` is want of memory.
    pub fn feed(self, alloc: Global, bytes: &[u8], token: Token) -> Result<Option<Reader>, NoMemory>
        requires small { IsSmall token.kind }
        requires ordered { token.start ≤ token.end }
        requires within { token.end ≤ length bytes.now }
        ensures { IfOk result (λ r. reader_if r ≡ m.feed m.plain (reader_of self) (token_by token.kind (text_of bytes.now token))) }
    {
        match self {
            Reader::Want(size, prefixes) => want(alloc, size, prefixes, bytes, token),
            Reader::Named(name, size, prefixes) => match token.kind {
                TokenKind::Name => Ok(None),
                TokenKind::Number(_) => Ok(None),
                TokenKind::Keyword(_) => Ok(None),
                TokenKind::Op(op) => have_op(alloc, op, named(alloc, name, size, prefixes)?),
                TokenKind::Sign(sign) => named_sign(alloc, sign, name, size, prefixes),
                TokenKind::Bad => Ok(None),
            },
            Reader::Have(operand) => match token.kind {
                TokenKind::Name => Ok(None),
                TokenKind::Number(_) => Ok(None),
                TokenKind::Keyword(_) => Ok(None),
                TokenKind::Op(op) => have_op(alloc, op, operand),
                TokenKind::Sign(sign) => have_sign(alloc, sign, operand),
                TokenKind::Bad => Ok(None),
            },
        }
    }

    /// Whether an expression may end here: an operand was read, and no parenthesis and no bracket is open.
    pub fn is_whole(&self) -> bool
        ensures { result ≡ m.is_whole (reader_of self.now) }
    {
        match self {
            Reader::Want(_, _) => false,
            Reader::Named(_, size, _) => size.brackets == 0,
            Reader::Have(operand) => operand.size.brackets == 0,
        }
    }

    /// The expression that was read. `None` says that the tokens are no whole expression. An `Err` is want of memory.
    pub fn finish(self, alloc: Global) -> Result<Option<Expr>, NoMemory>
        ensures { IfOk result (λ e. expression_if e ≡ m.finish m.plain (reader_of self)) }
    {
        match self {
            Reader::Want(_, _) => Ok(None),
            Reader::Named(name, size, prefixes) => {
                finish_operand(alloc, named(alloc, name, size, prefixes)?)
            }
            Reader::Have(operand) => finish_operand(alloc, operand),
        }
    }
}

/// The expression, where nothing is left that was begun before it.
#[tactic(auto, using(crate::proofs::Stacks::stack_push))]
fn finish_operand(alloc: Global, operand: Phrase) -> Result<Option<Expr>, NoMemory>
    ensures { IfOk result (λ e. expression_if e ≡ m.finish_operand m.plain (phrase_of operand)) }
{
    let Phrase {
        value,
        size: _,
        mut prefixes,
    } = reduce(alloc, 0, operand)?;
    match prefixes.pop() {
        None => Ok(Some(value)),
        Some(_) => Ok(None),
    }
}
