//! Statements and functions.

use crate::expression::{Expr, Exprs};
use crate::name::Name;
use std::marker::Model;

/// A list of names.
#[derive(Debug, Drop)]
pub struct Names(pub Vec<Name>);

impl Model for Names {
    ghost use Rattle.std.specs.Prelude.{List, ℕ};

    ghost Value = { List (List ℕ) };

    ghost view = { λ n. n.0.items };
}

/// What stands at the right of `=`.
#[derive(Debug, Drop)]
pub enum Right {
    /// An expression.
    Value(Expr),
    /// A call: the function and its arguments.
    Call(Name, Exprs),
    /// A new thread: its function and the arguments.
    Spawn(Name, Exprs),
}

/// A statement, and the line on which it begins.
#[cycle(statements)]
#[derive(Debug, Drop)]
pub struct Stmt {
    /// Its line, from 1.
    pub line: u32,
    /// What it does.
    pub kind: Kind,
}

/// What a statement does.
#[cycle(statements)]
#[derive(Debug, Drop)]
pub enum Kind {
    /// Declares a local, and writes to it.
    Let(Name, Right),
    /// A write to a local or a word.
    Set(Name, Right),
    /// A write to a cell: the array, the index and the value.
    SetCell(Name, Expr, Expr),
    /// A condition, what is done where it isn't 0, and what where it is.
    If(Expr, Stmts, Stmts),
    /// A condition, and what is done as long as it isn't 0.
    While(Expr, Stmts),
    /// A call whose result is dropped: the function and its arguments.
    Call(Name, Exprs),
    /// The end of the frame with a result, which is 0 where none is given.
    Return(Option<Expr>),
    /// `lock` of a mutex.
    Lock(Name),
    /// `unlock` of a mutex.
    Unlock(Name),
    /// `down` of a semaphore.
    Down(Name),
    /// `up` of a semaphore.
    Up(Name),
    /// A wait for the end of the thread of this number.
    Join(Expr),
    /// A value is printed.
    Print(Expr),
    /// Nothing.
    Skip,
}

/// A list of statements.
#[cycle(statements)]
#[derive(Debug)]
pub enum Stmts {
    /// No statement.
    End,
    /// A statement, and those behind it.
    More(Box<Stmt>, Box<Stmts>),
}

impl Drop for Stmts {
    #[cycle(drops)]
    fn drop(mut self) {
        loop {
            match self {
                Stmts::End => return,
                Stmts::More(_, rest) => self = Box::into_inner(rest),
            }
        }
    }
}

/// A function, and the line of its `fn`.
#[derive(Debug, Drop)]
pub struct Func {
    /// Its name.
    pub name: Name,
    /// Its line, from 1.
    pub line: u32,
    /// The names of its parameters, in their order.
    pub params: Names,
    /// Its statements.
    pub body: Stmts,
}
