//! Tokens.

use crate::expression::Op;

/// A word that is no name.
#[derive(Clone, Copy, Debug, Drop, PartialEq, Eq)]
pub enum Keyword {
    /// `shared`
    Shared,
    /// `mutex`
    Mutex,
    /// `sema`
    Sema,
    /// `fn`
    Fn,
    /// `let`
    Let,
    /// `if`
    If,
    /// `else`
    Else,
    /// `while`
    While,
    /// `return`
    Return,
    /// `lock`
    Lock,
    /// `unlock`
    Unlock,
    /// `down`
    Down,
    /// `up`
    Up,
    /// `spawn`
    Spawn,
    /// `join`
    Join,
    /// `print`
    Print,
    /// `skip`
    Skip,
}

/// A sign that stands between no two operands.
#[derive(Clone, Copy, Debug, Drop, PartialEq, Eq)]
pub enum Sign {
    /// `(`
    ParenOpen,
    /// `)`
    ParenClose,
    /// `{`
    BraceOpen,
    /// `}`
    BraceClose,
    /// `[`
    BracketOpen,
    /// `]`
    BracketClose,
    /// `,`
    Comma,
    /// `;`
    Semicolon,
    /// `=`
    Assign,
    /// `!`
    Bang,
}

/// What a token is.
#[derive(Clone, Copy, Debug, Drop, PartialEq, Eq)]
pub enum TokenKind {
    /// A name: the bytes of the token.
    Name,
    /// A number, from 0 to 9223372036854775807.
    Number(u64),
    /// A word of the language.
    Keyword(Keyword),
    /// An operator between operands; `-` stands before one, too.
    Op(Op),
    /// Another sign.
    Sign(Sign),
    /// A byte, or a number too large, with which nothing begins.
    Bad,
}

/// A token of a text, by the places of its bytes, and the line on which it begins.
#[derive(Clone, Copy, Debug, Drop, PartialEq, Eq)]
pub struct Token {
    /// What it is.
    pub kind: TokenKind,
    /// The place of its first byte.
    pub start: usize,
    /// The place behind its last byte.
    pub end: usize,
    /// From 1.
    pub line: u32,
}
