//! The token at which no program goes on.

use crate::plain::Plain;
use loom_tree::token::{Keyword, Sign, Token, TokenKind};
use std::fmt;

/// A token of a file behind which no program can follow.
#[derive(Clone, Copy)]
pub struct TokenFault<'a> {
    kind: TokenKind,
    text: &'a [u8],
    // of its first byte in its line, from 1
    column: usize,
}

// The bytes of a token. Of a character with which nothing begins the token is the first byte alone, and these are all.
fn text_of(file: &[u8], token: Token) -> &[u8] {
    let mut end = token.end;
    if token.kind == TokenKind::Bad {
        for _ in 0..3 {
            if file.get(end).is_some_and(|b| *b & 0xc0 == 0x80) {
                end = end.saturating_add(1);
            }
        }
    }
    match file.get(token.start..end) {
        Some(text) => text,
        None => b"",
    }
}

// The column of the byte at that place: 1 for the first one of a line.
fn column_of(file: &[u8], at: usize) -> usize {
    let mut column = 1usize;
    if let Some(before) = file.get(..at) {
        for b in before {
            column = if *b == b'\n' {
                1
            } else {
                column.saturating_add(1)
            };
        }
    }
    column
}

// Whether it begins with a digit.
fn is_number(text: &[u8]) -> bool {
    match text {
        [] => false,
        [first, ..] => first.is_ascii_digit(),
    }
}

// Whether a limit of the grammar may be the reason: each of them is looked at where one of these tokens comes.
fn may_pass_limit(kind: TokenKind) -> bool {
    match kind {
        TokenKind::Name => true,
        TokenKind::Number(_) => true,
        TokenKind::Op(_) => true,
        TokenKind::Keyword(word) => word == Keyword::If || word == Keyword::While,
        TokenKind::Sign(sign) => {
            sign == Sign::ParenOpen || sign == Sign::BracketOpen || sign == Sign::Bang
        }
        TokenKind::Bad => false,
    }
}

// What may be wrong.
fn hint_of(kind: TokenKind) -> &'static str {
    if may_pass_limit(kind) {
        "something may be missing before it, or a number, an expression or a nesting is beyond its limit (docs/LANGUAGE.md, Limits)"
    } else {
        "something may be missing before it"
    }
}

impl<'a> TokenFault<'a> {
    /// That of this token.
    pub fn new(file: &'a [u8], token: Token) -> TokenFault<'a> {
        TokenFault {
            kind: token.kind,
            text: text_of(file, token),
            column: column_of(file, token.start),
        }
    }
}

impl fmt::Display for TokenFault<'_> {
    fn fmt<W: fmt::Write>(&self, f: &mut fmt::Formatter<W>) -> fmt::Result {
        let text = Plain(self.text);
        let column = self.column;
        let hint = hint_of(self.kind);
        match self.kind {
            TokenKind::Bad if is_number(self.text) => write!(
                f,
                "the number {text} at column {column} is too large: numbers go up to 9223372036854775807"
            ),
            TokenKind::Bad => write!(
                f,
                "\"{text}\" at column {column} is no sign of the language"
            ),
            TokenKind::Keyword(_) => write!(
                f,
                "the keyword \"{text}\" at column {column} can't stand here: {hint}"
            ),
            _ => write!(f, "\"{text}\" at column {column} can't stand here: {hint}"),
        }
    }
}
