//! The tokens and the lines of a text.
ghost use Rattle.std.specs.Prelude.{◌≡◌, ◌≤◌, ◌<◌, ◌+◌, ◌++◌, ◌^◌, length, map, All, IfOk};
ghost use Rattle.loom_tree.specs.Token.{line_token_of, IsSmall};
ghost use Rattle.loom_tree.specs.Token.{IsWithin};
ghost use Rattle.loom_lexer.specs.Tokens.{made, line_ends, AreTokens, last_line, OneListOfTokens, HaveTokens};

use crate::lexeme::scan;
use crate::token::kind_of;
use loom_tree::name::NoMemory;
use loom_tree::token::{Token, TokenKind};
use std::alloc::Global;
use std::marker::Model;

/// A list of tokens.
#[derive(Debug, Drop)]
pub struct Tokens(pub Vec<Token>);

impl Model for Tokens {
    ghost use Rattle.std.specs.Prelude.{List};
    ghost use Rattle.loom_tree.specs.declared.token.Token.{Token};

    ghost Value = { List Token };

    ghost view = { λ n. n.0.items };
}

fn line_ends(bytes: &[u8]) -> u32
    requires { length bytes.now < 2 ^ 32 }
    ensures { result ≡ line_ends bytes.now }
{
    let mut ends = 0;
    for b in bytes {
        if *b == b'\n' {
            ends += 1;
        }
    }
    ends
}

/// The line on which a text ends: 1, and 1 more for each LF.
pub fn last_line(bytes: &[u8]) -> u32
    requires { length bytes.now + 1 < 2 ^ 32 }
    ensures { result ≡ last_line bytes.now }
{
    1 + line_ends(bytes)
}

fn put(
    tokens: &mut Vec<Token>,
    kind: Option<TokenKind>,
    start: usize,
    end: usize,
    line: u32,
) -> Result<(), NoMemory>
    ensures { IfOk result (λ _. tokens.new.items ≡ tokens.old.items ++ made kind start end line) }
{
    if let Some(kind) = kind {
        tokens.push(Token {
            kind,
            start,
            end,
            line,
        })?;
    }
    Ok(())
}

/// The tokens of a text, in the order of the text. An `Err` is want of memory.
pub fn tokenize(alloc: Global, bytes: &[u8]) -> Result<Tokens, NoMemory>
    requires { length bytes.now + 1 < 2 ^ 32 }
    ensures tokens { IfOk result (λ ts. AreTokens bytes.now (map (line_token_of bytes.now) ts)) }
    ensures small { IfOk result (λ ts. All (λ t. IsSmall t.kind) ts) }
    ensures within { IfOk result (λ ts. All (IsWithin bytes.now) ts) }
{
    let mut tokens = Vec::new(alloc);
    let mut at = 0;
    let mut line = 1;
    'all: while at < bytes.len() {
        let span = scan(bytes, at);
        let text = &bytes[at..span.end];
        put(&mut tokens, kind_of(span.kind, text), at, span.end, line)?;
        line += line_ends(text);
        at = span.end;
    }
    Ok(Tokens(tokens))
}

/// The same bytes have one list of tokens.
pub fn one_list_of_tokens()
    ensures { OneListOfTokens }
{}

/// All bytes have tokens.
pub fn have_tokens()
    ensures { HaveTokens }
{}
