//! Tokens in their text.
ghost use Rattle.std.specs.Prelude.{◌≡◌, ◌≤◌, ◌<◌, ◌^◌, length, IfOk};
ghost use Rattle.loom_tree.specs.Token.{IsSmall};
ghost use Rattle.loom_syntax.specs.Small.{IsSmall-prop};

use loom_tree::expression::Op;
use loom_tree::name::{Name, NoMemory};
use loom_tree::token::{Keyword, Sign, Token, TokenKind};
use std::alloc::Global;

/// A number, from 0 to 9223372036854775807.
#[derive(Clone, Copy, Debug, Drop)]
pub struct Number {
    /// The number.
    pub value: u64,
    ghost small: { value < 2 ^ 63 },
}

/// A token, and the bytes of its text.
#[derive(Clone, Copy, Drop)]
pub struct TokenSpot<'a> {
    /// The bytes of the text.
    pub bytes: &'a [u8],
    /// The token, with its places in them.
    pub token: Token,
    ghost small: { IsSmall token.kind } by { IsSmall-prop token.kind },
    ghost ordered: { token.start ≤ token.end },
    ghost within: { token.end ≤ length bytes.now },
}

impl<'a> TokenSpot<'a> {
    ghost use Rattle.loom_tree.specs.Token.{line_token_of};
    ghost use Rattle.loom_tree.specs.Token.{IsWithin};
    ghost use Rattle.loom_syntax.specs.Tests.{is_keyword, is_minus, is_sign, name_of, number_of};
    ghost use Rattle.loom_syntax.specs.TokenView.{number_if, spot_of, token_of};

    /// A token whose places lie within the text with these bytes.
    pub fn new(bytes: &'a [u8], token: Token) -> TokenSpot<'a>
        requires small { IsSmall token.kind }
        requires within { IsWithin bytes.now token }
        ensures { spot_of result ≡ line_token_of bytes.now token }
    {
        TokenSpot { bytes, token }
    }

    /// Whether it is this keyword.
    pub fn is_keyword(self, keyword: Keyword) -> bool
        ensures { result ≡ is_keyword keyword (token_of self.entry) }
    {
        match self.token.kind {
            TokenKind::Keyword(k) => k as u8 == keyword as u8,
            _ => false,
        }
    }

    /// Whether it is this sign.
    pub fn is_sign(self, sign: Sign) -> bool
        ensures { result ≡ is_sign sign (token_of self.entry) }
    {
        match self.token.kind {
            TokenKind::Sign(s) => s as u8 == sign as u8,
            _ => false,
        }
    }

    /// Whether it is `-`.
    pub fn is_minus(self) -> bool
        ensures { result ≡ is_minus (token_of self.entry) }
    {
        match self.token.kind {
            TokenKind::Op(Op::Sub) => true,
            _ => false,
        }
    }

    /// The name that it is; `None` where it is none. An `Err` is want of memory.
    pub fn name(self, alloc: Global) -> Result<Option<Name>, NoMemory>
        ensures { IfOk result (λ x. x ≡ name_of (token_of self.entry)) }
    {
        match self.token.kind {
            TokenKind::Name => Ok(Some(Name::copied(
                alloc,
                &self.bytes[self.token.start..self.token.end],
            )?)),
            _ => Ok(None),
        }
    }

    /// The number that it is; `None` where it is none.
    pub fn number(self) -> Option<Number>
        ensures { number_if result ≡ number_of (token_of self.entry) }
    {
        match self.token.kind {
            TokenKind::Number(value) => Some(Number { value }),
            _ => None,
        }
    }
}
