//! The tokens of a filter's text.
ghost use Rattle.std.specs.Prelude.{◌≡◌, ◌≤◌, ◌<◌, ◌+◌, ◌^◌, true, false, if◌then◌else◌, length, drop, IfOk, IfSome};
ghost use Rattle.loom_lexer.specs.Lexeme.{is, is_part};
ghost use Rattle.loom_lexer.specs.Scan.{begins};
ghost use Rattle.loom_command.specs.FilterText.{is_blank};
ghost use Rattle.loom_filter.specs.Words.{begins_comment, closing, first_sign, place_behind, IsOneLine, HasNoComment};
ghost use Rattle.loom_filter.specs.Token as filter;
ghost use Rattle.loom_filter.specs.ReaderView.{token_of, IsSpot, TellsSpot, TellsTest};

use crate::word::{blanks_end, is_name, is_part, word_end};
use loom_expression::expression::{ExpressionError, read_expression};
use loom_lexer::text::tokenize;
use loom_tree::expression::Expr;
use loom_tree::name::{Name, NoMemory};
use std::alloc::Global;

/// A sign of the language of filters.
#[derive(Clone, Copy, Debug, Drop, PartialEq, Eq)]
pub enum FilterSign {
    /// `:`, between a file and a line.
    Colon,
    /// `,`, between events of a region.
    Comma,
    /// `;`, between clauses, and between what a region begins and ends with.
    Semicolon,
    /// `>`, between the steps of an order.
    Before,
    /// `<>`, between regions.
    Apart,
    /// `*`, all other code.
    All,
    /// `{`
    BraceOpen,
    /// `}`
    BraceClose,
    /// `()`, behind the name of a function.
    Call,
}

/// A token of a filter's text.
#[derive(Debug, Drop)]
pub enum FilterToken {
    /// A word that is a name of the language, of a function or of a file: its bytes.
    Name(Name),
    /// Another word, a file's name or a number: its bytes.
    Word(Name),
    /// A sign.
    Sign(FilterSign),
    /// An expression in parentheses.
    Test(Expr),
}

/// A token, and the place behind it.
#[derive(Debug, Drop)]
pub(crate) struct TokenSpot {
    /// The token.
    pub token: FilterToken,
    /// The place behind its last byte.
    pub end: usize,
}

/// The sign of one byte that this one is.
fn first_sign(b: u8) -> Option<FilterSign>
    ensures { result ≡ first_sign b }
{
    match b {
        b':' => Some(FilterSign::Colon),
        b',' => Some(FilterSign::Comma),
        b';' => Some(FilterSign::Semicolon),
        b'>' => Some(FilterSign::Before),
        b'*' => Some(FilterSign::All),
        b'{' => Some(FilterSign::BraceOpen),
        b'}' => Some(FilterSign::BraceClose),
        _ => None,
    }
}

/// The sign at a place where neither a blank, a word nor a parenthesis stands.
fn sign_at(bytes: &[u8], at: usize) -> Option<TokenSpot>
    requires within { at < length bytes.now }
    requires dark { begins is_blank (drop at bytes.now) ≡ false }
    requires no_word { begins is_part (drop at bytes.now) ≡ false }
    requires no_paren { begins (is 40) (drop at bytes.now) ≡ false }
    ensures spot { TellsSpot bytes.now at result }
    ensures within { IfSome result (λ x. x.end ≤ length bytes.now) }
{
    let next = at + 1;
    if bytes[at] == b'<' && next < bytes.len() && bytes[next] == b'>' {
        return Some(TokenSpot {
            token: FilterToken::Sign(FilterSign::Apart),
            end: next + 1,
        });
    }
    match first_sign(bytes[at]) {
        Some(sign) => Some(TokenSpot {
            token: FilterToken::Sign(sign),
            end: next,
        }),
        None => None,
    }
}

/// Whether a comment begins at a place.
fn is_comment(bytes: &[u8], at: usize) -> bool
    requires { at < length bytes.now }
    ensures { result ≡ begins_comment (drop at bytes.now) }
{
    let next = at + 1;
    bytes[at] == b'/' && next < bytes.len() && bytes[next] == b'/'
}

/// The place of the first `)` that closes nothing, where no LF and no comment stand before it.
fn test_end(bytes: &[u8], at: usize) -> Option<usize>
    requires { at ≤ length bytes.now }
    ensures { result ≡ place_behind at (closing 0 (drop at bytes.now)) }
{
    let mut depth: usize = 0;
    let mut end = at;
    'scan: while end < bytes.len() {
        let b = bytes[end];
        if b == b'\n' || is_comment(bytes, end) {
            return None;
        }
        if b == b')' {
            if depth == 0 {
                return Some(end);
            }
            depth -= 1;
        }
        if b == b'(' {
            depth += 1;
        }
        end += 1;
    }
    None
}

/// The expression that the bytes are, on one line and without a comment; `None` where they are none. An `Err` is want of memory.
fn read_test(alloc: Global, bytes: &[u8]) -> Result<Option<Expr>, NoMemory>
    requires small { length bytes.now + 1 < 2 ^ 32 }
    requires one_line { IsOneLine bytes.now }
    requires no_comment { HasNoComment bytes.now }
    ensures { IfOk result (TellsTest bytes.now) }
{
    let tokens = tokenize(alloc, bytes)?;
    match read_expression(alloc, bytes, &tokens.0) {
        Ok(e) => Ok(Some(e)),
        Err(ExpressionError::Syntax(_)) => Ok(None),
        Err(ExpressionError::NoMemory) => Err(NoMemory),
    }
}

/// What begins with the `(` at a place: `()`, or a test.
fn paren_at(alloc: Global, bytes: &[u8], at: usize) -> Result<Option<TokenSpot>, NoMemory>
    requires within { at < length bytes.now }
    requires small { length bytes.now + 1 < 2 ^ 32 }
    requires paren { begins (is 40) (drop at bytes.now) ≡ true }
    ensures spot { IfOk result (TellsSpot bytes.now at) }
    ensures within { IfOk result (λ r. IfSome r (λ x. x.end ≤ length bytes.now)) }
{
    let inside = at + 1;
    let close = blanks_end(bytes, inside);
    if close < bytes.len() && bytes[close] == b')' {
        return Ok(Some(TokenSpot {
            token: FilterToken::Sign(FilterSign::Call),
            end: close + 1,
        }));
    }
    match test_end(bytes, inside) {
        Some(end) => match read_test(alloc, &bytes[inside..end])? {
            Some(e) => Ok(Some(TokenSpot {
                token: FilterToken::Test(e),
                end: end + 1,
            })),
            None => Ok(None),
        },
        None => Ok(None),
    }
}

fn word_token(is_name: bool, word: Name) -> FilterToken
    ensures { token_of result ≡ (if is_name then filter.name word else filter.word word) }
{
    if is_name {
        FilterToken::Name(word)
    } else {
        FilterToken::Word(word)
    }
}

/// The word at a place.
fn word_at(alloc: Global, bytes: &[u8], at: usize) -> Result<TokenSpot, NoMemory>
    requires within { at < length bytes.now }
    requires small { length bytes.now + 1 < 2 ^ 32 }
    requires word { begins is_part (drop at bytes.now) ≡ true }
    ensures spot { IfOk result (λ x. IsSpot (drop at bytes.now) (drop x.end bytes.now) x.token) }
    ensures within { IfOk result (λ x. x.end ≤ length bytes.now) }
{
    let end = word_end(bytes, at + 1);
    let word = &bytes[at..end];
    let token = word_token(is_name(alloc, word)?, Name::copied(alloc, word)?);
    Ok(TokenSpot { token, end })
}

/// The token at a place where no blank stands; `None` where none begins there. An `Err` is want of memory.
pub(crate) fn scan(alloc: Global, bytes: &[u8], at: usize) -> Result<Option<TokenSpot>, NoMemory>
    requires within { at < length bytes.now }
    requires small { length bytes.now + 1 < 2 ^ 32 }
    requires dark { begins is_blank (drop at bytes.now) ≡ false }
    ensures spot { IfOk result (TellsSpot bytes.now at) }
    ensures within { IfOk result (λ r. IfSome r (λ x. x.end ≤ length bytes.now)) }
{
    if is_part(bytes[at]) {
        Ok(Some(word_at(alloc, bytes, at)?))
    } else if bytes[at] == b'(' {
        paren_at(alloc, bytes, at)
    } else {
        Ok(sign_at(bytes, at))
    }
}
