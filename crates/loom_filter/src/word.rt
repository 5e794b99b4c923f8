//! The words of a filter's text: names of files, names of functions, numbers.
ghost use Rattle.std.specs.Prelude.{◌≡◌, ◌≤◌, ◌+◌, ◌<◌, ◌^◌, length, drop, IfOk};
ghost use Rattle.loom_lexer.specs.Lexeme.{is_digit, is_part};
ghost use Rattle.loom_lexer.specs.Scan.{run_len};
ghost use Rattle.loom_command.specs.FilterForm.{is_file_part};
ghost use Rattle.loom_command.specs.FilterText.{is_blank};
ghost use Rattle.loom_filter.specs.Words.{is_name, number_by};

use loom_lexer::text::tokenize;
use loom_tree::name::NoMemory;
use loom_tree::token::TokenKind;
use std::alloc::Global;

/// The largest line and the largest count.
const FILTER_NUMBER_LIMIT: u32 = 1000000;

pub(crate) fn is_blank(b: u8) -> bool
    ensures { result ≡ is_blank b }
{
    b == b' ' || b == b'\t'
}

pub(crate) fn is_digit(b: u8) -> bool
    ensures { result ≡ is_digit b }
{
    b'0' <= b && b <= b'9'
}

/// Whether a word may begin with the byte.
pub(crate) fn is_part(b: u8) -> bool
    ensures { result ≡ is_part b }
{
    (b'a' <= b && b <= b'z') || (b'A' <= b && b <= b'Z') || b == b'_' || is_digit(b)
}

/// Whether a word may go on with the byte.
fn is_file_part(b: u8) -> bool
    ensures { result ≡ is_file_part b }
{
    is_part(b) || b == b'.' || b == b'-'
}

/// The place behind the blanks at a place.
pub(crate) fn blanks_end(bytes: &[u8], at: usize) -> usize
    requires { at ≤ length bytes.now }
    ensures value { result ≡ at + run_len is_blank (drop at bytes.now) }
    ensures within { result ≤ length bytes.now }
{
    let mut end = at;
    'run: while end < bytes.len() && is_blank(bytes[end]) {
        end += 1;
    }
    end
}

/// The place behind the word that goes on at a place.
pub(crate) fn word_end(bytes: &[u8], at: usize) -> usize
    requires { at ≤ length bytes.now }
    ensures value { result ≡ at + run_len is_file_part (drop at bytes.now) }
    ensures within { result ≤ length bytes.now }
{
    let mut end = at;
    'run: while end < bytes.len() && is_file_part(bytes[end]) {
        end += 1;
    }
    end
}

/// Whether a word is a name of the language. An `Err` is want of memory.
pub(crate) fn is_name(alloc: Global, word: &[u8]) -> Result<bool, NoMemory>
    requires { length word.now + 1 < 2 ^ 32 }
    ensures { IfOk result (λ answer. answer ≡ is_name word.now) }
{
    let tokens = tokenize(alloc, word)?;
    match tokens.0.as_slice() {
        [token] => match token.kind {
            TokenKind::Name => Ok(token.end - token.start == word.len()),
            _ => Ok(false),
        },
        _ => Ok(false),
    }
}

/// The number from 1 to 1,000,000 that a word is; `None` where it is none.
pub(crate) fn number(word: &[u8]) -> Option<u32>
    ensures { result ≡ number_by word.now }
{
    let mut value: u32 = 0;
    'digits: for b in word {
        if !is_digit(*b) {
            return None;
        }
        value = 10 * value + (*b - b'0') as u32;
        if value > FILTER_NUMBER_LIMIT {
            return None;
        }
    }
    if value == 0 { None } else { Some(value) }
}
