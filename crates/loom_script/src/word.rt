//! What the fields of a line say: numbers, names and texts of filters.
ghost use Rattle.std.specs.Prelude.{◌≡◌};
ghost use Rattle.std.specs.Str.{bytes_eq};
ghost use Rattle.std.specs.List.{list_all};
ghost use Rattle.loom_lexer.specs.Lexeme.{is_letter, is_digit, is_part};
ghost use Rattle.loom_script.specs.Words.{moment_from, has_leading_zero, moment_by, is_word, is_filter_name, without_blank_end, filter_text};

use crate::field::{from_dark, is_blank};

/// The greatest number of entries that a command can wait for.
const LATEST: u32 = 1_000_000;

/// How many bytes a filter's name has at most.
const LONGEST_NAME: usize = 32;

/// Whether the bytes are this word.
pub(crate) fn is(bytes: &[u8], word: &[u8]) -> bool
    ensures { result ≡ bytes_eq bytes.now word.now }
{
    bytes == word
}

fn is_letter(b: u8) -> bool
    ensures { result ≡ is_letter b }
{
    (b'a' <= b && b <= b'z') || (b'A' <= b && b <= b'Z') || b == b'_'
}

fn is_digit(b: u8) -> bool
    ensures { result ≡ is_digit b }
{
    b'0' <= b && b <= b'9'
}

fn is_part(b: u8) -> bool
    ensures { result ≡ is_part b }
{
    is_letter(b) || is_digit(b)
}

/// The number that the bytes are; zeros may lead. `None` where they are none, or one that is too large.
fn moment_from(digits: &[u8]) -> Option<u32>
    ensures { result ≡ moment_from 0 digits.now }
{
    let mut value: u32 = 0;
    'digits: for b in digits {
        if !is_digit(*b) {
            return None;
        }
        value = 10 * value + (*b - b'0') as u32;
        if value > LATEST {
            return None;
        }
    }
    Some(value)
}

/// Whether there is more than one byte, and the first is `0`.
fn has_leading_zero(digits: &[u8]) -> bool
    ensures { result ≡ has_leading_zero digits.now }
{
    match digits {
        [first, _, ..] => *first == b'0',
        _ => false,
    }
}

/// The number from 0 to 1,000,000 that the bytes are, without leading zeros; `None` where they are none.
pub(crate) fn moment(digits: &[u8]) -> Option<u32>
    ensures { result ≡ moment_by digits.now }
{
    if digits.is_empty() || has_leading_zero(digits) {
        None
    } else {
        moment_from(digits)
    }
}

/// Whether each byte may stand in a name.
fn are_parts(bytes: &[u8]) -> bool
    ensures { result ≡ list_all is_part bytes.now }
{
    'parts: for b in bytes {
        if !is_part(*b) {
            return false;
        }
    }
    true
}

/// Whether the bytes are letters, digits and `_`, with no digit first.
fn is_word(bytes: &[u8]) -> bool
    ensures { result ≡ is_word bytes.now }
{
    match bytes {
        [] => false,
        [first, others @ ..] => is_letter(*first) && are_parts(others),
    }
}

/// Whether the bytes are a filter's name; a word of the language is one too.
pub(crate) fn is_filter_name(name: &[u8]) -> bool
    ensures { result ≡ is_filter_name name.now }
{
    is_word(name) && name.len() <= LONGEST_NAME
}

/// The bytes without the blanks at their end.
fn without_blank_end(bytes: &[u8]) -> &[u8]
    ensures { result.now ≡ without_blank_end bytes.now }
{
    let mut end = bytes.len();
    'back: while end > 0 {
        if !is_blank(bytes[end - 1]) {
            return &bytes[..end];
        }
        end -= 1;
    }
    &bytes[..end]
}

/// The text of a filter: the rest of its line without the blanks at both ends.
pub(crate) fn filter_text(rest: &[u8]) -> &[u8]
    ensures { result.now ≡ filter_text rest.now }
{
    without_blank_end(from_dark(rest))
}
