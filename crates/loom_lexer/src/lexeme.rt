//! The lexemes of a text: its tokens, its white space and its comments.
ghost use Rattle.std.specs.Prelude.{◌≡◌, ◌≤◌, ◌<◌, ◌+◌, length, drop};
ghost use Rattle.loom_lexer.specs.Lexeme.{is, is_letter, is_digit, is_white, is_part, is_inside_comment, is_single, is_comparison, class_of};
ghost use Rattle.loom_lexer.specs.Scan.{begins, run_len, kind_at, len_at};

/// A byte by what may begin with it.
#[derive(Clone, Copy, Debug, Drop)]
pub enum Class {
    /// A letter or `_`.
    Letter,
    /// A digit.
    Digit,
    /// A space, a tab, a CR or an LF.
    White,
    /// A sign with which no longer one begins.
    Single,
    /// A sign, and one more with `=` behind it.
    Comparison,
    /// `&`, which begins `&&`.
    Ampersand,
    /// `|`, which begins `||`.
    Bar,
    /// `/`, a sign, which begins a comment too.
    Slash,
    /// A byte with which nothing begins.
    Other,
}

/// What a lexeme is.
#[derive(Clone, Copy, Debug, Drop)]
pub enum LexemeKind {
    /// A space, a tab, a CR or an LF.
    White,
    /// A comment, up to the end of its line.
    Comment,
    /// A name or a keyword.
    Name,
    /// A run of digits.
    Number,
    /// A sign of one byte.
    Sign,
    /// A sign of two bytes.
    Pair,
    /// A byte with which nothing begins.
    Bad,
}

/// The lexeme at a place.
#[derive(Clone, Copy, Debug, Drop)]
pub struct Span {
    /// What it is.
    pub kind: LexemeKind,
    /// The place behind its last byte.
    pub end: usize,
}

fn is_letter(b: u8) -> bool
    ensures { result ≡ is_letter b }
{
    (b'a' <= b && b <= b'z') || (b'A' <= b && b <= b'Z') || b == b'_'
}

fn is_digit(b: u8) -> bool
    ensures { result ≡ is_digit b }
{
    b'0' <= b && b <= b'9'
}

fn is_part(b: u8) -> bool
    ensures { result ≡ is_part b }
{
    is_letter(b) || is_digit(b)
}

fn is_white(b: u8) -> bool
    ensures { result ≡ is_white b }
{
    b" \t\r\n".contains(&b)
}

fn is_inside_comment(b: u8) -> bool
    ensures { result ≡ is_inside_comment b }
{
    b != b'\n'
}

fn is_single(b: u8) -> bool
    ensures { result ≡ is_single b }
{
    b"(){}[],;+-*%".contains(&b)
}

fn is_comparison(b: u8) -> bool
    ensures { result ≡ is_comparison b }
{
    b"=!<>".contains(&b)
}

fn class_of(b: u8) -> Class
    ensures { result ≡ class_of b }
{
    if is_letter(b) {
        Class::Letter
    } else if is_digit(b) {
        Class::Digit
    } else if is_white(b) {
        Class::White
    } else if is_single(b) {
        Class::Single
    } else if is_comparison(b) {
        Class::Comparison
    } else if b == b'&' {
        Class::Ampersand
    } else if b == b'|' {
        Class::Bar
    } else if b == b'/' {
        Class::Slash
    } else {
        Class::Other
    }
}

fn part_end(bytes: &[u8], at: usize) -> usize
    requires { at ≤ length bytes.now }
    ensures value { result ≡ at + run_len is_part (drop at bytes.now) }
    ensures within { result ≤ length bytes.now }
{
    let mut end = at;
    'run: while end < bytes.len() && is_part(bytes[end]) {
        end += 1;
    }
    end
}

fn digits_end(bytes: &[u8], at: usize) -> usize
    requires { at ≤ length bytes.now }
    ensures value { result ≡ at + run_len is_digit (drop at bytes.now) }
    ensures within { result ≤ length bytes.now }
{
    let mut end = at;
    'run: while end < bytes.len() && is_digit(bytes[end]) {
        end += 1;
    }
    end
}

fn comment_end(bytes: &[u8], at: usize) -> usize
    requires { at ≤ length bytes.now }
    ensures value { result ≡ at + run_len is_inside_comment (drop at bytes.now) }
    ensures within { result ≤ length bytes.now }
{
    let mut end = at;
    'run: while end < bytes.len() && is_inside_comment(bytes[end]) {
        end += 1;
    }
    end
}

fn next_is(bytes: &[u8], at: usize, b: u8) -> bool
    ensures { result ≡ begins (is b) (drop at bytes.now) }
{
    at < bytes.len() && bytes[at] == b
}

/// The lexeme that begins at a place.
pub fn scan(bytes: &[u8], at: usize) -> Span
    requires { at < length bytes.now }
    ensures kind { result.kind ≡ kind_at (drop at bytes.now) }
    ensures end { result.end ≡ at + len_at (drop at bytes.now) }
    ensures within { result.end ≤ length bytes.now }
{
    let next = at + 1;
    let (kind, end) = match class_of(bytes[at]) {
        Class::Letter => (LexemeKind::Name, part_end(bytes, next)),
        Class::Digit => (LexemeKind::Number, digits_end(bytes, next)),
        Class::White => (LexemeKind::White, next),
        Class::Single => (LexemeKind::Sign, next),
        Class::Comparison if next_is(bytes, next, b'=') => (LexemeKind::Pair, next + 1),
        Class::Comparison => (LexemeKind::Sign, next),
        Class::Ampersand if next_is(bytes, next, b'&') => (LexemeKind::Pair, next + 1),
        Class::Bar if next_is(bytes, next, b'|') => (LexemeKind::Pair, next + 1),
        Class::Slash if next_is(bytes, next, b'/') => (
            LexemeKind::Comment,
            comment_end(bytes, next),
        ),
        Class::Slash => (LexemeKind::Sign, next),
        Class::Ampersand | Class::Bar | Class::Other => (LexemeKind::Bad, next),
    };
    Span { kind, end }
}
