//! What a lexeme is as a token.
ghost use Rattle.std.specs.Prelude.{◌≡◌, ◌-◌, length};
ghost use Rattle.loom_lexer.specs.Tokens.{spelling, keyword_of, word_of, value_from, number_of, signs, beside, kind_of};

use crate::lexeme::LexemeKind;
use loom_tree::expression::Op;
use loom_tree::token::{Keyword, Sign, TokenKind};

const KEYWORDS: [Keyword; 17] = [
    Keyword::Shared,
    Keyword::Mutex,
    Keyword::Sema,
    Keyword::Fn,
    Keyword::Let,
    Keyword::If,
    Keyword::Else,
    Keyword::While,
    Keyword::Return,
    Keyword::Lock,
    Keyword::Unlock,
    Keyword::Down,
    Keyword::Up,
    Keyword::Spawn,
    Keyword::Join,
    Keyword::Print,
    Keyword::Skip,
];

/// The largest number of the language.
const LARGEST_NUMBER: u64 = 9223372036854775807;

fn spelling(word: Keyword) -> &'static [u8]
    ensures { result.now ≡ spelling word }
{
    match word {
        Keyword::Shared => b"shared",
        Keyword::Mutex => b"mutex",
        Keyword::Sema => b"sema",
        Keyword::Fn => b"fn",
        Keyword::Let => b"let",
        Keyword::If => b"if",
        Keyword::Else => b"else",
        Keyword::While => b"while",
        Keyword::Return => b"return",
        Keyword::Lock => b"lock",
        Keyword::Unlock => b"unlock",
        Keyword::Down => b"down",
        Keyword::Up => b"up",
        Keyword::Spawn => b"spawn",
        Keyword::Join => b"join",
        Keyword::Print => b"print",
        Keyword::Skip => b"skip",
    }
}

fn word(text: &[u8]) -> TokenKind
    ensures { result ≡ word_of (keyword_of text.now) }
{
    for keyword in KEYWORDS {
        if spelling(keyword) == text {
            return TokenKind::Keyword(keyword);
        }
    }
    TokenKind::Name
}

fn number(digits: &[u8]) -> TokenKind
    ensures { result ≡ number_of (value_from 0 digits.now) }
{
    let mut value: u64 = 0;
    for b in digits {
        let digit = b.saturating_sub(b'0') as u64;
        if value > (LARGEST_NUMBER - digit) / 10 {
            return TokenKind::Bad;
        }
        value = 10 * value + digit;
    }
    TokenKind::Number(value)
}

fn sign(text: &[u8]) -> TokenKind
    ensures { result ≡ beside signs text.now }
{
    match text {
        b"(" => TokenKind::Sign(Sign::ParenOpen),
        b")" => TokenKind::Sign(Sign::ParenClose),
        b"{" => TokenKind::Sign(Sign::BraceOpen),
        b"}" => TokenKind::Sign(Sign::BraceClose),
        b"[" => TokenKind::Sign(Sign::BracketOpen),
        b"]" => TokenKind::Sign(Sign::BracketClose),
        b"," => TokenKind::Sign(Sign::Comma),
        b";" => TokenKind::Sign(Sign::Semicolon),
        b"=" => TokenKind::Sign(Sign::Assign),
        b"!" => TokenKind::Sign(Sign::Bang),
        b"||" => TokenKind::Op(Op::Or),
        b"&&" => TokenKind::Op(Op::And),
        b"==" => TokenKind::Op(Op::Eq),
        b"!=" => TokenKind::Op(Op::Ne),
        b"<" => TokenKind::Op(Op::Lt),
        b"<=" => TokenKind::Op(Op::Le),
        b">" => TokenKind::Op(Op::Gt),
        b">=" => TokenKind::Op(Op::Ge),
        b"+" => TokenKind::Op(Op::Add),
        b"-" => TokenKind::Op(Op::Sub),
        b"*" => TokenKind::Op(Op::Mul),
        b"/" => TokenKind::Op(Op::Div),
        b"%" => TokenKind::Op(Op::Rem),
        _ => TokenKind::Bad,
    }
}

pub(crate) fn kind_of(kind: LexemeKind, text: &[u8]) -> Option<TokenKind>
    ensures { result ≡ kind_of kind text.now }
{
    match kind {
        LexemeKind::White | LexemeKind::Comment => None,
        LexemeKind::Name => Some(word(text)),
        LexemeKind::Number => Some(number(text)),
        LexemeKind::Sign | LexemeKind::Pair => Some(sign(text)),
        LexemeKind::Bad => Some(TokenKind::Bad),
    }
}
