//! Texts, and the tokens that they have.

use loom_lexer::text::{have_tokens, last_line, one_list_of_tokens, tokenize};
use loom_tree::expression::Op;
use loom_tree::token::{Keyword, Sign, TokenKind};
use std::alloc::Global;
use std::process::Abort;
use std::test::Fail;

/// The text has tokens of these kinds, on these lines.
fn expect(
    rt: &impl Abort,
    alloc: Global,
    text: &[u8],
    expected: &[(TokenKind, u32)],
) -> Result<(), Fail> {
    assert!(rt; text.len() < 1000);
    let tokens = tokenize(alloc, text)?;
    assert_eq!(rt; tokens.0.len(), expected.len());
    for (row, (token, wanted)) in tokens.0.iter().zip(expected).enumerate() {
        assert_eq!(rt; token.kind, wanted.0, "token {row}");
        assert_eq!(rt; token.line, wanted.1, "token {row}");
    }
    Ok(())
}

#[test]
fn keywords(rt: HostRuntime) -> Result<(), Fail> {
    expect(
        &rt,
        rt.alloc(),
        b"shared mutex sema fn let if else while return lock unlock down up spawn join print skip",
        &[
            (TokenKind::Keyword(Keyword::Shared), 1),
            (TokenKind::Keyword(Keyword::Mutex), 1),
            (TokenKind::Keyword(Keyword::Sema), 1),
            (TokenKind::Keyword(Keyword::Fn), 1),
            (TokenKind::Keyword(Keyword::Let), 1),
            (TokenKind::Keyword(Keyword::If), 1),
            (TokenKind::Keyword(Keyword::Else), 1),
            (TokenKind::Keyword(Keyword::While), 1),
            (TokenKind::Keyword(Keyword::Return), 1),
            (TokenKind::Keyword(Keyword::Lock), 1),
            (TokenKind::Keyword(Keyword::Unlock), 1),
            (TokenKind::Keyword(Keyword::Down), 1),
            (TokenKind::Keyword(Keyword::Up), 1),
            (TokenKind::Keyword(Keyword::Spawn), 1),
            (TokenKind::Keyword(Keyword::Join), 1),
            (TokenKind::Keyword(Keyword::Print), 1),
            (TokenKind::Keyword(Keyword::Skip), 1),
        ],
    )
}

#[test]
fn signs(rt: HostRuntime) -> Result<(), Fail> {
    let alloc = rt.alloc();
    let bad = (TokenKind::Bad, 1);
    expect(
        &rt,
        alloc,
        b"===!=!<=<>=>&&&|||",
        &[
            (TokenKind::Op(Op::Eq), 1),
            (TokenKind::Sign(Sign::Assign), 1),
            (TokenKind::Op(Op::Ne), 1),
            (TokenKind::Sign(Sign::Bang), 1),
            (TokenKind::Op(Op::Le), 1),
            (TokenKind::Op(Op::Lt), 1),
            (TokenKind::Op(Op::Ge), 1),
            (TokenKind::Op(Op::Gt), 1),
            (TokenKind::Op(Op::And), 1),
            bad,
            (TokenKind::Op(Op::Or), 1),
            bad,
        ],
    )?;
    expect(
        &rt,
        alloc,
        b"(){}[],;+-*/%",
        &[
            (TokenKind::Sign(Sign::ParenOpen), 1),
            (TokenKind::Sign(Sign::ParenClose), 1),
            (TokenKind::Sign(Sign::BraceOpen), 1),
            (TokenKind::Sign(Sign::BraceClose), 1),
            (TokenKind::Sign(Sign::BracketOpen), 1),
            (TokenKind::Sign(Sign::BracketClose), 1),
            (TokenKind::Sign(Sign::Comma), 1),
            (TokenKind::Sign(Sign::Semicolon), 1),
            (TokenKind::Op(Op::Add), 1),
            (TokenKind::Op(Op::Sub), 1),
            (TokenKind::Op(Op::Mul), 1),
            (TokenKind::Op(Op::Div), 1),
            (TokenKind::Op(Op::Rem), 1),
        ],
    )?;
    expect(&rt, alloc, b"\x80\xff#", &[bad, bad, bad])
}

#[test]
fn names_and_numbers(rt: HostRuntime) -> Result<(), Fail> {
    let alloc = rt.alloc();
    let name = (TokenKind::Name, 1);
    expect(&rt, alloc, b"12ab", &[(TokenKind::Number(12), 1), name])?;
    expect(
        &rt,
        alloc,
        b"sharedx Fn _if a1_b2",
        &[name, name, name, name],
    )?;
    expect(
        &rt,
        alloc,
        b"9223372036854775807 00000000000000000000000012 000",
        &[
            (TokenKind::Number(9223372036854775807), 1),
            (TokenKind::Number(12), 1),
            (TokenKind::Number(0), 1),
        ],
    )?;
    expect(
        &rt,
        alloc,
        b"9223372036854775808 99999999999999999999999999x",
        &[(TokenKind::Bad, 1), (TokenKind::Bad, 1), name],
    )
}

#[test]
fn lines(rt: HostRuntime) -> Result<(), Fail> {
    let alloc = rt.alloc();
    expect(&rt, alloc, b"", &[])?;
    expect(&rt, alloc, b" // a\tb # c", &[])?;
    expect(
        &rt,
        alloc,
        b"a// b / c\n\r\n\td /\n//",
        &[
            (TokenKind::Name, 1),
            (TokenKind::Name, 3),
            (TokenKind::Op(Op::Div), 3),
        ],
    )?;
    assert_eq!(rt; last_line(b""), 1);
    assert_eq!(rt; last_line(b"a\n\r\nb"), 3);
    assert_eq!(rt; last_line(b"a\n"), 2);
    one_list_of_tokens();
    have_tokens();
    Ok(())
}
