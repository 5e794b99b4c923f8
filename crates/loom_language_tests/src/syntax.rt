//! Files, and what isn't one.

use loom_syntax::items::{SyntaxError, read_items};
use loom_tree::expression::Op;
use loom_tree::item::FileItem;
use loom_tree::statement::{Kind, Stmts};
use loom_tree::token::{Keyword, Sign, Token, TokenKind};
use std::test::Fail;

const NAME: Token = Token {
    kind: TokenKind::Name,
    start: 0,
    end: 1,
    line: 1,
};

const NUMBER: Token = Token {
    kind: TokenKind::Number(7),
    start: 0,
    end: 1,
    line: 1,
};

const LARGE: Token = Token {
    kind: TokenKind::Number(2147483648),
    start: 0,
    end: 1,
    line: 1,
};

const SHARED: Token = Token {
    kind: TokenKind::Keyword(Keyword::Shared),
    start: 0,
    end: 1,
    line: 1,
};

const SEMA: Token = Token {
    kind: TokenKind::Keyword(Keyword::Sema),
    start: 0,
    end: 1,
    line: 1,
};

const FN: Token = Token {
    kind: TokenKind::Keyword(Keyword::Fn),
    start: 0,
    end: 1,
    line: 1,
};

const IF: Token = Token {
    kind: TokenKind::Keyword(Keyword::If),
    start: 0,
    end: 1,
    line: 1,
};

const ELSE: Token = Token {
    kind: TokenKind::Keyword(Keyword::Else),
    start: 0,
    end: 1,
    line: 1,
};

const SKIP: Token = Token {
    kind: TokenKind::Keyword(Keyword::Skip),
    start: 0,
    end: 1,
    line: 1,
};

const OPEN: Token = Token {
    kind: TokenKind::Sign(Sign::ParenOpen),
    start: 0,
    end: 1,
    line: 1,
};

const CLOSE: Token = Token {
    kind: TokenKind::Sign(Sign::ParenClose),
    start: 0,
    end: 1,
    line: 1,
};

const BEGIN: Token = Token {
    kind: TokenKind::Sign(Sign::BraceOpen),
    start: 0,
    end: 1,
    line: 1,
};

const END: Token = Token {
    kind: TokenKind::Sign(Sign::BraceClose),
    start: 0,
    end: 1,
    line: 1,
};

const SEMICOLON: Token = Token {
    kind: TokenKind::Sign(Sign::Semicolon),
    start: 0,
    end: 1,
    line: 1,
};

const ASSIGN: Token = Token {
    kind: TokenKind::Sign(Sign::Assign),
    start: 0,
    end: 1,
    line: 1,
};

const MINUS: Token = Token {
    kind: TokenKind::Op(Op::Sub),
    start: 0,
    end: 1,
    line: 1,
};

/// `fn f() { if (f) { } else { skip; } }`
#[test]
fn reads_blocks(rt: HostRuntime) -> Result<(), Fail> {
    let tokens = [
        FN, NAME, OPEN, CLOSE, BEGIN, IF, OPEN, NAME, CLOSE, BEGIN, END, ELSE, BEGIN, SKIP,
        SEMICOLON, END, END,
    ];
    let items = read_items(rt.alloc(), b"f", &tokens).ok().ok_or("refused")?;
    let [FileItem::Func(f)] = items.0.as_slice() else {
        return Err("no function".into());
    };
    let Stmts::More(first, rest) = &f.body else {
        return Err("no statement".into());
    };
    assert!(rt; matches!(&first.kind, Kind::If(_, Stmts::End, Stmts::More(_, _))));
    assert!(rt; matches!(&**rest, Stmts::End));
    Ok(())
}

/// `shared f = -7;`
#[test]
fn reads_words(rt: HostRuntime) -> Result<(), Fail> {
    let tokens = [SHARED, NAME, ASSIGN, MINUS, NUMBER, SEMICOLON];
    let items = read_items(rt.alloc(), b"f", &tokens).ok().ok_or("refused")?;
    assert!(rt; matches!(items.0.as_slice(), [FileItem::Word { first: -7, .. }]));
    Ok(())
}

/// `sema f = 2147483648;` and `fn f() { f = f(7) - ` and `fn f() {`
#[test]
fn tells_where_it_stops(rt: HostRuntime) -> Result<(), Fail> {
    let count = read_items(rt.alloc(), b"f", &[SEMA, NAME, ASSIGN, LARGE, SEMICOLON]);
    assert!(rt; matches!(count, Err(SyntaxError::Syntax(3))));
    let tokens = [
        FN, NAME, OPEN, CLOSE, BEGIN, NAME, ASSIGN, NAME, OPEN, NUMBER, CLOSE, MINUS,
    ];
    let call = read_items(rt.alloc(), b"f", &tokens);
    assert!(rt; matches!(call, Err(SyntaxError::Syntax(11))));
    let unfinished = read_items(rt.alloc(), b"f", &tokens[..5]);
    assert!(rt; matches!(unfinished, Err(SyntaxError::Syntax(5))));
    Ok(())
}
