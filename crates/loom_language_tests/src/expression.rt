//! Expressions, and what isn't one.

use loom_expression::expression::{ExpressionError, read_expression};
use loom_expression::reader::Reader;
use loom_tree::expression::{Expr, Op};
use loom_tree::token::{Sign, Token, TokenKind};
use std::test::Fail;

const NAME: Token = Token {
    kind: TokenKind::Name,
    start: 0,
    end: 1,
    line: 1,
};

const NUMBER: Token = Token {
    kind: TokenKind::Number(7),
    start: 2,
    end: 3,
    line: 1,
};

const MINUS: Token = Token {
    kind: TokenKind::Op(Op::Sub),
    start: 1,
    end: 2,
    line: 1,
};

const OPEN: Token = Token {
    kind: TokenKind::Sign(Sign::ParenOpen),
    start: 1,
    end: 2,
    line: 1,
};

const CLOSE: Token = Token {
    kind: TokenKind::Sign(Sign::ParenClose),
    start: 1,
    end: 2,
    line: 1,
};

const BRACKET_OPEN: Token = Token {
    kind: TokenKind::Sign(Sign::BracketOpen),
    start: 1,
    end: 2,
    line: 1,
};

const BRACKET_CLOSE: Token = Token {
    kind: TokenKind::Sign(Sign::BracketClose),
    start: 1,
    end: 2,
    line: 1,
};

/// `-a[7] - a - 7`
#[test]
fn groups_to_the_left(rt: HostRuntime) -> Result<(), Fail> {
    let tokens = [
        MINUS,
        NAME,
        BRACKET_OPEN,
        NUMBER,
        BRACKET_CLOSE,
        MINUS,
        NAME,
        MINUS,
        NUMBER,
    ];
    let e = read_expression(rt.alloc(), b"a-7", &tokens)
        .ok()
        .ok_or("refused")?;
    let Expr::Bin(Op::Sub, left, right) = e else {
        return Err("no difference".into());
    };
    assert!(rt; matches!(*right, Expr::Num(7)));
    let Expr::Bin(Op::Sub, first, second) = Box::into_inner(left) else {
        return Err("grouped to the right".into());
    };
    assert!(rt; matches!(*second, Expr::Var(_)));
    let Expr::Neg(cell) = Box::into_inner(first) else {
        return Err("no operator before the cell".into());
    };
    assert!(rt; matches!(*cell, Expr::Cell(_, _)));
    Ok(())
}

/// `(a)[` and `(a`
#[test]
fn tells_where_it_stops(rt: HostRuntime) -> Result<(), Fail> {
    let tokens = [OPEN, NAME, CLOSE, BRACKET_OPEN];
    let cell = read_expression(rt.alloc(), b"a-7", &tokens);
    assert!(rt; matches!(cell, Err(ExpressionError::Syntax(3))));
    let unfinished = read_expression(rt.alloc(), b"a-7", &tokens[..2]);
    assert!(rt; matches!(unfinished, Err(ExpressionError::Syntax(2))));
    Ok(())
}

#[test]
fn nests_to_its_limit(rt: HostRuntime) -> Result<(), Fail> {
    let mut reader = Reader::new(rt.alloc());
    for _ in 0..128 {
        reader = reader.feed(rt.alloc(), b"a-7", OPEN)?.ok_or("refused")?;
    }
    assert!(rt; reader.feed(rt.alloc(), b"a-7", OPEN)?.is_none());
    Ok(())
}

/// 64 numbers with 63 operators are 127 nodes.
#[test]
fn counts_nodes(rt: HostRuntime) -> Result<(), Fail> {
    let mut reader = Reader::new(rt.alloc());
    for _ in 0..63 {
        reader = reader.feed(rt.alloc(), b"a-7", NUMBER)?.ok_or("refused")?;
        assert!(rt; reader.is_whole());
        reader = reader.feed(rt.alloc(), b"a-7", MINUS)?.ok_or("refused")?;
        assert!(rt; !reader.is_whole());
    }
    reader = reader.feed(rt.alloc(), b"a-7", NUMBER)?.ok_or("refused")?;
    assert!(rt; reader.feed(rt.alloc(), b"a-7", MINUS)?.is_none());
    Ok(())
}

#[test]
fn finishes(rt: HostRuntime) -> Result<(), Fail> {
    let mut reader = Reader::new(rt.alloc());
    assert!(rt; !reader.is_whole());
    reader = reader.feed(rt.alloc(), b"a-7", NAME)?.ok_or("refused")?;
    assert!(rt; reader.is_whole());
    assert!(rt; matches!(reader.finish(rt.alloc())?, Some(Expr::Var(_))));
    Ok(())
}
