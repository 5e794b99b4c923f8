//! Statements by their lines.

use loom_tree::statement::{Kind, Stmt, Stmts};

// The statement that begins on that line, of a statement and those in its blocks.
#[cycle(lookup)]
fn kind_within<'a>(stmt: &'a Stmt, line: u32) -> Option<&'a Kind> {
    if stmt.line == line {
        return Some(&stmt.kind);
    }
    match &stmt.kind {
        Kind::If(_, a, b) => kind_at(a, line).or(kind_at(b, line)),
        Kind::While(_, a) => kind_at(a, line),
        _ => None,
    }
}

/// The statement that begins on that line, of some and those in their blocks.
#[cycle(lookup)]
pub fn kind_at<'a>(body: &'a Stmts, line: u32) -> Option<&'a Kind> {
    match body {
        Stmts::End => None,
        Stmts::More(stmt, rest) => match kind_within(stmt, line) {
            Some(kind) => Some(kind),
            None => kind_at(rest, line),
        },
    }
}
